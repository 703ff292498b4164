// A law of the spelling of setups.
ghost use Rattle.std.specs.Prelude.{◌≡◌, ◌++◌, ℕ, List, None};
ghost use Rattle.tilt_feed_form.specs.Setup.{SetupParts};
ghost use Rattle.tilt_run_state.specs.Setup.{setup_lines, without_table};
ghost use Rattle.tilt_run_state.specs.Numbers.{HasNumbers};

/// This does nothing. Its clauses are laws of the definitions: two setups with the same spelling, whatever follows each, are the same
/// except for the tables of their zones. Nothing of a setup without a zone is left out.
/// Numbers and lengths are those of the code, which are below 2^64, and the origin is a 128-bit number.
pub fn setups_are_apart()
    ensures apart { (a b : SetupParts) (x y : List ℕ) → HasNumbers a → HasNumbers b → setup_lines a ++ x ≡ setup_lines b ++ y
        → without_table a ≡ without_table b }
    ensures whole { (a : SetupParts) → a.form.rules.local ≡ None → without_table a ≡ a }
{}
