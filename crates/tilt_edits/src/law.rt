// The law of texts of edits.
ghost use Rattle.std.specs.Prelude.{◌≡◌, ◌⊎◌, ℕ, List};
ghost use Rattle.tilt_edits.specs.Edits.{AreEdits, IsBadLine};
ghost use Rattle.tilt_edits.specs.declared.edit.Edit.{Edit};

/// This does nothing. Its clauses are laws of the definitions: a text says one list of edits, or has one first bad line, and not both.
pub fn edits_have_one_outcome()
    ensures one { (inputs : List (List ℕ)) (bytes : List ℕ) (edits other : List Edit) → AreEdits inputs bytes edits
        → AreEdits inputs bytes other → edits ≡ other }
    ensures first { (inputs : List (List ℕ)) (bytes : List ℕ) (line other : ℕ) → IsBadLine inputs bytes line
        → IsBadLine inputs bytes other → line ≡ other }
    ensures some { (inputs : List (List ℕ)) (bytes : List ℕ)
        → ((edits : List Edit) × AreEdits inputs bytes edits) ⊎ ((line : ℕ) × IsBadLine inputs bytes line) }
    ensures either { (inputs : List (List ℕ)) (bytes : List ℕ) (edits : List Edit) (line : ℕ) → AreEdits inputs bytes edits
        → IsBadLine inputs bytes line → ⊥ }
{}
