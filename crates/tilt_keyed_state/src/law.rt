// A law of the spelling.
ghost use Rattle.std.specs.Prelude.{◌≡◌, ◌<◌, ◌^◌, length};
ghost use Rattle.tilt_keyed_state.specs.Spelling.{spelled};
ghost use Rattle.tilt_keyed_state.specs.State.{KeyedStateParts};

/// This does nothing. Its clause is a law of the definitions: of a text that has room in memory, at most one state is spelled so.
pub fn keyed_states_are_apart()
    ensures { (s t : KeyedStateParts) → length (spelled s) < 2 ^ 63 → spelled s ≡ spelled t → s ≡ t }
{}
