// A law of what is written.
ghost use Rattle.std.specs.Prelude.{◌≡◌, ℕ, List, []};
ghost use Rattle.tilt_keyed_line.specs.Feeds.{empty_keyed_feed, lines_of, own_lines};
ghost use Rattle.tilt_keyed_line.specs.Outputs.{IsWhole, lines_in};
ghost use Rattle.tilt_keyed_run.specs.Output.{alone_lines, output};

/// This does nothing. Its clause is a law of the definitions, for runs that write nothing but lines. Take the lines of a key from all that
/// is written for a feed, without the key. They are what a run that has only the lines of this key writes.
pub fn keys_run_apart()
    ensures { (first : List ℕ) (added : List (List ℕ) → List ℕ → List ℕ) → IsWhole first
        → ((before : List (List ℕ)) (line : List ℕ) → IsWhole (added before line)) → (key : List ℕ) (lines : List (List ℕ)) → (key ≡ [] → ⊥)
        → own_lines key (lines_in (output first added lines empty_keyed_feed)) ≡ alone_lines first added (lines_of key lines) }
{}
