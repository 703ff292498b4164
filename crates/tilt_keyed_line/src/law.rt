// Laws of keys.
ghost use Rattle.std.specs.Prelude.{◌≡◌, ◌++◌, [], ℕ, List, Ok, Some, false};
ghost use Rattle.std.specs.Str.{bytes_eq};
ghost use Rattle.tilt_keyed_line.specs.Address.{IsKey, address};
ghost use Rattle.tilt_keyed_line.specs.Feeds.{after_lines, empty_keyed_feed, lines_given, lines_of, own_lines};
ghost use Rattle.tilt_keyed_line.specs.Outputs.{key_line, lines_in, with_key};

/// This does nothing. Its clauses are laws of the definitions. A key that is written before a line comes off again, and what comes off is a
/// key that was before the line. Of an output with a key before each line, the key has all lines, and any other key has none.
pub fn keys_come_off()
    ensures off { (key line : List ℕ) → IsKey key → address (key_line key line) ≡ Ok (Some (key, line)) }
    ensures only { (line key rest : List ℕ) → address line ≡ Ok (Some (key, rest)) → IsKey key × (line ≡ key_line key rest) }
    ensures own { (key output : List ℕ) → IsKey key → own_lines key (lines_in (with_key key output)) ≡ lines_in output }
    ensures others { (key other output : List ℕ) → IsKey key → bytes_eq key other ≡ false
        → own_lines other (lines_in (with_key key output)) ≡ [] }
    ensures joined { (key output more : List ℕ) → IsKey key
        → lines_in (with_key key output ++ more) ≡ lines_in (with_key key output) ++ lines_in more }
{}

/// This does nothing. Its clause is a law of the definitions. When the lines of a feed are handed to their keys one after another, each key
/// is given exactly its lines, in their order.
pub fn keys_hear_their_lines()
    ensures { (key : List ℕ) (lines : List (List ℕ)) → (key ≡ [] → ⊥)
        → lines_given key (after_lines lines empty_keyed_feed).keys ≡ lines_of key lines }
{}
