// Laws of lines.
ghost use Rattle.std.specs.Prelude.{◌≡◌, ◌++◌, ◌∷◌, ℕ, ℤ, List, [], Ok, FitsSigned, IsTrue};
ghost use Rattle.std.specs.Int.{w64};
ghost use Rattle.std.specs.Fmt.{signed_decimal};
ghost use Rattle.tilt_feed.specs.declared.update.Update.{Update};
ghost use Rattle.tilt_feed_line.specs.Lines.{input_named, keyed_line_said, line_said};
ghost use Rattle.tilt_feed_line.specs.Plain.{is_plain, is_plain_field};
ghost use Rattle.tilt_feed_line.specs.Texts.{FitsUpdate, fields_text, update_text};
ghost use Rattle.tilt_feed_line.specs.declared.line.KeyedLine.TheVariants as keyed;
ghost use Rattle.tilt_feed_line.specs.declared.line.Line.{Line as Said};
ghost use Rattle.tilt_feed_line.specs.declared.line.Line.TheVariants as line;
ghost use Rattle.tilt_lexer.specs.Word.{IsWord};

/// This does nothing. Its clauses are laws of the definitions: each update of an input, each watermark of all inputs and the end of a feed
/// has a line that says it.
pub fn updates_have_lines()
    ensures update { (inputs : List (List ℕ)) (name : List ℕ) (input : ℕ) (update : Update) → IsWord name
        → input_named inputs name ≡ Ok input → FitsUpdate update
        → line_said inputs (update_text name update) ≡ Ok (line.Update input update) }
    ensures all_known { (inputs : List (List ℕ)) (watermark : ℤ) → FitsSigned w64 watermark
        → line_said inputs (fields_text [] [] (signed_decimal watermark) []) ≡ Ok (line.AllKnownUpTo watermark) }
    ensures finish { (inputs : List (List ℕ)) → line_said inputs (fields_text [] [] [] []) ≡ Ok line.Finish }
{}

/// This does nothing. Its clause is a law of the definitions. What a line says in a feed without keys, it says of a key in a feed with
/// keys, if the key is before it.
pub fn keys_go_before_lines()
    ensures { (inputs : List (List ℕ)) (key bytes : List ℕ) (said : Said) → IsTrue (is_plain_field key) → IsTrue (is_plain bytes)
        → line_said inputs bytes ≡ Ok said → keyed_line_said inputs (key ++ 44 ∷ bytes) ≡ Ok (keyed.OfKey key said) }
{}
