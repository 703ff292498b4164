// A law of what a run writes.
ghost use Rattle.std.specs.Prelude.{◌≡◌, ℕ, List, false, true};
ghost use Rattle.tilt_core.specs.Core.{CoreParts, IsCore};
ghost use Rattle.tilt_feed.specs.Printed.{printed};
ghost use Rattle.tilt_live_run.specs.Output.{output};
ghost use Rattle.tilt_live_run.specs.Runs.{feed_of_lines};
ghost use Rattle.tilt_live_run.specs.declared.run_options.RunOptions.{RunOptions};
ghost use Rattle.tilt_row_text.specs.Lines.{text_in};
ghost use Rattle.tilt_row_text.specs.Styles.{is_plain};
ghost use Rattle.tilt_stream.specs.Text.{text_of};

/// This does nothing. Its clauses are laws of the definitions. Without what has begun, all that is written for the lines of a feed is the
/// text of what can be printed after the events of these lines. So it depends on the lines alone, whatever was written when. In the plain
/// style it is the text that `tilt` prints of such rows.
pub fn output_is_printed()
    ensures styled { (options : RunOptions) (core : CoreParts) (lines : List (List ℕ)) → IsCore core
        → options.display.with_begun ≡ false
        → output options core lines ≡ text_in options.display.style (printed core (feed_of_lines options core lines)) }
    ensures plain { (options : RunOptions) (core : CoreParts) (lines : List (List ℕ)) → IsCore core
        → options.display.with_begun ≡ false → is_plain options.display.style ≡ true
        → output options core lines ≡ text_of (printed core (feed_of_lines options core lines)) }
{}
