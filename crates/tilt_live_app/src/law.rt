// A law of feeds that are served by one run after another.
ghost use Rattle.std.specs.Prelude.{◌≡◌, ◌||◌, ◌&&◌, ◌++◌, if◌then◌else◌, ℕ, List, [], None, length};
ghost use Rattle.tilt_core.specs.Core.{CoreParts};
ghost use Rattle.tilt_feed_form.specs.Report.{reports_from};
ghost use Rattle.tilt_feed_form.specs.Said.{first_state, stop_among};
ghost use Rattle.tilt_feed_text.specs.Split.{whole_lines};
ghost use Rattle.tilt_live_app.specs.Resumed.{first_start};
ghost use Rattle.tilt_live_run.specs.Feeds.{bad_line_if, live_meaning};
ghost use Rattle.tilt_live_run.specs.Output.{output};
ghost use Rattle.tilt_live_run.specs.Runs.{end_report, is_unfinished};
ghost use Rattle.tilt_live_run.specs.declared.run_options.RunOptions.{RunOptions};
ghost use Rattle.tilt_serving.specs.Served.{Start, all_reports, end_for, line_reports, output_for, start_after, stop_for};

/// This does nothing. Its clauses are a law of the definitions. From the first byte of a feed, what is written is the output of its lines
/// (`first`). Whether one of them stops the run, and what is reported, is as the lines are numbered from the first one of the feed
/// (`first_stop`, `first_lines`, `first_reported`). So is whether the feed ends badly (`first_badly`).
///
/// The others are about bytes none of whose lines stops the run. After what one run writes for them, it writes for more bytes just what a
/// run writes that starts after them (`written`). It reports the same too, and ends as badly (`reported`, `badly`).
pub fn runs_are_joined()
    ensures first { (core : CoreParts) (options : RunOptions) (bytes : List ℕ)
        → output_for (live_meaning core options) (first_start core options) bytes ≡ output options core (whole_lines bytes) }
    ensures first_stop { (core : CoreParts) (options : RunOptions) (bytes : List ℕ)
        → stop_for (live_meaning core options) (first_start core options) bytes
        ≡ bad_line_if (stop_among options.strict options.form core.inputs 0 (first_state options.form (length core.inputs))
        (whole_lines bytes)) }
    ensures first_lines { (core : CoreParts) (options : RunOptions) (bytes : List ℕ)
        → line_reports (live_meaning core options) (first_start core options) bytes
        ≡ reports_from options.strict options.form core.inputs 0 (first_state options.form (length core.inputs)) (whole_lines bytes) }
    ensures first_reported { (core : CoreParts) (options : RunOptions) (bytes : List ℕ)
        → all_reports (live_meaning core options) (first_start core options) bytes
        ≡ reports_from options.strict options.form core.inputs 0 (first_state options.form (length core.inputs)) (whole_lines bytes)
        ++ (if stop_among options.strict options.form core.inputs 0 (first_state options.form (length core.inputs)) (whole_lines bytes)
        then [] else end_report options bytes) }
    ensures first_badly { (core : CoreParts) (options : RunOptions) (bytes : List ℕ)
        → end_for (live_meaning core options) (first_start core options) bytes
        ≡ bad_line_if (stop_among options.strict options.form core.inputs 0 (first_state options.form (length core.inputs))
        (whole_lines bytes) || (options.strict && is_unfinished bytes)) }
    ensures written { (core : CoreParts) (options : RunOptions) (start : Start) (bytes more : List ℕ)
        → stop_for (live_meaning core options) start bytes ≡ None
        → output_for (live_meaning core options) start (bytes ++ more)
        ≡ output_for (live_meaning core options) start bytes ++ output_for (live_meaning core options) (start_after start bytes) more }
    ensures reported { (core : CoreParts) (options : RunOptions) (start : Start) (bytes more : List ℕ)
        → stop_for (live_meaning core options) start bytes ≡ None
        → all_reports (live_meaning core options) start (bytes ++ more)
        ≡ line_reports (live_meaning core options) start bytes ++ all_reports (live_meaning core options) (start_after start bytes) more }
    ensures badly { (core : CoreParts) (options : RunOptions) (start : Start) (bytes more : List ℕ)
        → stop_for (live_meaning core options) start bytes ≡ None
        → end_for (live_meaning core options) start (bytes ++ more) ≡ end_for (live_meaning core options) (start_after start bytes) more }
{}
