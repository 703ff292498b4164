// Laws of feeds of readings.
ghost use Rattle.std.specs.Prelude.{◌≡◌, ◌++◌, ℕ, neg_ℤ, [], List, Some, get_or, length, slice_get};
ghost use Rattle.tilt_base.specs.declared.limits.TheConstants.{T};
ghost use Rattle.tilt_conventions.specs.Laws.{AreAllowed, converted, cut_of, end_of, readings_of, taken_turns, updates_now};
ghost use Rattle.tilt_conventions.specs.Rows.{age_of, counted, rows_of};
ghost use Rattle.tilt_conventions.specs.declared.options.Options.{Options};
ghost use Rattle.tilt_feed.specs.Feed.{all_rows_now, closed_rows, empty_feed, watermarks};
ghost use Rattle.tilt_reading_feed.specs.Laws.{HoldTicks, events_at_last, events_now, feed_after, lines_read, readings_at, taken_lines};
ghost use Rattle.tilt_reading_feed.specs.Laws.{turns_at, updates_of};
ghost use Rattle.tilt_reading_lines.specs.Lines.{Said};

/// This does nothing. Its clauses are laws of the definitions, for every list of lines. Each event that they hand on is allowed after those
/// before it, and so are those at the end. The feed has of each input the rows of its readings in the lines that were taken, up to its
/// watermark. That is the tick up to which the input is known by these lines. When nothing more comes, the closed rows of an input are the
/// rows of all these readings.
pub fn rows_are_those_of_lines()
    ensures allowed { (options : List Options) (lines : List Said) → HoldTicks options
        → AreAllowed (events_at_last options lines) (empty_feed (length options)) }
    ensures rows { (options : List Options) (lines : List Said) (input : ℕ) (o : Options) → HoldTicks options
        → slice_get options input ≡ Some o
        → get_or (all_rows_now (feed_after options (events_now options lines))) input []
        ≡ rows_of (age_of o.convention) (counted o.ties (readings_at input (taken_lines options lines)))
        (get_or (watermarks (feed_after options (events_now options lines))) input (neg_ℤ T)) }
    ensures cut { (options : List Options) (lines : List Said) (input : ℕ) (o : Options) → HoldTicks options
        → slice_get options input ≡ Some o
        → get_or (watermarks (feed_after options (events_now options lines))) input (neg_ℤ T)
        ≡ cut_of o.ties (taken_turns o (turns_at input (taken_lines options lines))) }
    ensures end { (options : List Options) (lines : List Said) (input : ℕ) (o : Options) → HoldTicks options
        → slice_get options input ≡ Some o
        → get_or (closed_rows (feed_after options (events_at_last options lines))) input []
        ≡ rows_of (age_of o.convention) (counted o.ties (readings_at input (taken_lines options lines)))
        (end_of o (taken_turns o (turns_at input (taken_lines options lines)))) }
{}

/// This does nothing. Its clauses are laws of the definitions, for every list of lines. Of each input what is kept, and the updates among
/// the events, are those of its converter for its turns in the lines that were taken. All readings among these turns are taken; "known up
/// to" a tick isn't, if the input is known further already.
pub fn lines_are_turns()
    ensures kept { (options : List Options) (lines : List Said) (input : ℕ) (o : Options) → slice_get options input ≡ Some o
        → slice_get (lines_read options lines).kept.inputs input
        ≡ Some (record { options = o; kept = (converted o (turns_at input (taken_lines options lines))).kept }) }
    ensures updates { (options : List Options) (lines : List Said) (input : ℕ) (o : Options) → slice_get options input ≡ Some o
        → updates_of input (events_now options lines) ≡ updates_now o (turns_at input (taken_lines options lines)) }
    ensures readings { (options : List Options) (lines : List Said) (input : ℕ) (o : Options) → slice_get options input ≡ Some o
        → readings_of (taken_turns o (turns_at input (taken_lines options lines))) ≡ readings_at input (taken_lines options lines) }
{}
