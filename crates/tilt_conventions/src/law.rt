// Laws of conventions.
ghost use Rattle.std.specs.Prelude.{◌≡◌, ◌≤ℤ◌, ◌++◌, ◌-◌, ◌^◌, min, neg_ℤ, ℕ, ℤ, [], ◌∷◌, List, length, None, option_map, Some};
ghost use Rattle.tilt_base.specs.declared.limits.TheConstants.{T};
ghost use Rattle.tilt_conventions.specs.Cells.{AreAfter, NeverAges, last_by, value_at};
ghost use Rattle.tilt_conventions.specs.Laws.{AreAllowed, HoldsATick, converted, cut_of, end_of, events_of, feed_of, last_start};
ghost use Rattle.tilt_conventions.specs.Laws.{last_tick, meant, readings_of, taken_turns, updates_at_last, updates_now};
ghost use Rattle.tilt_conventions.specs.Rows.{age_of, counted, rows_of};
ghost use Rattle.tilt_conventions.specs.declared.options.Options.{Options};
ghost use Rattle.tilt_conventions.specs.declared.turn.Reading.{Reading};
ghost use Rattle.tilt_conventions.specs.declared.turn.Turn.{Turn};
ghost use Rattle.tilt_feed.specs.Events.{after};
ghost use Rattle.tilt_feed.specs.Feed.{all_rows_now, closed_rows, empty_feed, watermarks};
ghost use Rattle.tilt_feed.specs.declared.event.Event.TheVariants.{Finish};
ghost use Rattle.tilt_stream.specs.Snap.{InOrder};
ghost use Rattle.tilt_stream.specs.Stream.{cell_at};

/// This does nothing. Its clauses are laws of the definitions, for every list of turns. Each update that they hand on is allowed after
/// those before it, and so are those at the end. The rows that the feed has after these updates are in order. They are the rows of the
/// readings that were taken and count, up to the tick to which the input is known, which is the feed's watermark. When nothing more
/// comes, the closed rows are the rows of all these readings.
pub fn rows_are_those_of_readings()
    ensures allowed { (options : Options) (turns : List Turn) → HoldsATick options.convention
        → AreAllowed (events_of (updates_at_last options turns) ++ Finish ∷ []) (empty_feed 1) }
    ensures rows { (options : Options) (turns : List Turn) → HoldsATick options.convention
        → all_rows_now (feed_of (updates_now options turns))
        ≡ meant options (taken_turns options turns) (cut_of options.ties (taken_turns options turns)) ∷ [] }
    ensures cut { (options : Options) (turns : List Turn) → HoldsATick options.convention
        → watermarks (feed_of (updates_now options turns)) ≡ cut_of options.ties (taken_turns options turns) ∷ [] }
    ensures order { (options : Options) (turns : List Turn) → HoldsATick options.convention
        → InOrder (neg_ℤ T) (cut_of options.ties (taken_turns options turns))
        (meant options (taken_turns options turns) (cut_of options.ties (taken_turns options turns))) }
    ensures end { (options : Options) (turns : List Turn) → HoldsATick options.convention
        → closed_rows (after Finish (feed_of (updates_at_last options turns)))
        ≡ meant options (taken_turns options turns) (end_of options (taken_turns options turns)) ∷ [] }
{}

/// This does nothing. Its clauses are laws of the definitions, for every list of turns. What the rows have at a tick up to their cut is the
/// value of the last reading up to that tick, unless that one is too old. So each reading's row has its value at its own tick first, and
/// has nothing else. The readings that count are on ticks of their own, one after another. And an age that no reading reaches changes
/// nothing.
pub fn readings_hold()
    ensures cells { (options : Options) (turns : List Turn) (cut tick : ℤ) → HoldsATick options.convention → tick ≤ℤ cut
        → cell_at (meant options (taken_turns options turns) cut) tick
        ≡ value_at (age_of options.convention) tick (last_by tick (counted options.ties (readings_of (taken_turns options turns)))) }
    ensures apart { (options : Options) (turns : List Turn) → HoldsATick options.convention
        → AreAfter None (counted options.ties (readings_of (taken_turns options turns))) }
    ensures young { (age : ℕ) (readings : List Reading) (cut : ℤ) → NeverAges age readings cut
        → rows_of (Some age) readings cut ≡ rows_of None readings cut }
{}

/// This does nothing. Its clauses are laws of the definitions, for every list of turns. What decides whether the next turn is taken is
/// where the last turn that was taken starts, and the tick of the last reading that counts. The readings that don't count were skipped, and
/// they are counted up to `u64::MAX`.
pub fn turns_are_kept()
    ensures mark { (options : Options) (turns : List Turn) → HoldsATick options.convention
        → (converted options turns).kept.mark ≡ last_start (neg_ℤ T) (taken_turns options turns) }
    ensures latest { (options : Options) (turns : List Turn) → HoldsATick options.convention
        → option_map (λ reading. reading.tick) (converted options turns).kept.latest
        ≡ last_tick None (counted options.ties (readings_of (taken_turns options turns))) }
    ensures skipped { (options : Options) (turns : List Turn) → HoldsATick options.convention
        → (converted options turns).kept.skipped
        ≡ min (length (readings_of (taken_turns options turns))
        - length (counted options.ties (readings_of (taken_turns options turns)))) (2 ^ 64 - 1) }
{}
