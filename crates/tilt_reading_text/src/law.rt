// Laws of the definitions.
ghost use Rattle.std.specs.Prelude.{◌≡◌, ℕ, false, List, length, None};
ghost use Rattle.tilt_conventions.specs.declared.options.Options.{Options};
ghost use Rattle.tilt_feed.specs.Events.{after_all};
ghost use Rattle.tilt_feed.specs.Feed.{empty_feed};
ghost use Rattle.tilt_reading_feed.specs.Laws.{lines_read};
ghost use Rattle.tilt_reading_text.specs.Said.{after_lines, events_of, first_state, lines_said, taken_from};
ghost use Rattle.tilt_reading_text.specs.Form.{FormValue};

/// This does nothing. Its clauses are laws of the definitions, for every list of lines. Steps of lines, one after another up to a bad line
/// in place of the header, make the feed that the events of the lines make. What is kept of the feed is what is kept after what the lines
/// say.
pub fn steps_are_events()
    ensures feed { (form : FormValue) (options : List Options) (lines : List (List ℕ))
        → (after_lines form (first_state options) (taken_from false form (first_state options) lines)).feed
        ≡ after_all (events_of form options lines) (empty_feed (length options)) }
    ensures kept { (form : FormValue) (options : List Options) (lines : List (List ℕ))
        → (after_lines form (first_state options) (taken_from false form (first_state options) lines)).kept.feed
        ≡ (lines_read options (lines_said form None lines)).kept }
{}
