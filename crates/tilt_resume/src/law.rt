// Laws of what is left of a feed.
ghost use Rattle.std.specs.Prelude.{◌≡◌, ◌≤ℤ◌, List, Ok, drop, false, length};
ghost use Rattle.std.specs.List.{AllByRecursion};
ghost use Rattle.tilt_bounds.specs.Margins.{AreMargins, MarginsParts, margins_of};
ghost use Rattle.tilt_core.specs.Core.{CoreParts, IsCore, emitted_number};
ghost use Rattle.tilt_feed.specs.Events.{after_all};
ghost use Rattle.tilt_feed.specs.Feed.{InputFeed, empty_feed};
ghost use Rattle.tilt_feed.specs.Horizon.{output_domain};
ghost use Rattle.tilt_feed.specs.Laws.{IsInOrder, fed};
ghost use Rattle.tilt_feed.specs.Printed.{printed};
ghost use Rattle.tilt_feed.specs.Resting.{LooksNear, meaning_at_rest, whole};
ghost use Rattle.tilt_feed.specs.declared.event.Event.{Event};
ghost use Rattle.tilt_resume.specs.Restoring.{all_events};
ghost use Rattle.tilt_input_state.specs.Resume.{left_feed, resume_tick};
ghost use Rattle.tilt_stream.specs.Snapshots.{snapshots};

/// This does nothing. Its clauses are laws of the definitions. Whatever events come after a feed's own, take the whole output on the rows
/// at rest. In it, after all that was printed, comes exactly what the query gives, from `resume_tick` on, on what was left of the feed. And
/// events say all that is known of inputs: they make these inputs of unknown ones.
pub fn output_goes_on_from_what_is_left()
    ensures rest { (core : CoreParts) (margins : MarginsParts) (events more : List Event) → IsCore core → margins_of core ≡ Ok margins
        → AreMargins margins → LooksNear core
        → drop (length (printed core (fed core events))) (whole core (after_all more (fed core events)))
        ≡ snapshots (meaning_at_rest core (after_all more (left_feed core (resume_tick core (fed core events)) (fed core events)))
        (emitted_number core)) (resume_tick core (fed core events)) (output_domain core).end }
    ensures rises { (core : CoreParts) (events more : List Event) → IsCore core → LooksNear core
        → resume_tick core (fed core events) ≤ℤ resume_tick core (after_all more (fed core events)) }
    ensures restored { (inputs : List InputFeed) → AllByRecursion IsInOrder inputs
        → after_all (all_events 0 inputs) (empty_feed (length inputs)) ≡ record { inputs = inputs; finished = false } }
{}
