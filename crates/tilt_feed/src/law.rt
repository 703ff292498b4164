// Laws of feeds.
ghost use Rattle.std.specs.Prelude.{◌≡◌, ◌≤ℤ◌, ℤ, neg_ℤ, List, ℕ, Some, IsSome, drop, length};
ghost use Rattle.std.specs.List.{AllByRecursion};
ghost use Rattle.tilt_base.specs.declared.limits.TheConstants.{T, WIDE};
ghost use Rattle.tilt_checkpoint.specs.Cuts.{IsLeast};
ghost use Rattle.tilt_checkpoint.specs.Decided.{decided, frame_of};
ghost use Rattle.tilt_core.specs.Core.{CoreParts, IsCore};
ghost use Rattle.tilt_core.specs.Meaning.{output_of};
ghost use Rattle.tilt_feed.specs.Events.{after, after_all, event_fault};
ghost use Rattle.tilt_feed.specs.Feed.{Feed, closed_rows, empty_feed, watermarks};
ghost use Rattle.tilt_feed.specs.Horizon.{horizon};
ghost use Rattle.tilt_feed.specs.Laws.{AreSureWhereKnown, ListGoesOn, OutputGoesOn, IsFinal, IsInOrder, fed};
ghost use Rattle.tilt_feed.specs.Printed.{begun, printed};
ghost use Rattle.tilt_feed.specs.Resting.{AllRestOn, LooksNear, all_resting, begun_next, ended_by, whole};
ghost use Rattle.tilt_feed.specs.declared.event.Event.{Event};
ghost use Rattle.tilt_feed.specs.declared.event.Event.TheVariants.{Finish};
ghost use Rattle.tilt_stream.specs.Snap.{InOrder};

/// This does nothing. Its clauses are laws of the definitions, for every list of events and every list of further ones. What is known
/// stays as it is, each sure mark stays, up to the horizon all marks are sure, and the horizon doesn't fall. So what is printed is a
/// prefix of what is printed later and of the output on the rows of each later feed, in which what had begun comes next.
pub fn known_is_final()
    ensures sources { (core : CoreParts) (events more : List Event) → IsCore core
        → IsFinal core (fed core events) (after_all more (fed core events)) }
    ensures sure { (core : CoreParts) (events : List Event) → IsCore core → AreSureWhereKnown core (fed core events) }
    ensures rises { (core : CoreParts) (events more : List Event) → IsCore core
        → horizon core (fed core events) ≤ℤ horizon core (after_all more (fed core events)) }
    ensures printed { (core : CoreParts) (events more : List Event) → IsCore core
        → ListGoesOn (printed core (fed core events)) (printed core (after_all more (fed core events))) }
    ensures output { (core : CoreParts) (events more : List Event) → IsCore core
        → OutputGoesOn core (fed core events) (after_all more (fed core events)) }
{}

/// This does nothing. Its clause is a law of the definitions: when a feed is finished, the whole output on its closed rows is printed.
pub fn all_is_printed()
    ensures { (core : CoreParts) (events : List Event) → IsCore core
        → output_of core (closed_rows (after Finish (fed core events))) ≡ Some (printed core (after Finish (fed core events))) }
{}

/// This does nothing. Its clause is a law of the definitions: the horizon isn't below the tick up to which sessions with the same cuts have
/// decided the output.
pub fn horizon_is_timely()
    ensures { (core : CoreParts) (events : List Event) (least : ℤ) → IsCore core → IsLeast least (watermarks (fed core events))
        → decided (frame_of core) least ≤ℤ horizon core (fed core events) }
{}

/// This does nothing. Its clauses are laws of the definitions: what is known of inputs is in order, and an event that isn't allowed changes
/// nothing.
pub fn feeds_are_in_order()
    ensures order { (inputs : ℕ) (events : List Event)
        → AllByRecursion IsInOrder (after_all events (empty_feed inputs)).inputs }
    ensures unchanged { (feed : Feed) (event : Event) → IsSome (event_fault feed event) → after event feed ≡ feed }
{}

/// This does nothing. Its clauses are laws of the definitions, for every query that looks ahead by the limit at most. Of the whole output
/// on the rows at rest, what ends at the horizon or below it is printed. What comes next has begun, if it starts below the horizon.
pub fn printed_of_resting_rows()
    ensures printed { (core : CoreParts) (events : List Event) → IsCore core → LooksNear core
        → printed core (fed core events) ≡ ended_by (horizon core (fed core events)) (whole core (fed core events)) }
    ensures begun { (core : CoreParts) (events : List Event) → IsCore core → LooksNear core
        → begun core (fed core events)
        ≡ begun_next (horizon core (fed core events)) (drop (length (printed core (fed core events))) (whole core (fed core events))) }
{}

/// This does nothing. Its clauses are laws of the definitions. The rows at rest of each input are in order. After an event they are the
/// same up to the horizon that the input had, and they have all marks that they had.
pub fn resting_rows_go_on()
    ensures order { (inputs : ℕ) (events : List Event)
        → AllByRecursion (InOrder (neg_ℤ T) WIDE) (all_resting (after_all events (empty_feed inputs))) }
    ensures rests { (inputs : ℕ) (events : List Event) (event : Event)
        → AllRestOn (after_all events (empty_feed inputs)) (after event (after_all events (empty_feed inputs))) }
{}
