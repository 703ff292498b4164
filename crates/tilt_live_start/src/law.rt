// Laws of the output after a tick, and of what sessions print.
ghost use Rattle.std.specs.Prelude.{◌≡◌, ◌≤ℤ◌, ℤ, Bool, List, Ok, length, take};
ghost use Rattle.tilt_bounds.specs.Margins.{MarginsParts, margins_of};
ghost use Rattle.tilt_checkpoint.specs.Checkpoint.{CheckpointParts, cuts_of};
ghost use Rattle.tilt_checkpoint.specs.Valid.{IsCheckpoint};
ghost use Rattle.tilt_code.specs.Code.{CodeParts};
ghost use Rattle.tilt_compiler.specs.Accepted.{AcceptedParts, IsAccepted};
ghost use Rattle.tilt_feed.specs.Events.{after_all};
ghost use Rattle.tilt_feed.specs.Feed.{Feed, InputFeed};
ghost use Rattle.tilt_feed.specs.Horizon.{output_domain};
ghost use Rattle.tilt_feed.specs.Printed.{printed};
ghost use Rattle.tilt_feed.specs.declared.event.Event.{Event};
ghost use Rattle.tilt_live.specs.Lives.{IsCodeFrom};
ghost use Rattle.tilt_live.specs.Resuming.{known_feed, returned_before, start_of};
ghost use Rattle.tilt_live_start.specs.After.{GoesOnAfter, IsLeftAt};
ghost use Rattle.tilt_live_start.specs.Seen.{seen_feed};
ghost use Rattle.tilt_session.specs.Emitted.{emitted};
ghost use Rattle.tilt_session.specs.Law.{IsCheckpointOf};
ghost use Rattle.tilt_session.specs.declared.cut.Cut.TheVariants.{Upto};
ghost use Rattle.tilt_stream.specs.Snap.{Snapshot};
ghost use Rattle.tilt_types.specs.Checked.{core_of};

/// This does nothing. Its clause is a law of the definitions, for every query, every tick of its output domain, and whatever events come.
/// If enough was kept of a feed for the output after the tick, a code for that output gives it on what was kept. So a live engine that
/// `Live::resume` starts there (clause `started`) returns exactly the snapshots that may be printed and end after the tick.
pub fn output_goes_on_after_a_tick()
    ensures { (accepted : AcceptedParts) (from : ℤ) (code : CodeParts) (feed : Feed) (finished : Bool) (inputs : List InputFeed)
        → IsAccepted accepted → length inputs ≡ length accepted.core.inputs
        → (output_domain accepted.core).start ≤ℤ from → from ≤ℤ (output_domain accepted.core).end
        → IsCodeFrom accepted.core accepted.fuse (start_of accepted.core from) code
        → IsLeftAt accepted.core feed from finished inputs
        → GoesOnAfter accepted.core code from feed (known_feed finished inputs)
        (returned_before accepted.core code from (known_feed finished inputs)) }
{}

/// This does nothing. Its clause is a law of the definitions. What sessions printed up to a checkpoint is a prefix of what may be printed
/// of the feed of the rows that they saw, whatever events come after that.
pub fn sessions_print_what_feeds_do()
    ensures { (accepted : AcceptedParts) (checkpoint : CheckpointParts) (rows : List (List Snapshot)) (more : List Event)
        → IsAccepted accepted → accepted.core ≡ core_of checkpoint.query → IsCheckpoint checkpoint → IsCheckpointOf checkpoint rows
        → emitted accepted.core rows (Upto (cuts_of checkpoint))
        ≡ take (length (emitted accepted.core rows (Upto (cuts_of checkpoint))))
        (printed accepted.core (after_all more (seen_feed (cuts_of checkpoint) rows))) }
{}
