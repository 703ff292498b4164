// What takes the bytes of a feed.
ghost use Rattle.std.specs.Prelude.{◌≡◌, ◌++◌, ℕ, List, false, OnOk};
ghost use Rattle.tilt_serving.specs.Adds.{Adds};
ghost use Rattle.tilt_serving.specs.Meaning.{FeedMeaning};
ghost use Rattle.tilt_serving.specs.Reported.{Reported, Reports};
ghost use Rattle.tilt_serving.specs.Stops.{is_lost, stop_of};

use crate::stop::Stop;
use std::alloc::Global;
use tilt_outside::Sink;
use tilt_port::Port;

/// The run of a feed. Code that is generic over one knows only this of it.
pub trait FeedRun {
    /// What a run is of, such as a query and its options.
    ghost Of: { Type 0 };

    /// Whether it is the run of that, after these bytes of the feed.
    ghost is: { Self → Of → List ℕ → Type 0 };

    /// Whether it can go on, whatever bytes it has taken.
    ghost sound: { Self → Type 0 };

    /// Whether it keeps what it is to hand on after its feed.
    ghost keeps: { Self → Type 0 };

    /// What it makes of its feed.
    ghost means: { Of → FeedMeaning };

    /// Takes the next piece of the feed: it writes what the lines that end in it mean, and reports the bad ones of them. `WriteFault` comes
    /// only if the count of the port's write faults rose, and `OutOfMemory` if memory runs out. After an error the run is over.
    fn feed<P: Port, E: Sink>(
        &mut self,
        alloc: Global,
        piece: &[u8],
        port: &mut P,
        err: &mut E,
    ) -> Result<(), Stop>
        requires sound { sound self.old }
        requires lines { (n : ℕ) → E.takes err.old n }
        ensures adds { (of : Of) (bytes : List ℕ) → is self.old of bytes
            → Adds P.tells (P.transcript port.old) (P.transcript port.new) ((means of).added bytes piece.now) result }
        ensures reports { (of : Of) (bytes : List ℕ) → is self.old of bytes
            → Reports E.tells E.written E.faults err.old err.new ((means of).reported bytes piece.now) result }
        ensures goes_on { (of : Of) (bytes : List ℕ) → is self.old of bytes → OnOk result (is self.new of (bytes ++ piece.now)) }
        ensures stops { (of : Of) (bytes : List ℕ) → is self.old of bytes → is_lost result ≡ false
            → stop_of result ≡ (means of).stop bytes piece.now }
        ensures sound { OnOk result (sound self.new) }
        ensures keeps { keeps self.old → keeps self.new }
        ensures takes { (n : ℕ) → E.takes err.new n };

    /// Reports what there is to report at the end of the feed.
    fn end_feed<E: Sink>(&self, err: &mut E) -> Result<(), Stop>
        requires lines { (n : ℕ) → E.takes err.old n }
        ensures reports { (of : Of) (bytes : List ℕ) → is self.now of bytes
            → Reported E.tells E.written E.faults err.old err.new ((means of).end_report bytes) }
        ensures stops { (of : Of) (bytes : List ℕ) → is self.now of bytes → stop_of result ≡ (means of).end_stop bytes }
        ensures unlost { is_lost result ≡ false }
        ensures takes { (n : ℕ) → E.takes err.new n };
}
