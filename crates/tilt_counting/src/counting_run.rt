// A run beside which another run takes the same feed.
ghost use Rattle.std.specs.Prelude.{◌≡◌, ◌++◌, List, ℕ, IfOk, None};
ghost use Rattle.tilt_counting.specs.Count.{line_count};
ghost use Rattle.tilt_outside.specs.Counts.{added_count};

use crate::count::{count_lines, report_count};
use std::alloc::Global;
use tilt_outside::Sink;
use tilt_port::{BufferPort, Port, Unheard};
use tilt_serving::{FeedRun, Stop};

/// A run of a feed, and another run that takes the same feed. The rows of the other run are counted and not written; its reports are
/// dropped. At the end of the feed it reports how many rows there are, if there are some.
#[derive(Drop)]
pub struct CountingRun<R, W> {
    /// The run.
    pub run: R,
    // The other run, and how many lines it has written.
    watch: W,
    lines: u64,
}

impl<R, W> CountingRun<R, W> {
    /// A run, and another one that began with this text. Both are before the first byte of the feed.
    pub fn new(run: R, watch: W, head: &[u8]) -> CountingRun<R, W>
        ensures run { result.run ≡ run }
        ensures watch { result.watch ≡ watch }
        ensures lines { result.lines ≡ added_count 0 (line_count head.now) }
    {
        CountingRun {
            run,
            watch,
            lines: count_lines(head),
        }
    }
}

impl<R: FeedRun + Drop, W: FeedRun + Drop> FeedRun for CountingRun<R, W> {
    ghost use Rattle.tilt_counting.specs.Counting.{Counted, IsCounting, meaning_of};

    ghost Of = { Counted R.Of W.Of };

    ghost is = { IsCounting R.is W.is R.means W.means };

    ghost sound = { λ counting. R.sound counting.run × W.sound counting.watch };

    ghost keeps = { λ counting. R.keeps counting.run };

    ghost means = { meaning_of R.means W.means };

    /// Takes the next piece of the feed, as the run does, and then the other run takes it. `OutOfMemory` comes too if there is no memory
    /// for that one.
    fn feed<P: Port, E: Sink>(
        &mut self,
        alloc: Global,
        piece: &[u8],
        port: &mut P,
        err: &mut E,
    ) -> Result<(), Stop> {
        self.run.feed(alloc, piece, port, err)?;
        let Ok(output) = watch_piece(alloc, &mut self.watch, piece) else {
            // It stops only at lines at which the run stops too.
            return Err(Stop::OutOfMemory);
        };
        self.lines = self.lines.saturating_add(count_lines(&output));
        Ok(())
    }

    /// Reports what the run reports at the end of the feed, and then how many rows the other run has, if it has some.
    fn end_feed<E: Sink>(&self, err: &mut E) -> Result<(), Stop> {
        let end = self.run.end_feed(err);
        report_count(err, self.lines.saturating_sub(1));
        end
    }
}

// What the other run writes for a piece of the feed.
fn watch_piece<W: FeedRun>(alloc: Global, watch: &mut W, piece: &[u8]) -> Result<Vec<u8>, Stop>
    requires { W.sound watch.old }
    ensures added { (of : W.Of) (bytes : List ℕ) → W.is watch.old of bytes
        → IfOk result (λ output. output.items ≡ (W.means of).added bytes piece.now) }
    ensures goes_on { (of : W.Of) (bytes : List ℕ) → W.is watch.old of bytes → IfOk result (λ _. W.is watch.new of (bytes ++ piece.now)) }
    ensures unstopped { (of : W.Of) (bytes : List ℕ) → W.is watch.old of bytes
        → IfOk result (λ _. (W.means of).stop bytes piece.now ≡ None) }
    ensures sound { IfOk result (λ _. W.sound watch.new) }
{
    let mut port = BufferPort::new(alloc);
    watch.feed(alloc, piece, &mut port, &mut Unheard)?;
    Ok(port.into_bytes())
}
