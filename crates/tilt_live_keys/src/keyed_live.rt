// The run of a feed with keys, piece by piece.
ghost use Rattle.std.specs.Prelude.{◌≡◌, ◌&&◌, ◌++◌, ℕ, List, [], codes, false, true, IfErr, IfOk, MatchResult, OnOk};
ghost use Rattle.tilt_keyed_line.specs.Feeds.{KeyedFeed};
ghost use Rattle.tilt_serving.specs.Adds.{Adds};
ghost use Rattle.tilt_serving.specs.Reported.{Reports};
ghost use Rattle.tilt_live_keys.specs.Output.{heard};
ghost use Rattle.tilt_live_keys.specs.Runs.{IsKeyedLiveOf, IsRunAfter, added, end_report, reported, stop_in};
ghost use Rattle.tilt_serving.specs.Stops.{is_lost, stop_of};
ghost use Rattle.tilt_live_keys.specs.Taken.{HasTakenLine, HasTakenPiece};
ghost use Rattle.tilt_live_keys.specs.declared.key_recipe.KeyRecipe.{KeyRecipe};
ghost use Rattle.tilt_serving.specs.Reported.{Reported};
ghost use Rattle.tilt_live_run.specs.Runs.{is_unfinished};

use crate::key_recipe::KeyRecipe;
use crate::keyed_lines::KeyedLines;
use std::alloc::Global;
use tilt_feed_form::BadFeedLine;
use tilt_feed_text::{BadLine, append_cut};
use tilt_keyed_run::BadKeyedLine;
use tilt_outside::Sink;
use tilt_port::Port;
use tilt_serving::{FeedRun, Stop};
use tilt_text::until;

/// The run of a feed with keys, of which each has a run of its own. It takes the bytes of the feed, in pieces of any size, and writes what
/// each line makes final for its key, with the key. Bad lines are reported and change nothing; if its recipe is `strict`, the first one
/// stops the run, and nothing is written for it. A first line `key,name,start,end,value` is a header, and is skipped.
#[derive(Drop)]
pub struct KeyedLive {
    pub(crate) lines: KeyedLines,
    // The bytes of the line whose LF hasn't come yet, as far as a line may be long.
    pub(crate) pending: Vec<u8>,
}

// The feed ended before the LF of a line.
const NO_END: BadKeyedLine<BadFeedLine> = BadKeyedLine::OfKey {
    why: BadFeedLine::Rows {
        why: BadLine::NoEnd,
    },
};

impl KeyedLive {
    /// The run before the first byte of its feed. It writes the header `key,start,end,value`. `WriteFault` comes only if the count of the
    /// port's write faults rose, and no other error comes.
    pub fn start<P: Port>(alloc: Global, recipe: KeyRecipe, port: &mut P) -> Result<KeyedLive, Stop>
        ensures adds { Adds P.tells (P.transcript port.old) (P.transcript port.new) (codes "key,start,end,value\n") result }
        ensures is { IfOk result (λ run. IsKeyedLiveOf run recipe []) }
        ensures error { IfErr result (λ stop. stop ≡ Stop.WriteFault) }
    {
        port.write(b"key,start,end,value\n")?;
        Ok(KeyedLive {
            lines: KeyedLines::new(alloc, recipe),
            pending: Vec::new(alloc),
        })
    }

    // Takes a piece, and writes nothing yet.
    fn take_piece<E: Sink>(&mut self, alloc: Global, piece: &[u8], err: &mut E) -> Result<(), Stop>
        requires runs { (recipe : KeyRecipe) × (number : ℕ) × (feed : KeyedFeed) × (front : List ℕ)
            × IsRunAfter self.old recipe number feed front }
        requires lines { (n : ℕ) → E.takes err.old n }
        ensures taken { (recipe : KeyRecipe) (number : ℕ) (feed : KeyedFeed) (front : List ℕ)
            → IsRunAfter self.old recipe number feed front
            → HasTakenPiece E.tells E.written E.faults recipe err.old err.new self.old.lines.output.items self.new.lines.output.items
            (λ n f rest. IsRunAfter self.new recipe n f rest) number feed front piece.now result }
        ensures no_write_fault { IfErr result (λ stop. stop ≡ Stop.WriteFault → ⊥) }
        ensures takes { (n : ℕ) → E.takes err.new n }
    {
        let mut rest = piece;
        while let Some((line, after)) = until(rest, b'\n') {
            self.take_end(alloc, line, err)?;
            rest = after;
        }
        append_cut(&mut self.pending, rest)?;
        Ok(())
    }

    // Takes the last bytes of a line, before its LF.
    fn take_end<E: Sink>(&mut self, alloc: Global, end: &[u8], err: &mut E) -> Result<(), Stop>
        requires runs { (recipe : KeyRecipe) × (number : ℕ) × (feed : KeyedFeed) × (front : List ℕ)
            × IsRunAfter self.old recipe number feed front }
        requires lines { (n : ℕ) → E.takes err.old n }
        ensures taken { (recipe : KeyRecipe) (number : ℕ) (feed : KeyedFeed) (front : List ℕ)
            → IsRunAfter self.old recipe number feed front
            → HasTakenLine E.tells E.written E.faults recipe err.old err.new self.old.lines.output.items self.new.lines.output.items
            (λ n f. IsRunAfter self.new recipe n f []) number feed (heard number (front ++ end.now)) result }
        ensures no_write_fault { IfErr result (λ stop. stop ≡ Stop.WriteFault → ⊥) }
        ensures takes { (n : ℕ) → E.takes err.new n }
    {
        if self.pending.is_empty() {
            return self.lines.take(alloc, end, err);
        }
        append_cut(&mut self.pending, end)?;
        self.lines.take(alloc, &self.pending, err)?;
        self.pending.clear();
        Ok(())
    }
}

impl FeedRun for KeyedLive {
    ghost use Rattle.std.specs.Prelude.{⊤};
    ghost use Rattle.tilt_live_keys.specs.Runs.{IsKeyedLive, IsKeyedLiveOf, keyed_meaning};
    ghost use Rattle.tilt_live_keys.specs.declared.key_recipe.KeyRecipe.{KeyRecipe};

    ghost Of = { KeyRecipe };

    ghost is = { IsKeyedLiveOf };

    ghost sound = { IsKeyedLive };

    ghost keeps = { λ _. ⊤ };

    ghost means = { keyed_meaning };

    /// Takes the next piece of the feed. It writes what the lines that end in it make final, and reports the bad ones of them by their
    /// numbers in the whole feed. `BadLine` comes if one of them is bad and the run is strict. `TooManyKeys` comes if one has a new key and
    /// there are as many as there may be. Then what the lines before it make final is written.
    fn feed<P: Port, E: Sink>(
        &mut self,
        alloc: Global,
        piece: &[u8],
        port: &mut P,
        err: &mut E,
    ) -> Result<(), Stop> {
        self.lines.output.clear();
        let taken = self.take_piece(alloc, piece, err);
        if is_lost(taken) {
            return taken;
        }
        port.write(&self.lines.output)?;
        taken
    }

    /// Reports bytes at the end of the feed that are no line, since their LF is missing. `BadLine` comes exactly if there are some and the
    /// run is strict.
    fn end_feed<E: Sink>(&self, err: &mut E) -> Result<(), Stop> {
        if self.pending.is_empty() {
            return Ok(());
        }
        self.lines.report(Some(NO_END), err);
        if self.lines.recipe.strict {
            return Err(Stop::BadLine);
        }
        Ok(())
    }
}

// Whether a run can't go on writing anything: it stopped, and not because of a line.
fn is_lost(taken: Result<(), Stop>) -> bool
    ensures { result ≡ is_lost taken }
{
    matches!(taken, Err(Stop::WriteFault | Stop::OutOfMemory))
}
