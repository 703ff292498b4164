// A feed that was served to its end, and what is kept of its run.
ghost use Rattle.std.specs.Prelude.{◌≡◌, ◌≤◌, ◌-◌, ◌↔◌, ℕ, List, Ok, Err, length, true, IfOk, IfErr, MatchResult};
ghost use Rattle.tilt_live_app.specs.Change.{shelf_change};
ghost use Rattle.tilt_live_app.specs.Counting.{IsFirst, meaning_with};
ghost use Rattle.tilt_live_app.specs.Keeping.{HasKept, IsSaveFailure, IsTextOfRun};
ghost use Rattle.tilt_live_app.specs.Resumed.{IsFitFor, StartsAt, written_before};
ghost use Rattle.tilt_live_run.specs.Feeds.{IsRunAt};
ghost use Rattle.tilt_live_run.specs.Left.{KeepsState};
ghost use Rattle.tilt_live_run.specs.Runs.{IsSound};
ghost use Rattle.tilt_outside.specs.Counts.{added_count};
ghost use Rattle.tilt_outside.specs.Reads.{OnlyReads};
ghost use Rattle.tilt_serving.specs.Served.{HasEnded, HasServed, Start};
ghost use Rattle.tilt_serving.specs.Stops.{is_whole};

use crate::begin::Begin;
use crate::failure::Failure;
use crate::job::Job;
use crate::serve::serve;
use std::alloc::{AllocError as OutOfMemory, Global};
use tilt_live_run::{Keep, LiveRun};
use tilt_outside::{Shelf, Sink};
use tilt_port::Port;
use tilt_run_state::{RunState, put_state};
use tilt_serving::Halt;
use tilt_syntax::Query;

// The run of a query whose feed has ended, and how many bytes of output were written for the feed.
#[derive(Drop)]
pub(crate) struct EndedRun {
    run: LiveRun,
    query: Query,
    // What its state begins with.
    opening: Vec<u8>,
    written: u64,
}

impl EndedRun {
    // Serves the feed of a query to its end. `keep` says whether the state of the run can be kept after it.
    pub(crate) fn serve<P: Port, E: Sink>(
        alloc: Global,
        job: Job,
        keep: Keep,
        port: &mut P,
        err: &mut E,
    ) -> Result<EndedRun, Halt>
        requires fit { IsFitFor job.accepted.core job.options.form job.from }
        requires first { IsFirst job.counting job.from }
        requires lines { (n : ℕ) → E.takes err.old n }
        ensures served { (start : Start) → StartsAt job.options job.accepted.core job.from start
            → MatchResult result
            (λ served. HasEnded (meaning_with job.accepted.core job.options job.counting) start P.tells (P.transcript port.old)
            (P.transcript port.new) E.tells E.written E.faults err.old err.new
            (IsRunAt served.run (record { accepted = job.accepted; options = job.options })) (Ok tt))
            (λ why. HasServed (meaning_with job.accepted.core job.options job.counting) start P.tells (P.transcript port.old)
            (P.transcript port.new) E.tells E.written E.faults err.old err.new (Err why)) }
        ensures handed_on { is_whole result ≡ true → (P.transcript port.new).held_back ≡ 0 }
        ensures query { IfOk result (λ served. served.query ≡ job.query) }
        ensures opening { IfOk result (λ served. served.opening ≡ job.opening) }
        ensures written { P.tells → IfOk result (λ served. served.written ≡ added_count (written_before job.from)
            (added_count 0 (length (P.transcript port.new).written) - added_count 0 (length (P.transcript port.old).written))) }
        ensures sound { IfOk result (λ served. IsSound served.run) }
        ensures keeps { keep ≡ Keep.State → IfOk result (λ served. KeepsState served.run) }
        ensures takes { (n : ℕ) → E.takes err.new n }
    {
        let Job {
            query,
            accepted,
            options,
            opening,
            from,
            counting,
            ..
        } = job;
        let before = written_before(&from);
        let count = port.count_written();
        let begin = Begin {
            accepted,
            options,
            from,
            keep,
        };
        let run = serve(alloc, begin, counting, port, err)?;
        let more = port.count_written().saturating_sub(count);
        Ok(EndedRun {
            run,
            query,
            opening,
            written: before.saturating_add(more),
        })
    }

    // Saves the state of the run under the name.
    pub(crate) fn save<'a, S: Shelf>(
        self,
        alloc: Global,
        shelf: &mut S,
        name: &'a str,
    ) -> Result<(), Failure<'a>>
        requires sound { IsSound self.run }
        requires keeps { KeepsState self.run }
        requires room { (n : ℕ) → S.takes shelf.old name.now n }
        ensures kept { HasKept self.run self.query self.opening.items self.written
            (shelf_change S.tells S.files S.read_faults S.save_faults shelf.old shelf.new) name.now result }
        ensures rest { IfErr result (λ failure. (IsSaveFailure failure → ⊥) → shelf.new ≡ shelf.old) }
        ensures counts { (S.read_faults shelf.new ≡ S.read_faults shelf.old) × (S.save_faults shelf.old ≤ S.save_faults shelf.new) }
        ensures takes { (other : List ℕ) (n : ℕ) → S.takes shelf.old other n ↔ S.takes shelf.new other n }
    {
        let Ok(text) = self.text(alloc) else {
            return Err(Failure::Unmade);
        };
        match shelf.save(name, &text) {
            Ok(()) => Ok(()),
            Err(_) => Err(Failure::Unsaved(name)),
        }
    }

    // The text of the state of the run.
    fn text(self, alloc: Global) -> Result<Vec<u8>, OutOfMemory>
        requires sound { IsSound self.run }
        requires keeps { KeepsState self.run }
        ensures { IfOk result (λ text. IsTextOfRun self.run self.query self.opening.items self.written text.items) }
    {
        let EndedRun {
            mut run,
            query,
            opening,
            written,
        } = self;
        let state = run.state(alloc, query, written)?;
        let mut text = opening;
        put_state(alloc, &state, &mut text)?;
        Ok(text)
    }
}

// How many bytes of output were written before the run goes on.
fn written_before(from: &Option<RunState>) -> u64
    ensures { result ≡ written_before from.now }
{
    match from {
        None => 0,
        Some(state) => state.state.progress.written,
    }
}
