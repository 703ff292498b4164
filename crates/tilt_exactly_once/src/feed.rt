// A feed that is served into a folder, from opening it on.
ghost use Rattle.std.specs.Prelude.{◌≡◌, ℕ, List, [], length, IfErr, IfOk, IsErrOf};
ghost use Rattle.tilt_exactly_once.specs.Committed.{Holds};
ghost use Rattle.tilt_exactly_once.specs.Feeding.{HasServedFeed, IsFailureCause, IsFailureFault, failing};
ghost use Rattle.tilt_exactly_once.specs.Framed.{IsFramed, KeepsLast, frames, rejects_framed};
ghost use Rattle.tilt_exactly_once.specs.Opening.{IsCause, IsFault, IsPassing};
ghost use Rattle.tilt_outside.specs.Counts.{added_count};
ghost use Rattle.tilt_outside.specs.Faults.{Rose};
ghost use Rattle.tilt_store.specs.Crash.{LeavesOnly, Only};
ghost use Rattle.tilt_store.specs.Open.{OpensSame};

use crate::failure::Failure;
use crate::framed_machine::FramedMachine;
use crate::halt::Halt;
use crate::machine::Machine;
use crate::plan::Plan;
use crate::refusal::StartError;
use crate::resuming::serve_from;
use crate::start::open;
use std::alloc::Global;
use tilt_outside::Sink;
use tilt_port::Port;
use tilt_store::Folder;

/// A folder after a feed was served into it, and how that ended.
#[derive(Drop)]
pub struct Served<F> {
    pub folder: F,
    pub end: Result<(), Failure>,
}

/// Opens a folder in which a crash can have left anything, and serves into it what isn't committed there of a feed. The feed is read from
/// the byte that the plan says. Nothing is written to the port.
pub fn serve_feed<F: Folder, M: Machine + Drop, P: Port, E: Sink>(
    alloc: Global,
    folder: F,
    recipe: M::Recipe,
    plan: Plan,
    port: &mut P,
    err: &mut E,
) -> Served<F>
    requires only { F.tells → Only (F.seen folder) (F.may_leave folder) }
    requires lines { (n : ℕ) → E.takes err.old n }

    // Of a folder with the commit of bytes of the feed: what was read, and what each crash at any moment leaves.
    ensures served { F.tells → (bytes : List ℕ) → Holds (IsFramed (M.commits (M.of recipe))) bytes (F.seen folder)
        → HasServedFeed F.seen F.may_leave (KeepsLast M.is) M.output (M.of recipe) (frames M.commits) M.stops M.fits F.moment
        F.left_since P.tells plan.from bytes folder (P.transcript port.old) result.folder (P.transcript port.new) result.end }

    // Of any folder: why nothing was read, and that then each crash leaves what it held.
    ensures cause { F.tells → IfErr result.end (IsFailureCause (rejects_framed (M.rejects recipe)) (F.seen folder)) }
    ensures kept { F.tells → IfErr result.end (λ failure. (error : StartError) → failure ≡ Failure.Unstarted error
        → LeavesOnly F.moment F.left_since folder result.folder (OpensSame [] (F.seen folder))) }
    ensures unread { IfErr result.end (λ failure. (error : StartError) → failure ≡ Failure.Unstarted error
        → port.new ≡ port.old) }
    ensures failed { IfErr result.end (λ failure. IsFailureFault failure → Rose (F.faults folder) (F.faults result.folder)) }
    ensures read_fault { IsErrOf result.end (Failure.Halted Halt.ReadFault)
        → Rose (P.transcript port.old).read_faults (P.transcript port.new).read_faults }
    ensures takes { (n : ℕ) → E.takes err.new n }
{
    match open::<F, FramedMachine<M>>(alloc, folder, recipe) {
        Ok(mut keeper) => {
            let end = serve_from(alloc, &mut keeper, plan, port, err);
            Served {
                folder: keeper.ledger.folder,
                end: failing(end),
            }
        }
        Err((error, folder)) => Served {
            folder,
            end: Err(Failure::Unstarted(error)),
        },
    }
}

// How a feed ended that was begun.
fn failing(end: Result<(), Halt>) -> Result<(), Failure>
    ensures { result ≡ failing end }
{
    match end {
        Ok(()) => Ok(()),
        Err(halt) => Err(Failure::Halted(halt)),
    }
}

/// How many bytes of a feed are committed in a folder, as far as the count goes. The folder is opened for that. An `Err` gives it back too.
pub fn count_committed<F: Folder, M: Machine + Drop>(
    alloc: Global,
    folder: F,
    recipe: M::Recipe,
) -> Result<(u64, F), (StartError, F)>
    requires only { F.tells → Only (F.seen folder) (F.may_leave folder) }
    ensures count { F.tells → (bytes : List ℕ) → Holds (IsFramed (M.commits (M.of recipe))) bytes (F.seen folder)
        → IfOk result (λ found. found.0 ≡ added_count 0 (length bytes)) }
    ensures any_moment { F.tells → (bytes : List ℕ) → Holds (IsFramed (M.commits (M.of recipe))) bytes (F.seen folder)
        → IfOk result (λ found. LeavesOnly F.moment F.left_since folder found.1 (Holds (IsFramed (M.commits (M.of recipe))) bytes)) }
    ensures kept { F.tells → IfErr result (λ e. LeavesOnly F.moment F.left_since folder e.1 (OpensSame [] (F.seen folder))) }
    ensures taken { F.tells → (bytes : List ℕ) → Holds (IsFramed (M.commits (M.of recipe))) bytes (F.seen folder)
        → IfErr result (λ e. IsPassing e.0) }
    ensures cause { F.tells → IfErr result (λ e. IsCause (rejects_framed (M.rejects recipe)) (F.seen folder) e.0) }
    ensures failed { IfErr result (λ e. IsFault e.0 → Rose (F.faults folder) (F.faults e.1)) }
{
    match open::<F, FramedMachine<M>>(alloc, folder, recipe) {
        Ok(keeper) => Ok((keeper.machine.taken(), keeper.ledger.folder)),
        Err(failure) => Err(failure),
    }
}
