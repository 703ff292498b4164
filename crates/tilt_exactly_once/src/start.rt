// A folder, opened to serve a feed into it.
ghost use Rattle.std.specs.Prelude.{◌≡◌, ◌<◌, ◌≤◌, ℕ, List, [], length, IfErr, IfOk, MatchResult};
ghost use Rattle.tilt_exactly_once.specs.Committed.{Holds};
ghost use Rattle.tilt_exactly_once.specs.Opening.{IsAt, IsCause, IsCauseIn, IsFault, IsPassing, IsStarted};
ghost use Rattle.tilt_outside.specs.Faults.{Rose};
ghost use Rattle.tilt_store.specs.Crash.{LeavesOnly, Only};
ghost use Rattle.tilt_store.specs.Open.{IsOpen, OpensSame, SameCommit};

use crate::keeper::Keeper;
use crate::machine::Machine;
use crate::refusal::StartError;
use std::alloc::Global;
use tilt_store::{Folder, Ledger};

/// Opens a folder in which a crash can have left anything, to serve a feed into it. The machine goes on from the state of the last commit.
/// If nothing was begun, it is a new one: then what it writes before the first byte is in the folder, and is not committed yet. A crash at
/// any moment of the call leaves the same commit. An `Err` gives the folder back.
pub fn open<F: Folder, M: Machine + Drop>(
    alloc: Global,
    folder: F,
    recipe: M::Recipe,
) -> Result<Keeper<F, M>, (StartError, F)>
    requires { F.tells → Only (F.seen folder) (F.may_leave folder) }
    ensures started { F.tells → (bytes : List ℕ) → Holds (M.commits (M.of recipe)) bytes (F.seen folder)
        → IfOk result (λ keeper. IsStarted F.seen F.may_leave M.is M.output M.commits F.moment F.left_since (M.of recipe)
        folder keeper.ledger.folder keeper.machine keeper.written bytes) }
    ensures any_moment { F.tells → (bytes : List ℕ) → Holds (M.commits (M.of recipe)) bytes (F.seen folder)
        → IfErr result (λ e. LeavesOnly F.moment F.left_since folder e.1 (Holds (M.commits (M.of recipe)) bytes)) }

    // Whatever it held: it isn't served into, and each crash leaves that.
    ensures kept { F.tells → IfErr result (λ e. LeavesOnly F.moment F.left_since folder e.1 (OpensSame [] (F.seen folder))) }
    ensures taken { F.tells → (bytes : List ℕ) → Holds (M.commits (M.of recipe)) bytes (F.seen folder)
        → IfErr result (λ e. IsPassing e.0) }
    ensures cause { F.tells → IfErr result (λ e. IsCause (M.rejects recipe) (F.seen folder) e.0) }
    ensures failed { IfErr result (λ e. IsFault e.0 → Rose (F.faults folder) (F.faults e.1)) }
    ensures faults { IfOk result (λ keeper. F.faults folder ≤ F.faults keeper.ledger.folder) }
    ensures sound { IfOk result (λ keeper. M.sound keeper.machine) }
    ensures is_open { F.tells → IfOk result (λ keeper. IsOpen (F.seen keeper.ledger.folder) (F.may_leave keeper.ledger.folder)) }
{
    match Ledger::open(alloc, folder, b"") {
        Ok(opened) => begin(alloc, opened.ledger, opened.length, &opened.state, recipe),
        Err((error, folder)) => Err((StartError::Unopened(error), folder)),
    }
}

// Starts in an open folder that has committed this state with so many bytes of output.
fn begin<F: Folder, M: Machine + Drop>(
    alloc: Global,
    ledger: Ledger<F>,
    count: u64,
    state: &[u8],
    recipe: M::Recipe,
) -> Result<Keeper<F, M>, (StartError, F)>
    requires counted { F.tells → count ≡ length (F.seen ledger.folder).output }
    requires is_open { F.tells → IsOpen (F.seen ledger.folder) (F.may_leave ledger.folder) }
    ensures started { F.tells → (bytes : List ℕ) → IsAt (M.commits (M.of recipe)) bytes (F.seen ledger.folder) state.now
        → IfOk result (λ keeper. IsStarted F.seen F.may_leave M.is M.output M.commits F.moment F.left_since (M.of recipe)
        ledger.folder keeper.ledger.folder keeper.machine keeper.written bytes) }
    ensures kept { F.tells → IfErr result (λ e. LeavesOnly F.moment F.left_since ledger.folder e.1 (SameCommit (F.seen ledger.folder))) }
    ensures any_moment { F.tells → (bytes : List ℕ) → IsAt (M.commits (M.of recipe)) bytes (F.seen ledger.folder) state.now
        → IfErr result (λ e. LeavesOnly F.moment F.left_since ledger.folder e.1 (Holds (M.commits (M.of recipe)) bytes)) }
    ensures taken { F.tells → (bytes : List ℕ) → IsAt (M.commits (M.of recipe)) bytes (F.seen ledger.folder) state.now
        → IfErr result (λ e. IsPassing e.0) }
    ensures cause { IfErr result (λ e. IsCauseIn (M.rejects recipe) count state.now e.0) }
    ensures failed { IfErr result (λ e. IsFault e.0 → Rose (F.faults ledger.folder) (F.faults e.1)) }
    ensures faults { MatchResult result (λ keeper. F.faults ledger.folder ≤ F.faults keeper.ledger.folder)
        (λ e. F.faults ledger.folder ≤ F.faults e.1) }
    ensures sound { IfOk result (λ keeper. M.sound keeper.machine) }
    ensures is_open { F.tells → IfOk result (λ keeper. IsOpen (F.seen keeper.ledger.folder) (F.may_leave keeper.ledger.folder)) }
{
    if state.is_empty() {
        if count > 0 {
            return Err((StartError::Stateless, ledger.folder));
        }
        return begin_new(alloc, ledger, recipe);
    }
    match M::resume(alloc, recipe, state) {
        Ok(resumed) => Ok(Keeper::new(ledger, resumed.machine, resumed.written)),
        Err(refusal) => Err((StartError::Rejected(refusal), ledger.folder)),
    }
}

// Starts in an open folder in which nothing was begun.
fn begin_new<F: Folder, M: Machine + Drop>(
    alloc: Global,
    mut ledger: Ledger<F>,
    recipe: M::Recipe,
) -> Result<Keeper<F, M>, (StartError, F)>
    requires { F.tells → IsOpen (F.seen ledger.folder) (F.may_leave ledger.folder) }
    ensures started { F.tells → (bytes : List ℕ) → IsAt (M.commits (M.of recipe)) bytes (F.seen ledger.folder) []
        → IfOk result (λ keeper. IsStarted F.seen F.may_leave M.is M.output M.commits F.moment F.left_since (M.of recipe)
        ledger.folder keeper.ledger.folder keeper.machine keeper.written bytes) }
    ensures kept { F.tells → IfErr result (λ e. LeavesOnly F.moment F.left_since ledger.folder e.1 (SameCommit (F.seen ledger.folder))) }
    ensures any_moment { F.tells → (bytes : List ℕ) → IsAt (M.commits (M.of recipe)) bytes (F.seen ledger.folder) []
        → IfErr result (λ e. LeavesOnly F.moment F.left_since ledger.folder e.1 (Holds (M.commits (M.of recipe)) bytes)) }
    ensures taken { IfErr result (λ e. IsPassing e.0) }
    ensures cause { (count : ℕ) (state : List ℕ) → IfErr result (λ e. IsCauseIn (M.rejects recipe) count state e.0) }
    ensures failed { IfErr result (λ e. IsFault e.0 → Rose (F.faults ledger.folder) (F.faults e.1)) }
    ensures faults { MatchResult result (λ keeper. F.faults ledger.folder ≤ F.faults keeper.ledger.folder)
        (λ e. F.faults ledger.folder ≤ F.faults e.1) }
    ensures sound { IfOk result (λ keeper. M.sound keeper.machine) }
    ensures is_open { F.tells → IfOk result (λ keeper. IsOpen (F.seen keeper.ledger.folder) (F.may_leave keeper.ledger.folder)) }
{
    let Ok(started) = M::start(alloc, recipe) else {
        return Err((StartError::OutOfMemory, ledger.folder));
    };
    match ledger.append(&started.output) {
        Ok(()) => Ok(Keeper::new(ledger, started.machine, started.output.len() as u64)),
        Err(error) => Err((StartError::Unwritten(error), ledger.folder)),
    }
}
