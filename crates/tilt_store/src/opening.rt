// How a folder is opened: its output is cut to the last commit.
ghost use Rattle.std.specs.Prelude.{◌≡◌, ◌<◌, ◌≤◌, [], length, IfErr, IfOk, IsErrOf, OnOk};
ghost use Rattle.tilt_outside.specs.Faults.{Rose};
ghost use Rattle.tilt_store.specs.Commit.{committed};
ghost use Rattle.tilt_store.specs.Crash.{LeavesOnly, Only};
ghost use Rattle.tilt_store.specs.Errors.{OpensNot};
ghost use Rattle.tilt_store.specs.Open.{IsReopened, IsSettled, OpensSame};

use crate::folder::Folder;
use crate::mark::{spell, unspell};
use crate::open_error::OpenError;
use std::alloc::Global;

// The state of a commit, and how many bytes of output it has.
#[derive(Drop)]
pub(crate) struct Recovered {
    pub(crate) state: Vec<u8>,
    pub(crate) length: u64,
}

/// Cuts the output to the last commit, and returns its state and its length. In an empty folder it commits an empty output with the
/// initial state.
pub(crate) fn recover<F: Folder>(
    alloc: Global,
    folder: &mut F,
    initial: &[u8],
) -> Result<Recovered, OpenError>
    requires { F.tells → Only (F.seen folder.old) (F.may_leave folder.old) }
    ensures reopened { F.tells → IfOk result (λ found. IsReopened initial.now (F.seen folder.old) (F.seen folder.new) found.state.items) }
    ensures length { F.tells → IfOk result (λ found. found.length ≡ length (F.seen folder.new).output) }
    ensures settled { F.tells → OnOk result (IsSettled (F.seen folder.new) (F.may_leave folder.new)) }
    ensures any_moment { F.tells → LeavesOnly F.moment F.left_since folder.old folder.new (OpensSame initial.now (F.seen folder.old)) }
    ensures error { F.tells → IfErr result (OpensNot (committed (F.seen folder.old))) }
    ensures failed { IsErrOf result OpenError.Failed → Rose (F.faults folder.old) (F.faults folder.new) }
    ensures faults { F.faults folder.old ≤ F.faults folder.new }
{
    let bytes = folder.read_state(alloc)?;
    let size = folder.output_length()?;
    if bytes.is_empty() {
        return begin(alloc, folder, size, initial);
    }
    resume(alloc, folder, size, &bytes, initial)
}

// Opens a folder with no state.
fn begin<F: Folder>(
    alloc: Global,
    folder: &mut F,
    size: u64,
    initial: &[u8],
) -> Result<Recovered, OpenError>
    requires only { F.tells → Only (F.seen folder.old) (F.may_leave folder.old) }
    requires empty { F.tells → (F.seen folder.old).state ≡ [] }
    requires counted { F.tells → size ≡ length (F.seen folder.old).output }
    ensures reopened { F.tells → IfOk result (λ found. IsReopened initial.now (F.seen folder.old) (F.seen folder.new) found.state.items) }
    ensures length { F.tells → IfOk result (λ found. found.length ≡ length (F.seen folder.new).output) }
    ensures settled { F.tells → OnOk result (IsSettled (F.seen folder.new) (F.may_leave folder.new)) }
    ensures any_moment { F.tells → LeavesOnly F.moment F.left_since folder.old folder.new (OpensSame initial.now (F.seen folder.old)) }
    ensures error { F.tells → IfErr result (OpensNot (committed (F.seen folder.old))) }
    ensures failed { IsErrOf result OpenError.Failed → Rose (F.faults folder.old) (F.faults folder.new) }
    ensures faults { F.faults folder.old ≤ F.faults folder.new }
{
    if size > 0 {
        return Err(OpenError::OutputWithoutState);
    }
    let state = initial.to_vec(alloc)?;
    let text = spell(alloc, 0, initial)?;
    folder.replace_state(&text)?;
    folder.sync()?;
    Ok(Recovered { state, length: 0 })
}

// Opens a folder with a state.
fn resume<F: Folder>(
    alloc: Global,
    folder: &mut F,
    size: u64,
    bytes: &[u8],
    initial: &[u8],
) -> Result<Recovered, OpenError>
    requires only { F.tells → Only (F.seen folder.old) (F.may_leave folder.old) }
    requires read { F.tells → bytes.now ≡ (F.seen folder.old).state }
    requires some { 0 < length bytes.now }
    requires counted { F.tells → size ≡ length (F.seen folder.old).output }
    ensures reopened { F.tells → IfOk result (λ found. IsReopened initial.now (F.seen folder.old) (F.seen folder.new) found.state.items) }
    ensures length { F.tells → IfOk result (λ found. found.length ≡ length (F.seen folder.new).output) }
    ensures settled { F.tells → OnOk result (IsSettled (F.seen folder.new) (F.may_leave folder.new)) }
    ensures any_moment { F.tells → LeavesOnly F.moment F.left_since folder.old folder.new (OpensSame initial.now (F.seen folder.old)) }
    ensures error { F.tells → IfErr result (OpensNot (committed (F.seen folder.old))) }
    ensures failed { IsErrOf result OpenError.Failed → Rose (F.faults folder.old) (F.faults folder.new) }
    ensures faults { F.faults folder.old ≤ F.faults folder.new }
{
    let Some((end, rest)) = unspell(bytes) else {
        return Err(OpenError::BrokenState);
    };
    if end > size {
        return Err(OpenError::OutputTooShort);
    }
    let state = rest.to_vec(alloc)?;
    folder.cut(end)?;
    folder.sync()?;
    Ok(Recovered { state, length: end })
}
