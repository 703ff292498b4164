// An output that is appended to and committed together with a state.
ghost use Rattle.std.specs.Prelude.{◌≡◌, ◌⊎◌, ◌≤◌, length, IfErr, IfOk, MatchResult, OnOk};
ghost use Rattle.tilt_outside.specs.Faults.{Rose};
ghost use Rattle.tilt_store.specs.Commit.{committed};
ghost use Rattle.tilt_store.specs.Crash.{LeavesOnly, Only};
ghost use Rattle.tilt_store.specs.Errors.{HasCause, OpensNot};
ghost use Rattle.tilt_store.specs.Open.{HasCommitted, IsAppended, IsCommitted, IsOpen, IsReopened, IsSettled, OpensSame, SameCommit};

use crate::folder::Folder;
use crate::folder_error::FolderError;
use crate::mark::spell;
use crate::open_error::OpenError;
use crate::opening::recover;
use std::alloc::Global;

/// A folder that is open: its output can be appended to, and committed with a state.
#[derive(Drop)]
pub struct Ledger<F: Folder> {
    pub folder: F,
}

/// A folder that was opened, the state from which to go on, and how many bytes of output are committed with it.
#[derive(Drop)]
pub struct Opened<F: Folder> {
    pub ledger: Ledger<F>,
    pub state: Vec<u8>,
    pub length: u64,
}

impl<F: Folder> Ledger<F> {
    /// Opens a folder in which a crash can have left anything, after a restart: what is seen is what is on the disk. It cuts the
    /// output to the last commit, and returns the state of that commit. In an empty folder it commits an empty output with the
    /// initial state. A crash at any moment of the call leaves a folder that opens to the same. A folder that holds no commit is left
    /// as it is. An `Err` gives the folder back.
    pub fn open(alloc: Global, mut folder: F, initial: &[u8]) -> Result<Opened<F>, (OpenError, F)>
        requires { F.tells → Only (F.seen folder) (F.may_leave folder) }
        ensures reopened { F.tells → IfOk result (λ opened.
            IsReopened initial.now (F.seen folder) (F.seen opened.ledger.folder) opened.state.items) }
        ensures length { F.tells → IfOk result (λ opened. opened.length ≡ length (F.seen opened.ledger.folder).output) }
        ensures settled { F.tells → IfOk result (λ opened. IsSettled (F.seen opened.ledger.folder) (F.may_leave opened.ledger.folder)) }
        ensures any_moment { F.tells → IfOk result (λ opened. LeavesOnly F.moment F.left_since folder opened.ledger.folder
            (OpensSame initial.now (F.seen folder))) }
        ensures any_moment_err { F.tells → IfErr result (λ e. LeavesOnly F.moment F.left_since folder e.1
            (OpensSame initial.now (F.seen folder))) }
        ensures error { F.tells → IfErr result (λ e. OpensNot (committed (F.seen folder)) e.0) }
        ensures failed { IfErr result (λ e. e.0 ≡ OpenError.Failed → Rose (F.faults folder) (F.faults e.1)) }
        ensures faults { MatchResult result
            (λ opened. F.faults folder ≤ F.faults opened.ledger.folder) (λ e. F.faults folder ≤ F.faults e.1) }
    {
        match recover(alloc, &mut folder, initial) {
            Ok(recovered) => Ok(Opened {
                ledger: Ledger { folder },
                state: recovered.state,
                length: recovered.length,
            }),
            Err(error) => Err((error, folder)),
        }
    }

    /// Appends bytes to the output. They count only once they are committed: a crash at any moment of the call leaves the last commit
    /// as it was. After an error, drop the ledger and open the folder again.
    pub fn append(&mut self, bytes: &[u8]) -> Result<(), FolderError>
        requires { F.tells → IsOpen (F.seen self.old.folder) (F.may_leave self.old.folder) }
        ensures is_open { F.tells → OnOk result (IsOpen (F.seen self.new.folder) (F.may_leave self.new.folder)) }
        ensures appended { F.tells → OnOk result (IsAppended bytes.now (F.seen self.old.folder) (F.seen self.new.folder)) }
        ensures any_moment { F.tells → LeavesOnly F.moment F.left_since self.old.folder self.new.folder
            (SameCommit (F.seen self.old.folder)) }
        ensures cause { HasCause (F.faults self.old.folder) (F.faults self.new.folder) result }
    {
        self.folder.append(bytes)
    }

    /// Commits all of the output so far with a state. After `Ok`, every crash leaves this commit. A crash at any moment of the call
    /// leaves the commit from before the call, or this one. After an error it is one of the two: drop the ledger and open the folder
    /// again.
    pub fn commit(&mut self, alloc: Global, state: &[u8]) -> Result<(), FolderError>
        requires { F.tells → IsOpen (F.seen self.old.folder) (F.may_leave self.old.folder) }
        ensures committed { F.tells → OnOk result (IsCommitted state.now (F.seen self.old.folder) (F.seen self.new.folder)) }
        ensures settled { F.tells → OnOk result (IsSettled (F.seen self.new.folder) (F.may_leave self.new.folder)) }
        ensures any_moment { F.tells → LeavesOnly F.moment F.left_since self.old.folder self.new.folder (λ c.
            SameCommit (F.seen self.old.folder) c ⊎ HasCommitted (F.seen self.old.folder).output state.now c) }
        ensures cause { HasCause (F.faults self.old.folder) (F.faults self.new.folder) result }
    {
        let length = self.folder.output_length()?;
        let text = spell(alloc, length, state)?;
        // The output has to be on the disk before a state counts it.
        self.folder.sync()?;
        self.folder.replace_state(&text)?;
        // And the new state has to be there before the commit counts as made.
        self.folder.sync()
    }
}
