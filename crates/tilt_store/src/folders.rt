// Where folders are.
ghost use Rattle.std.specs.Prelude.{◌≤◌, ℕ, List, IfOk, IsErrOf};
ghost use Rattle.tilt_outside.specs.Faults.{Rose};
ghost use Rattle.tilt_store.specs.Crash.{Only};

use crate::enter_error::EnterError;
use crate::folder::Folder;
use std::alloc::Global;

/// Where folders are: each has a name, and one program at a time has it. Code that is generic over folders knows only this of them.
pub trait Folders<F: Folder> {
    ghost use Rattle.tilt_store.specs.declared.enter_error.EnterError.TheVariants.{Failed};

    /// Whether this is the folder with that name.
    ghost gives: { Self → List ℕ → F → Type 0 };

    /// How often a call has failed.
    ghost faults: { Self → ℕ };

    /// The folder with that name. It is made if it isn't there. No other program gets it before this one drops it or ends. What is seen of
    /// it is what is on the disk.
    fn enter(&mut self, alloc: Global, name: &str) -> Result<F, EnterError>
        ensures gives { IfOk result (λ folder. gives self.old name.now folder) }
        ensures only { F.tells → IfOk result (λ folder. Only (F.seen folder) (F.may_leave folder)) }
        ensures failed { IsErrOf result Failed → Rose (faults self.old) (faults self.new) }
        ensures kept { faults self.old ≤ faults self.new };
}
