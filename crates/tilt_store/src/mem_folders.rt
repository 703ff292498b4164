// A folder in memory, given once.
ghost use Rattle.std.specs.Prelude.{◌≡◌, None, Some};
ghost use Rattle.tilt_store.specs.Crash.{Only};
ghost use Rattle.tilt_store.specs.MemFolder.{mem_may_leave, mem_seen};

use crate::enter_error::EnterError;
use crate::folders::Folders;
use crate::mem_folder::MemFolder;
use std::alloc::Global;
use std::marker::Model;

/// A folder in memory, which has every name. It is given once, and is in use from then on.
#[derive(Drop)]
pub struct MemFolders {
    folder: Option<MemFolder>,
}

impl Model for MemFolders {
    ghost use Rattle.std.specs.Option.{IfSome};
    ghost use Rattle.tilt_store.specs.Crash.{Only};
    ghost use Rattle.tilt_store.specs.MemFolder.{mem_may_leave, mem_seen};
    ghost use Rattle.tilt_store.specs.MemFolders.{FoldersState};

    ghost Value = { FoldersState };

    ghost view = { λ f. record { folder = f.folder } };

    ghost invariant = { λ f. IfSome f.folder (λ folder. Only (mem_seen folder) (mem_may_leave folder)) };
}

impl MemFolders {
    /// The place of a folder of which a crash leaves what is seen.
    pub fn new(folder: MemFolder) -> MemFolders
        requires { Only (mem_seen folder) (mem_may_leave folder) }
        ensures { result ≡ record { folder = Some folder } }
    {
        MemFolders {
            folder: Some(folder),
        }
    }
}

impl Folders<MemFolder> for MemFolders {
    ghost gives = { λ folders _ folder. folders.folder ≡ Some folder };

    ghost faults = { λ _. 0 };

    fn enter(&mut self, _alloc: Global, _name: &str) -> Result<MemFolder, EnterError> {
        match self.folder.take() {
            Some(folder) => Ok(folder),
            None => Err(EnterError::InUse),
        }
    }
}
