// Folders of the disk, each with a lock.
ghost use Rattle.std.specs.Prelude.{◌≡◌, ◌≤◌, ⊤};
ghost use Rattle.tilt_outside.specs.Faults.{Rose};

use crate::disk_folder::DiskFolder;
use crate::enter_error::EnterError;
use crate::folders::Folders;
use std::alloc::Global;
use std::fs::{self, File, OpenFile, OpenOptions, TryLockError};
use std::io::{self, ErrorKind};
use std::marker::Model;
use std::path::Path;
use std::rt::Files;

/// The name of the file in a folder on which the program that has the folder holds a lock.
const LOCK: &str = "lock";

/// The folders of the disk, by their paths. The last one that was given is this program's alone until this is dropped: the system's lock
/// on its file `lock` says so. Nothing is proved of the lock: that it excludes other programs is assumed of the system, and tested.
#[derive(Drop)]
pub struct DiskFolders<'a, R: Files<File = File>> {
    files: &'a R,
    program: u32,
    lock: Option<File>,
    faults: u64,
}

impl<'a, R: Files<File = File>> Model for DiskFolders<'a, R> {
    ghost use Rattle.tilt_store.specs.DiskFolder.{DiskFaults};

    ghost Value = { DiskFaults };

    ghost view = { λ f. record { faults = f.faults } };
}

impl<'a, R: Files<File = File>> DiskFolders<'a, R> {
    /// The folders of the disk. `program` is a number that no other running program has, such as that of its process.
    pub fn new(files: &'a R, program: u32) -> DiskFolders<'a, R>
        ensures { result ≡ record { faults = 0 } }
    {
        DiskFolders {
            files,
            program,
            lock: None,
            faults: 0,
        }
    }

    // Makes a folder and takes its lock, if no other program has it.
    fn lock(&mut self, alloc: Global, name: &str) -> Result<(), EnterError>
        ensures failed { result ≡ Err EnterError.Failed → Rose self.old.faults self.new.faults }
        ensures kept { self.old.faults ≤ self.new.faults }
    {
        let path = format!(in alloc; "{name}/{LOCK}")?;
        if make_folder(self.files, name).is_err() {
            return Err(self.count_fault());
        }
        match lock_file(self.files, path.as_str()) {
            Ok(file) => {
                self.lock = Some(file);
                Ok(())
            }
            Err(TryLockError::WouldBlock) => Err(EnterError::InUse),
            Err(TryLockError::Error(_)) => Err(self.count_fault()),
        }
    }

    // Counts a fault.
    fn count_fault(&mut self) -> EnterError
        ensures failed { result ≡ EnterError.Failed }
        ensures rose { Rose self.old.faults self.new.faults }
        ensures kept { self.old.faults ≤ self.new.faults }
    {
        self.faults = self.faults.saturating_add(1);
        EnterError::Failed
    }
}

// Makes a folder, if it isn't there, and waits until the disk has its entry.
fn make_folder<R: Files>(files: &R, path: &str) -> io::Result<()> {
    match fs::create_dir(files, path) {
        Ok(()) => fs::open(files, folder_above(path))?.sync_all(),
        Err(error) if error.kind() == ErrorKind::AlreadyExists => Ok(()),
        Err(error) => Err(error),
    }
}

// The folder in which a folder with this path is.
fn folder_above(path: &str) -> &str {
    match Path::new(path).parent() {
        Some(above) if !above.as_str().is_empty() => above.as_str(),
        _ => ".",
    }
}

// The file with a path, locked. It is made if it isn't there.
fn lock_file<R: Files<File = File>>(files: &R, path: &str) -> Result<File, TryLockError> {
    let mut options = OpenOptions::new();
    match options.write(true).create(true).open(files, path) {
        Ok(file) => {
            file.try_lock()?;
            Ok(file)
        }
        Err(error) => Err(TryLockError::Error(error)),
    }
}

impl<'a, R: Files<File = File>> Folders<DiskFolder<'a, R>> for DiskFolders<'a, R> {
    ghost gives = { λ _ _ _. ⊤ };

    ghost faults = { λ folders. folders.faults };

    fn enter(&mut self, alloc: Global, name: &str) -> Result<DiskFolder<'a, R>, EnterError> {
        self.lock(alloc, name)?;
        Ok(DiskFolder::new(alloc, self.files, self.program, name)?)
    }
}
