// A folder over the files of the standard library.
ghost use Rattle.std.specs.Prelude.{◌≡◌, ◌≤◌, [], IfOk};
ghost use Rattle.tilt_outside.specs.Faults.{Rose};
ghost use Rattle.tilt_store.specs.Errors.{HasCause};

use crate::folder::Folder;
use crate::folder_error::FolderError;
use std::alloc::{AllocError as OutOfMemory, Global};
use std::fs::{self, OpenFile, OpenOptions};
use std::io::{self, ErrorKind, Write};
use std::marker::Model;
use std::rt::Files;
use tilt_outside::{DiskShelf, ReadAllFault, Shelf, read_all};

/// The name of the output in the folder.
const OUTPUT: &str = "output.csv";

/// The name of the state in the folder.
const STATE: &str = "state";

/// How many bytes a file can have.
const LONGEST: u64 = (1 << 63) - 1;

/// The files `output.csv` and `state` in a folder of the disk. Nothing is proved of the bytes that they hold: that they behave as the
/// trait says is assumed of the system, and tested.
#[derive(Drop)]
pub struct DiskFolder<'a, R: Files> {
    alloc: Global,
    files: &'a R,
    folder: String,
    output: String,
    state: String,
    shelf: DiskShelf<'a, R>,
    // What the disk may not have yet of the output.
    unsynced: Unsynced,
    faults: u64,
}

// What the disk may not have yet of a file. A file that is replaced is synced with its entry when that is done.
#[derive(Clone, Copy, Debug, PartialEq, Eq)]
enum Unsynced {
    Nothing,
    // Some of its bytes.
    Bytes,
    // Some of its bytes, and its entry in the folder.
    Entry,
}

impl Unsynced {
    // The same after its bytes have changed.
    fn with_bytes(self) -> Unsynced {
        match self {
            Unsynced::Nothing | Unsynced::Bytes => Unsynced::Bytes,
            Unsynced::Entry => Unsynced::Entry,
        }
    }
}

impl<'a, R: Files> Model for DiskFolder<'a, R> {
    ghost use Rattle.tilt_store.specs.DiskFolder.{DiskFaults};

    ghost Value = { DiskFaults };

    ghost view = { λ f. record { faults = f.faults } };
}

impl<'a, R: Files> DiskFolder<'a, R> {
    /// The folder with that path, which has to be there. `program` is a number that no other running program has, such as that of its
    /// process: while a state is replaced, the new file has it in its name.
    pub fn new(
        alloc: Global,
        files: &'a R,
        program: u32,
        folder: &str,
    ) -> Result<DiskFolder<'a, R>, OutOfMemory>
        ensures { IfOk result (λ found. found ≡ record { faults = 0 }) }
    {
        Ok(DiskFolder {
            alloc,
            files,
            folder: String::from_str(alloc, folder)?,
            output: format!(in alloc; "{folder}/{OUTPUT}")?,
            state: format!(in alloc; "{folder}/{STATE}")?,
            shelf: DiskShelf::new(alloc, files, program),
            unsynced: Unsynced::Entry,
            faults: 0,
        })
    }

    // The result of a call of the system, of which a fault is counted.
    fn counted<T>(&mut self, outcome: io::Result<T>) -> Result<T, FolderError>
        ensures { HasCause self.old.faults self.new.faults result }
    {
        match outcome {
            Ok(value) => Ok(value),
            Err(_) => Err(self.count_fault()),
        }
    }

    // Counts a fault.
    fn count_fault(&mut self) -> FolderError
        ensures failed { result ≡ FolderError.Failed }
        ensures rose { Rose self.old.faults self.new.faults }
        ensures kept { self.old.faults ≤ self.new.faults }
    {
        self.faults = self.faults.saturating_add(1);
        FolderError::Failed
    }
}

// How long a file is, and 0 if it isn't there.
fn length_of<R: Files>(files: &R, path: &str) -> io::Result<u64> {
    match files.metadata(path) {
        Ok(found) => Ok(found.len()),
        Err(error) if error.kind() == ErrorKind::NotFound => Ok(0),
        Err(error) => Err(error),
    }
}

// Appends to a file. If the disk may not have its entry, it may not be there: then it is made.
fn append_to<R: Files>(files: &R, path: &str, bytes: &[u8], unsynced: Unsynced) -> io::Result<()> {
    let mut file = OpenOptions::new()
        .append(true)
        .create(unsynced == Unsynced::Entry)
        .open(files, path)?;
    file.write_all(bytes)?;
    file.flush()
}

// Cuts a file. One that isn't there has no bytes.
fn cut_to<R: Files>(files: &R, path: &str, len: u64) -> io::Result<()> {
    match OpenOptions::new().write(true).open(files, path) {
        Ok(file) => file.set_len(len),
        Err(error) if len == 0 && error.kind() == ErrorKind::NotFound => Ok(()),
        Err(error) => Err(error),
    }
}

// Waits until the disk has the file, and returns whether it is there.
fn sync_file<R: Files>(files: &R, path: &str) -> io::Result<bool> {
    match OpenOptions::new().write(true).open(files, path) {
        Ok(file) => {
            file.sync_all()?;
            Ok(true)
        }
        Err(error) if error.kind() == ErrorKind::NotFound => Ok(false),
        Err(error) => Err(error),
    }
}

// Waits until the disk has what it may not have yet of a file in a folder. It returns what the disk may not have then: a file that isn't
// there can be made later.
fn sync_all<R: Files>(
    files: &R,
    path: &str,
    folder: &str,
    unsynced: Unsynced,
) -> io::Result<Unsynced> {
    if unsynced == Unsynced::Nothing {
        return Ok(Unsynced::Nothing);
    }
    let is_there = sync_file(files, path)?;
    if unsynced == Unsynced::Entry {
        fs::open(files, folder)?.sync_all()?;
    }
    if is_there {
        Ok(Unsynced::Nothing)
    } else {
        Ok(Unsynced::Entry)
    }
}

impl<'a, R: Files> Folder for DiskFolder<'a, R> {
    ghost tells = { ⊥ };

    ghost seen = { λ _. record { output = []; state = [] } };

    ghost may_leave = { λ _ _. ⊥ };

    ghost moment = { λ _. 0 };

    ghost left_since = { λ _ _ _. ⊥ };

    ghost faults = { λ folder. folder.faults };

    fn read_state(&mut self, alloc: Global) -> Result<Vec<u8>, FolderError> {
        let length = length_of(self.files, self.state.as_str());
        if self.counted(length)? == 0 {
            return Ok(Vec::new(alloc));
        }
        match read_all(alloc, &mut self.shelf, self.state.as_str(), LONGEST) {
            Ok(bytes) => Ok(bytes),
            Err(ReadAllFault::OutOfMemory) => Err(FolderError::OutOfMemory),
            Err(_) => Err(self.count_fault()),
        }
    }

    fn output_length(&mut self) -> Result<u64, FolderError> {
        let length = length_of(self.files, self.output.as_str());
        let length = self.counted(length)?;
        if length > LONGEST {
            return Err(self.count_fault());
        }
        Ok(length)
    }

    fn append(&mut self, bytes: &[u8]) -> Result<(), FolderError> {
        self.unsynced = self.unsynced.with_bytes();
        let outcome = append_to(self.files, self.output.as_str(), bytes, self.unsynced);
        self.counted(outcome)
    }

    fn cut(&mut self, len: u64) -> Result<(), FolderError> {
        self.unsynced = self.unsynced.with_bytes();
        let outcome = cut_to(self.files, self.output.as_str(), len);
        self.counted(outcome)
    }

    fn sync(&mut self) -> Result<(), FolderError> {
        let outcome = sync_all(
            self.files,
            self.output.as_str(),
            self.folder.as_str(),
            self.unsynced,
        );
        self.unsynced = self.counted(outcome)?;
        Ok(())
    }

    fn replace_state(&mut self, bytes: &[u8]) -> Result<(), FolderError> {
        if self.shelf.save(self.state.as_str(), bytes).is_ok() {
            return Ok(());
        }
        Err(self.count_fault())
    }

    ghost counts_now = { λ _ _ _ _ left. left };

    ghost only_now = { λ _ _ left. left };
}
