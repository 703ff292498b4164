// A shelf over the files of the standard library.
ghost use Rattle.std.specs.Prelude.{⊤, [], ◌≡◌, ◌≤◌, length, IfOk};

use crate::failed::Failed;
use crate::replacing::save_whole;
use crate::shelf::Shelf;
use crate::uninterrupted::TRIES;
use std::alloc::Global;
use std::fs;
use std::io::{self, ErrorKind, Read, Seek, SeekFrom};
use std::marker::Model;
use std::rt::Files;

/// A shelf whose names are the paths of files. Nothing is proved of the bytes that they hold. A read from the beginning
/// opens the file again. It then stays open, so that reading on from the place reached opens and seeks nothing, and a
/// pipe can be read too. No file is opened before the last one was let go of, so one descriptor serves.
#[derive(Drop)]
pub struct DiskShelf<'a, R: Files> {
    alloc: Global,
    files: &'a R,
    program: u32,
    last: Option<OpenedFile<R::File>>,
    read_faults: u64,
    save_faults: u64,
    given: u64,
}

// A file that was opened for reading, and the place that was reached in it.
#[derive(Drop)]
struct OpenedFile<F> {
    name: String,
    file: F,
    place: u64,
}

impl<'a, R: Files> Model for DiskShelf<'a, R> {
    ghost use Rattle.tilt_outside.specs.DiskShelf.{DiskCounts};

    ghost Value = { DiskCounts };

    ghost view = { λ s. record { read_faults = s.read_faults; save_faults = s.save_faults; given = s.given } };
}

impl<'a, R: Files> DiskShelf<'a, R> {
    /// A shelf with no fault yet, that has given nothing. It takes memory for the names of files. `program` is a number
    /// that no other running program has, such as the number of its process: a save makes a new file with this number
    /// in its name.
    pub fn new(alloc: Global, files: &'a R, program: u32) -> DiskShelf<'a, R>
        ensures { result ≡ record { read_faults = 0; save_faults = 0; given = 0 } }
    {
        DiskShelf {
            alloc,
            files,
            program,
            last: None,
            read_faults: 0,
            save_faults: 0,
            given: 0,
        }
    }

    fn read_from(&mut self, name: &str, at: u64, room: &mut [u8]) -> io::Result<usize>
        ensures count { IfOk result (λ count. count ≤ length room.old) }
        ensures faults { self.new ≡ self.old }
    {
        let last = self.last.take();
        let mut opened = match last.filter(|last| goes_on(last, name, at)) {
            Some(last) => last,
            None => open_at(self.alloc, self.files, name, at)?,
        };
        let count = read_some(&mut opened.file, room)?;
        opened.place = opened.place.saturating_add(count as u64);
        self.last = Some(opened);
        Ok(count)
    }
}

// Whether a read of the name from a place on goes on where the file was read to.
fn goes_on<F>(last: &OpenedFile<F>, name: &str, at: u64) -> bool {
    at > 0 && last.place == at && last.name.as_str() == name
}

fn open_at<R: Files>(
    alloc: Global,
    files: &R,
    name: &str,
    at: u64,
) -> io::Result<OpenedFile<R::File>> {
    let name = String::from_str(alloc, name)?;
    let mut file = fs::open(files, name.as_str())?;
    if at > 0 {
        file.seek(SeekFrom::Start(at))?;
    }
    Ok(OpenedFile {
        name,
        file,
        place: at,
    })
}

// Reads once, and retries if it was interrupted.
fn read_some<F: Read>(file: &mut F, room: &mut [u8]) -> io::Result<usize>
    ensures { IfOk result (λ count. count ≤ length room.old) }
{
    for _ in 0..TRIES {
        match file.read(room) {
            Err(error) if error.kind() == ErrorKind::Interrupted => {}
            answer => return answer,
        }
    }
    Err(io::Error::from(ErrorKind::Interrupted))
}

impl<'a, R: Files> Shelf for DiskShelf<'a, R> {
    ghost tells = { ⊥ };

    ghost files = { λ _ _. [] };

    ghost read_faults = { λ shelf. shelf.read_faults };

    ghost save_faults = { λ shelf. shelf.save_faults };

    ghost given = { λ shelf. shelf.given };

    ghost takes = { λ _ _ _. ⊤ };

    ghost lends = { λ _. ⊤ };

    fn read_at(&mut self, name: &str, at: u64, room: &mut [u8]) -> Result<usize, Failed> {
        if let Ok(count) = self.read_from(name, at, room) {
            self.given = self.given.saturating_add(count as u64);
            return Ok(count);
        }
        self.read_faults = self.read_faults.saturating_add(1);
        Err(Failed)
    }

    fn save(&mut self, name: &str, bytes: &[u8]) -> Result<(), Failed> {
        self.last = None;
        if save_whole(self.alloc, self.files, self.program, name, bytes).is_ok() {
            return Ok(());
        }
        self.save_faults = self.save_faults.saturating_add(1);
        Err(Failed)
    }

    ghost takes_fewer = { λ _ _ _ _ _ takes. takes };
}
