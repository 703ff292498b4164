// The files of the system, with calls that fail, reads that give one byte each, and writes that take a few.
use std::alloc::Allocator;
use std::cell::Cell;
use std::fs::{Metadata, OpenFile, OpenOptions, Permissions};
use std::io::{self, ErrorKind, Read, Seek, SeekFrom, Write};
use std::path::PathBuf;
use std::rt::Files;

// How many bytes one read gives.
const GIVEN: usize = 1;

// How many of a piece's bytes one write takes.
const TAKEN: usize = 3;

// Which calls fail, counted from 1, and how.
#[derive(Clone, Copy)]
pub struct Faults<'a> {
    pub calls: &'a Cell<u32>,
    pub first: u32,
    pub last: u32,
    pub kind: ErrorKind,
}

impl Faults<'_> {
    fn next(&self) -> io::Result<()> {
        let call = self.calls.get().saturating_add(1);
        self.calls.set(call);
        if self.first <= call && call <= self.last {
            return Err(io::Error::from(self.kind));
        }
        Ok(())
    }

    // A call that the library retries by itself if it is interrupted.
    fn next_uninterrupted(&self) -> io::Result<()> {
        match self.next() {
            Err(error) if error.kind() == ErrorKind::Interrupted => Ok(()),
            answer => answer,
        }
    }
}

#[derive(Drop)]
pub struct FaultyFiles<'a, 'c, R: Files> {
    pub files: &'a R,
    pub faults: Faults<'c>,
}

#[derive(Drop)]
pub struct FaultyFile<'a, F> {
    file: F,
    faults: Faults<'a>,
}

impl<F: Read> Read for FaultyFile<'_, F> {
    fn read(&mut self, room: &mut [u8]) -> io::Result<usize> {
        self.faults.next()?;
        let count = room.len().min(GIVEN);
        self.file.read(&mut room[..count])
    }
}

impl<F: Write> Write for FaultyFile<'_, F> {
    fn write(&mut self, bytes: &[u8]) -> io::Result<usize> {
        self.faults.next()?;
        let count = bytes.len().min(TAKEN);
        self.file.write(&bytes[..count])
    }

    fn flush(&mut self) -> io::Result<()> {
        self.file.flush()
    }
}

impl<F: Seek> Seek for FaultyFile<'_, F> {
    fn seek(&mut self, to: SeekFrom) -> io::Result<u64> {
        self.faults.next()?;
        self.file.seek(to)
    }
}

impl<F: OpenFile> OpenFile for FaultyFile<'_, F> {
    fn metadata(&self) -> io::Result<Metadata> {
        self.faults.next()?;
        self.file.metadata()
    }

    fn set_len(&self, size: u64) -> io::Result<()> {
        self.faults.next_uninterrupted()?;
        self.file.set_len(size)
    }

    fn sync_all(&self) -> io::Result<()> {
        self.faults.next_uninterrupted()?;
        self.file.sync_all()
    }

    fn sync_data(&self) -> io::Result<()> {
        self.faults.next_uninterrupted()?;
        self.file.sync_data()
    }

    fn set_permissions(&self, permissions: Permissions) -> io::Result<()> {
        self.faults.next_uninterrupted()?;
        self.file.set_permissions(permissions)
    }
}

impl<'a, 'c, R: Files> Files for FaultyFiles<'a, 'c, R> {
    type File = FaultyFile<'c, R::File>;

    type Dir = R::Dir;

    fn open_file(&self, how: &OpenOptions, path: &str) -> io::Result<FaultyFile<'c, R::File>> {
        self.faults.next_uninterrupted()?;
        Ok(FaultyFile {
            file: self.files.open_file(how, path)?,
            faults: self.faults,
        })
    }

    fn open_dir(&self, path: &str) -> io::Result<R::Dir> {
        self.faults.next()?;
        self.files.open_dir(path)
    }

    fn metadata(&self, path: &str) -> io::Result<Metadata> {
        self.faults.next()?;
        self.files.metadata(path)
    }

    fn symlink_metadata(&self, path: &str) -> io::Result<Metadata> {
        self.faults.next()?;
        self.files.symlink_metadata(path)
    }

    fn copy(&self, from: &str, to: &str) -> io::Result<u64> {
        self.faults.next()?;
        self.files.copy(from, to)
    }

    fn rename(&self, from: &str, to: &str) -> io::Result<()> {
        self.faults.next()?;
        self.files.rename(from, to)
    }

    fn remove_file(&self, path: &str) -> io::Result<()> {
        self.faults.next()?;
        self.files.remove_file(path)
    }

    fn create_dir(&self, path: &str) -> io::Result<()> {
        self.faults.next()?;
        self.files.create_dir(path)
    }

    fn remove_dir(&self, path: &str) -> io::Result<()> {
        self.faults.next()?;
        self.files.remove_dir(path)
    }

    fn remove_dir_all<A: Allocator>(&self, alloc: A, path: &str) -> io::Result<()> {
        self.faults.next()?;
        self.files.remove_dir_all(alloc, path)
    }

    fn read_link<A: Allocator>(&self, alloc: A, path: &str) -> io::Result<PathBuf<A>> {
        self.faults.next()?;
        self.files.read_link(alloc, path)
    }

    fn chown(&self, path: &str, user: Option<u32>, group: Option<u32>) -> io::Result<()> {
        self.faults.next()?;
        self.files.chown(path, user, group)
    }
}
