// The files below a folder, which stands for the root of a system.
use std::alloc::{Allocator, Global};
use std::fs::{Metadata, OpenOptions};
use std::io;
use std::path::PathBuf;
use std::rt::Files;

#[derive(Drop)]
pub struct FilesBelow<'a, R: Files> {
    pub alloc: Global,
    pub files: &'a R,
    pub folder: &'a str,
}

impl<R: Files> FilesBelow<'_, R> {
    fn place(&self, path: &str) -> io::Result<String> {
        let folder = self.folder;
        Ok(format!(in self.alloc; "{folder}{path}")?)
    }
}

impl<R: Files> Files for FilesBelow<'_, R> {
    type File = R::File;

    type Dir = R::Dir;

    fn open_file(&self, how: &OpenOptions, path: &str) -> io::Result<R::File> {
        self.files.open_file(how, self.place(path)?.as_str())
    }

    fn open_dir(&self, path: &str) -> io::Result<R::Dir> {
        self.files.open_dir(self.place(path)?.as_str())
    }

    fn metadata(&self, path: &str) -> io::Result<Metadata> {
        self.files.metadata(self.place(path)?.as_str())
    }

    fn symlink_metadata(&self, path: &str) -> io::Result<Metadata> {
        self.files.symlink_metadata(self.place(path)?.as_str())
    }

    fn copy(&self, from: &str, to: &str) -> io::Result<u64> {
        self.files
            .copy(self.place(from)?.as_str(), self.place(to)?.as_str())
    }

    fn rename(&self, from: &str, to: &str) -> io::Result<()> {
        self.files
            .rename(self.place(from)?.as_str(), self.place(to)?.as_str())
    }

    fn remove_file(&self, path: &str) -> io::Result<()> {
        self.files.remove_file(self.place(path)?.as_str())
    }

    fn create_dir(&self, path: &str) -> io::Result<()> {
        self.files.create_dir(self.place(path)?.as_str())
    }

    fn remove_dir(&self, path: &str) -> io::Result<()> {
        self.files.remove_dir(self.place(path)?.as_str())
    }

    fn remove_dir_all<A: Allocator>(&self, alloc: A, path: &str) -> io::Result<()> {
        self.files.remove_dir_all(alloc, self.place(path)?.as_str())
    }

    fn read_link<A: Allocator>(&self, alloc: A, path: &str) -> io::Result<PathBuf<A>> {
        self.files.read_link(alloc, self.place(path)?.as_str())
    }
}
