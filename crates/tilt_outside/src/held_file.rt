// A file in memory, for the shelves in memory.
ghost use Rattle.std.specs.Prelude.{◌≡◌, ◌≤◌, length, max, IfOk};
ghost use Rattle.std.specs.Str.{bytes_eq};

use std::alloc::{AllocError as OutOfMemory, Global};
use std::marker::Model;

/// A named file in memory. Memory for all the bytes that it may have is set aside.
#[derive(Drop)]
pub(crate) struct HeldFile {
    name: String,
    bytes: Vec<u8>,
    room: usize,
}

impl Model for HeldFile {
    ghost use Rattle.std.specs.Prelude.{◌≤◌, string_bytes, vec_capacity};
    ghost use Rattle.tilt_outside.specs.HeldFiles.{HeldFile as FileValue};

    ghost Value = { FileValue };

    ghost view = { λ f. record { name = string_bytes f.name; bytes = f.bytes.items; room = f.room } };

    ghost invariant = { λ f. f.room ≤ vec_capacity f.bytes };
}

impl HeldFile {
    /// A file of these bytes, with room for the greater of `room` and their number.
    pub(crate) fn new(
        alloc: Global,
        name: &str,
        bytes: &[u8],
        room: usize,
    ) -> Result<HeldFile, OutOfMemory>
        ensures { IfOk result (λ file. file ≡ record {
          name = name.now;
          bytes = bytes.now;
          room = max room (length bytes.now);
        }) }
    {
        let room = room.max(bytes.len());
        let mut kept = Vec::with_capacity(alloc, room)?;
        kept.extend_from_slice(bytes)?;
        Ok(HeldFile {
            name: String::from_str(alloc, name)?,
            bytes: kept,
            room,
        })
    }

    /// Whether the file has that name.
    pub(crate) fn is_named(&self, name: &str) -> bool
        ensures { result ≡ bytes_eq self.now.name name.now }
    {
        self.name.as_str() == name
    }

    /// What the file holds.
    pub(crate) fn bytes(&self) -> &[u8]
        ensures { result.now ≡ self.now.bytes }
    {
        self.bytes.as_slice()
    }

    /// How many bytes the file may have.
    pub(crate) fn room(&self) -> usize
        ensures { result ≡ self.now.room }
    {
        self.room
    }

    /// Replaces the bytes that are there by these.
    pub(crate) fn replace(&mut self, bytes: &[u8])
        requires { length bytes.now ≤ self.old.room }
        ensures { self.new ≡ record self.old { bytes = bytes.now } }
    {
        self.bytes.clear();
        self.bytes.extend_from_slice(bytes).unwrap();
    }
}
