// A shelf in memory.
ghost use Rattle.std.specs.Prelude.{◌≡◌, ◌≢◌, ◌⊎◌, ◌<◌, ◌≤◌, ◌-◌, ◌++◌, ◌↔◌, ◌∷◌, [], ⊤, List, ℕ};
ghost use Rattle.std.specs.Prelude.{length, take, drop, min, max, position, option_copied, IfOk, IsErr, OnOk, OnErr, MatchResult};
ghost use Rattle.tilt_outside.specs.Counts.{added_count};
ghost use Rattle.tilt_outside.specs.Faults.{HasCause};
ghost use Rattle.tilt_outside.specs.Files.{IsNextPiece};
ghost use Rattle.tilt_outside.specs.Reads.{OnlyReads};
ghost use Rattle.tilt_outside.specs.HeldFiles.{bytes_held, content_of, count_in, room_of, HoldsInstead};
ghost use Rattle.tilt_outside.specs.MemShelf.{ReadFails, SaveFails};
ghost use Rattle.tilt_outside.specs.MemShelf.{after_call, after_read, after_read_fault, after_save_fault};

use crate::failed::Failed;
use crate::held_file::HeldFile;
use crate::held_files::{copy_from, count_from, find_bytes, put_file, replace_bytes};
use crate::shelf::Shelf;
use std::alloc::{AllocError as OutOfMemory, Global};
use std::marker::Model;

/// A shelf that keeps its files in memory, and fails at the calls that it was given. Each file has room for a number
/// of bytes, which is set aside when it is held, so that a read or a save takes no memory.
#[derive(Drop)]
pub struct MemShelf {
    alloc: Global,
    files: Vec<HeldFile>,
    read_faults: u64,
    save_faults: u64,
    given: u64,
    calls: u64,
    failing: Vec<u64>,
}

impl Model for MemShelf {
    ghost use Rattle.tilt_outside.specs.MemShelf.{ShelfState};

    ghost Value = { ShelfState };

    ghost view = { λ s. record {
      files = s.files.items;
      read_faults = s.read_faults;
      save_faults = s.save_faults;
      given = s.given;
      calls = s.calls;
      failing = s.failing.items;
    } };
}

impl MemShelf {
    /// A shelf that holds no name.
    pub fn new(alloc: Global) -> MemShelf
        ensures { result ≡ record { files = []; read_faults = 0; save_faults = 0; given = 0; calls = 0; failing = [] } }
    {
        MemShelf {
            alloc,
            files: Vec::new(alloc),
            read_faults: 0,
            save_faults: 0,
            given: 0,
            calls: 0,
            failing: Vec::new(alloc),
        }
    }

    /// Makes the name hold these bytes, with room for the larger of `room` and their number. If memory runs out, all is as before.
    pub fn hold(&mut self, name: &str, bytes: &[u8], room: usize) -> Result<(), OutOfMemory>
        ensures held { OnOk result
            (HoldsInstead self.old.files self.new.files name.now bytes.now (max room (length bytes.now))) }
        ensures rest { OnOk result (self.new ≡ record self.old { files = self.new.files }) }
        ensures err { OnErr result (self.new ≡ self.old) }
    {
        let file = HeldFile::new(self.alloc, name, bytes, room)?;
        put_file(&mut self.files, name, file)
    }

    /// What the name holds, and `None` exactly if it isn't held.
    pub fn bytes(&self, name: &str) -> Option<&[u8]>
        ensures { option_copied result ≡ bytes_held self.now.files name.now }
    {
        find_bytes(&self.files, name)
    }

    /// How many bytes the reads have given so far. The count stops at the end of 64 bits.
    pub fn given(&self) -> u64
        ensures { result ≡ self.now.given }
    {
        self.given
    }

    /// Makes the call of that number fail. Reads and saves are counted together from 1, those that fail too.
    pub fn fail_at(&mut self, call: u64) -> Result<(), OutOfMemory>
        ensures ok { OnOk result (self.new ≡ record self.old { failing = self.old.failing ++ call ∷ [] }) }
        ensures err { OnErr result (self.new ≡ self.old) }
    {
        self.failing.push(call)?;
        Ok(())
    }
}

impl Shelf for MemShelf {
    ghost tells = { ⊤ };

    ghost files = { λ shelf name. content_of shelf.files name };

    ghost read_faults = { λ shelf. shelf.read_faults };

    ghost save_faults = { λ shelf. shelf.save_faults };

    ghost given = { λ shelf. shelf.given };

    ghost takes = { λ _ _ _. ⊤ };

    ghost lends = { λ _. ⊤ };

    /// Fails exactly if the name isn't held or the number of the call is listed. It gives as many bytes as there are
    /// from `at` on and fit the room.
    fn read_at(&mut self, name: &str, at: u64, room: &mut [u8]) -> Result<usize, Failed>
        requires space { 0 < length room.old }
        ensures count { IfOk result (λ n. n ≤ length room.old) }
        ensures piece { ⊤ → IfOk result (λ n. IsNextPiece (content_of self.old.files name.now) at room.new n) }
        ensures given { MatchResult result (λ n. self.new.given ≡ added_count self.old.given n) (λ _. self.new.given ≡ self.old.given) }
        ensures cause { HasCause self.old.read_faults self.new.read_faults result }
        ensures rest { OnlyReads (λ shelf. content_of shelf.files) (λ shelf. shelf.read_faults) (λ shelf. shelf.save_faults)
            (λ _ _ _. ⊤) self.old self.new }

        ensures fails { IsErr result ↔ ReadFails self.old name.now }
        ensures exact { IfOk result (λ n. n ≡ count_in (content_of self.old.files name.now) at (length room.old)) }
        ensures ok { IfOk result (λ n. self.new ≡ after_read self.old n) }
        ensures room { IfOk result (λ n. room.new
            ≡ take n (drop at (content_of self.old.files name.now)) ++ drop n room.old) }
        ensures err { OnErr result (self.new ≡ after_read_fault self.old) }
        ensures no_bytes { OnErr result (room.new ≡ room.old) }
    {
        self.calls = self.calls.saturating_add(1);
        let is_listed = self.failing.contains(&self.calls);
        match find_bytes(&self.files, name) {
            Some(bytes) if !is_listed => {
                let count = count_from(bytes, at, room.len());
                copy_from(bytes, at, count, room);
                self.given = self.given.saturating_add(count as u64);
                Ok(count)
            }
            _ => {
                self.read_faults = self.read_faults.saturating_add(1);
                Err(Failed)
            }
        }
    }

    /// Fails exactly if the name isn't held, the bytes are more than its room, or the number of the call is listed. A
    /// save that fails changes no file.
    fn save(&mut self, name: &str, bytes: &[u8]) -> Result<(), Failed>
        ensures saved { ⊤ → OnOk result (content_of self.new.files name.now ≡ bytes.now) }
        ensures old_or_new { ⊤ → OnErr result
            ((content_of self.new.files name.now ≡ content_of self.old.files name.now)
            ⊎ (content_of self.new.files name.now ≡ bytes.now)) }
        ensures others { ⊤ → (other : List ℕ) → other ≢ name.now
            → content_of self.new.files other ≡ content_of self.old.files other }
        ensures cause { HasCause self.old.save_faults self.new.save_faults result }
        ensures given { self.new.given ≡ self.old.given }
        ensures read_faults { self.new.read_faults ≡ self.old.read_faults }
        ensures takes { (other : List ℕ) (n : ℕ) → ⊤ ↔ ⊤ }

        ensures fails { IsErr result ↔ SaveFails self.old name.now bytes.now }
        ensures held { OnOk result (HoldsInstead self.old.files self.new.files name.now bytes.now
            (room_of self.old.files name.now)) }
        ensures rest { OnOk result (self.new ≡ record (after_call self.old) { files = self.new.files }) }
        ensures err { OnErr result (self.new ≡ after_save_fault self.old) }
    {
        self.calls = self.calls.saturating_add(1);
        let is_listed = self.failing.contains(&self.calls);
        if !is_listed && replace_bytes(&mut self.files, name, bytes) {
            return Ok(());
        }
        self.save_faults = self.save_faults.saturating_add(1);
        Err(Failed)
    }

    ghost takes_fewer = { λ _ _ _ _ _ takes. takes };
}
