// A shelf in memory that never fails.
ghost use Rattle.std.proofs.Common.{arith};
ghost use Rattle.std.specs.Prelude.{◌≡◌, ◌≢◌, ◌⊎◌, ◌<◌, ◌≤◌, ◌++◌, ◌↔◌, [], ⊤, List, ℕ};
ghost use Rattle.std.specs.Prelude.{length, take, drop, max, option_copied, None, IfOk, IsOk, OnOk, OnErr, MatchResult};
ghost use Rattle.tilt_outside.specs.Counts.{added_count};
ghost use Rattle.tilt_outside.specs.Faults.{HasCause};
ghost use Rattle.tilt_outside.specs.Files.{IsNextPiece};
ghost use Rattle.tilt_outside.specs.HeldFiles.{bytes_held, content_of, count_in, room_of, HoldsInstead};
ghost use Rattle.tilt_outside.specs.Reads.{OnlyReads};

use crate::failed::Failed;
use crate::held_file::HeldFile;
use crate::held_files::{copy_from, count_from, find_bytes, find_room, put_file, replace_bytes};
use crate::shelf::Shelf;
use std::alloc::{AllocError as OutOfMemory, Global};
use std::marker::Model;

/// A shelf that keeps its files in memory, and never fails. Each name takes as many bytes as it has room for, which is set
/// aside when it is held, so that a read or a save takes no memory. A name that isn't held reads as an empty file and has
/// no room.
#[derive(Drop)]
pub struct SureShelf {
    alloc: Global,
    files: Vec<HeldFile>,
    given: u64,
}

impl Model for SureShelf {
    ghost use Rattle.tilt_outside.specs.SureShelf.{SureFiles};

    ghost Value = { SureFiles };

    ghost view = { λ s. record { files = s.files.items; given = s.given } };
}

impl SureShelf {
    /// A shelf that holds no name.
    pub fn new(alloc: Global) -> SureShelf
        ensures { result ≡ record { files = []; given = 0 } }
    {
        SureShelf {
            alloc,
            files: Vec::new(alloc),
            given: 0,
        }
    }

    /// Makes the name hold these bytes, with room for the larger of `room` and their number. If memory runs out, all is as before.
    pub fn hold(&mut self, name: &str, bytes: &[u8], room: usize) -> Result<(), OutOfMemory>
        ensures held { OnOk result
            (HoldsInstead self.old.files self.new.files name.now bytes.now (max room (length bytes.now))) }
        ensures rest { OnOk result (self.new ≡ record self.old { files = self.new.files }) }
        ensures err { OnErr result (self.new ≡ self.old) }
    {
        let file = HeldFile::new(self.alloc, name, bytes, room)?;
        put_file(&mut self.files, name, file)
    }

    /// What the name holds, and `None` exactly if it isn't held.
    pub fn bytes(&self, name: &str) -> Option<&[u8]>
        ensures { option_copied result ≡ bytes_held self.now.files name.now }
    {
        find_bytes(&self.files, name)
    }

    /// How many bytes the name takes, which is 0 if it isn't held.
    pub fn room(&self, name: &str) -> usize
        ensures { result ≡ room_of self.now.files name.now }
    {
        find_room(&self.files, name)
    }
}

impl Shelf for SureShelf {
    ghost tells = { ⊤ };

    ghost files = { λ shelf name. content_of shelf.files name };

    ghost read_faults = { λ _. 0 };

    ghost save_faults = { λ _. 0 };

    ghost given = { λ shelf. shelf.given };

    ghost takes = { λ shelf name n. n ≤ room_of shelf.files name };

    ghost lends = { λ _. ⊤ };

    /// Gives as many bytes as there are from `at` on and fit the room.
    fn read_at(&mut self, name: &str, at: u64, room: &mut [u8]) -> Result<usize, Failed>
        requires space { 0 < length room.old }
        ensures count { IfOk result (λ n. n ≤ length room.old) }
        ensures piece { ⊤ → IfOk result (λ n. IsNextPiece (content_of self.old.files name.now) at room.new n) }
        ensures given { MatchResult result (λ n. self.new.given ≡ added_count self.old.given n) (λ _. self.new.given ≡ self.old.given) }
        ensures cause { let none : ℕ = 0 in HasCause none none result }
        ensures rest { OnlyReads (λ shelf. content_of shelf.files) (λ _. 0) (λ _. 0)
            (λ shelf other n. n ≤ room_of shelf.files other) self.old self.new }

        ensures never_fails { IsOk result }
        ensures exact { IfOk result (λ n. n ≡ count_in (content_of self.old.files name.now) at (length room.old)) }
        ensures ok { IfOk result (λ n. self.new ≡ record self.old { given = added_count self.old.given n }) }
        ensures room { IfOk result (λ n. room.new
            ≡ take n (drop at (content_of self.old.files name.now)) ++ drop n room.old) }
    {
        let bytes = find_bytes(&self.files, name).unwrap_or_default();
        let count = count_from(bytes, at, room.len());
        copy_from(bytes, at, count, room);
        self.given = self.given.saturating_add(count as u64);
        Ok(count)
    }

    /// A save under a name that isn't held, which is of no bytes, changes nothing.
    fn save(&mut self, name: &str, bytes: &[u8]) -> Result<(), Failed>
        requires { length bytes.now ≤ room_of self.old.files name.now }
        ensures saved { ⊤ → OnOk result (content_of self.new.files name.now ≡ bytes.now) }
        ensures old_or_new { ⊤ → OnErr result
            ((content_of self.new.files name.now ≡ content_of self.old.files name.now)
            ⊎ (content_of self.new.files name.now ≡ bytes.now)) }
        ensures others { ⊤ → (other : List ℕ) → other ≢ name.now
            → content_of self.new.files other ≡ content_of self.old.files other }
        ensures cause { let none : ℕ = 0 in HasCause none none result }
        ensures given { self.new.given ≡ self.old.given }
        ensures read_faults { let none : ℕ = 0 in none ≡ none }
        ensures takes { (other : List ℕ) (n : ℕ) → n ≤ room_of self.old.files other ↔ n ≤ room_of self.new.files other }

        ensures never_fails { IsOk result }
        ensures held { bytes_held self.old.files name.now ≢ None → HoldsInstead self.old.files self.new.files name.now bytes.now
            (room_of self.old.files name.now) }
        ensures not_held { bytes_held self.old.files name.now ≡ None → self.new ≡ self.old }
        ensures rest { self.new ≡ record self.old { files = self.new.files } }
    {
        let _ = replace_bytes(&mut self.files, name, bytes);
        Ok(())
    }

    ghost takes_fewer = { λ _ _ m n fewer takes. Prim.omega arith };
}
