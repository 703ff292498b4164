// Named files, which are read from a place on and saved whole.
ghost use Rattle.std.specs.Prelude.{◌≡◌, ◌≢◌, ◌⊎◌, ◌<◌, ◌≤◌, ◌↔◌, List, ℕ, length, IfOk, OnOk, OnErr, MatchResult};
ghost use Rattle.tilt_outside.specs.Counts.{added_count};
ghost use Rattle.tilt_outside.specs.Faults.{HasCause};
ghost use Rattle.tilt_outside.specs.Files.{IsNextPiece};
ghost use Rattle.tilt_outside.specs.Reads.{OnlyReads};

use crate::failed::Failed;

/// Named files. Code that is generic over a shelf knows of it only what is here.
pub trait Shelf {
    /// Whether this kind of shelf has a model of what it holds. A disk doesn't.
    ghost tells: { Type 0 };

    /// The bytes that each name holds, if the shelf has a model of them. A name that isn't held has none.
    ghost files: { Self → List ℕ → List ℕ };

    /// How often a read has failed. The count never falls.
    ghost read_faults: { Self → ℕ };

    /// How often a save has failed. The count never falls.
    ghost save_faults: { Self → ℕ };

    /// How many bytes the reads have given so far. The count stops at the end of 64 bits.
    ghost given: { Self → ℕ };

    /// Whether a name takes that many bytes in one save.
    ghost takes: { Self → List ℕ → ℕ → Type 0 };

    /// Which names may be read. No call changes it.
    ghost lends: { List ℕ → Type 0 };

    /// Copies the bytes of the name from place `at` on into the beginning of the room, and returns how many: 0 only
    /// at the end. It changes no name.
    fn read_at(&mut self, name: &str, at: u64, room: &mut [u8]) -> Result<usize, Failed>
        requires space { 0 < length room.old }
        requires lent { lends name.now }
        ensures count { IfOk result (λ n. n ≤ length room.old) }
        ensures piece { tells → IfOk result (λ n. IsNextPiece (files self.old name.now) at room.new n) }
        ensures given { MatchResult result (λ n. given self.new ≡ added_count (given self.old) n) (λ _. given self.new ≡ given self.old) }
        ensures cause { HasCause (read_faults self.old) (read_faults self.new) result }
        ensures rest { OnlyReads files read_faults save_faults takes self.old self.new };

    /// Makes the name hold exactly these bytes. After `Failed` it holds the old or the new ones.
    fn save(&mut self, name: &str, bytes: &[u8]) -> Result<(), Failed>
        requires { takes self.old name.now (length bytes.now) }
        ensures saved { tells → OnOk result (files self.new name.now ≡ bytes.now) }
        ensures old_or_new { tells → OnErr result ((files self.new name.now ≡ files self.old name.now)
            ⊎ (files self.new name.now ≡ bytes.now)) }
        ensures others { tells → (other : List ℕ) → other ≢ name.now → files self.new other ≡ files self.old other }
        ensures cause { HasCause (save_faults self.old) (save_faults self.new) result }
        ensures given { given self.new ≡ given self.old }
        ensures read_faults { read_faults self.new ≡ read_faults self.old }
        ensures takes { (other : List ℕ) (n : ℕ) → takes self.old other n ↔ takes self.new other n };

    /// What takes that many bytes takes fewer too.
    ghost takes_fewer: { (shelf : Self) (name : List ℕ) (m n : ℕ) → m ≤ n → takes shelf name n → takes shelf name m };
}
