// A folder with an output file and a state file: what is in it, and what a crash can leave.
ghost use Rattle.std.specs.Prelude.{◌≡◌, ◌≤◌, ◌<◌, ◌^◌, ◌++◌, ℕ, length, take, IfOk, OnOk};
ghost use Rattle.tilt_store.specs.Crash.{Elapses, Follows, NoMore, NoneBut, Only};
ghost use Rattle.tilt_store.specs.Errors.{HasCause};
ghost use Rattle.tilt_store.specs.Kept.{Cut, Kept, Replaced, Torn};

use crate::folder_error::FolderError;
use std::alloc::Global;

/// A folder with an output file, which is appended to and cut, and a state file, which is replaced whole. Code that is generic over
/// a folder knows only this of it.
pub trait Folder {
    /// Whether this kind of folder says what is in it. A disk doesn't.
    ghost tells: { Type 0 };

    /// What calls see of the files.
    ghost seen: { Self → Kept };

    /// What a crash at this moment can leave.
    ghost may_leave: { Self → Kept → Type 0 };

    /// The moment, as a number that doesn't fall.
    ghost moment: { Self → ℕ };

    /// What a crash at some moment from that one on can have left, during a call or between two.
    ghost left_since: { Self → ℕ → Kept → Type 0 };

    /// How often a call has failed.
    ghost faults: { Self → ℕ };

    /// The bytes of the state file, none if it isn't there.
    fn read_state(&mut self, alloc: Global) -> Result<Vec<u8>, FolderError>
        ensures bytes { tells → IfOk result (λ bytes. bytes.items ≡ (seen self.old).state) }
        ensures same { tells → seen self.new ≡ seen self.old }
        ensures crash { tells → NoMore (may_leave self.old) (may_leave self.new) }
        ensures time { tells → Elapses (moment self.old) (moment self.new)
            (left_since self.old) (left_since self.new) (may_leave self.new) }
        ensures cause { HasCause (faults self.old) (faults self.new) result };

    /// How many bytes the output has, which are fewer than 2^63. A longer output is a fault.
    fn output_length(&mut self) -> Result<u64, FolderError>
        ensures length { tells → IfOk result (λ n. n ≡ length (seen self.old).output) }
        ensures short { IfOk result (λ n. n < 2 ^ 63) }
        ensures same { tells → seen self.new ≡ seen self.old }
        ensures crash { tells → NoMore (may_leave self.old) (may_leave self.new) }
        ensures time { tells → Elapses (moment self.old) (moment self.new)
            (left_since self.old) (left_since self.new) (may_leave self.new) }
        ensures cause { HasCause (faults self.old) (faults self.new) result };

    /// Appends bytes to the output. Until the next `sync`, a crash can leave any bytes in their place, and fewer of them.
    fn append(&mut self, bytes: &[u8]) -> Result<(), FolderError>
        ensures appended { tells → OnOk result
            (seen self.new ≡ record (seen self.old) { output = (seen self.old).output ++ bytes.now }) }
        ensures crash { tells → Follows (Torn (length (seen self.old).output) (length bytes.now))
            (may_leave self.old) (may_leave self.new) }
        ensures time { tells → Elapses (moment self.old) (moment self.new)
            (left_since self.old) (left_since self.new) (may_leave self.new) }
        ensures cause { HasCause (faults self.old) (faults self.new) result };

    /// Cuts the output to a length. Until the next `sync`, a crash can leave any length between.
    fn cut(&mut self, len: u64) -> Result<(), FolderError>
        requires { tells → len ≤ length (seen self.old).output }
        ensures cut { tells → OnOk result (seen self.new ≡ record (seen self.old) { output = take len (seen self.old).output }) }
        ensures crash { tells → Follows (Cut len) (may_leave self.old) (may_leave self.new) }
        ensures time { tells → Elapses (moment self.old) (moment self.new)
            (left_since self.old) (left_since self.new) (may_leave self.new) }
        ensures cause { HasCause (faults self.old) (faults self.new) result };

    /// After `Ok`, a crash leaves exactly what is seen.
    fn sync(&mut self) -> Result<(), FolderError>
        ensures durable { tells → OnOk result (Only (seen self.new) (may_leave self.new)) }
        ensures same { tells → seen self.new ≡ seen self.old }
        ensures crash { tells → NoneBut (seen self.old) (may_leave self.old) (may_leave self.new) }
        ensures time { tells → Elapses (moment self.old) (moment self.new)
            (left_since self.old) (left_since self.new) (may_leave self.new) }
        ensures cause { HasCause (faults self.old) (faults self.new) result };

    /// Replaces the state's bytes. A crash leaves the old state or the new one, whole; which of them is known after the next `sync`.
    fn replace_state(&mut self, bytes: &[u8]) -> Result<(), FolderError>
        ensures replaced { tells → OnOk result (seen self.new ≡ record (seen self.old) { state = bytes.now }) }
        ensures crash { tells → Follows (Replaced bytes.now) (may_leave self.old) (may_leave self.new) }
        ensures time { tells → Elapses (moment self.old) (moment self.new)
            (left_since self.old) (left_since self.new) (may_leave self.new) }
        ensures cause { HasCause (faults self.old) (faults self.new) result };

    /// This moment is one of those since an earlier one.
    ghost counts_now: { (folder : Self) (t : ℕ) (c : Kept) → t ≤ moment folder → may_leave folder c → left_since folder t c };

    /// Since this moment there is no other.
    ghost only_now: { (folder : Self) (c : Kept) → left_since folder (moment folder) c → may_leave folder c };
}
