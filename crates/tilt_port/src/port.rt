// What bytes are read from and written to, in one order.
ghost use Rattle.std.specs.Prelude.{◌≡◌, ◌<◌, ◌≤◌, length, IfOk, OnOk};
ghost use Rattle.tilt_outside.specs.Counts.{added_count};
ghost use Rattle.tilt_outside.specs.Faults.{HasCause};
ghost use Rattle.tilt_port.specs.Transcript.{HasRead, Keeps, Transcript, Writes};

use tilt_outside::Failed;

/// What bytes are read from, in pieces of any size, and written to. Code that is generic over a port knows only this of it.
pub trait Port {
    /// Whether this kind of port says what went through it. The standard streams of a process don't.
    ghost tells: { Type 0 };

    /// What was read and written so far, as far as the port says it. The counts of faults are always right, and so is how many bytes
    /// are held back.
    ghost transcript: { Self → Transcript };

    /// Reads more into the beginning of the room, and returns how many bytes: 0 only at the end. After `Failed` nothing was read.
    fn read(&mut self, room: &mut [u8]) -> Result<usize, Failed>
        requires { 0 < length room.old }
        ensures count { IfOk result (λ n. n ≤ length room.old) }
        ensures length { length room.new ≡ length room.old }
        ensures read { tells → HasRead (transcript self.old) (transcript self.new) room.new result }
        ensures cause { HasCause (transcript self.old).read_faults (transcript self.new).read_faults result }
        ensures writes { (transcript self.new).write_faults ≡ (transcript self.old).write_faults };

    /// Appends the piece to what was written. After `Failed` a prefix of it was appended, which may be all of it or nothing. A fault of the
    /// device may show only at a later write, or at the flush.
    fn write(&mut self, piece: &[u8]) -> Result<(), Failed>
        ensures { Writes tells (transcript self.old) (transcript self.new) piece.now result };

    /// Hands on all bytes that are held back. After `Failed` some of them may still be held back.
    fn flush(&mut self) -> Result<(), Failed>
        ensures handed_on { OnOk result ((transcript self.new).held_back ≡ 0) }
        ensures keeps { tells → Keeps (transcript self.old) (transcript self.new) }
        ensures cause { HasCause (transcript self.old).write_faults (transcript self.new).write_faults result }
        ensures reads { (transcript self.new).read_faults ≡ (transcript self.old).read_faults };

    /// How many bytes were written so far. The count stops at the end of 64 bits.
    fn count_written(&self) -> u64
        ensures { tells → result ≡ added_count 0 (length (transcript self.now).written) };
}
