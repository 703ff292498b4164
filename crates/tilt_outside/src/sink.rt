// What bytes are written to, in order.
ghost use Rattle.std.specs.Prelude.{◌≡◌, ◌≤◌, ◌↔◌, List, ℕ, length, OnOk};
ghost use Rattle.tilt_outside.specs.Faults.{HasCause};
ghost use Rattle.tilt_outside.specs.Written.{Puts};

use crate::failed::Failed;

/// What bytes are written to, in order. Code that is generic over a sink knows of it only what is here.
pub trait Sink {
    /// Whether this kind of sink has a model of what was written to it. A terminal or a file on a disk doesn't.
    ghost tells: { Type 0 };

    /// The bytes that were written so far, in order, if the sink has a model of them: all of them, held back or not.
    ghost written: { Self → List ℕ };

    /// How many bytes were written and not yet handed on.
    ghost held_back: { Self → ℕ };

    /// How often a write or a flush has failed. The count never falls.
    ghost faults: { Self → ℕ };

    /// Whether the sink takes that many bytes more.
    ghost takes: { Self → ℕ → Type 0 };

    /// Appends the piece. After `Failed` a prefix of the piece was appended, which may be all of it or nothing. A fault of
    /// the device may show only at a later write, or at the flush.
    fn put(&mut self, piece: &[u8]) -> Result<(), Failed>
        requires { takes self.old (length piece.now) }
        ensures { Puts tells written faults takes self.old self.new piece.now result };

    /// Hands on all that is held back. After `Failed` some of it may still be held back.
    fn flush(&mut self) -> Result<(), Failed>
        ensures handed_on { OnOk result (held_back self.new ≡ 0) }
        ensures written { written self.new ≡ written self.old }
        ensures cause { HasCause (faults self.old) (faults self.new) result }
        ensures takes { (n : ℕ) → takes self.old n ↔ takes self.new n };

    /// What takes that many bytes takes fewer too.
    ghost takes_fewer: { (sink : Self) (m n : ℕ) → m ≤ n → takes sink n → takes sink m };
}
