// A sink in memory that never fails.
ghost use Rattle.std.proofs.Common.{arith};
ghost use Rattle.std.specs.Prelude.{◌≡◌, ◌≤◌, ◌↔◌, [], ⊤, ℕ, length, IfOk, IsOk, OnOk};
ghost use Rattle.tilt_outside.specs.Faults.{HasCause};
ghost use Rattle.tilt_outside.specs.SureSink.{after_put};
ghost use Rattle.tilt_outside.specs.Written.{Puts};

use crate::failed::Failed;
use crate::sink::Sink;
use std::alloc::{AllocError as OutOfMemory, Global};
use std::marker::Model;

/// A sink that keeps what is written to it in memory, and never fails. It takes as many bytes as there is room for, which
/// it sets aside when it is made, so that a write takes no memory.
#[derive(Drop)]
pub struct SureSink {
    bytes: Vec<u8>,
    room: usize,
}

impl Model for SureSink {
    ghost use Rattle.std.specs.Prelude.{◌≤◌, ◌+◌, vec_len, vec_capacity};
    ghost use Rattle.tilt_outside.specs.SureSink.{SinkRoom};

    ghost Value = { SinkRoom };

    ghost view = { λ s. record { written = s.bytes.items; room = s.room } };

    ghost invariant = { λ s. vec_len s.bytes + s.room ≤ vec_capacity s.bytes };
}

impl SureSink {
    /// A sink to which nothing was written, with room for `room` bytes.
    pub fn new(alloc: Global, room: usize) -> Result<SureSink, OutOfMemory>
        ensures { IfOk result (λ sink. sink ≡ record { written = []; room = room }) }
    {
        Ok(SureSink {
            bytes: Vec::with_capacity(alloc, room)?,
            room,
        })
    }

    /// What was written so far.
    pub fn written(&self) -> &[u8]
        ensures { result.now ≡ self.now.written }
    {
        self.bytes.as_slice()
    }

    /// How many bytes the sink still takes.
    pub fn room(&self) -> usize
        ensures { result ≡ self.now.room }
    {
        self.room
    }
}

impl Sink for SureSink {
    ghost tells = { ⊤ };

    ghost written = { λ sink. sink.written };

    ghost held_back = { λ _. 0 };

    ghost faults = { λ _. 0 };

    ghost takes = { λ sink n. n ≤ sink.room };

    /// Appends the whole piece.
    fn put(&mut self, piece: &[u8]) -> Result<(), Failed>
        requires { length piece.now ≤ self.old.room }
        ensures puts { Puts ⊤ (λ sink. sink.written) (λ _. 0) (λ sink n. n ≤ sink.room) self.old self.new piece.now result }

        ensures never_fails { IsOk result }
        ensures ok { self.new ≡ after_put self.old piece.now }
    {
        self.bytes.extend_from_slice(piece).unwrap();
        self.room -= piece.len();
        Ok(())
    }

    /// Nothing is ever held back.
    fn flush(&mut self) -> Result<(), Failed>
        ensures handed_on { let none : ℕ = 0 in OnOk result (none ≡ 0) }
        ensures written { self.new.written ≡ self.old.written }
        ensures cause { let none : ℕ = 0 in HasCause none none result }
        ensures takes { (n : ℕ) → n ≤ self.old.room ↔ n ≤ self.new.room }

        ensures never_fails { IsOk result }
        ensures same { self.new ≡ self.old }
    {
        Ok(())
    }

    ghost takes_fewer = { λ _ m n fewer takes. Prim.omega arith };
}
