// A sink in memory.
ghost use Rattle.std.specs.Prelude.{◌≡◌, ◌≤◌, ◌+◌, ◌-◌, ◌++◌, ◌↔◌, ◌∷◌, [], ⊤, ℕ, length, vec_len, vec_capacity, IfOk, IsErr, OnOk, OnErr};
ghost use Rattle.tilt_outside.specs.Faults.{HasCause};
ghost use Rattle.tilt_outside.specs.MemSink.{PutFails, FlushFails, after_put, after_fault, after_flush, after_flush_fault};
ghost use Rattle.tilt_outside.specs.Written.{Puts};

use crate::failed::Failed;
use crate::sink::Sink;
use std::alloc::{AllocError as OutOfMemory, Global};
use std::marker::Model;

/// A sink that keeps what is written to it in memory, and fails at the calls that it was given. It has room for a
/// number of bytes, which it sets aside when it is made, so that a write takes no memory.
#[derive(Drop)]
pub struct MemSink {
    bytes: Vec<u8>,
    room: usize,
    faults: u64,
    calls: u64,
    failing: Vec<u64>,
}

impl Model for MemSink {
    ghost use Rattle.std.specs.Prelude.{◌≤◌, ◌+◌, vec_len, vec_capacity};
    ghost use Rattle.tilt_outside.specs.MemSink.{SinkState};

    ghost Value = { SinkState };

    ghost view = { λ s. record {
      written = s.bytes.items;
      room = s.room;
      faults = s.faults;
      calls = s.calls;
      failing = s.failing.items;
    } };

    ghost invariant = { λ s. vec_len s.bytes + s.room ≤ vec_capacity s.bytes };
}

impl MemSink {
    /// A sink to which nothing was written, with room for `room` bytes.
    pub fn new(alloc: Global, room: usize) -> Result<MemSink, OutOfMemory>
        ensures { IfOk result (λ sink. sink ≡ record {
          written = [];
          room = room;
          faults = 0;
          calls = 0;
          failing = [];
        }) }
    {
        Ok(MemSink {
            bytes: Vec::with_capacity(alloc, room)?,
            room,
            faults: 0,
            calls: 0,
            failing: Vec::new(alloc),
        })
    }

    /// What was written so far.
    pub fn written(&self) -> &[u8]
        ensures { result.now ≡ self.now.written }
    {
        self.bytes.as_slice()
    }

    /// Makes the call of that number fail. Calls of `put` and `flush` are counted together from 1, those that fail too.
    pub fn fail_at(&mut self, call: u64) -> Result<(), OutOfMemory>
        ensures ok { OnOk result (self.new ≡ record self.old { failing = self.old.failing ++ call ∷ [] }) }
        ensures err { OnErr result (self.new ≡ self.old) }
    {
        self.failing.push(call)?;
        Ok(())
    }
}

// Takes the piece into the room that was set aside.
fn append(bytes: &mut Vec<u8>, room: &mut usize, piece: &[u8])
    requires fits { length piece.now ≤ room.old }
    requires set_aside { vec_len bytes.old + room.old ≤ vec_capacity bytes.old }
    ensures appended { bytes.new.items ≡ bytes.old.items ++ piece.now }
    ensures room { room.new ≡ room.old - length piece.now }
    ensures set_aside { vec_len bytes.new + room.new ≤ vec_capacity bytes.new }
{
    bytes.extend_from_slice(piece).unwrap();
    *room -= piece.len();
}

impl Sink for MemSink {
    ghost tells = { ⊤ };

    ghost written = { λ sink. sink.written };

    ghost held_back = { λ _. 0 };

    ghost faults = { λ sink. sink.faults };

    ghost takes = { λ _ _. ⊤ };

    /// Fails exactly if the piece is longer than the room or the number of the call is listed. It then appends the
    /// first half of the piece, rounded down, as far as there is room.
    fn put(&mut self, piece: &[u8]) -> Result<(), Failed>
        ensures puts { Puts ⊤ (λ sink. sink.written) (λ sink. sink.faults) (λ _ _. ⊤) self.old self.new piece.now result }

        ensures fails { IsErr result ↔ PutFails self.old piece.now }
        ensures ok { OnOk result (self.new ≡ after_put self.old piece.now) }
        ensures err { OnErr result (self.new ≡ after_fault self.old piece.now) }
    {
        self.calls = self.calls.saturating_add(1);
        if piece.len() > self.room || self.failing.contains(&self.calls) {
            self.faults = self.faults.saturating_add(1);
            let half = (piece.len() / 2).min(self.room);
            append(&mut self.bytes, &mut self.room, &piece[..half]);
            return Err(Failed);
        }
        append(&mut self.bytes, &mut self.room, piece);
        Ok(())
    }

    /// Fails exactly if the number of the call is listed. Nothing is ever held back.
    fn flush(&mut self) -> Result<(), Failed>
        ensures handed_on { let none : ℕ = 0 in OnOk result (none ≡ 0) }
        ensures written { self.new.written ≡ self.old.written }
        ensures cause { HasCause self.old.faults self.new.faults result }
        ensures takes { (n : ℕ) → ⊤ ↔ ⊤ }

        ensures fails { IsErr result ↔ FlushFails self.old }
        ensures ok { OnOk result (self.new ≡ after_flush self.old) }
        ensures err { OnErr result (self.new ≡ after_flush_fault self.old) }
    {
        self.calls = self.calls.saturating_add(1);
        if self.failing.contains(&self.calls) {
            self.faults = self.faults.saturating_add(1);
            return Err(Failed);
        }
        Ok(())
    }

    ghost takes_fewer = { λ _ _ _ _ takes. takes };
}
