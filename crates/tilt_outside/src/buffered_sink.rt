// A sink over a writer of the standard library, with a buffer before it.
ghost use Rattle.std.specs.Io.KnownBytes.{Appends, Keeps};
ghost use Rattle.std.specs.Prelude.{◌≡◌, ◌↔◌, ⊤, [], ℕ, List, IfOk, OnOk};
ghost use Rattle.tilt_outside.specs.Faults.{HasCause};
ghost use Rattle.tilt_outside.specs.Written.{Puts};

use crate::failed::Failed;
use crate::sink::Sink;
use std::alloc::{AllocError as OutOfMemory, Global};
use std::io::{BufWriter, Write};
use std::marker::Model;

/// How many bytes the buffer holds.
const ROOM: usize = 65536;

/// A sink that writes to a writer of the standard library through a buffer of 64 KiB. A fault of the writer shows at the put
/// that finds the buffer full, or at the flush. A writer of the system says nothing of what reaches it.
#[derive(Drop)]
pub struct BufferedSink<W: Write + Drop> {
    writer: BufWriter<W>,
    faults: u64,
}

impl<W: Write + Drop> Model for BufferedSink<W> {
    ghost use Rattle.std.specs.Prelude.{length};
    ghost use Rattle.std.specs.Io.Buffered.{writer_buffer, writer_contents};
    ghost use Rattle.tilt_outside.specs.StdSink.{WriterState};

    ghost Value = { WriterState };

    ghost view = { λ s. record {
      contents = writer_contents W.contents s.writer;
      held_back = length (writer_buffer s.writer);
      faults = s.faults;
    } };
}

impl<W: Write + Drop> BufferedSink<W> {
    /// A sink over the writer, with no fault yet. It takes the memory of the buffer.
    pub fn new(alloc: Global, writer: W) -> Result<BufferedSink<W>, OutOfMemory>
        ensures { IfOk result (λ sink. sink ≡ record { contents = W.contents writer; held_back = 0; faults = 0 }) }
    {
        match BufWriter::with_capacity(alloc, ROOM, writer) {
            Ok(writer) => Ok(BufferedSink { writer, faults: 0 }),
            Err(_) => Err(OutOfMemory),
        }
    }
}

impl<W: Write + Drop> Sink for BufferedSink<W> {
    ghost tells = { ⊥ };

    ghost written = { λ _. [] };

    ghost held_back = { λ sink. sink.held_back };

    ghost faults = { λ sink. sink.faults };

    ghost takes = { λ _ _. ⊤ };

    /// If the writer is known to hold its bytes, the piece is appended to them and to the bytes that are held back.
    fn put(&mut self, piece: &[u8]) -> Result<(), Failed>
        ensures puts { Puts ⊥ (λ _. []) (λ sink. sink.faults) (λ _ _. ⊤) self.old self.new piece.now result }

        ensures bytes { OnOk result
            (Appends self.old.contents self.new.contents piece.now) }
    {
        if self.writer.write_all(piece).is_ok() {
            return Ok(());
        }
        self.faults = self.faults.saturating_add(1);
        Err(Failed)
    }

    /// If the writer is known to hold its bytes, the bytes that were written stay as they are.
    fn flush(&mut self) -> Result<(), Failed>
        ensures handed_on { OnOk result (self.new.held_back ≡ 0) }
        ensures written { let none : List ℕ = [] in none ≡ none }
        ensures cause { HasCause self.old.faults self.new.faults result }
        ensures takes { (n : ℕ) → ⊤ ↔ ⊤ }

        ensures bytes { Keeps self.old.contents self.new.contents }
    {
        if self.writer.flush().is_ok() {
            return Ok(());
        }
        self.faults = self.faults.saturating_add(1);
        Err(Failed)
    }

    ghost takes_fewer = { λ _ _ _ _ takes. takes };
}
