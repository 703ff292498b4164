// A sink over a writer of the standard library.
ghost use Rattle.std.specs.Io.KnownBytes.{Appends, Keeps};
ghost use Rattle.std.specs.Prelude.{◌≡◌, ◌<◌, ◌≤◌, ◌↔◌, ⊤, [], ℕ, List, length, take, IfOk, OnOk};
ghost use Rattle.tilt_outside.specs.Faults.{HasCause};
ghost use Rattle.tilt_outside.specs.Written.{Puts};

use crate::failed::Failed;
use crate::sink::Sink;
use crate::uninterrupted::TRIES;
use std::io::{ErrorKind, Write};
use std::marker::Model;

/// A sink that hands each piece at once to a writer of the standard library, which is to hold nothing back, such as
/// the writer of standard error. A writer of the system says nothing of what reaches it.
#[derive(Drop)]
pub struct StdSink<W: Write> {
    writer: W,
    faults: u64,
}

impl<W: Write> Model for StdSink<W> {
    ghost use Rattle.tilt_outside.specs.StdSink.{WriterState};

    ghost Value = { WriterState };

    ghost view = { λ s. record { contents = W.contents s.writer; held_back = 0; faults = s.faults } };
}

impl<W: Write> StdSink<W> {
    /// A sink over the writer, with no fault yet.
    pub fn new(writer: W) -> StdSink<W>
        ensures { result ≡ record { contents = W.contents writer; held_back = 0; faults = 0 } }
    {
        StdSink { writer, faults: 0 }
    }
}

impl<W: Write> Sink for StdSink<W> {
    ghost tells = { ⊥ };

    ghost written = { λ _. [] };

    ghost held_back = { λ sink. sink.held_back };

    ghost faults = { λ sink. sink.faults };

    ghost takes = { λ _ _. ⊤ };

    /// If the writer is known to hold its bytes, the piece is appended to them.
    fn put(&mut self, piece: &[u8]) -> Result<(), Failed>
        ensures puts { Puts ⊥ (λ _. []) (λ sink. sink.faults) (λ _ _. ⊤) self.old self.new piece.now result }

        ensures bytes { OnOk result
            (Appends self.old.contents self.new.contents piece.now) }
    {
        let outcome = write_whole(&mut self.writer, piece);
        if outcome.is_err() {
            self.faults = self.faults.saturating_add(1);
        }
        outcome
    }

    /// If the writer is known to hold its bytes, they stay as they are.
    fn flush(&mut self) -> Result<(), Failed>
        ensures handed_on { OnOk result (self.new.held_back ≡ 0) }
        ensures written { let none : List ℕ = [] in none ≡ none }
        ensures cause { HasCause self.old.faults self.new.faults result }
        ensures takes { (n : ℕ) → ⊤ ↔ ⊤ }

        ensures bytes { Keeps self.old.contents self.new.contents }
    {
        if self.writer.flush().is_ok() {
            return Ok(());
        }
        self.faults = self.faults.saturating_add(1);
        Err(Failed)
    }

    ghost takes_fewer = { λ _ _ _ _ takes. takes };
}

fn write_whole<W: Write>(writer: &mut W, bytes: &[u8]) -> Result<(), Failed>
    ensures { OnOk result (Appends (W.contents writer.old) (W.contents writer.new) bytes.now) }
{
    let mut rest = bytes;
    while !rest.is_empty() {
        let count = write_some(writer, rest)?;
        rest = &rest[count..];
    }
    Ok(())
}

// Writes a prefix of the bytes that isn't empty, and retries if it was interrupted.
fn write_some<W: Write>(writer: &mut W, bytes: &[u8]) -> Result<usize, Failed>
    ensures count { IfOk result (λ count. (0 < count) × (count ≤ length bytes.now)) }
    ensures bytes { IfOk result (λ count.
        Appends (W.contents writer.old) (W.contents writer.new) (take count bytes.now)) }
{
    for _ in 0..TRIES {
        match writer.write(bytes) {
            Ok(0) => return Err(Failed),
            Ok(count) => return Ok(count),
            Err(error) if error.kind() == ErrorKind::Interrupted => {}
            Err(_) => return Err(Failed),
        }
    }
    Err(Failed)
}
