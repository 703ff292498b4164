// A port over a reader and a writer of the standard library.
ghost use Rattle.std.specs.Io.KnownBytes.{Appends, Keeps as KeepsBytes, ReadConsumes};
ghost use Rattle.std.specs.Prelude.{◌≡◌, ◌<◌, ◌≤◌, ⊤, [], false, length, IfOk, OnOk, IsOk};
ghost use Rattle.tilt_outside.specs.Counts.{added_count};
ghost use Rattle.tilt_outside.specs.Faults.{HasCause};
ghost use Rattle.tilt_port.specs.StdPort.{counts_of, faults_after, written_after};
ghost use Rattle.tilt_port.specs.Transcript.{HasRead, Keeps, Writes};

use crate::port::Port;
use std::alloc::{AllocError as OutOfMemory, Global};
use std::io::{BufWriter, ErrorKind, Read, Write};
use std::marker::Model;
use tilt_outside::Failed;

/// How many bytes the buffer of the writer holds.
const ROOM: usize = 65536;

/// How often a read is tried at most, so that one that is interrupted each time ends too.
const TRIES: u32 = 1_000_000;

/// A port that reads what a reader has, as soon as there is anything, and writes to a writer through a buffer of 64 KiB. A fault of the
/// writer shows at the write that finds the buffer full, or at the flush. The streams of the system say nothing of what goes through them.
#[derive(Drop)]
pub struct StdPort<R: Read + Drop, W: Write + Drop> {
    reader: R,
    writer: BufWriter<W>,
    written: u64,
    read_faults: u64,
    write_faults: u64,
}

impl<R: Read + Drop, W: Write + Drop> Model for StdPort<R, W> {
    ghost use Rattle.std.specs.Prelude.{length};
    ghost use Rattle.std.specs.Io.Buffered.{writer_buffer, writer_contents};
    ghost use Rattle.tilt_port.specs.StdPort.{StdPortState};

    ghost Value = { StdPortState };

    ghost view = { λ p. record {
      remaining = R.remaining p.reader;
      contents = writer_contents W.contents p.writer;
      held_back = length (writer_buffer p.writer);
      written = p.written;
      read_faults = p.read_faults;
      write_faults = p.write_faults;
    } };
}

impl<R: Read + Drop, W: Write + Drop> StdPort<R, W> {
    /// A port over the reader and the writer, with no fault yet. It takes the memory of the buffer.
    pub fn new(alloc: Global, reader: R, writer: W) -> Result<StdPort<R, W>, OutOfMemory>
        ensures { IfOk result (λ port. port ≡ record {
          remaining = R.remaining reader;
          contents = W.contents writer;
          held_back = 0;
          written = 0;
          read_faults = 0;
          write_faults = 0;
        }) }
    {
        match BufWriter::with_capacity(alloc, ROOM, writer) {
            Ok(writer) => Ok(StdPort {
                reader,
                writer,
                written: 0,
                read_faults: 0,
                write_faults: 0,
            }),
            Err(_) => Err(OutOfMemory),
        }
    }
}

impl<R: Read + Drop, W: Write + Drop> Port for StdPort<R, W> {
    ghost tells = { ⊥ };

    ghost transcript = { counts_of };

    /// If the reader is known to have its bytes, the next of them are read. What was written stays as it is.
    fn read(&mut self, room: &mut [u8]) -> Result<usize, Failed>
        requires { 0 < length room.old }
        ensures count { IfOk result (λ n. n ≤ length room.old) }
        ensures length { length room.new ≡ length room.old }
        ensures read { ⊥ → HasRead (counts_of self.old) (counts_of self.new) room.new result }
        ensures cause { HasCause (counts_of self.old).read_faults (counts_of self.new).read_faults result }
        ensures writes { (counts_of self.new).write_faults ≡ (counts_of self.old).write_faults }

        ensures bytes { ReadConsumes self.old.remaining self.new.remaining result room.new }
        ensures rest { self.new ≡ record self.old { remaining = self.new.remaining; read_faults = self.new.read_faults } }
        ensures faults { self.new.read_faults ≡ faults_after self.old.read_faults result }
    {
        let outcome = read_some(&mut self.reader, room);
        if outcome.is_err() {
            self.read_faults = self.read_faults.saturating_add(1);
        }
        outcome
    }

    /// If the writer is known to hold its bytes, the piece is appended to them and to those that are held back.
    fn write(&mut self, piece: &[u8]) -> Result<(), Failed>
        ensures writes { Writes ⊥ (counts_of self.old) (counts_of self.new) piece.now result }

        ensures bytes { OnOk result (Appends self.old.contents self.new.contents piece.now) }
        ensures remaining { self.new.remaining ≡ self.old.remaining }
        ensures faults { self.new.write_faults ≡ faults_after self.old.write_faults result }
        ensures written { self.new.written ≡ written_after self.old.written (length piece.now) result }
    {
        if self.writer.write_all(piece).is_ok() {
            self.written = self.written.saturating_add(piece.len() as u64);
            return Ok(());
        }
        self.write_faults = self.write_faults.saturating_add(1);
        Err(Failed)
    }

    /// If the writer is known to hold its bytes, those that were written stay as they are.
    fn flush(&mut self) -> Result<(), Failed>
        ensures handed_on { OnOk result ((counts_of self.new).held_back ≡ 0) }
        ensures keeps { ⊥ → Keeps (counts_of self.old) (counts_of self.new) }
        ensures cause { HasCause (counts_of self.old).write_faults (counts_of self.new).write_faults result }
        ensures reads { (counts_of self.new).read_faults ≡ (counts_of self.old).read_faults }

        ensures bytes { KeepsBytes self.old.contents self.new.contents }
        ensures remaining { self.new.remaining ≡ self.old.remaining }
        ensures written { self.new.written ≡ self.old.written }
        ensures faults { self.new.write_faults ≡ faults_after self.old.write_faults result }
    {
        if self.writer.flush().is_ok() {
            return Ok(());
        }
        self.write_faults = self.write_faults.saturating_add(1);
        Err(Failed)
    }

    /// Of a write that failed no byte is counted.
    fn count_written(&self) -> u64
        ensures count { ⊥ → result ≡ added_count 0 (length (counts_of self.now).written) }

        ensures exact { result ≡ self.now.written }
    {
        self.written
    }
}

// Reads what there is, and is tried again if it is interrupted.
fn read_some<R: Read>(reader: &mut R, room: &mut [u8]) -> Result<usize, Failed>
    ensures count { IfOk result (λ n. n ≤ length room.old) }
    ensures length { length room.new ≡ length room.old }
    ensures bytes { ReadConsumes (R.remaining reader.old) (R.remaining reader.new) result room.new }
{
    for _ in 0..TRIES {
        match reader.read(room) {
            Ok(count) => return Ok(count),
            Err(error) if error.kind() == ErrorKind::Interrupted => {}
            Err(_) => return Err(Failed),
        }
    }
    Err(Failed)
}
