// A port in memory.
ghost use Rattle.std.specs.Prelude.{◌≡◌, ◌<◌, ◌≤◌, ◌+◌, ◌-◌, ◌++◌, ◌↔◌, ◌∷◌, [], ⊤, ℕ, false};
ghost use Rattle.std.specs.Prelude.{drop, find, length, min, nat_lt, take, vec_len, vec_capacity, All, IfOk, IsErr, OnOk, OnErr};
ghost use Rattle.tilt_outside.specs.Counts.{added_count};
ghost use Rattle.tilt_outside.specs.Faults.{HasCause};
ghost use Rattle.tilt_port.specs.MemPort.{after_flush, after_flush_fault, after_read, after_read_fault, after_write, after_write_fault};
ghost use Rattle.tilt_port.specs.MemPort.{count_read, next_end, transcript_of, FlushFails, ReadFails, WriteFails};
ghost use Rattle.tilt_port.specs.Transcript.{HasRead, Keeps, Writes};

use crate::asked::Asked;
use crate::port::Port;
use std::alloc::{AllocError as OutOfMemory, Global};
use std::marker::Model;
use tilt_outside::Failed;

/// A port that hands out the pieces that it was lent, and keeps what is written to it, in memory. It fails at the calls that it is given.
/// Memory for this many bytes to be written, and for this many reads, is set aside when it is made: a read or a write takes none.
#[derive(Drop)]
pub struct MemPort {
    input: Vec<u8>,
    cuts: Vec<usize>,
    read: usize,
    ended: bool,
    written: Vec<u8>,
    handed_on: usize,
    asked: Vec<Asked>,
    room: usize,
    reads_left: usize,
    read_faults: u64,
    write_faults: u64,
    calls: u64,
    failing: Vec<u64>,
}

impl Model for MemPort {
    ghost use Rattle.std.specs.Prelude.{◌≤◌, ◌+◌, vec_len, vec_capacity};
    ghost use Rattle.tilt_port.specs.MemPort.{IsWithin, PortState};

    ghost Value = { PortState };

    ghost view = { λ p. record {
      input = p.input.items;
      cuts = p.cuts.items;
      read = p.read;
      ended = p.ended;
      written = p.written.items;
      handed_on = p.handed_on;
      asked = p.asked.items;
      room = p.room;
      reads_left = p.reads_left;
      read_faults = p.read_faults;
      write_faults = p.write_faults;
      calls = p.calls;
      failing = p.failing.items;
    } };

    ghost invariant = { λ p. (vec_len p.written + p.room ≤ vec_capacity p.written)
        × (vec_len p.asked + p.reads_left ≤ vec_capacity p.asked)
        × IsWithin p.input.items p.cuts.items p.read p.written.items p.asked.items };
}

impl MemPort {
    /// A port with nothing to read, to which nothing was written. It takes as many bytes as `room`, and as many reads as `reads`.
    pub fn new(alloc: Global, room: usize, reads: usize) -> Result<MemPort, OutOfMemory>
        ensures { IfOk result (λ port. port ≡ record {
          input = [];
          cuts = [];
          read = 0;
          ended = false;
          written = [];
          handed_on = 0;
          asked = [];
          room = room;
          reads_left = reads;
          read_faults = 0;
          write_faults = 0;
          calls = 0;
          failing = [];
        }) }
    {
        Ok(MemPort {
            input: Vec::new(alloc),
            cuts: Vec::new(alloc),
            read: 0,
            ended: false,
            written: Vec::with_capacity(alloc, room)?,
            handed_on: 0,
            asked: Vec::with_capacity(alloc, reads)?,
            room,
            reads_left: reads,
            read_faults: 0,
            write_faults: 0,
            calls: 0,
            failing: Vec::new(alloc),
        })
    }

    /// Appends a piece to what is read: no read goes from one piece into the next. A piece of no bytes changes nothing of what is read.
    pub fn lend(&mut self, piece: &[u8]) -> Result<(), OutOfMemory>
        ensures ok { OnOk result (self.new ≡ record self.old {
          input = self.old.input ++ piece.now;
          cuts = self.old.cuts ++ length self.old.input ∷ [];
        }) }
        ensures err { OnErr result (self.new ≡ self.old) }
    {
        append_piece(&mut self.input, &mut self.cuts, piece)
    }

    /// Makes the call of that number fail. Reads, writes and flushes are counted together from 1, those that fail too.
    pub fn fail_at(&mut self, call: u64) -> Result<(), OutOfMemory>
        ensures ok { OnOk result (self.new ≡ record self.old { failing = self.old.failing ++ call ∷ [] }) }
        ensures err { OnErr result (self.new ≡ self.old) }
    {
        self.failing.push(call)?;
        Ok(())
    }

    /// What was written so far, held back or not.
    pub fn written(&self) -> &[u8]
        ensures { result.now ≡ self.now.written }
    {
        self.written.as_slice()
    }

    /// The moments at which more was read, or the end was found.
    pub fn asked(&self) -> &[Asked]
        ensures { result.now ≡ self.now.asked }
    {
        self.asked.as_slice()
    }

    /// How many of the bytes written are held back.
    pub fn held_back(&self) -> usize
        ensures { result ≡ length self.now.written - self.now.handed_on }
    {
        self.written.len().saturating_sub(self.handed_on)
    }
}

// Appends the piece to the input, cut off from what is before it.
fn append_piece(input: &mut Vec<u8>, cuts: &mut Vec<usize>, piece: &[u8]) -> Result<(), OutOfMemory>
    ensures input { OnOk result (input.new.items ≡ input.old.items ++ piece.now) }
    ensures cuts { OnOk result (cuts.new.items ≡ cuts.old.items ++ length input.old.items ∷ []) }
    ensures same_input { OnErr result (input.new.items ≡ input.old.items) }
    ensures same_cuts { OnErr result (cuts.new.items ≡ cuts.old.items) }
{
    input.reserve(piece.len())?;
    cuts.push(input.len())?;
    input.extend_from_slice(piece).unwrap();
    Ok(())
}

// Where the next piece ends.
fn find_end(input: &[u8], cuts: &[usize], read: usize) -> usize
    requires { All (λ cut. cut ≤ length input.now) cuts.now }
    ensures end { result ≡ next_end input.now cuts.now read }
    ensures within { result ≤ length input.now }
    ensures beyond { read < length input.now → read < result }
{
    next_cut(cuts, read).unwrap_or(input.len())
}

// The first cut beyond what was read.
fn next_cut(cuts: &[usize], read: usize) -> Option<usize>
    ensures { result ≡ find (λ cut. nat_lt read cut) cuts.now }
{
    cuts.iter().copied().find(|cut| read < *cut)
}

// Copies the next bytes of the input into the room, as far as they fit and are of the next piece, and returns how many.
fn copy_next(input: &[u8], cuts: &[usize], read: usize, room: &mut [u8]) -> usize
    requires read { read ≤ length input.now }
    requires cuts { All (λ cut. cut ≤ length input.now) cuts.now }
    ensures count { result ≡ min (length room.old) (next_end input.now cuts.now read - read) }
    ensures there { read + result ≤ length input.now }
    ensures some { 0 < length room.old → result ≡ 0 → read ≡ length input.now }
    ensures room { room.new ≡ take result (drop read input.now) ++ drop result room.old }
{
    let end = find_end(input, cuts, read);
    let count = room.len().min(end.saturating_sub(read));
    room[..count].copy_from_slice(&input[read..read + count]);
    count
}

// Takes the piece into the room that was set aside.
fn append(bytes: &mut Vec<u8>, room: &mut usize, piece: &[u8])
    requires fits { length piece.now ≤ room.old }
    requires set_aside { vec_len bytes.old + room.old ≤ vec_capacity bytes.old }
    ensures appended { bytes.new.items ≡ bytes.old.items ++ piece.now }
    ensures room { room.new ≡ room.old - length piece.now }
    ensures set_aside { vec_len bytes.new + room.new ≤ vec_capacity bytes.new }
{
    bytes.extend_from_slice(piece).unwrap();
    *room -= piece.len();
}

// Notes a moment in the room that was set aside.
fn note(asked: &mut Vec<Asked>, reads_left: &mut usize, moment: Asked)
    requires fits { 0 < reads_left.old }
    requires set_aside { vec_len asked.old + reads_left.old ≤ vec_capacity asked.old }
    ensures appended { asked.new.items ≡ asked.old.items ++ moment ∷ [] }
    ensures left { reads_left.new ≡ reads_left.old - 1 }
    ensures set_aside { vec_len asked.new + reads_left.new ≤ vec_capacity asked.new }
{
    asked.push(moment).unwrap();
    *reads_left -= 1;
}

impl Port for MemPort {
    ghost tells = { ⊤ };

    ghost transcript = { transcript_of };

    /// Fails if no more reads may be made, or the number of the call is listed. It gives as many bytes as the next piece has left and fit
    /// the room.
    fn read(&mut self, room: &mut [u8]) -> Result<usize, Failed>
        requires { 0 < length room.old }
        ensures count { IfOk result (λ n. n ≤ length room.old) }
        ensures length { length room.new ≡ length room.old }
        ensures read { ⊤ → HasRead (transcript_of self.old) (transcript_of self.new) room.new result }
        ensures cause { HasCause (transcript_of self.old).read_faults (transcript_of self.new).read_faults result }
        ensures writes { (transcript_of self.new).write_faults ≡ (transcript_of self.old).write_faults }

        ensures fails { IsErr result ↔ ReadFails self.old }
        ensures exact { IfOk result (λ n. n ≡ count_read self.old (length room.old)) }
        ensures end { IfOk result (λ n. n ≡ 0 → self.old.read ≡ length self.old.input) }
        ensures ok { IfOk result (λ n. self.new ≡ after_read self.old n) }
        ensures room { IfOk result (λ n. room.new ≡ take n (drop self.old.read self.old.input) ++ drop n room.old) }
        ensures err { OnErr result (self.new ≡ after_read_fault self.old) }
        ensures no_bytes { OnErr result (room.new ≡ room.old) }
    {
        self.calls = self.calls.saturating_add(1);
        if self.reads_left == 0 || self.failing.contains(&self.calls) {
            self.read_faults = self.read_faults.saturating_add(1);
            return Err(Failed);
        }
        let moment = Asked {
            read: self.read,
            written: self.written.len(),
            held_back: self.written.len().saturating_sub(self.handed_on),
        };
        note(&mut self.asked, &mut self.reads_left, moment);
        let count = copy_next(&self.input, &self.cuts, self.read, room);
        self.read += count;
        self.ended = count == 0;
        Ok(count)
    }

    /// Fails if the piece is longer than the room, or the number of the call is listed. It then appends the first half of the piece,
    /// rounded down, as far as there is room.
    fn write(&mut self, piece: &[u8]) -> Result<(), Failed>
        ensures writes { Writes ⊤ (transcript_of self.old) (transcript_of self.new) piece.now result }

        ensures fails { IsErr result ↔ WriteFails self.old piece.now }
        ensures ok { OnOk result (self.new ≡ after_write self.old piece.now) }
        ensures err { OnErr result (self.new ≡ after_write_fault self.old piece.now) }
    {
        self.calls = self.calls.saturating_add(1);
        if piece.len() > self.room || self.failing.contains(&self.calls) {
            self.write_faults = self.write_faults.saturating_add(1);
            let half = (piece.len() / 2).min(self.room);
            append(&mut self.written, &mut self.room, &piece[..half]);
            return Err(Failed);
        }
        append(&mut self.written, &mut self.room, piece);
        Ok(())
    }

    /// Fails if the number of the call is listed. It then hands on nothing.
    fn flush(&mut self) -> Result<(), Failed>
        ensures handed_on { OnOk result ((transcript_of self.new).held_back ≡ 0) }
        ensures keeps { ⊤ → Keeps (transcript_of self.old) (transcript_of self.new) }
        ensures cause { HasCause (transcript_of self.old).write_faults (transcript_of self.new).write_faults result }
        ensures reads { (transcript_of self.new).read_faults ≡ (transcript_of self.old).read_faults }

        ensures fails { IsErr result ↔ FlushFails self.old }
        ensures ok { OnOk result (self.new ≡ after_flush self.old) }
        ensures err { OnErr result (self.new ≡ after_flush_fault self.old) }
    {
        self.calls = self.calls.saturating_add(1);
        if self.failing.contains(&self.calls) {
            self.write_faults = self.write_faults.saturating_add(1);
            return Err(Failed);
        }
        self.handed_on = self.written.len();
        Ok(())
    }

    /// A part of a piece counts too if its write failed.
    fn count_written(&self) -> u64
        ensures { ⊤ → result ≡ added_count 0 (length (transcript_of self.now).written) }
    {
        self.written.len() as u64
    }
}
