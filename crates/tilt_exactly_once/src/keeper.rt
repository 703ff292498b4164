// A feed that is served into a folder.
ghost use Rattle.std.specs.Prelude.{◌≡◌, ◌<◌, ◌≤◌, ◌⊎◌, ◌++◌, ℕ, List, length, IfErr, IfOk, IsErrOf, OnOk};
ghost use Rattle.tilt_exactly_once.specs.Committed.{Holds};
ghost use Rattle.tilt_exactly_once.specs.Recent.{HoldsBut, lines_in};
ghost use Rattle.tilt_exactly_once.specs.Serving.{GoesOn, HasServed, HasStepped, IsServingHalt, IsUnderway};
ghost use Rattle.tilt_outside.specs.Counts.{added_count};
ghost use Rattle.tilt_outside.specs.Faults.{Rose};
ghost use Rattle.tilt_port.specs.Transcript.{Transcript};
ghost use Rattle.tilt_store.specs.Crash.{LeavesOnly};
ghost use Rattle.tilt_store.specs.Open.{IsOpen, IsSettled, SameCommit};

use crate::halt::Halt;
use crate::machine::Machine;
use std::alloc::{AllocError as OutOfMemory, Global};
use tilt_outside::Sink;
use tilt_port::Port;
use tilt_store::{Folder, Ledger};

// How many bytes one read asks for at most.
pub(crate) const PIECE: usize = 65536;

/// Whether there may be more of the feed.
#[derive(Clone, Copy, Debug, PartialEq, Eq)]
pub enum Progress {
    More,
    Ended,
}

/// A machine whose output goes into a folder, and is committed there with its state.
#[derive(Drop)]
pub struct Keeper<F: Folder, M: Machine> {
    pub ledger: Ledger<F>,
    pub machine: M,
    // How many bytes of output the folder has, as far as the count goes.
    pub written: u64,
    // How many lines were taken since the last commit, as far as the count goes.
    pub lines: u64,
}

impl<F: Folder, M: Machine> Keeper<F, M> {
    /// The keeper of a machine whose output so far is in the folder.
    pub fn new(ledger: Ledger<F>, machine: M, written: u64) -> Keeper<F, M>
        ensures ledger { result.ledger ≡ ledger }
        ensures machine { result.machine ≡ machine }
        ensures written { result.written ≡ written }
        ensures lines { result.lines ≡ 0 }
    {
        Keeper {
            ledger,
            machine,
            written,
            lines: 0,
        }
    }

    /// Serves what is left of a feed. Its output goes into the folder. After at least so many lines, and at the end of the feed, all of it
    /// is committed with the state of the machine.
    pub fn serve<P: Port, E: Sink>(
        &mut self,
        alloc: Global,
        every: u64,
        port: &mut P,
        err: &mut E,
    ) -> Result<(), Halt>
        requires sound { M.sound self.old.machine }
        requires is_open { F.tells → IsOpen (F.seen self.old.ledger.folder) (F.may_leave self.old.ledger.folder) }
        requires lines { (n : ℕ) → E.takes err.old n }
        ensures served { F.tells → (of : M.Of) (bytes : List ℕ)
            → IsUnderway F.seen F.may_leave M.is M.output of self.old.ledger.folder self.old.machine self.old.written bytes
            → Holds (M.commits of) bytes (F.seen self.old.ledger.folder)
            → HasServed F.seen F.may_leave M.is M.output of M.commits M.stops M.fits F.moment F.left_since P.tells
            self.old.ledger.folder bytes (P.transcript port.old) self.new.ledger.folder (P.transcript port.new) result }
        ensures read_fault { IsErrOf result Halt.ReadFault → Rose (P.transcript port.old).read_faults (P.transcript port.new).read_faults }
        ensures halt { IfErr result IsServingHalt }
        ensures failed { IsErrOf result Halt.Failed → Rose (F.faults self.old.ledger.folder) (F.faults self.new.ledger.folder) }
        ensures faults { F.faults self.old.ledger.folder ≤ F.faults self.new.ledger.folder }
        ensures takes { (n : ℕ) → E.takes err.new n }
    {
        let mut room = make_room(alloc, PIECE)?;
        self.serve_all(alloc, every, &mut room, port, err)
    }

    // Serves what is left of a feed, piece by piece.
    fn serve_all<P: Port, E: Sink>(
        &mut self,
        alloc: Global,
        every: u64,
        room: &mut [u8],
        port: &mut P,
        err: &mut E,
    ) -> Result<(), Halt>
        requires space { 0 < length room.old }
        requires sound { M.sound self.old.machine }
        requires is_open { F.tells → IsOpen (F.seen self.old.ledger.folder) (F.may_leave self.old.ledger.folder) }
        requires lines { (n : ℕ) → E.takes err.old n }
        ensures served { F.tells → (of : M.Of) (first : F) (bytes : List ℕ) (old : Transcript)
            → GoesOn F.seen F.may_leave M.is M.output of M.commits M.stops M.fits F.moment F.left_since P.tells
            first bytes old self.old.ledger.folder self.old.machine self.old.written self.old.lines (P.transcript port.old)
            → HasServed F.seen F.may_leave M.is M.output of M.commits M.stops M.fits F.moment F.left_since P.tells
            first bytes old self.new.ledger.folder (P.transcript port.new) result }
        ensures read_fault { IsErrOf result Halt.ReadFault → Rose (P.transcript port.old).read_faults (P.transcript port.new).read_faults }
        ensures halt { IfErr result IsServingHalt }
        ensures failed { IsErrOf result Halt.Failed → Rose (F.faults self.old.ledger.folder) (F.faults self.new.ledger.folder) }
        ensures faults { F.faults self.old.ledger.folder ≤ F.faults self.new.ledger.folder }
        ensures takes { (n : ℕ) → E.takes err.new n }
    {
        for _ in 0..u64::MAX {
            match self.serve_more(alloc, every, room, port, err)? {
                Progress::More => {}
                Progress::Ended => return Ok(()),
            }
        }
        // No feed has so many pieces. If one did, the program would stop here.
        Err(Halt::OutOfMemory)
    }

    /// Reads more of the feed and takes it, or commits all of it at its end. After `More`, each crash leaves the commit of all bytes that
    /// were taken but the last ones, in which fewer than `every` lines end (`recent` of `GoesOn`, `due`).
    pub fn serve_more<P: Port, E: Sink>(
        &mut self,
        alloc: Global,
        every: u64,
        room: &mut [u8],
        port: &mut P,
        err: &mut E,
    ) -> Result<Progress, Halt>
        requires space { 0 < length room.old }
        requires sound { M.sound self.old.machine }
        requires is_open { F.tells → IsOpen (F.seen self.old.ledger.folder) (F.may_leave self.old.ledger.folder) }
        requires lines { (n : ℕ) → E.takes err.old n }
        ensures stepped { F.tells → (of : M.Of) (first : F) (bytes : List ℕ) (old : Transcript)
            → GoesOn F.seen F.may_leave M.is M.output of M.commits M.stops M.fits F.moment F.left_since P.tells
            first bytes old self.old.ledger.folder self.old.machine self.old.written self.old.lines (P.transcript port.old)
            → HasStepped F.seen F.may_leave M.is M.output of M.commits M.stops M.fits F.moment F.left_since P.tells
            first bytes old self.new.ledger.folder self.new.machine self.new.written self.new.lines (P.transcript port.new) result }
        ensures due { IfOk result (λ progress. progress ≡ Progress.More → (self.new.lines < every) ⊎ (self.new.lines ≡ 0)) }
        ensures length { length room.new ≡ length room.old }
        ensures sound { M.sound self.new.machine }
        ensures is_open { F.tells → OnOk result (IsOpen (F.seen self.new.ledger.folder) (F.may_leave self.new.ledger.folder)) }
        ensures read_fault { IsErrOf result Halt.ReadFault → Rose (P.transcript port.old).read_faults (P.transcript port.new).read_faults }
        ensures halt { IfErr result IsServingHalt }
        ensures failed { IsErrOf result Halt.Failed → Rose (F.faults self.old.ledger.folder) (F.faults self.new.ledger.folder) }
        ensures reads { (P.transcript port.old).read_faults ≤ (P.transcript port.new).read_faults }
        ensures faults { F.faults self.old.ledger.folder ≤ F.faults self.new.ledger.folder }
        ensures takes { (n : ℕ) → E.takes err.new n }
    {
        let Ok(count) = port.read(room) else {
            return Err(Halt::ReadFault);
        };
        if count == 0 {
            self.commit(alloc)?;
            self.machine.end(err)?;
            return Ok(Progress::Ended);
        }
        self.take(alloc, &room[..count], err)?;
        self.commit_if_due(alloc, every)?;
        Ok(Progress::More)
    }

    /// Takes the next piece of the feed. The output for it is appended to that in the folder, and nothing is committed.
    pub fn take<E: Sink>(&mut self, alloc: Global, piece: &[u8], err: &mut E) -> Result<(), Halt>
        requires sound { M.sound self.old.machine }
        requires is_open { F.tells → IsOpen (F.seen self.old.ledger.folder) (F.may_leave self.old.ledger.folder) }
        requires lines { (n : ℕ) → E.takes err.old n }
        ensures underway { F.tells → (of : M.Of) (bytes : List ℕ)
            → IsUnderway F.seen F.may_leave M.is M.output of self.old.ledger.folder self.old.machine self.old.written bytes
            → OnOk result (IsUnderway F.seen F.may_leave M.is M.output of
            self.new.ledger.folder self.new.machine self.new.written (bytes ++ piece.now)) }
        ensures same { F.tells → OnOk result (SameCommit (F.seen self.old.ledger.folder) (F.seen self.new.ledger.folder)) }
        ensures recent { F.tells → (of : M.Of) (bytes : List ℕ)
            → HoldsBut (M.commits of) bytes self.old.lines (F.seen self.old.ledger.folder)
            → OnOk result (HoldsBut (M.commits of) (bytes ++ piece.now) self.new.lines (F.seen self.new.ledger.folder)) }
        ensures any_moment { F.tells → LeavesOnly F.moment F.left_since self.old.ledger.folder self.new.ledger.folder
            (SameCommit (F.seen self.old.ledger.folder)) }
        ensures badly { (of : M.Of) (bytes : List ℕ) → M.is self.old.machine of bytes
            → IfErr result (λ why. why ≡ Halt.BadLine → M.stops of (bytes ++ piece.now)) }
        ensures short { IfErr result (λ why. why ≡ Halt.TooLong → ⊥) }
        ensures no_read { IfErr result (λ why. why ≡ Halt.ReadFault → ⊥) }
        ensures halt { IfErr result IsServingHalt }
        ensures failed { IsErrOf result Halt.Failed → Rose (F.faults self.old.ledger.folder) (F.faults self.new.ledger.folder) }
        ensures faults { F.faults self.old.ledger.folder ≤ F.faults self.new.ledger.folder }
        ensures sound { M.sound self.new.machine }
        ensures is_open { F.tells → OnOk result (IsOpen (F.seen self.new.ledger.folder) (F.may_leave self.new.ledger.folder)) }
        ensures takes { (n : ℕ) → E.takes err.new n }
    {
        let out = self.machine.take(alloc, piece, err)?;
        self.ledger.append(&out)?;
        self.written = self.written.saturating_add(out.len() as u64);
        self.lines = self.lines.saturating_add(count_lines(piece));
        Ok(())
    }

    // Commits if at least so many lines were taken since the last commit.
    fn commit_if_due(&mut self, alloc: Global, every: u64) -> Result<(), Halt>
        requires sound { M.sound self.old.machine }
        requires is_open { F.tells → IsOpen (F.seen self.old.ledger.folder) (F.may_leave self.old.ledger.folder) }
        ensures underway { F.tells → (of : M.Of) (bytes : List ℕ)
            → IsUnderway F.seen F.may_leave M.is M.output of self.old.ledger.folder self.old.machine self.old.written bytes
            → OnOk result (IsUnderway F.seen F.may_leave M.is M.output of
            self.new.ledger.folder self.new.machine self.new.written bytes) }
        ensures same { F.tells → (of : M.Of) (bytes : List ℕ)
            → IsUnderway F.seen F.may_leave M.is M.output of self.old.ledger.folder self.old.machine self.old.written bytes
            → OnOk result (SameCommit (F.seen self.old.ledger.folder) (F.seen self.new.ledger.folder)
            ⊎ Holds (M.commits of) bytes (F.seen self.new.ledger.folder)) }
        ensures recent { F.tells → (of : M.Of) (bytes : List ℕ)
            → IsUnderway F.seen F.may_leave M.is M.output of self.old.ledger.folder self.old.machine self.old.written bytes
            → HoldsBut (M.commits of) bytes self.old.lines (F.seen self.old.ledger.folder)
            → OnOk result (HoldsBut (M.commits of) bytes self.new.lines (F.seen self.new.ledger.folder)) }
        ensures due { OnOk result ((self.new.lines < every) ⊎ (self.new.lines ≡ 0)) }
        ensures any_moment { F.tells → (of : M.Of) (bytes : List ℕ)
            → IsUnderway F.seen F.may_leave M.is M.output of self.old.ledger.folder self.old.machine self.old.written bytes
            → LeavesOnly F.moment F.left_since self.old.ledger.folder self.new.ledger.folder
            (λ c. SameCommit (F.seen self.old.ledger.folder) c ⊎ Holds (M.commits of) bytes c) }
        ensures long { F.tells → (of : M.Of) (bytes : List ℕ)
            → IsUnderway F.seen F.may_leave M.is M.output of self.old.ledger.folder self.old.machine self.old.written bytes
            → IfErr result (λ why. why ≡ Halt.TooLong → M.fits of bytes → ⊥) }
        ensures good { IfErr result (λ why. why ≡ Halt.BadLine → ⊥) }
        ensures no_read { IfErr result (λ why. why ≡ Halt.ReadFault → ⊥) }
        ensures halt { IfErr result IsServingHalt }
        ensures failed { IsErrOf result Halt.Failed → Rose (F.faults self.old.ledger.folder) (F.faults self.new.ledger.folder) }
        ensures faults { F.faults self.old.ledger.folder ≤ F.faults self.new.ledger.folder }
        ensures sound { M.sound self.new.machine }
        ensures is_open { F.tells → OnOk result (IsOpen (F.seen self.new.ledger.folder) (F.may_leave self.new.ledger.folder)) }
    {
        if self.lines < every {
            return Ok(());
        }
        self.commit(alloc)
    }

    /// Commits all of the output with the machine's state. After `Ok`, every crash leaves this commit.
    pub fn commit(&mut self, alloc: Global) -> Result<(), Halt>
        requires sound { M.sound self.old.machine }
        requires is_open { F.tells → IsOpen (F.seen self.old.ledger.folder) (F.may_leave self.old.ledger.folder) }
        ensures underway { F.tells → (of : M.Of) (bytes : List ℕ)
            → IsUnderway F.seen F.may_leave M.is M.output of self.old.ledger.folder self.old.machine self.old.written bytes
            → OnOk result (IsUnderway F.seen F.may_leave M.is M.output of
            self.new.ledger.folder self.new.machine self.new.written bytes) }
        ensures committed { F.tells → (of : M.Of) (bytes : List ℕ)
            → IsUnderway F.seen F.may_leave M.is M.output of self.old.ledger.folder self.old.machine self.old.written bytes
            → OnOk result (Holds (M.commits of) bytes (F.seen self.new.ledger.folder)) }
        ensures lines { OnOk result (self.new.lines ≡ 0) }
        ensures settled { F.tells → OnOk result (IsSettled (F.seen self.new.ledger.folder) (F.may_leave self.new.ledger.folder)) }
        ensures any_moment { F.tells → (of : M.Of) (bytes : List ℕ)
            → IsUnderway F.seen F.may_leave M.is M.output of self.old.ledger.folder self.old.machine self.old.written bytes
            → LeavesOnly F.moment F.left_since self.old.ledger.folder self.new.ledger.folder
            (λ c. SameCommit (F.seen self.old.ledger.folder) c ⊎ Holds (M.commits of) bytes c) }
        ensures long { F.tells → (of : M.Of) (bytes : List ℕ)
            → IsUnderway F.seen F.may_leave M.is M.output of self.old.ledger.folder self.old.machine self.old.written bytes
            → IfErr result (λ why. why ≡ Halt.TooLong → M.fits of bytes → ⊥) }
        ensures good { IfErr result (λ why. why ≡ Halt.BadLine → ⊥) }
        ensures no_read { IfErr result (λ why. why ≡ Halt.ReadFault → ⊥) }
        ensures halt { IfErr result IsServingHalt }
        ensures failed { IsErrOf result Halt.Failed → Rose (F.faults self.old.ledger.folder) (F.faults self.new.ledger.folder) }
        ensures faults { F.faults self.old.ledger.folder ≤ F.faults self.new.ledger.folder }
        ensures sound { M.sound self.new.machine }
    {
        let state = self.machine.state(alloc, self.written)?;
        self.ledger.commit(alloc, &state)?;
        self.lines = 0;
        Ok(())
    }
}

// Memory that reads can fill.
pub(crate) fn make_room(alloc: Global, size: usize) -> Result<Vec<u8>, OutOfMemory>
    ensures { IfOk result (λ room. length room.items ≡ size) }
{
    vec![in alloc; 0u8; size]
}

// How many lines end in a piece.
fn count_lines(piece: &[u8]) -> u64
    ensures { result ≡ added_count 0 (lines_in piece.now) }
{
    let mut count: u64 = 0;
    for byte in piece {
        if *byte == b'\n' {
            count = count.saturating_add(1);
        }
    }
    count
}
