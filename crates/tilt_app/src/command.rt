// The program's one call.
ghost use Rattle.std.specs.Prelude.{◌≡◌, ◌≤◌, ◌⊎◌, ◌↔◌, List, ℕ, length, Option, Some, OnOk, IfErr, MatchResult};
ghost use Rattle.tilt_app.specs.Cause.{IsCause, IsLineWritten, IsSaveFault};
ghost use Rattle.tilt_app.specs.Change.{shelf_change, sink_change};
ghost use Rattle.tilt_app.specs.Continued.{IsContinued};
ghost use Rattle.tilt_app.specs.Done.{IsDone};
ghost use Rattle.tilt_app.specs.Outcome.{HasRowTurn, HasTurn, IsOutcome, IsRowOutcome, IsRowRead, Saves, Streams};
ghost use Rattle.tilt_app.specs.Promise.{KeepsPromise};
ghost use Rattle.tilt_app.specs.Saving.{IsSaved, IsUnsaved};
ghost use Rattle.tilt_app.specs.Show.{IsShow, SeeOfFault};
ghost use Rattle.tilt_commands.specs.Table.{row_of};
ghost use Rattle.tilt_outside.specs.Faults.{Rose};
ghost use Rattle.tilt_outside.specs.Reads.{OnlyReads};
ghost use Rattle.tilt_printed.specs.Saving.{SaveValue, outcome_of};
ghost use Rattle.tilt_printed.specs.Left.{left_of};
ghost use Rattle.tilt_printed.specs.Show.{SeeAll};
ghost use Rattle.tilt_report.specs.Report.{report_of, status_of, line_of, write_fault, save_fault, out_of_memory};
ghost use Rattle.tilt_stream.specs.Snap.{Snapshot};
ghost use Rattle.tilt_watch.specs.Watch.{Watch, watches};
ghost use Rattle.tilt_cli.specs.Command.{IsWithin, command_of, texts};

use crate::answer::answer;
use std::alloc::Global;
use tilt_cli::{Command, read_words};
use tilt_outside::{Shelf, Sink};
use tilt_printed::Save;
use tilt_report::Fault;
use tilt_watch::Watcher;

// Does what the command says: all is read before the first write, and what is saved is saved after all writes.
fn done<'a, S: Shelf, O: Sink>(
    alloc: Global,
    command: &'a Command,
    shelf: &mut S,
    out: &mut O,
    watchers: &mut Vec<Box<dyn Watcher>>,
) -> Result<(), Fault<'a>>
    requires lent { (any : List Watch) (name : List ℕ)
        → HasRowTurn S.tells (S.files shelf.old) any (row_of (command_of command.now)) name → S.lends name }
    requires within { IsWithin (command_of command.now) }
    requires room { (text : List ℕ) (save : Option SaveValue)
        → (S.tells → IsRowOutcome (S.files shelf.old) (watches pair step ends watchers.old.items) (row_of (command_of command.now))
        (outcome_of text save))
        → O.takes out.old (length text) }
    requires saves { (text : List ℕ) (save : SaveValue)
        → (S.tells → IsRowOutcome (S.files shelf.old) (watches pair step ends watchers.old.items) (row_of (command_of command.now))
        (outcome_of text (Some save)))
        → S.takes shelf.old save.name (length save.bytes) }
    ensures done { OnOk result (IsDone
        (IsRowOutcome (S.files shelf.old) (watches pair step ends watchers.old.items) (row_of (command_of command.now)))
        (shelf_change S.Shelf shelf.old shelf.new)
        (sink_change O.Sink out.old out.new)) }
    ensures cause { IfErr result (λ fault. IsCause
        (IsRowOutcome (S.files shelf.old) (watches pair step ends watchers.old.items) (row_of (command_of command.now)))
        (λ name. (any : List Watch) × HasRowTurn S.tells (S.files shelf.old) any (row_of (command_of command.now)) name)
        (shelf_change S.Shelf shelf.old shelf.new)
        (sink_change O.Sink out.old out.new) (report_of fault)) }
    ensures continued { S.tells → OnOk result (IsContinued
        (shelf_change S.Shelf shelf.old shelf.new)
        (sink_change O.Sink out.old out.new) (command_of command.now)) }
    ensures handed_on { MatchResult result (λ _. O.held_back out.new ≡ 0)
        (λ fault. IsSaveFault (report_of fault) → O.held_back out.new ≡ 0) }
    ensures seen { MatchResult result
        (λ _. (shown : Option (List Snapshot)) × IsShow S.tells (S.files shelf.old) (command_of command.now) shown
        × SeeAll (left_of O.tells O.written out.old out.new pair step ends watchers.old watchers.new) shown)
        (λ fault. SeeOfFault (left_of O.tells O.written out.old out.new pair step ends watchers.old watchers.new)
        (IsShow S.tells (S.files shelf.old) (command_of command.now)) (report_of fault)) }
    ensures read { S.tells → OnOk result ((any : List Watch)
        × IsRowRead (S.files shelf.old) any (row_of (command_of command.now)) (S.given shelf.old) (S.given shelf.new)) }
    ensures rest { MatchResult result
        (λ _. (Saves (command_of command.now) → ⊥)
        → OnlyReads S.files S.read_faults S.save_faults S.takes shelf.old shelf.new)
        (λ fault. (IsSaveFault (report_of fault) → ⊥) → OnlyReads S.files S.read_faults S.save_faults S.takes shelf.old shelf.new) }
    ensures saving { IfErr result (λ fault. IsSaveFault (report_of fault) → Saves (command_of command.now)) }
    ensures unwritten { IfErr result (λ fault. (report_of fault ≡ write_fault → ⊥) → (IsSaveFault (report_of fault) → ⊥)
        → ((report_of fault ≡ out_of_memory) × Streams (command_of command.now) → ⊥) → out.new ≡ out.old) }
    ensures takes { (name : List ℕ) (n : ℕ) → S.takes shelf.old name n ↔ S.takes shelf.new name n }
    ensures counts { (S.read_faults shelf.old ≤ S.read_faults shelf.new) × (S.save_faults shelf.old ≤ S.save_faults shelf.new)
        × (O.faults out.old ≤ O.faults out.new) }
{
    let answered = answer(alloc, command, shelf)?;
    if let Err(unput) = answered.printed.put(alloc, out, watchers) {
        return Err(unput.fault());
    }
    match answered.save {
        None => Ok(()),
        Some(bytes) => save(shelf, &bytes),
    }
}

// Saves bytes under their name.
fn save<'a, S: Shelf>(shelf: &mut S, save: &Save<'a>) -> Result<(), Fault<'a>>
    requires { S.takes shelf.old save.now.name.now (length save.now.bytes.items) }
    ensures saved { OnOk result (IsSaved (shelf_change S.Shelf shelf.old shelf.new)
        (Some (record { name = save.now.name.now; bytes = save.now.bytes.items }))) }
    ensures fault { IfErr result (λ fault. (report_of fault ≡ save_fault save.now.name.now)
        × Rose (S.save_faults shelf.old) (S.save_faults shelf.new)
        × IsUnsaved (shelf_change S.Shelf shelf.old shelf.new)
        (record { name = save.now.name.now; bytes = save.now.bytes.items })) }
    ensures counts { (S.read_faults shelf.new ≡ S.read_faults shelf.old) × (S.save_faults shelf.old ≤ S.save_faults shelf.new)
        × (S.given shelf.new ≡ S.given shelf.old) }
    ensures takes { (name : List ℕ) (n : ℕ) → S.takes shelf.old name n ↔ S.takes shelf.new name n }
{
    match shelf.save(save.name, &save.bytes) {
        Ok(()) => Ok(()),
        Err(_) => Err(Fault::SaveFault(save.name)),
    }
}

// Reports a fault, hands the line on, and returns the status of the fault.
fn tell<E: Sink>(err: &mut E, fault: &Fault<'_>) -> u8
    requires { (n : ℕ) → E.takes err.old n }
    ensures status { result ≡ status_of (report_of fault.now) }
    ensures line { IsLineWritten (sink_change E.Sink err.old err.new) (line_of (report_of fault.now)) }
    ensures told { (E.held_back err.new ≡ 0) ⊎ Rose (E.faults err.old) (E.faults err.new) }
    ensures count { E.faults err.old ≤ E.faults err.new }
    ensures takes { (n : ℕ) → E.takes err.new n }
{
    if fault.put(err).is_ok() {
        let _ = err.flush();
    }
    fault.status()
}

/// Does what the arguments say: it reads a file and then the series of each of its inputs from the shelf. It writes a text to `out` and
/// hands all of it on. `run QUERY NAME=FILE ..` writes the text of the snapshots that the query emits on its output domain, and
/// `exec CODE NAME=FILE ..` the text of the run of a loop code. `compile QUERY` reads the query alone and writes the listing of its code,
/// and `explain QUERY` writes what is known of its plan; `--plain` leaves out fusion. `pipe QUERY NAME=FILE ..` writes what `run` writes,
/// and then the line of how many snapshots the loops held at most. `watch QUERY NAME=FILE ..` writes what `run` writes and shows each row
/// to the watchers once its line was written. It drops the watchers that have seen enough, and writes a line of the figures of each.
/// `parts QUERY NAME=FILE .. --at TIME,TIME ..` writes what `run` writes, by parts of the output domain, and then the line of how many
/// snapshots come from each. `fix QUERY NAME=FILE .. --edits FILE` writes what `run` writes of the corrected rows, and then a line for
/// each correction. `flow FILE NAME=FILE ..` writes the text of what a pipeline of operators gives. `try SEED COUNT` reads nothing: it
/// writes the summary of a query on that many rows for each input, which are made from the seed. `start QUERY ..` writes what `run` would
/// write by a cut, and `resume CHECKPOINT ..` the lines after it. If they end by a cut, the bytes of a checkpoint are saved after all
/// writes. If a command isn't done, one line that says why goes to `err`, and nothing else. A fault of `err` changes nothing.
///
/// The first error is reported. Errors of the arguments come first, then errors of the query, the pipeline, the code or the checkpoint.
/// The names that are given cuts follow, then the cuts or the order of parts, then the names that are bound. Then come the series, in the
/// order in which the inputs are declared, and then the corrections. `run` without cuts, `pipe`, `watch` and `flow` take memory between
/// writes, so they can run out of memory after a prefix of the text. All other commands take all memory before the first write.
///
/// Returns the status that the program exits with. It is 0 if the command was done, 1 if it was rejected, and 2 if the arguments are no
/// command. It is 3 if a read failed, 4 if a write or the flush failed, 5 if there was no memory, and 6 if the save failed.
pub fn tilt<S: Shelf, O: Sink, E: Sink>(
    alloc: Global,
    words: &[String],
    shelf: &mut S,
    out: &mut O,
    err: &mut E,
    watchers: &mut Vec<Box<dyn Watcher>>,
) -> u8
    requires lent { (name : List ℕ) → HasTurn S.tells (texts words.now) (S.files shelf.old) name → S.lends name }
    requires room { (text : List ℕ) (save : Option SaveValue)
        → (S.tells → IsOutcome (texts words.now) (S.files shelf.old) (watches pair step ends watchers.old.items) (outcome_of text save))
        → O.takes out.old (length text) }
    requires saves { (text : List ℕ) (save : SaveValue)
        → (S.tells → IsOutcome (texts words.now) (S.files shelf.old) (watches pair step ends watchers.old.items)
        (outcome_of text (Some save)))
        → S.takes shelf.old save.name (length save.bytes) }
    requires lines { (n : ℕ) → E.takes err.old n }

    // What the program promises.
    ensures does { KeepsPromise (texts words.now) (shelf_change S.Shelf shelf.old shelf.new) (sink_change O.Sink out.old out.new)
        (sink_change E.Sink err.old err.new)
        (left_of O.tells O.written out.old out.new pair step ends watchers.old watchers.new) result }
{
    match read_words(alloc, words) {
        Ok(command) => match done(alloc, &command, shelf, out, watchers) {
            Ok(()) => 0,
            Err(fault) => tell(err, &fault),
        },
        Err(fault) => tell(err, &Fault::from(fault)),
    }
}
