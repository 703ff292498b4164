// The program's one call.
ghost use Rattle.std.specs.Prelude.{◌≡◌, ◌≤◌, ◌↔◌, ℕ, List, None, Some, IfErr, option_map, string_bytes};
ghost use Rattle.tilt_cli.specs.Command.{texts};
ghost use Rattle.tilt_live_cli.specs.Arguments.{CommandValue, IsLiveCommand, command_value};
ghost use Rattle.tilt_live_app.specs.Change.{shelf_change};
ghost use Rattle.tilt_live_app.specs.Keeping.{IsSaveFailure};
ghost use Rattle.tilt_live_app.specs.Done.{HasDone, HasRun, IsSaving};
ghost use Rattle.tilt_live_app.specs.InFolder.{folder_meaning, folders_change};
ghost use Rattle.tilt_live_app.specs.Lived.{HasLived};
ghost use Rattle.tilt_live_app.specs.Zoned.{zone_named};
ghost use Rattle.tilt_outside.specs.Reads.{OnlyReads};
ghost use Rattle.tilt_report.specs.Report.{line_of, report_of, status_of};
ghost use Rattle.tilt_zone_files.specs.ZoneFile.{zone_path};

use crate::by_keys::obey_by_keys;
use crate::checking::check_query;
use crate::counting::report_uncounted;
use crate::ended_run::EndedRun;
use crate::failure::Failure;
use crate::folder_end::report_fault;
use crate::halted::report_halt;
use crate::in_folder::{Lived, obey_in, without_folder};
use crate::job::load_job;
use crate::unbegun::report_unbegun;
use std::alloc::Global;
use tilt_live_cli::{LiveCommand, read_command};
use tilt_live_run::Keep;
use tilt_outside::{Shelf, Sink};
use tilt_port::Port;
use tilt_report::Fault;
use tilt_store::{Folder, Folders};

/// Serves the feed of a query. The arguments are the file of the query and options, each at most once. `--plain` leaves out fusion,
/// `--begun` writes what has begun, and with `--strict` the first bad line ends it. `--lateness`, `--idle` and `--ahead`, each with a
/// number of ticks, are the options of its watermarks. The feed is read from the port until its end, line by line; what each line makes
/// final is written before more is read.
///
/// With `--time COL` the feed is one of readings, and the options from `--name` on say how they are written and what they mean. With
/// `--zone NAME` dates without an offset are local times of this zone, by its file in `/usr/share/zoneinfo`.
///
/// With `--keys` each line of the feed begins with a key, and each key has a run of its own, whose rows come with the key. The run stops at
/// a line with a new key if there are as many keys as there may be (`--max-keys N`).
///
/// With `--units` the query is in the units of its data, and `--scale` says what the numbers of each input are multiplied by to be whole.
/// With `--check` the query in units is checked, and no feed is read. The port gets the scales of its inputs, the bounds of its
/// definitions and the query over whole numbers. `--bounds` says what is known of the inputs. A line on `err` names the first definition
/// that can leave 64 bits, if one can.
///
/// With `--save FILE` the state of the run is saved once the feed has ended by itself and all output was handed on. With `--resume FILE` a
/// run goes on from such a state. It writes only what is final after it, and its feed goes on with the byte after the last LF that the
/// state has seen.
///
/// With `--folder FOLDER` nothing is written to the port. The output goes into a file of the folder, and is committed there with the state
/// of the run. It is committed after every `N` lines (`--every N`, by default 1), and at the end of the feed. The feed is read from its
/// byte `N` on (`--from N`, by default 0), and what is committed of it is passed over. So whatever kills the program at whatever moment,
/// the same command serves the same feed to its end, and the folder holds each byte of output once. With `--position` the number of bytes
/// of the feed that are committed is written to the port, and nothing is read.
///
/// The status of the result is the one that the program exits with:
/// - 0: the feed ended, and its state was saved if it was to be; or the position was printed; or the check names no definition
/// - 1: the query, a name in an option, the state, the folder or the feed is rejected, or a line by `--strict`. Or the file of the zone has
///   no table or can't be read. Or there are too many keys. Or the check names a definition
/// - 2: the arguments are no command
/// - 3: another read failed
/// - 4: a write or a flush failed
/// - 5: memory ran out
/// - 6: the feed ended, and the save of its state failed; or a file of the folder couldn't be read or written
///
/// A line on `err` reports each status except 0, and each bad line. A fault of `err` changes nothing.
pub fn live<S: Shelf, F: Folder, D: Folders<F>, P: Port, E: Sink>(
    alloc: Global,
    words: &[String],
    shelf: &mut S,
    folders: &mut D,
    port: &mut P,
    err: &mut E,
) -> Lived<F>
    requires lent { (command : CommandValue) → IsLiveCommand (texts words.now) command → S.lends command.query }
    requires state_lent { (command : CommandValue) (file : List ℕ) → IsLiveCommand (texts words.now) command
        → command.resume ≡ Some file → S.lends file }
    requires table_lent { (command : CommandValue) (zone : List ℕ) → IsLiveCommand (texts words.now) command
        → zone_named command.readings ≡ Some zone → S.lends (zone_path zone) }
    requires saves { (command : CommandValue) (file : List ℕ) (n : ℕ) → IsLiveCommand (texts words.now) command
        → command.save ≡ Some file → S.takes shelf.old file n }
    requires lines { (n : ℕ) → E.takes err.old n }
    ensures is { HasLived (shelf_change S.tells S.files S.read_faults S.save_faults shelf.old shelf.new) P.tells
        (P.transcript port.old) (P.transcript port.new) E.tells E.written E.faults
        (folder_meaning F.tells F.seen F.may_leave F.moment F.left_since F.faults)
        (folders_change D.gives D.faults folders.old folders.new) (texts words.now) err.old err.new result.status result.folder }

    // The files of the shelf are as before, unless a state was saved. What can be taken still can, and no count falls.
    ensures rest { (result.status ≡ 0 → ⊥) → (result.status ≡ 6 → ⊥)
        → OnlyReads S.files S.read_faults S.save_faults S.takes shelf.old shelf.new }
    ensures unsaved { ¬ (IsSaving (texts words.now)) → OnlyReads S.files S.read_faults S.save_faults S.takes shelf.old shelf.new }
    ensures takes { (name : List ℕ) (n : ℕ) → S.takes shelf.old name n ↔ S.takes shelf.new name n }
    ensures counts { (S.read_faults shelf.old ≤ S.read_faults shelf.new) × (S.save_faults shelf.old ≤ S.save_faults shelf.new) }
{
    let command = match read_command(alloc, words) {
        Ok(command) => command,
        Err(fault) => return without_folder(report_fault(err, &Fault::from(fault))),
    };
    if let Some(bounds) = &command.check {
        let scales = command.units().as_ref().unwrap();
        let status = check_query(alloc, command.query, scales, bounds, shelf, port, err);
        return without_folder(status);
    }
    if let Some(choice) = &command.folder {
        return obey_in(alloc, &command, choice, shelf, folders, port, err);
    }
    match command.asked.keys {
        None => without_folder(obey(alloc, &command, shelf, port, err)),
        Some(most) => without_folder(obey_by_keys(alloc, &command, most, shelf, port, err)),
    }
}

// Does what a command asks for that chooses no folder and has no keys, and returns the status.
fn obey<S: Shelf, P: Port, E: Sink>(
    alloc: Global,
    command: &LiveCommand<'_>,
    shelf: &mut S,
    port: &mut P,
    err: &mut E,
) -> u8
    requires lent { S.lends (command_value command.now).query }
    requires state_lent { (file : List ℕ) → (command_value command.now).resume ≡ Some file → S.lends file }
    requires table_lent { (zone : List ℕ) → zone_named (command_value command.now).readings ≡ Some zone → S.lends (zone_path zone) }
    requires saves { (file : List ℕ) (n : ℕ) → (command_value command.now).save ≡ Some file → S.takes shelf.old file n }
    requires lines { (n : ℕ) → E.takes err.old n }
    ensures is { HasDone (shelf_change S.tells S.files S.read_faults S.save_faults shelf.old shelf.new) P.tells
        (P.transcript port.old) (P.transcript port.new) E.tells E.written E.faults (command_value command.now) err.old err.new result }
    ensures rest { (result ≡ 0 → ⊥) → (result ≡ 6 → ⊥) → OnlyReads S.files S.read_faults S.save_faults S.takes shelf.old shelf.new }
    ensures unsaved { (command_value command.now).save ≡ None
        → OnlyReads S.files S.read_faults S.save_faults S.takes shelf.old shelf.new }
    ensures takes { (name : List ℕ) (n : ℕ) → S.takes shelf.old name n ↔ S.takes shelf.new name n }
    ensures counts { (S.read_faults shelf.old ≤ S.read_faults shelf.new) × (S.save_faults shelf.old ≤ S.save_faults shelf.new) }
{
    match run(alloc, command, shelf, port, err) {
        Ok(()) => 0,
        Err(Failure::Halted(halt)) => report_halt(err, halt),
        Err(Failure::Unbegun(why)) => report_unbegun(err, &why),
        Err(Failure::Unsaved(name)) => report_fault(err, &Fault::SaveFault(name)),
        Err(Failure::Unmade) => report_fault(err, &Fault::OutOfMemory),
    }
}

// Reads what comes before the feed, serves the feed, and saves the state of the run if it is to be saved.
fn run<'a, S: Shelf, P: Port, E: Sink>(
    alloc: Global,
    command: &'a LiveCommand<'_>,
    shelf: &mut S,
    port: &mut P,
    err: &mut E,
) -> Result<(), Failure<'a>>
    requires lent { S.lends (command_value command.now).query }
    requires state_lent { (file : List ℕ) → (command_value command.now).resume ≡ Some file → S.lends file }
    requires table_lent { (zone : List ℕ) → zone_named (command_value command.now).readings ≡ Some zone → S.lends (zone_path zone) }
    requires saves { (file : List ℕ) (n : ℕ) → (command_value command.now).save ≡ Some file → S.takes shelf.old file n }
    requires lines { (n : ℕ) → E.takes err.old n }
    ensures is { HasRun (shelf_change S.tells S.files S.read_faults S.save_faults shelf.old shelf.new) P.tells
        (P.transcript port.old) (P.transcript port.new) E.tells E.written E.faults (command_value command.now) err.old err.new result }
    ensures rest { IfErr result (λ failure. (IsSaveFailure failure → ⊥)
        → OnlyReads S.files S.read_faults S.save_faults S.takes shelf.old shelf.new) }
    ensures unsaved { (command_value command.now).save ≡ None
        → OnlyReads S.files S.read_faults S.save_faults S.takes shelf.old shelf.new }
    ensures takes { (name : List ℕ) (n : ℕ) → S.takes shelf.old name n ↔ S.takes shelf.new name n }
    ensures counts { (S.read_faults shelf.old ≤ S.read_faults shelf.new) × (S.save_faults shelf.old ≤ S.save_faults shelf.new) }
    ensures lines { (n : ℕ) → E.takes err.new n }
{
    let job = match load_job(alloc, shelf, command) {
        Ok(job) => job,
        Err(why) => return Err(Failure::Unbegun(why)),
    };
    report_uncounted(err, &job.counting);
    let keep = keep_for(&command.save);
    let served = match EndedRun::serve(alloc, job, keep, port, err) {
        Ok(served) => served,
        Err(halt) => return Err(Failure::Halted(halt)),
    };
    match &command.save {
        None => Ok(()),
        Some(name) => served.save(alloc, shelf, name.as_str()),
    }
}

// What a run keeps if its state is saved in this file.
fn keep_for(file: &Option<String>) -> Keep
    ensures { (name : List ℕ) → option_map (λ text. string_bytes text) file.now ≡ Some name → result ≡ Keep.State }
{
    match file {
        None => Keep::Nothing,
        Some(_) => Keep::State,
    }
}
