// A command whose feed is served into a folder.
ghost use Rattle.std.specs.Prelude.{◌≡◌, ℕ, List, None, Some, IfOk};
ghost use Rattle.tilt_live_cli.specs.Arguments.{choice_value, command_value};
ghost use Rattle.tilt_live_app.specs.Change.{shelf_change};
ghost use Rattle.tilt_live_app.specs.InFolder.{HasCounted, HasDoneIn, HasPrinted, HasServedIn, IsPrinted, folder_meaning};
ghost use Rattle.tilt_live_app.specs.InFolder.{folders_change, line_of_served, position_text, status_of_served};
ghost use Rattle.tilt_live_app.specs.Zoned.{zone_named};
ghost use Rattle.tilt_serving.specs.Reported.{Reported};
ghost use Rattle.tilt_outside.specs.Reads.{OnlyReads};
ghost use Rattle.tilt_store.specs.Crash.{Only};
ghost use Rattle.tilt_zone_files.specs.ZoneFile.{zone_path};

use crate::counting::report_uncounted;
use crate::folder_end::{end_of, end_of_entering, report_end, report_fault};
use crate::job::load_job;
use crate::unbegun::report_unbegun;
use std::alloc::{AllocError as OutOfMemory, Global};
use tilt_exactly_once::{Failure, Plan, count_committed, serve_feed};
use tilt_live_cli::{FolderChoice, LiveCommand, Task};
use tilt_live_folder::{LiveMachine, LiveRecipe};
use tilt_outside::{Failed, Shelf, Sink};
use tilt_port::Port;
use tilt_report::Fault;
use tilt_store::{Folder, Folders};
use tilt_text::{put, put_number};

/// What the program did: the status that it exits with, and the folder into which it served a feed, if it has got one.
#[derive(Drop)]
pub struct Lived<F> {
    pub status: u8,
    pub folder: Option<F>,
}

// Does what a command asks for that chooses a folder.
pub(crate) fn obey_in<S: Shelf, F: Folder, D: Folders<F>, P: Port, E: Sink>(
    alloc: Global,
    command: &LiveCommand<'_>,
    choice: &FolderChoice,
    shelf: &mut S,
    folders: &mut D,
    port: &mut P,
    err: &mut E,
) -> Lived<F>
    requires lent { S.lends (command_value command.now).query }
    requires state_lent { (file : List ℕ) → (command_value command.now).resume ≡ Some file → S.lends file }
    requires table_lent { (zone : List ℕ) → zone_named (command_value command.now).readings ≡ Some zone → S.lends (zone_path zone) }
    requires chosen { (command_value command.now).folder ≡ Some (choice_value choice.now) }
    requires lines { (n : ℕ) → E.takes err.old n }
    ensures is { HasDoneIn (shelf_change S.tells S.files S.read_faults S.save_faults shelf.old shelf.new) P.tells
        (P.transcript port.old) (P.transcript port.new) E.tells E.written E.faults (command_value command.now)
        (folder_meaning F.tells F.seen F.may_leave F.moment F.left_since F.faults)
        (folders_change D.gives D.faults folders.old folders.new) (choice_value choice.now) err.old err.new result.status result.folder }
    ensures rest { OnlyReads S.files S.read_faults S.save_faults S.takes shelf.old shelf.new }
{
    let job = match load_job(alloc, shelf, command) {
        Ok(job) => job,
        Err(why) => return without_folder(report_unbegun(err, &why)),
    };
    let name = choice.name.as_str();
    let folder = match folders.enter(alloc, name) {
        Ok(folder) => folder,
        Err(error) => return without_folder(report_end(err, name, &end_of_entering(name, error))),
    };
    let recipe = LiveRecipe::new(job.query, job.accepted, job.options);
    match choice.task {
        Task::Position => print_position(alloc, folder, recipe, name, port, err),
        Task::Serve(plan) => {
            report_uncounted(err, &job.counting);
            serve_in(alloc, folder, recipe, plan, name, port, err)
        }
    }
}

// What was done without a folder.
pub(crate) fn without_folder<F>(status: u8) -> Lived<F>
    ensures status { result.status ≡ status }
    ensures folder { result.folder ≡ None }
{
    Lived {
        status,
        folder: None,
    }
}

// Serves the feed of a query into a folder of that name, as it is planned, and reports what halted it.
fn serve_in<F: Folder, P: Port, E: Sink>(
    alloc: Global,
    folder: F,
    recipe: LiveRecipe,
    plan: Plan,
    name: &str,
    port: &mut P,
    err: &mut E,
) -> Lived<F>
    requires only { F.tells → Only (F.seen folder) (F.may_leave folder) }
    requires lines { (n : ℕ) → E.takes err.old n }
    ensures served { HasServedIn P.tells (P.transcript port.old) (P.transcript port.new) E.tells E.written E.faults
        (folder_meaning F.tells F.seen F.may_leave F.moment F.left_since F.faults) recipe plan name.now folder err.new
        result.status result.folder }
{
    let served = serve_feed::<F, LiveMachine, P, E>(alloc, folder, recipe, plan, port, err);
    Lived {
        status: report_served(err, name, served.end),
        folder: Some(served.folder),
    }
}

// Reports how a feed ended in a folder, and returns the status.
fn report_served<E: Sink>(err: &mut E, name: &str, end: Result<(), Failure>) -> u8
    requires { (n : ℕ) → E.takes err.old n }
    ensures status { result ≡ status_of_served name.now end }
    ensures line { Reported E.tells E.written E.faults err.old err.new (line_of_served name.now end) }
{
    match end {
        Ok(()) => 0,
        Err(failure) => report_end(err, name, &end_of(name, failure)),
    }
}

// Prints how many bytes of the feed of a query are committed in a folder of that name.
fn print_position<F: Folder, P: Port, E: Sink>(
    alloc: Global,
    folder: F,
    recipe: LiveRecipe,
    name: &str,
    port: &mut P,
    err: &mut E,
) -> Lived<F>
    requires only { F.tells → Only (F.seen folder) (F.may_leave folder) }
    requires lines { (n : ℕ) → E.takes err.old n }
    ensures counted { HasCounted P.tells (P.transcript port.old) (P.transcript port.new) E.tells E.written E.faults
        (folder_meaning F.tells F.seen F.may_leave F.moment F.left_since F.faults) recipe name.now folder err.old err.new
        result.status result.folder }
{
    let (count, folder) = match count_committed::<F, LiveMachine>(alloc, folder, recipe) {
        Ok(found) => found,
        Err((error, folder)) => {
            let end = end_of(name, Failure::Unstarted(error));
            return Lived {
                status: report_end(err, name, &end),
                folder: Some(folder),
            };
        }
    };
    Lived {
        status: print_count(alloc, count, port, err),
        folder: Some(folder),
    }
}

// Prints a number of bytes, and returns the status.
fn print_count<P: Port, E: Sink>(alloc: Global, count: u64, port: &mut P, err: &mut E) -> u8
    requires lines { (n : ℕ) → E.takes err.old n }
    ensures printed { HasPrinted P.tells (P.transcript port.old) (P.transcript port.new) E.tells E.written E.faults count err.old err.new
        result }
{
    let Ok(text) = position_text(alloc, count) else {
        return report_fault(err, &Fault::OutOfMemory);
    };
    match print(port, &text) {
        Ok(()) => 0,
        Err(_) => report_fault(err, &Fault::WriteFault),
    }
}

// The text of a position.
fn position_text(alloc: Global, count: u64) -> Result<Vec<u8>, OutOfMemory>
    ensures { IfOk result (λ text. text.items ≡ position_text count) }
{
    let mut text = Vec::new(alloc);
    put_number(&mut text, count)?;
    put(&mut text, b"\n")?;
    Ok(text)
}

// Writes a text and hands it on.
pub(crate) fn print<P: Port>(port: &mut P, text: &[u8]) -> Result<(), Failed>
    ensures { IsPrinted P.tells (P.transcript port.old) (P.transcript port.new) text.now result }
{
    port.write(text)?;
    port.flush()
}
