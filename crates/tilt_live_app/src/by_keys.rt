// A command whose feed has keys.
ghost use Rattle.std.specs.Prelude.{◌≡◌, ⊤, ℕ, List, Some, codes, true};
ghost use Rattle.tilt_live_app.specs.ByKeys.{HasDoneByKeys, recipe_for};
ghost use Rattle.tilt_live_app.specs.Change.{shelf_change};
ghost use Rattle.tilt_live_app.specs.Zoned.{zone_named};
ghost use Rattle.tilt_live_cli.specs.Arguments.{command_value};
ghost use Rattle.tilt_live_keys.specs.Runs.{keyed_meaning};
ghost use Rattle.tilt_outside.specs.Reads.{OnlyReads};
ghost use Rattle.tilt_serving.specs.Served.{HasServed, first_byte};
ghost use Rattle.tilt_serving.specs.Stops.{is_whole};
ghost use Rattle.tilt_zone_files.specs.ZoneFile.{zone_path};

use crate::counting::report_uncounted;
use crate::halted::report_halt;
use crate::job::{Job, load_job};
use crate::unbegun::report_unbegun;
use std::alloc::Global;
use tilt_live_cli::LiveCommand;
use tilt_live_keys::{KeyRecipe, KeyedLive};
use tilt_outside::{Shelf, Sink};
use tilt_port::Port;
use tilt_serving as serving;
use tilt_serving::Halt;

// Does what a command asks for whose feed has so many keys at most, and returns the status.
pub(crate) fn obey_by_keys<S: Shelf, P: Port, E: Sink>(
    alloc: Global,
    command: &LiveCommand<'_>,
    most: u64,
    shelf: &mut S,
    port: &mut P,
    err: &mut E,
) -> u8
    requires lent { S.lends (command_value command.now).query }
    requires state_lent { (file : List ℕ) → (command_value command.now).resume ≡ Some file → S.lends file }
    requires table_lent { (zone : List ℕ) → zone_named (command_value command.now).readings ≡ Some zone → S.lends (zone_path zone) }
    requires lines { (n : ℕ) → E.takes err.old n }
    ensures is { HasDoneByKeys (shelf_change S.tells S.files S.read_faults S.save_faults shelf.old shelf.new) P.tells
        (P.transcript port.old) (P.transcript port.new) E.tells E.written E.faults (command_value command.now) most err.old err.new result }
    ensures rest { OnlyReads S.files S.read_faults S.save_faults S.takes shelf.old shelf.new }
{
    let job = match load_job(alloc, shelf, command) {
        Ok(job) => job,
        Err(why) => return report_unbegun(err, &why),
    };
    report_uncounted(err, &job.counting);
    let recipe = recipe_for(job, command, most);
    match serve_by_keys(alloc, recipe, port, err) {
        Ok(()) => 0,
        Err(halt) => report_halt(err, halt),
    }
}

// What the runs of the keys are made from.
fn recipe_for(job: Job, command: &LiveCommand<'_>, most: u64) -> KeyRecipe
    ensures { result ≡ recipe_for job.accepted job.options.display (command_value command.now) most }
{
    KeyRecipe {
        accepted: job.accepted,
        fuse: !command.plain,
        display: job.options.display,
        options: command.asked.watermarks,
        strict: command.asked.strict,
        max_keys: most as usize,
    }
}

// Serves a feed with keys to its end.
fn serve_by_keys<P: Port, E: Sink>(
    alloc: Global,
    recipe: KeyRecipe,
    port: &mut P,
    err: &mut E,
) -> Result<(), Halt>
    requires lines { (n : ℕ) → E.takes err.old n }
    ensures served { HasServed (keyed_meaning recipe) (first_byte (codes "key,start,end,value\n")) P.tells (P.transcript port.old)
        (P.transcript port.new) E.tells E.written E.faults err.old err.new result }
    ensures handed_on { is_whole result ≡ true → (P.transcript port.new).held_back ≡ 0 }
    ensures takes { (n : ℕ) → E.takes err.new n }
{
    let mut run = KeyedLive::start(alloc, recipe, port)?;
    serving::serve(alloc, &mut run, port, err)
}
