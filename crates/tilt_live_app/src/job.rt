// What a command reads before its feed: the query with the options of its run, the table of its zone, and the state that the run goes on
// from.
ghost use Rattle.std.specs.Prelude.{◌≡◌, ◌⊎◌, ◌<◌, ◌^◌, ℕ, List, Some, IfOk, IfErr, length, option_map, string_bytes};
ghost use Rattle.tilt_checkpoint.specs.Valid.{IsAccepted};
ghost use Rattle.tilt_live_cli.specs.Arguments.{command_value};
ghost use Rattle.tilt_live_app.specs.Asked.{IsMisnamed, NamesInputs, form_asked, missing_named, options_asked};
ghost use Rattle.tilt_live_app.specs.BeginReport.{begin_report};
ghost use Rattle.tilt_live_app.specs.Begun.{HasTaken, IsUnbegun};
ghost use Rattle.tilt_live_app.specs.Change.{shelf_change};
ghost use Rattle.tilt_live_app.specs.Counting.{CountsBy, IsMiscounted};
ghost use Rattle.tilt_live_app.specs.Resumed.{GoesOnFrom, IsFitFor};
ghost use Rattle.tilt_live_app.specs.StateFile.{RefusesState};
ghost use Rattle.tilt_live_app.specs.Zoned.{HasZone, zone_named};
ghost use Rattle.tilt_load.specs.Load.{IsLoadFault};
ghost use Rattle.tilt_outside.specs.Reads.{OnlyReads};
ghost use Rattle.tilt_report.specs.Report.{out_of_memory, report_of};
ghost use Rattle.tilt_run_state.specs.Spelling.{opening};
ghost use Rattle.tilt_types.specs.Checked.{core_of};
ghost use Rattle.tilt_zone_files.specs.ZoneFile.{zone_path};

use crate::counting::{Counting, choose_counting};
use crate::loaded::{Loaded, load};
use crate::run_options::run_options;
use crate::state_file::load_state;
use crate::unbegun::Unbegun;
use crate::zoned::load_table;
use std::alloc::Global;
use tilt_compiler::Accepted;
use tilt_feed_form::FeedForm;
use tilt_live_cli::LiveCommand;
use tilt_live_run::RunOptions;
use tilt_outside::Shelf;
use tilt_report::Fault;
use tilt_run_state::{RunState, put_opening};
use tilt_syntax::Query;
use tilt_zones::Zone;

// A query, what the compiler knows of it, the options of its run, and the state that the run goes on from, if there is one.
#[derive(Drop)]
pub(crate) struct Job {
    pub(crate) query: Query,
    pub(crate) accepted: Accepted,
    // How many decimals its output has, if it is in units.
    pub(crate) decimals: Option<u8>,
    // What clocks of the zone of its local times show, if options name one.
    pub(crate) table: Option<Zone>,
    pub(crate) options: RunOptions,
    // What the states of the run begin with.
    pub(crate) opening: Vec<u8>,
    pub(crate) from: Option<RunState>,
    // How its results that leave 64 bits are counted.
    pub(crate) counting: Counting,
}

// What a command reads before its feed. The errors are those of the file of its query, of the file of its zone, of the names in its
// options, and of the file of its state.
pub(crate) fn load_job<'a, S: Shelf>(
    alloc: Global,
    shelf: &mut S,
    command: &'a LiveCommand<'_>,
) -> Result<Job, Unbegun<'a>>
    requires lent { S.lends (command_value command.now).query }
    requires state_lent { (file : List ℕ) → (command_value command.now).resume ≡ Some file → S.lends file }
    requires table_lent { (zone : List ℕ) → zone_named (command_value command.now).readings ≡ Some zone → S.lends (zone_path zone) }
    ensures taken { IfOk result (λ job. HasTaken S.tells (S.files shelf.old command.now.query.now) (command_value command.now).units
        job.query job.accepted.core job.decimals) }
    ensures named { IfOk result (λ job. NamesInputs (command_value command.now) job.accepted.core.inputs) }
    ensures zone { IfOk result (λ job. HasZone S.tells (S.files shelf.old) (zone_named (command_value command.now).readings) job.table) }
    ensures asked { IfOk result (λ job. job.options
        ≡ options_asked (command_value command.now) job.table job.accepted.core.inputs job.decimals) }
    ensures counts { IfOk result (λ job. CountsBy (command_value command.now) job.accepted.core job.options job.counting) }
    ensures opening { IfOk result (λ job. job.opening.items ≡ opening job.options.form) }
    ensures goes_on { IfOk result (λ job. GoesOnFrom S.tells (S.files shelf.old) job.query job.options.form
        (command_value command.now).resume job.from) }
    ensures accepted { IfOk result (λ job. IsAccepted job.query × (job.accepted.core ≡ core_of job.query)) }
    ensures fit { IfOk result (λ job. IsFitFor job.accepted.core job.options.form job.from) }
    ensures fault { IfErr result (λ why. IsUnbegun (shelf_change S.tells S.files S.read_faults S.save_faults shelf.old shelf.new)
        (command_value command.now) (begin_report why)) }
    ensures rest { OnlyReads S.files S.read_faults S.save_faults S.takes shelf.old shelf.new }
{
    let loaded = load_query_of(alloc, shelf, command)?;
    let table = load_table(alloc, shelf, &command.readings)?;
    let inputs = loaded.accepted.core().inputs();
    let options = run_options(alloc, command, &table, inputs, loaded.decimals)?;
    let counting = count_overflows(alloc, command, &table, &loaded)?;
    let opening = open_state(alloc, &options.form)?;
    let from = load_from(alloc, shelf, &command.resume, &loaded.query, &options.form)?;
    Ok(Job {
        query: loaded.query,
        accepted: loaded.accepted,
        decimals: loaded.decimals,
        table,
        options,
        opening,
        from,
        counting,
    })
}

// How the results of a query that leave 64 bits are counted.
fn count_overflows<'a>(
    alloc: Global,
    command: &LiveCommand<'_>,
    table: &Option<Zone>,
    loaded: &Loaded,
) -> Result<Counting, Unbegun<'a>>
    requires { length loaded.now.accepted.core.inputs < 2 ^ 32 }
    ensures counts { IfOk result (λ counting. CountsBy (command_value command.now) loaded.now.accepted.core
        (options_asked (command_value command.now) table.now loaded.now.accepted.core.inputs loaded.now.decimals) counting) }
    ensures fault { IfErr result (λ why. IsMisnamed (missing_named (command_value command.now).readings (command_value command.now).units
        loaded.now.accepted.core.inputs) (begin_report why)
        ⊎ IsMiscounted (command_value command.now) loaded.now.accepted.core.inputs (begin_report why)) }
{
    let options = run_options(
        alloc,
        command,
        table,
        loaded.accepted.core().inputs(),
        loaded.decimals,
    )?;
    let counting = choose_counting(alloc, command, &loaded.accepted, options)?;
    Ok(counting)
}

// The query of a command.
fn load_query_of<'a, S: Shelf>(
    alloc: Global,
    shelf: &mut S,
    command: &'a LiveCommand<'_>,
) -> Result<Loaded, Unbegun<'a>>
    requires lent { S.lends (command_value command.now).query }
    ensures taken { IfOk result (λ loaded. HasTaken S.tells (S.files shelf.old command.now.query.now) (command_value command.now).units
        loaded.query loaded.accepted.core loaded.decimals) }
    ensures accepted { IfOk result (λ loaded. IsAccepted loaded.query × (loaded.accepted.core ≡ core_of loaded.query)) }
    ensures fault { IfErr result (λ why. IsUnbegun (shelf_change S.tells S.files S.read_faults S.save_faults shelf.old shelf.new)
        (command_value command.now) (begin_report why)) }
    ensures rest { OnlyReads S.files S.read_faults S.save_faults S.takes shelf.old shelf.new }
{
    load(alloc, shelf, command.query, command.units(), !command.plain)
}

// What the state of a run over a feed in this form begins with.
fn open_state<'a>(alloc: Global, form: &FeedForm) -> Result<Vec<u8>, Fault<'a>>
    ensures opening { IfOk result (λ front. front.items ≡ opening form.now) }
    ensures fault { IfErr result (λ fault. report_of fault ≡ out_of_memory) }
{
    let mut front = Vec::new(alloc);
    match put_opening(&mut front, form) {
        Ok(()) => Ok(front),
        Err(_) => Err(Fault::OutOfMemory),
    }
}

// The state that a run of the query goes on from, if there is a file of it.
fn load_from<'a, S: Shelf>(
    alloc: Global,
    shelf: &mut S,
    file: &'a Option<String>,
    query: &Query,
    form: &FeedForm,
) -> Result<Option<RunState>, Fault<'a>>
    requires { (name : List ℕ) → option_map (λ text. string_bytes text) file.now ≡ Some name → S.lends name }
    ensures goes_on { IfOk result (λ from. GoesOnFrom S.tells (S.files shelf.old) query.now form.now
        (option_map (λ text. string_bytes text) file.now) from) }
    ensures fit { IfOk result (λ from. IsFitFor (core_of query.now) form.now from) }
    ensures fault { IfErr result (λ fault. (name : List ℕ) × (option_map (λ text. string_bytes text) file.now ≡ Some name)
        × IsLoadFault S.tells (RefusesState query.now form.now name (S.files shelf.old name)) (λ which. which ≡ name)
        (S.read_faults shelf.old) (S.read_faults shelf.new) (report_of fault)) }
    ensures rest { OnlyReads S.files S.read_faults S.save_faults S.takes shelf.old shelf.new }
{
    match file {
        None => Ok(None),
        Some(name) => {
            let state = load_state(alloc, shelf, name.as_str(), query, form)?;
            Ok(Some(state))
        }
    }
}
