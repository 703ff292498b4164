// The inputs of a query or of a code, each from the file that is bound to it.
ghost use Rattle.std.specs.Prelude.{◌≡◌, ◌≤◌, List, [], ◌∷◌, ◌++◌, ℕ, Ok, Err, None, length, IfOk, IfErr, OnOk, MatchResult};
ghost use Rattle.tilt_outside.specs.Counts.{added_count, last_count};
ghost use Rattle.tilt_outside.specs.Reads.{OnlyReads};
ghost use Rattle.tilt_load.specs.Inputs.{bytes_of_inputs, faulty_name};
ghost use Rattle.tilt_load.specs.Load.{HasInputTurn, HasSessionTurn, IsLoadFault, IsNameFault};
ghost use Rattle.tilt_load.specs.SeriesFiles.{AreWithin, TakesInputs, TakesSession, RefusesInputs, RefusesSession};
ghost use Rattle.tilt_load.specs.SeriesFiles.{bounds_in, inputs_read};
ghost use Rattle.tilt_report.specs.Report.{report_of};
ghost use Rattle.tilt_cli.specs.Binding.{bindings_of};

use crate::binds::{faulty_bind, file_bound};
use crate::names::FaultyName;
use crate::series_file::load_input;
use std::alloc::{AllocError as OutOfMemory, Global};
use tilt_cli::Bind;
use tilt_lexer::Name;
use tilt_outside::Shelf;
use tilt_report::{Fault, Refusal};
use tilt_series::Bounds;
use tilt_stream::Rows;

/// The rows of each input, in order, from the file that is bound to its name. The names are tested before a file is read, and each input
/// is done before the next one is read. The first faulty name is rejected, or else the first series that has a fault. `ReadFault` comes
/// if a read failed, and `OutOfMemory` only if there was no memory.
pub fn load_inputs<'a, S: Shelf>(
    alloc: Global,
    shelf: &mut S,
    inputs: &[Name],
    binds: &'a [Bind],
) -> Result<Vec<Rows>, Fault<'a>>
    requires { (file : List ℕ)
        → HasInputTurn S.tells (S.files shelf.old) (bindings_of binds.now) inputs.now file → S.lends file }
    ensures taken { S.tells → IfOk result (λ rows. TakesInputs (S.files shelf.old) (bindings_of binds.now) inputs.now rows.items) }
    ensures many { IfOk result (λ rows. length rows.items ≡ length inputs.now) }
    ensures fault { IfErr result (λ fault. IsLoadFault S.tells
        (RefusesInputs (S.files shelf.old) (bindings_of binds.now) inputs.now)
        (HasInputTurn S.tells (S.files shelf.old) (bindings_of binds.now) inputs.now)
        (S.read_faults shelf.old) (S.read_faults shelf.new) (report_of fault)) }
    ensures given { S.tells → S.given shelf.old ≤ last_count → IfOk result (λ _. S.given shelf.new
        ≡ added_count (S.given shelf.old) (bytes_of_inputs (S.files shelf.old) (bindings_of binds.now) inputs.now)) }
    ensures rest { OnlyReads S.files S.read_faults S.save_faults S.takes shelf.old shelf.new }
{
    load_session_inputs(alloc, shelf, inputs, binds, &[])
}

/// The rows of each input that a session is handed, in order, from the file that is bound to its name. The rows of each input are within
/// the bounds of its place; an input beyond the list of bounds has none. The names are tested before a file is read, and each input is
/// done before the next one is read. The first faulty name is rejected, or else the first series that has a fault. `ReadFault` comes if a
/// read failed, and `OutOfMemory` only if there was no memory.
pub fn load_session_inputs<'a, S: Shelf>(
    alloc: Global,
    shelf: &mut S,
    inputs: &[Name],
    binds: &'a [Bind],
    bounds: &[Bounds],
) -> Result<Vec<Rows>, Fault<'a>>
    requires { (file : List ℕ)
        → HasSessionTurn S.tells (S.files shelf.old) (bindings_of binds.now) (bounds_in bounds.now) inputs.now file → S.lends file }
    ensures taken { S.tells → IfOk result (λ rows.
        TakesSession (S.files shelf.old) (bindings_of binds.now) (bounds_in bounds.now) inputs.now rows.items) }
    ensures many { IfOk result (λ rows. length rows.items ≡ length inputs.now) }
    ensures within { IfOk result (λ rows. AreWithin (bounds_in bounds.now) rows.items) }
    ensures fault { IfErr result (λ fault. IsLoadFault S.tells
        (RefusesSession (S.files shelf.old) (bindings_of binds.now) (bounds_in bounds.now) inputs.now)
        (HasSessionTurn S.tells (S.files shelf.old) (bindings_of binds.now) (bounds_in bounds.now) inputs.now)
        (S.read_faults shelf.old) (S.read_faults shelf.new) (report_of fault)) }
    ensures given { S.tells → S.given shelf.old ≤ last_count → IfOk result (λ _. S.given shelf.new
        ≡ added_count (S.given shelf.old) (bytes_of_inputs (S.files shelf.old) (bindings_of binds.now) inputs.now)) }
    ensures rest { OnlyReads S.files S.read_faults S.save_faults S.takes shelf.old shelf.new }
{
    check_names(inputs, binds)?;
    read_inputs(alloc, shelf, inputs, binds, bounds)
}

// Rejects arguments unless they bind each input once, and nothing else.
fn check_names<'a>(inputs: &[Name], binds: &'a [Bind]) -> Result<(), Fault<'a>>
    ensures { MatchResult result
        (λ _. faulty_name inputs.now (bindings_of binds.now) ≡ None)
        (λ fault. IsNameFault inputs.now (bindings_of binds.now) (report_of fault)) }
{
    match faulty_bind(inputs, binds) {
        None => Ok(()),
        Some(FaultyName::Given(name)) => Err(Fault::Refused(Refusal::UnexpectedName(name))),
        Some(FaultyName::Input(place)) => {
            let name = inputs[place].copy()?;
            Err(Fault::Refused(Refusal::UnboundInput(name)))
        }
    }
}

// The rows of each input, in order, each within the bounds of its place. Each is done before the next one is read.
fn read_inputs<'a, S: Shelf>(
    alloc: Global,
    shelf: &mut S,
    inputs: &[Name],
    binds: &'a [Bind],
    bounds: &[Bounds],
) -> Result<Vec<Rows>, Fault<'a>>
    requires named { faulty_name inputs.now (bindings_of binds.now) ≡ None }
    requires lent { (file : List ℕ)
        → HasSessionTurn S.tells (S.files shelf.old) (bindings_of binds.now) (bounds_in bounds.now) inputs.now file → S.lends file }
    ensures taken { S.tells → IfOk result (λ rows.
        inputs_read (S.files shelf.old) (bindings_of binds.now) (bounds_in bounds.now) inputs.now ≡ Ok rows.items) }
    ensures many { IfOk result (λ rows. length rows.items ≡ length inputs.now) }
    ensures within { IfOk result (λ rows. AreWithin (bounds_in bounds.now) rows.items) }
    ensures fault { IfErr result (λ fault. IsLoadFault S.tells
        (λ why. inputs_read (S.files shelf.old) (bindings_of binds.now) (bounds_in bounds.now) inputs.now ≡ Err why)
        (HasSessionTurn S.tells (S.files shelf.old) (bindings_of binds.now) (bounds_in bounds.now) inputs.now)
        (S.read_faults shelf.old) (S.read_faults shelf.new) (report_of fault)) }
    ensures given { S.tells → S.given shelf.old ≤ last_count → IfOk result (λ _. S.given shelf.new
        ≡ added_count (S.given shelf.old) (bytes_of_inputs (S.files shelf.old) (bindings_of binds.now) inputs.now)) }
    ensures rest { OnlyReads S.files S.read_faults S.save_faults S.takes shelf.old shelf.new }
{
    let mut all = Vec::new(alloc);
    for input in inputs {
        let within = bounds_at(bounds, all.len());
        let rows = load_input(alloc, shelf, input, file_bound(binds, input), within)?;
        add(&mut all, rows)?;
    }
    Ok(all)
}

// The bounds of the input at a place, counted from 0.
fn bounds_at(bounds: &[Bounds], place: usize) -> Bounds
    ensures { result ≡ bounds_in bounds.now place }
{
    match bounds.get(place) {
        Some(bounds) => *bounds,
        None => Bounds {
            last_end: None,
            from: None,
            upto: None,
        },
    }
}

// Adds the rows of one more input.
fn add(all: &mut Vec<Rows>, rows: Rows) -> Result<(), OutOfMemory>
    ensures { OnOk result (all.new.items ≡ all.old.items ++ rows ∷ []) }
{
    all.push(rows)?;
    Ok(())
}
