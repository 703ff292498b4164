// A pipeline file, from the shelf to the pipeline that it holds.
ghost use Rattle.std.specs.Prelude.{◌≡◌, List, ℕ, ⊤, Ok, length, IfOk, IfErr};
ghost use Rattle.tilt_bounds.specs.Margins.{margins_of};
ghost use Rattle.tilt_load.specs.FlowFile.{HasFlow, TakesFlow, RefusesFlow};
ghost use Rattle.tilt_load.specs.Load.{IsLoadFault};
ghost use Rattle.tilt_operators.specs.Desugared.{query_of};
ghost use Rattle.tilt_operators.specs.Steps.{IsFlow};
ghost use Rattle.tilt_outside.specs.Counts.{added_count};
ghost use Rattle.tilt_outside.specs.Reads.{OnlyReads};
ghost use Rattle.tilt_report.specs.Report.{report_of};
ghost use Rattle.tilt_types.specs.Checked.{core_of};

use crate::file::load;
use std::alloc::Global;
use tilt_compiler::{Accepted, accept};
use tilt_operators::{Flow, desugar, read_flow};
use tilt_outside::Shelf;
use tilt_report::Fault;
use tilt_types::check;

/// A pipeline that was read, and what the compiler knows of its query.
#[derive(Drop)]
pub struct LoadedFlow {
    pub flow: Flow,
    pub accepted: Accepted,
}

/// The pipeline in the file of that name, whose query is run with fusion or without. `Refused` has the first reason why the file is
/// rejected. `ReadFault` comes if a read failed, and `OutOfMemory` only if there was no memory.
pub fn load_flow<'a, S: Shelf>(
    alloc: Global,
    shelf: &mut S,
    name: &'a str,
    fuse: bool,
) -> Result<LoadedFlow, Fault<'a>>
    requires { S.lends name.now }
    ensures taken { S.tells → IfOk result (λ loaded. TakesFlow (S.files shelf.old name.now) loaded.flow) }
    ensures valid { IfOk result (λ loaded. IsFlow loaded.flow) }
    ensures core { IfOk result (λ loaded. loaded.accepted.core ≡ core_of (query_of loaded.flow)) }
    ensures fuse { IfOk result (λ loaded. loaded.accepted.fuse ≡ fuse) }
    ensures fault { IfErr result (λ fault. IsLoadFault S.tells (RefusesFlow name.now (S.files shelf.old name.now))
        (λ which. which ≡ name.now) (S.read_faults shelf.old) (S.read_faults shelf.new) (report_of fault)) }
    ensures given { S.tells → IfOk result (λ _. S.given shelf.new ≡ added_count (S.given shelf.old) (length (S.files shelf.old name.now))) }
    ensures rest { OnlyReads S.files S.read_faults S.save_faults S.takes shelf.old shelf.new }
{
    let bytes = load(alloc, shelf, name)?;
    let flow = read_flow(alloc, &bytes)?;
    let accepted = accept_query(alloc, &flow, fuse)?;
    Ok(LoadedFlow { flow, accepted })
}

// What the compiler knows of the query of a pipeline. An error is the same as for a file of any name which holds the pipeline.
fn accept_query<'a>(alloc: Global, flow: &Flow, fuse: bool) -> Result<Accepted, Fault<'a>>
    requires { IsFlow flow.now }
    ensures core { IfOk result (λ accepted. accepted.core ≡ core_of (query_of flow.now)) }
    ensures margins { IfOk result (λ accepted. margins_of (core_of (query_of flow.now)) ≡ Ok accepted.margins) }
    ensures fuse { IfOk result (λ accepted. accepted.fuse ≡ fuse) }
    ensures fault { (name bytes : List ℕ) → HasFlow bytes flow.now
        → IfErr result (λ fault. IsLoadFault ⊤ (RefusesFlow name bytes) (λ _. ⊥) 0 0 (report_of fault)) }
{
    let query = desugar(alloc, flow)?;
    let core = check(alloc, &query)?;
    let accepted = accept(alloc, core, fuse)?;
    Ok(accepted)
}
