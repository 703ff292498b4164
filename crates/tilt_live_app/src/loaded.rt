// The query of a command, over whole numbers or in units.
ghost use Rattle.std.specs.Prelude.{◌≡◌, None, Some, IfOk, IfErr};
ghost use Rattle.tilt_checkpoint.specs.Valid.{IsAccepted};
ghost use Rattle.tilt_live_cli.specs.Arguments.{CommandValue};
ghost use Rattle.tilt_live_app.specs.BeginReport.{begin_report};
ghost use Rattle.tilt_live_app.specs.Begun.{HasTaken, IsUnbegun};
ghost use Rattle.tilt_live_app.specs.Change.{shelf_change};
ghost use Rattle.tilt_load.specs.Load.{IsLoadFault};
ghost use Rattle.tilt_load.specs.QueryFile.{RefusesQuery};
ghost use Rattle.tilt_outside.specs.Reads.{OnlyReads};
ghost use Rattle.tilt_report.specs.Report.{report_of};
ghost use Rattle.tilt_types.specs.Checked.{core_of};
ghost use Rattle.tilt_unit_load.specs.UnitFile.{IsUnitLoadFault};
ghost use Rattle.tilt_unit_load.specs.UnitReport.{unit_report};

use crate::unbegun::Unbegun;
use std::alloc::Global;
use tilt_compiler::Accepted;
use tilt_input_scales::Scales;
use tilt_load::load_query;
use tilt_outside::Shelf;
use tilt_report::Fault;
use tilt_syntax::Query;
use tilt_unit_load::{UnitLoadFault, load_in_units};

// A query over whole numbers, what the compiler knows of it, and how many decimals its output has if it is in units.
#[derive(Drop)]
pub(crate) struct Loaded {
    pub(crate) query: Query,
    pub(crate) accepted: Accepted,
    pub(crate) decimals: Option<u8>,
}

// The query that a file has. If its inputs have scales, it is in units. The error is one of each command with this file and these scales.
pub(crate) fn load<'a, S: Shelf>(
    alloc: Global,
    shelf: &mut S,
    name: &'a str,
    units: &Option<Scales>,
    fuse: bool,
) -> Result<Loaded, Unbegun<'a>>
    requires { S.lends name.now }
    ensures taken { IfOk result (λ loaded. HasTaken S.tells (S.files shelf.old name.now) units.now
        loaded.query loaded.accepted.core loaded.decimals) }
    ensures accepted { IfOk result (λ loaded. IsAccepted loaded.query × (loaded.accepted.core ≡ core_of loaded.query)) }
    ensures fault { (command : CommandValue) → command.query ≡ name.now → command.units ≡ units.now
        → IfErr result (λ why. IsUnbegun (shelf_change S.tells S.files S.read_faults S.save_faults shelf.old shelf.new)
        command (begin_report why)) }
    ensures rest { OnlyReads S.files S.read_faults S.save_faults S.takes shelf.old shelf.new }
{
    let Some(scales) = units else {
        let loaded = load_whole(alloc, shelf, name, fuse)?;
        return Ok(loaded);
    };
    let loaded = load_scaled(alloc, shelf, name, scales, fuse)?;
    Ok(loaded)
}

// The query over whole numbers that a file has.
fn load_whole<'a, S: Shelf>(
    alloc: Global,
    shelf: &mut S,
    name: &'a str,
    fuse: bool,
) -> Result<Loaded, Fault<'a>>
    requires { S.lends name.now }
    ensures taken { IfOk result (λ loaded. HasTaken S.tells (S.files shelf.old name.now) None
        loaded.query loaded.accepted.core loaded.decimals) }
    ensures accepted { IfOk result (λ loaded. IsAccepted loaded.query × (loaded.accepted.core ≡ core_of loaded.query)) }
    ensures fault { IfErr result (λ fault. IsLoadFault S.tells (RefusesQuery name.now (S.files shelf.old name.now))
        (λ which. which ≡ name.now) (S.read_faults shelf.old) (S.read_faults shelf.new) (report_of fault)) }
    ensures rest { OnlyReads S.files S.read_faults S.save_faults S.takes shelf.old shelf.new }
{
    let loaded = load_query(alloc, shelf, name, fuse)?;
    // What the compiler keeps is known from here on.
    let _core = loaded.accepted.core();
    Ok(Loaded {
        query: loaded.query,
        accepted: loaded.accepted,
        decimals: None,
    })
}

// The query over whole numbers that a file in units is, if its inputs have these scales.
fn load_scaled<'a, S: Shelf>(
    alloc: Global,
    shelf: &mut S,
    name: &'a str,
    scales: &Scales,
    fuse: bool,
) -> Result<Loaded, UnitLoadFault<'a>>
    requires { S.lends name.now }
    ensures taken { IfOk result (λ loaded. HasTaken S.tells (S.files shelf.old name.now) (Some scales.now)
        loaded.query loaded.accepted.core loaded.decimals) }
    ensures accepted { IfOk result (λ loaded. IsAccepted loaded.query × (loaded.accepted.core ≡ core_of loaded.query)) }
    ensures fault { IfErr result (λ why. IsUnitLoadFault S.tells name.now (S.files shelf.old name.now) scales.now
        (S.read_faults shelf.old) (S.read_faults shelf.new) (unit_report why)) }
    ensures rest { OnlyReads S.files S.read_faults S.save_faults S.takes shelf.old shelf.new }
{
    let loaded = load_in_units(alloc, shelf, name, scales, fuse)?;
    // What the compiler keeps is known from here on.
    let _core = loaded.accepted.core();
    Ok(Loaded {
        query: loaded.query,
        accepted: loaded.accepted,
        decimals: Some(loaded.decimals),
    })
}
