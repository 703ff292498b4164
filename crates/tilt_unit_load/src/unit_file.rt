// A query file in units, from the shelf to the query over whole numbers that it is.
ghost use Rattle.std.specs.Prelude.{◌≡◌, ◌≤◌, ◌⊎◌, List, ℕ, Ok, length, IfOk, IfErr};
ghost use Rattle.tilt_base.specs.declared.limits.TheConstants.{FILE};
ghost use Rattle.tilt_outside.specs.Counts.{added_count};
ghost use Rattle.tilt_outside.specs.Reads.{OnlyReads};
ghost use Rattle.tilt_report.specs.Report.{out_of_memory};
ghost use Rattle.tilt_syntax.specs.Query.{IsQuery};
ghost use Rattle.tilt_types.specs.Checked.{checked};
ghost use Rattle.tilt_unit_load.specs.UnitFile.{IsLoadedInUnits, IsUnitLoadFault, RefusesUnits};
ghost use Rattle.tilt_unit_load.specs.UnitReport.{shared, unit_report};

use crate::decimals::output_decimals;
use crate::fault::UnitLoadFault;
use std::alloc::Global;
use tilt_compiler::{Accepted, accept};
use tilt_input_scales::Scales;
use tilt_load::load;
use tilt_outside::Shelf;
use tilt_syntax::Query;
use tilt_unit_text::{UnitQuery, read_in_units};

/// A query in units as a query over whole numbers, which was accepted.
#[derive(Drop)]
pub struct LoadedUnits {
    /// The query over whole numbers.
    pub query: Query,
    /// What the compiler knows of it.
    pub accepted: Accepted,
    /// How many decimals its output has: a value is in units if it is divided by a power of ten with as many zeros.
    pub decimals: u8,
}

/// The query over whole numbers that the file of that name is, if its inputs have these scales, with fusion or without. `Shared` has a
/// fault that every command can have of a query file. `Own` has a fault of the units. The first fault is returned. First the file may be
/// too long. Then its text may be no query in units, the scale of its output no power of ten, or the query may look too far. A scale is
/// good for an output if it is 1, 10, 100 and so on, up to 10^18. `ReadFault` comes if a read failed. `OutOfMemory` comes only if there
/// was no memory.
pub fn load_in_units<'a, S: Shelf>(
    alloc: Global,
    shelf: &mut S,
    name: &'a str,
    scales: &Scales,
    fuse: bool,
) -> Result<LoadedUnits, UnitLoadFault<'a>>
    requires { S.lends name.now }
    ensures loaded { S.tells → IfOk result (λ loaded. IsLoadedInUnits (S.files shelf.old name.now) scales.now loaded.query
        loaded.accepted.core loaded.decimals) }
    ensures valid { IfOk result (λ loaded. IsQuery loaded.query) }
    ensures checked { IfOk result (λ loaded. checked loaded.query ≡ Ok loaded.accepted.core) }
    ensures few { IfOk result (λ loaded. loaded.decimals ≤ 18) }
    ensures fuse { IfOk result (λ loaded. loaded.accepted.fuse ≡ fuse) }
    ensures fault { IfErr result (λ why. IsUnitLoadFault S.tells name.now (S.files shelf.old name.now) scales.now
        (S.read_faults shelf.old) (S.read_faults shelf.new) (unit_report why)) }
    ensures given { S.tells → IfOk result (λ _. S.given shelf.new ≡ added_count (S.given shelf.old) (length (S.files shelf.old name.now))) }
    ensures rest { OnlyReads S.files S.read_faults S.save_faults S.takes shelf.old shelf.new }
{
    let bytes = load(alloc, shelf, name)?;
    accept_in_units(alloc, &bytes, scales, fuse)
}

// The same of a text that is no longer than a file may be. An error is the same as for a file of any name.
fn accept_in_units<'a>(
    alloc: Global,
    bytes: &[u8],
    scales: &Scales,
    fuse: bool,
) -> Result<LoadedUnits, UnitLoadFault<'a>>
    requires { length bytes.now ≤ FILE }
    ensures loaded { IfOk result (λ loaded. IsLoadedInUnits bytes.now scales.now loaded.query loaded.accepted.core loaded.decimals) }
    ensures valid { IfOk result (λ loaded. IsQuery loaded.query) }
    ensures checked { IfOk result (λ loaded. checked loaded.query ≡ Ok loaded.accepted.core) }
    ensures few { IfOk result (λ loaded. loaded.decimals ≤ 18) }
    ensures fuse { IfOk result (λ loaded. loaded.accepted.fuse ≡ fuse) }
    ensures fault { (name : List ℕ) → IfErr result (λ why. (unit_report why ≡ shared out_of_memory)
        ⊎ RefusesUnits name bytes.now scales.now (unit_report why)) }
{
    // What scales keep is known from here on.
    let _named = scales.named();
    let units = read_in_units(alloc, bytes, scales)?;
    let decimals = output_decimals(&units)?;
    let UnitQuery { query, core, .. } = units;
    let accepted = accept(alloc, core, fuse)?;
    // That some text reads as the query is known from here on.
    let _parsed = query.statements();
    Ok(LoadedUnits {
        query,
        accepted,
        decimals,
    })
}
