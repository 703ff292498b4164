// The table by which a command reads local times.
ghost use Rattle.std.specs.Prelude.{◌≡◌, ℕ, List, Some, IfOk, IfErr, option_map};
ghost use Rattle.tilt_live_app.specs.BeginReport.{begin_report};
ghost use Rattle.tilt_live_app.specs.Zoned.{HasNoZone, HasZone, zone_named};
ghost use Rattle.tilt_outside.specs.Reads.{OnlyReads};
ghost use Rattle.tilt_reading_options.specs.Values.{ZoneChoiceValue};
ghost use Rattle.tilt_zone_files.specs.ZoneFile.{zone_path};

use crate::unbegun::Unbegun;
use std::alloc::Global;
use tilt_outside::Shelf;
use tilt_reading_options::{ReadingChoice, ZoneChoice};
use tilt_report::Fault;
use tilt_zone_files::{ZoneFileFault, load_zone};
use tilt_zones::Zone;

// The table of the zone that options of readings name, if they name one.
pub(crate) fn load_table<'a, S: Shelf>(
    alloc: Global,
    shelf: &mut S,
    readings: &'a Option<ReadingChoice>,
) -> Result<Option<Zone>, Unbegun<'a>>
    requires { (name : List ℕ) → zone_named readings.now ≡ Some name → S.lends (zone_path name) }
    ensures zone { IfOk result (λ table. HasZone S.tells (S.files shelf.old) (zone_named readings.now) table) }
    ensures fault { IfErr result (λ why. HasNoZone S.tells (S.files shelf.old) (S.read_faults shelf.old) (S.read_faults shelf.new)
        (zone_named readings.now) (begin_report why)) }
    ensures rest { OnlyReads S.files S.read_faults S.save_faults S.takes shelf.old shelf.new }
{
    let Some(choice) = readings else {
        return Ok(None);
    };
    load_chosen(alloc, shelf, choice.zone())
}

// The table of a zone, if there is one.
fn load_chosen<'a, S: Shelf>(
    alloc: Global,
    shelf: &mut S,
    zone: &'a Option<ZoneChoice>,
) -> Result<Option<Zone>, Unbegun<'a>>
    requires { (name : List ℕ) → option_map (λ (z : ZoneChoiceValue). z.name) zone.now ≡ Some name → S.lends (zone_path name) }
    ensures zone { IfOk result (λ table. HasZone S.tells (S.files shelf.old)
        (option_map (λ (z : ZoneChoiceValue). z.name) zone.now) table) }
    ensures fault { IfErr result (λ why. HasNoZone S.tells (S.files shelf.old) (S.read_faults shelf.old) (S.read_faults shelf.new)
        (option_map (λ (z : ZoneChoiceValue). z.name) zone.now) (begin_report why)) }
    ensures rest { OnlyReads S.files S.read_faults S.save_faults S.takes shelf.old shelf.new }
{
    let Some(zone) = zone else {
        return Ok(None);
    };
    let table = load_named(alloc, shelf, zone.name())?;
    Ok(Some(table))
}

// The table of the zone of that name.
fn load_named<'a, S: Shelf>(
    alloc: Global,
    shelf: &mut S,
    name: &'a str,
) -> Result<Zone, Unbegun<'a>>
    requires { S.lends (zone_path name.now) }
    ensures zone { IfOk result (λ table. HasZone S.tells (S.files shelf.old) (Some name.now) (Some table)) }
    ensures fault { IfErr result (λ why. HasNoZone S.tells (S.files shelf.old) (S.read_faults shelf.old) (S.read_faults shelf.new)
        (Some name.now) (begin_report why)) }
    ensures rest { OnlyReads S.files S.read_faults S.save_faults S.takes shelf.old shelf.new }
{
    match load_zone(alloc, shelf, name) {
        Ok(table) => Ok(table),
        Err(ZoneFileFault::NoTable) => Err(Unbegun::NoZone(name)),
        Err(ZoneFileFault::ReadFault) => Err(Unbegun::NoZone(name)),
        Err(ZoneFileFault::OutOfMemory) => Err(Unbegun::Shared(Fault::OutOfMemory)),
    }
}
