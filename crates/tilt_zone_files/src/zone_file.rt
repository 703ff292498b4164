// The file of a zone, from the shelf to the zone's table.
ghost use Rattle.std.specs.Prelude.{◌≡◌, ◌≤◌, Err, length, IfOk, string_bytes};
ghost use Rattle.tilt_base.specs.declared.limits.TheConstants.{FILE};
ghost use Rattle.tilt_outside.specs.Faults.{Rose};
ghost use Rattle.tilt_outside.specs.Reads.{OnlyReads};
ghost use Rattle.tilt_zone_files.specs.ZoneFile.{HasNoTable, HasTable, zone_path};

use crate::fault::ZoneFileFault;
use std::alloc::{AllocError as OutOfMemory, Global};
use tilt_base::FILE;
use tilt_outside::{ReadAllFault, Shelf, read_all};
use tilt_zones::{Zone, ZoneFault, read_zone};

/// The table of the zone of that name, from its file in `/usr/share/zoneinfo`. `NoTable` comes if the file's bytes are no table of a zone,
/// `ReadFault` if a read failed, and `OutOfMemory` only if there was no memory. The shelf is only read.
pub fn load_zone<S: Shelf>(alloc: Global, shelf: &mut S, name: &str) -> Result<Zone, ZoneFileFault>
    requires { S.lends (zone_path name.now) }
    ensures table { S.tells → IfOk result (λ table. HasTable (S.files shelf.old (zone_path name.now)) table) }
    ensures no_table { S.tells → result ≡ Err ZoneFileFault.NoTable → HasNoTable (S.files shelf.old (zone_path name.now)) }
    ensures read_fault { result ≡ Err ZoneFileFault.ReadFault → Rose (S.read_faults shelf.old) (S.read_faults shelf.new) }
    ensures rest { OnlyReads S.files S.read_faults S.save_faults S.takes shelf.old shelf.new }
{
    let path = zone_path(alloc, name)?;
    let bytes = read_file(alloc, shelf, &path)?;
    table_of(alloc, &bytes)
}

// The file of a zone.
fn zone_path(alloc: Global, name: &str) -> Result<String, OutOfMemory>
    ensures { IfOk result (λ path. string_bytes path ≡ zone_path name.now) }
{
    let mut path = String::from_str(alloc, "/usr/share/zoneinfo/")?;
    path.push_str(name)?;
    Ok(path)
}

// The bytes of a file, if it is no longer than a file may be.
fn read_file<S: Shelf>(alloc: Global, shelf: &mut S, path: &str) -> Result<Vec<u8>, ZoneFileFault>
    requires { S.lends path.now }
    ensures whole { S.tells → IfOk result (λ bytes. bytes.items ≡ S.files shelf.old path.now) }
    ensures short { IfOk result (λ bytes. length bytes.items ≤ FILE) }
    ensures no_table { S.tells → result ≡ Err ZoneFileFault.NoTable → HasNoTable (S.files shelf.old path.now) }
    ensures read_fault { result ≡ Err ZoneFileFault.ReadFault → Rose (S.read_faults shelf.old) (S.read_faults shelf.new) }
    ensures rest { OnlyReads S.files S.read_faults S.save_faults S.takes shelf.old shelf.new }
{
    match read_all(alloc, shelf, path, FILE) {
        Ok(bytes) => Ok(bytes),
        Err(ReadAllFault::TooLong) => Err(ZoneFileFault::NoTable),
        Err(ReadAllFault::ReadFault) => Err(ZoneFileFault::ReadFault),
        Err(ReadAllFault::OutOfMemory) => Err(ZoneFileFault::OutOfMemory),
    }
}

// The table that bytes are.
fn table_of(alloc: Global, bytes: &[u8]) -> Result<Zone, ZoneFileFault>
    requires { length bytes.now ≤ FILE }
    ensures table { IfOk result (λ table. HasTable bytes.now table) }
    ensures no_table { result ≡ Err ZoneFileFault.NoTable → HasNoTable bytes.now }
    ensures no_read { result ≡ Err ZoneFileFault.ReadFault → ⊥ }
{
    match read_zone(alloc, bytes) {
        Ok(table) => Ok(table),
        Err(ZoneFault::NotZone) => Err(ZoneFileFault::NoTable),
        Err(ZoneFault::Disordered) => Err(ZoneFileFault::NoTable),
        Err(ZoneFault::OutOfMemory) => Err(ZoneFileFault::OutOfMemory),
    }
}
