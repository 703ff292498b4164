// A code file, from the shelf to the loop code whose listing it is.
ghost use Rattle.std.specs.Prelude.{◌≡◌, IfOk, IfErr, length};
ghost use Rattle.tilt_load.specs.CodeFile.{TakesCode, RefusesCode};
ghost use Rattle.tilt_load.specs.Load.{IsLoadFault};
ghost use Rattle.tilt_outside.specs.Counts.{added_count};
ghost use Rattle.tilt_outside.specs.Reads.{OnlyReads};
ghost use Rattle.tilt_report.specs.Report.{report_of};

use crate::file::load;
use std::alloc::Global;
use tilt_code::{Code, read_code};
use tilt_outside::Shelf;
use tilt_report::Fault;

/// The loop code whose listing is the file of that name. `Refused` has the first reason why the file is rejected. `ReadFault` comes if a
/// read failed, and `OutOfMemory` only if there was no memory.
pub fn load_code<'a, S: Shelf>(
    alloc: Global,
    shelf: &mut S,
    name: &'a str,
) -> Result<Code, Fault<'a>>
    requires { S.lends name.now }
    ensures taken { S.tells → IfOk result (λ code. TakesCode (S.files shelf.old name.now) code) }
    ensures fault { IfErr result (λ fault. IsLoadFault S.tells (RefusesCode name.now (S.files shelf.old name.now))
        (λ which. which ≡ name.now) (S.read_faults shelf.old) (S.read_faults shelf.new) (report_of fault)) }
    ensures given { S.tells → IfOk result (λ _. S.given shelf.new ≡ added_count (S.given shelf.old) (length (S.files shelf.old name.now))) }
    ensures rest { OnlyReads S.files S.read_faults S.save_faults S.takes shelf.old shelf.new }
{
    let bytes = load(alloc, shelf, name)?;
    Ok(read_code(alloc, &bytes)?)
}
