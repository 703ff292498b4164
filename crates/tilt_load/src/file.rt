// A file that the arguments name, from the shelf to its bytes.
ghost use Rattle.std.specs.Prelude.{◌≡◌, ◌≤◌, length, IfOk, IfErr};
ghost use Rattle.tilt_base.specs.declared.limits.TheConstants.{FILE};
ghost use Rattle.tilt_load.specs.Load.{IsLoadFault, IsTooLong};
ghost use Rattle.tilt_outside.specs.Counts.{added_count};
ghost use Rattle.tilt_outside.specs.Reads.{OnlyReads};
ghost use Rattle.tilt_report.specs.Report.{report_of};

use std::alloc::Global;
use tilt_base::FILE;
use tilt_outside::{ReadAllFault, Shelf, read_all};
use tilt_report::{Fault, Refusal};

/// The bytes of the file of that name. `Refused` comes if it has more bytes than a file may have, `ReadFault` if a read failed, and
/// `OutOfMemory` only if there was no memory.
pub fn load<'a, S: Shelf>(alloc: Global, shelf: &mut S, name: &'a str) -> Result<Vec<u8>, Fault<'a>>
    requires { S.lends name.now }
    ensures whole { S.tells → IfOk result (λ bytes. bytes.items ≡ S.files shelf.old name.now) }
    ensures short { IfOk result (λ bytes. length bytes.items ≤ FILE) }
    ensures fault { IfErr result (λ fault. IsLoadFault S.tells (IsTooLong name.now (S.files shelf.old name.now))
        (λ which. which ≡ name.now) (S.read_faults shelf.old) (S.read_faults shelf.new) (report_of fault)) }
    ensures given { IfOk result (λ bytes. S.given shelf.new ≡ added_count (S.given shelf.old) (length bytes.items)) }
    ensures rest { OnlyReads S.files S.read_faults S.save_faults S.takes shelf.old shelf.new }
{
    match read_all(alloc, shelf, name, FILE) {
        Ok(bytes) => Ok(bytes),
        Err(ReadAllFault::TooLong) => Err(Fault::Refused(Refusal::FileTooLong(name))),
        Err(ReadAllFault::ReadFault) => Err(Fault::ReadFault(name)),
        Err(ReadAllFault::OutOfMemory) => Err(Fault::OutOfMemory),
    }
}
