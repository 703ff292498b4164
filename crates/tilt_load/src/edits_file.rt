// An edits file, from the shelf to the edits that it says.
ghost use Rattle.std.specs.Prelude.{◌≡◌, ◌<◌, ◌^◌, IfOk, IfErr, length};
ghost use Rattle.std.specs.List.{AllByRecursion};
ghost use Rattle.tilt_edits.specs.Edited.{IsEditOf};
ghost use Rattle.tilt_lexer.specs.Word.{AreDistinct};
ghost use Rattle.tilt_load.specs.EditsFile.{TakesEdits, RefusesEdits};
ghost use Rattle.tilt_load.specs.Load.{IsLoadFault};
ghost use Rattle.tilt_outside.specs.Counts.{added_count};
ghost use Rattle.tilt_outside.specs.Reads.{OnlyReads};
ghost use Rattle.tilt_report.specs.Report.{report_of};

use crate::file::load;
use std::alloc::Global;
use tilt_edits::{Edit, read_edits};
use tilt_lexer::Name;
use tilt_outside::Shelf;
use tilt_report::Fault;

/// The edits that the file of that name says, of the rows of these inputs. `Refused` has the first reason why the file is rejected.
/// `ReadFault` comes if a read failed, and `OutOfMemory` only if there was no memory.
pub fn load_edits<'a, S: Shelf>(
    alloc: Global,
    shelf: &mut S,
    name: &'a str,
    inputs: &[Name],
) -> Result<Vec<Edit>, Fault<'a>>
    requires lent { S.lends name.now }
    requires few { length inputs.now < 2 ^ 32 }
    requires distinct { AreDistinct inputs.now }
    ensures taken { S.tells → IfOk result (λ edits. TakesEdits inputs.now (S.files shelf.old name.now) edits.items) }
    ensures each { IfOk result (λ edits. AllByRecursion (IsEditOf (length inputs.now)) edits.items) }
    ensures fault { IfErr result (λ fault. IsLoadFault S.tells (RefusesEdits inputs.now name.now (S.files shelf.old name.now))
        (λ which. which ≡ name.now) (S.read_faults shelf.old) (S.read_faults shelf.new) (report_of fault)) }
    ensures given { S.tells → IfOk result (λ _. S.given shelf.new ≡ added_count (S.given shelf.old) (length (S.files shelf.old name.now))) }
    ensures rest { OnlyReads S.files S.read_faults S.save_faults S.takes shelf.old shelf.new }
{
    let bytes = load(alloc, shelf, name)?;
    Ok(read_edits(alloc, &bytes, inputs)?)
}
