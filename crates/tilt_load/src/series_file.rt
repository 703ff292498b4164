// The series file of an input, from the shelf to its rows.
ghost use Rattle.std.specs.Prelude.{◌≡◌, Ok, Err, IfOk, IfErr, length};
ghost use Rattle.tilt_load.specs.Load.{IsLoadFault};
ghost use Rattle.std.specs.List.{AllByRecursion};
ghost use Rattle.tilt_load.specs.SeriesFiles.{IsWithin, input_read};
ghost use Rattle.tilt_outside.specs.Counts.{added_count};
ghost use Rattle.tilt_outside.specs.Reads.{OnlyReads};
ghost use Rattle.tilt_report.specs.Report.{report_of};

use crate::file::load;
use std::alloc::Global;
use tilt_lexer::Name;
use tilt_outside::Shelf;
use tilt_report::{Fault, Refusal};
use tilt_series::{Bounds, ReadRowsFault, read_rows};
use tilt_stream::Rows;

/// The rows of the input of a name in the file of another, within bounds.
pub(crate) fn load_input<'a, S: Shelf>(
    alloc: Global,
    shelf: &mut S,
    input: &Name,
    file: &'a str,
    bounds: Bounds,
) -> Result<Rows, Fault<'a>>
    requires { S.lends file.now }
    ensures taken { S.tells → IfOk result (λ rows. input_read (S.files shelf.old) bounds file.now input.now ≡ Ok rows) }
    ensures within { IfOk result (λ rows. AllByRecursion (IsWithin bounds) rows) }
    ensures fault { IfErr result (λ fault. IsLoadFault S.tells
        (λ why. input_read (S.files shelf.old) bounds file.now input.now ≡ Err why)
        (λ which. which ≡ file.now) (S.read_faults shelf.old) (S.read_faults shelf.new) (report_of fault)) }
    ensures given { S.tells → IfOk result (λ _. S.given shelf.new ≡ added_count (S.given shelf.old) (length (S.files shelf.old file.now))) }
    ensures rest { OnlyReads S.files S.read_faults S.save_faults S.takes shelf.old shelf.new }
{
    let bytes = load(alloc, shelf, file)?;
    match read_rows(alloc, &bytes, bounds.last_end, bounds.from, bounds.upto) {
        Ok(rows) => Ok(rows),
        Err(ReadRowsFault::OutOfMemory) => Err(Fault::OutOfMemory),
        Err(ReadRowsFault::Refused(fault)) => {
            let name = input.copy()?;
            Err(Fault::Refused(Refusal::BadSeries { name, fault }))
        }
    }
}
