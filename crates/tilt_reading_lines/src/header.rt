// From the fields of a header to its columns.
ghost use Rattle.std.specs.Prelude.{◌≡◌, ◌<◌, ◌-◌, ◌^◌, ◌++◌, ◌∷◌, [], drop, length, OnOk};
ghost use Rattle.std.specs.Option.{ForSome};
ghost use Rattle.csv.specs.Records.{fields_of};
ghost use Rattle.tilt_reading_lines.specs.Header.{Finds, FindsPlaces, Gives, column_of, columns_said, input_columns};
ghost use Rattle.tilt_reading_lines.specs.Header.{named_columns, place_of};
ghost use Rattle.tilt_reading_lines.specs.Titles.{titles_of};

use crate::columns::{Columns, Titles, ValueColumns};
use crate::fault::{Column, HeaderFault, ReadHeaderFault};
use crate::line_fields::field;
use crate::rules::Source;
use csv::ByteRecord;
use std::alloc::{AllocError as OutOfMemory, Global};

// The columns of a header with these fields.
pub(crate) fn read_columns(
    alloc: Global,
    row: &ByteRecord,
    titles: &Titles,
    sources: &[Source],
) -> Result<Columns, ReadHeaderFault>
    requires { length sources.now < 2 ^ 32 }
    ensures { Gives result (columns_said (titles_of titles.now) sources.now (fields_of row.now)) }
{
    match titles {
        Titles::Named { time, name, value } => Ok(read_named_columns(row, time, name, value)?),
        Titles::OfInputs { time } => {
            let time = find_column(row, Column::Time, time)?;
            let places = read_places(alloc, row, sources)?;
            Ok(Columns {
                count: row.len(),
                time,
                values: ValueColumns::OfInputs { places },
            })
        }
    }
}

// The columns of names and values.
fn read_named_columns(
    row: &ByteRecord,
    time: &[u8],
    name: &[u8],
    value: &[u8],
) -> Result<Columns, HeaderFault>
    ensures { Finds result (named_columns time.now name.now value.now (fields_of row.now)) }
{
    let time = find_column(row, Column::Time, time)?;
    let name = find_column(row, Column::Name, name)?;
    let value = find_column(row, Column::Value, value)?;
    Ok(Columns {
        count: row.len(),
        time,
        values: ValueColumns::Named { name, value },
    })
}

// The places of the columns of the inputs.
fn read_places(
    alloc: Global,
    row: &ByteRecord,
    sources: &[Source],
) -> Result<Vec<usize>, ReadHeaderFault>
    requires { length sources.now < 2 ^ 32 }
    ensures { FindsPlaces result (input_columns (fields_of row.now) 0 sources.now) }
{
    let mut places = Vec::new(alloc);
    for input in 0..sources.len() {
        let column = Column::OfInput {
            input: input as u32,
        };
        let source = &sources[input];
        let place = find_column(row, column, source.name.bytes())?;
        push(place, &mut places)?;
    }
    Ok(places)
}

// Appends a place.
fn push(place: usize, places: &mut Vec<usize>) -> Result<(), OutOfMemory>
    ensures { OnOk result (places.new.items ≡ places.old.items ++ place ∷ []) }
{
    places.push(place)?;
    Ok(())
}

// The place of the only field that is a title.
fn find_column(row: &ByteRecord, column: Column, title: &[u8]) -> Result<usize, HeaderFault>
    ensures { result ≡ column_of column title.now (fields_of row.now) }
{
    let Some(place) = find_title(row, title, 0) else {
        return Err(HeaderFault::Missing { column });
    };
    match find_title(row, title, place + 1) {
        Some(_) => Err(HeaderFault::Doubled { column }),
        None => Ok(place),
    }
}

// The place of the first field that is a title, from a place on.
fn find_title(row: &ByteRecord, title: &[u8], from: usize) -> Option<usize>
    ensures place { result ≡ place_of title.now from (drop from (fields_of row.now)) }
    ensures small { ForSome result (λ place. place < 2 ^ 64 - 1) }
{
    for place in from..row.len() {
        if title == field(row, place) {
            return Some(place);
        }
    }
    None
}
