// The columns, read.
ghost use Rattle.std.specs.Prelude.{◌≡◌, [], ◌∷◌, ◌++◌, OnOk, option_map};
ghost use Rattle.tilt_live_state.specs.Reading.{count_field};
ghost use Rattle.tilt_reading_lines.specs.Rules.{layout_of, values_of};
ghost use Rattle.tilt_reading_state.specs.Reading.{Gives, header_at, header_by, layout_at, many_at, named_at, places_at, values_at};
ghost use Rattle.tilt_reading_state.specs.Reading.{values_by, with_one};

use crate::fault::KeptFault;
use crate::reader::Reader;
use std::alloc::{AllocError as OutOfMemory, Global};
use tilt_reading_lines::{Columns, ValueColumns};

// The columns, or that there are none.
pub(crate) fn read_header(
    alloc: Global,
    reader: &mut Reader<'_>,
) -> Result<Option<Columns>, KeptFault>
    ensures { Gives (header_at reader.old) (λ columns. (option_map layout_of columns, reader.new)) result }
{
    let word = reader.until(b' ').ok_or(KeptFault::NotKept)?;
    read_header_of(alloc, reader, word)
}

// The same, after the first word.
fn read_header_of(
    alloc: Global,
    reader: &mut Reader<'_>,
    word: &[u8],
) -> Result<Option<Columns>, KeptFault>
    ensures { Gives (header_by word.now reader.old) (λ columns. (option_map layout_of columns, reader.new)) result }
{
    if word == b"no".as_slice() {
        reader.until(b'\n').ok_or(KeptFault::NotKept)?;
        return Ok(None);
    }
    let columns = read_columns(alloc, reader)?;
    Ok(Some(columns))
}

// Columns, after the first word.
fn read_columns(alloc: Global, reader: &mut Reader<'_>) -> Result<Columns, KeptFault>
    ensures { Gives (layout_at reader.old) (λ columns. (layout_of columns, reader.new)) result }
{
    let count = reader.count(b' ').ok_or(KeptFault::NotKept)?;
    let time = reader.place(b' ').ok_or(KeptFault::NotKept)?;
    let values = read_values(alloc, reader)?;
    Ok(Columns {
        count,
        time,
        values,
    })
}

// Where values are.
fn read_values(alloc: Global, reader: &mut Reader<'_>) -> Result<ValueColumns, KeptFault>
    ensures { Gives (values_at reader.old) (λ values. (values_of values, reader.new)) result }
{
    let word = reader.until(b' ').ok_or(KeptFault::NotKept)?;
    read_values_of(alloc, reader, word)
}

// The same, after the word.
fn read_values_of(
    alloc: Global,
    reader: &mut Reader<'_>,
    word: &[u8],
) -> Result<ValueColumns, KeptFault>
    ensures { Gives (values_by word.now reader.old) (λ values. (values_of values, reader.new)) result }
{
    if word == b"named".as_slice() {
        read_named(reader)
    } else {
        read_of_inputs(alloc, reader)
    }
}

// Where names and values are.
fn read_named(reader: &mut Reader<'_>) -> Result<ValueColumns, KeptFault>
    ensures { Gives (named_at reader.old) (λ values. (values_of values, reader.new)) result }
{
    let name = reader.count(b' ').ok_or(KeptFault::NotKept)?;
    let value = reader.place(b'\n').ok_or(KeptFault::NotKept)?;
    Ok(ValueColumns::Named { name, value })
}

// Where the values of each input are.
fn read_of_inputs(alloc: Global, reader: &mut Reader<'_>) -> Result<ValueColumns, KeptFault>
    ensures { Gives (places_at reader.old) (λ values. (values_of values, reader.new)) result }
{
    let count = reader.count(b'\n').ok_or(KeptFault::NotKept)?;
    let places = read_places(alloc, reader, count)?;
    Ok(ValueColumns::OfInputs { places })
}

// So many places.
fn read_places(
    alloc: Global,
    reader: &mut Reader<'_>,
    count: usize,
) -> Result<Vec<usize>, KeptFault>
    ensures { Gives (many_at (count_field 10) count reader.old) (λ places. (places.items, reader.new)) result }
{
    let mut places = Vec::new(alloc);
    for _ in 0..count {
        push_place(&mut places, reader)?;
    }
    Ok(places)
}

// Adds one place more.
fn push_place(places: &mut Vec<usize>, reader: &mut Reader<'_>) -> Result<(), KeptFault>
    ensures { Gives (with_one (count_field 10) (places.old.items, reader.old)) (λ _. (places.new.items, reader.new)) result }
{
    let place = reader.place(b'\n').ok_or(KeptFault::NotKept)?;
    add(places, place)?;
    Ok(())
}

// Adds a place.
fn add(places: &mut Vec<usize>, place: usize) -> Result<(), OutOfMemory>
    ensures { OnOk result (places.new.items ≡ places.old.items ++ place ∷ []) }
{
    places.push(place)?;
    Ok(())
}
