// From a record to what its fields say.
ghost use Rattle.std.specs.Prelude.{◌≡◌, ◌<◌, ◌^◌, Some, length};
ghost use Rattle.csv.specs.Records.{field_at, fields_of};
ghost use Rattle.tilt_feed_line.specs.Lines.{fields_said, keyed_fields_said};

use crate::fault::LineFault;
use crate::form::{Fields, read_keyed_line, read_line};
use crate::line::{KeyedLine, Line};
use csv::ByteRecord;
use tilt_lexer::Name;

// What the fields say in a feed without keys.
pub(crate) fn read_row(row: &ByteRecord, inputs: &[Name]) -> Result<Line, LineFault>
    requires { length inputs.now < 2 ^ 32 }
    ensures { result ≡ fields_said inputs.now (fields_of row.now) }
{
    if row.len() != 4 {
        return Err(LineFault::FieldCount { expected: 4 });
    }
    let name = field(row, 0);
    let start = field(row, 1);
    let end = field(row, 2);
    let value = field(row, 3);
    let fields = Fields {
        name,
        start,
        end,
        value,
    };
    read_line(inputs, &fields)
}

// What the fields say in a feed with keys.
pub(crate) fn read_keyed_row<'a>(
    row: &'a ByteRecord,
    inputs: &[Name],
) -> Result<KeyedLine<'a>, LineFault>
    requires { length inputs.now < 2 ^ 32 }
    ensures { result ≡ keyed_fields_said inputs.now (fields_of row.now) }
{
    if row.len() != 5 {
        return Err(LineFault::FieldCount { expected: 5 });
    }
    let key = field(row, 0);
    let name = field(row, 1);
    let start = field(row, 2);
    let end = field(row, 3);
    let value = field(row, 4);
    let fields = Fields {
        name,
        start,
        end,
        value,
    };
    read_keyed_line(inputs, key, &fields)
}

// A field of a record, counted from 0.
fn field(row: &ByteRecord, place: usize) -> &[u8]
    requires { place < length (fields_of row.now) }
    ensures { field_at (fields_of row.now) place ≡ Some result.now }
{
    match row.get(place) {
        Some(field) => field,
        None => unreachable!(),
    }
}
