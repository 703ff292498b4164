// The fields of a line.
ghost use Rattle.std.specs.Prelude.{◌≡◌, [], get_or, length};
ghost use Rattle.csv.specs.Records.{fields_of};
ghost use Rattle.tilt_reading_lines.specs.LineFields.{fields_in};

use csv::ByteRecord;

// The fields of a line, without the white space around them.
#[derive(Clone, Copy)]
pub(crate) enum LineFields<'a> {
    // Those of a record.
    Copied(&'a ByteRecord),
    // Three parts of the line.
    Three(&'a [u8], &'a [u8], &'a [u8]),
}

impl LineFields<'_> {
    // How many there are.
    pub(crate) fn len(&self) -> usize
        ensures { result ≡ length (fields_in self.now) }
    {
        match self {
            LineFields::Copied(row) => row.len(),
            LineFields::Three(..) => 3,
        }
    }

    // The field at a place, counted from 0.
    pub(crate) fn at(&self, place: usize) -> &[u8]
        ensures { result.now ≡ get_or (fields_in self.now) place [] }
    {
        match self {
            LineFields::Copied(row) => field(row, place),
            LineFields::Three(first, second, third) => match place {
                0 => first,
                1 => second,
                2 => third,
                _ => &[],
            },
        }
    }
}

// A field of a record, counted from 0.
pub(crate) fn field(row: &ByteRecord, place: usize) -> &[u8]
    ensures { result.now ≡ get_or (fields_of row.now) place [] }
{
    match row.get(place) {
        Some(field) => field,
        None => &[],
    }
}
