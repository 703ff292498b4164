// The reader of a CSV of readings.
use crate::columns::{Columns, Titles};
use crate::fault::{HeaderFault, LineFault, ReadHeaderFault, ReadLineFault};
use crate::fields::read_said;
use crate::header::read_columns;
use crate::line_fields::LineFields;
use crate::record::read_fields;
use crate::rules::{InputReading, Rules, Source};
use crate::three::cut_three;
use csv::ByteRecord;
use std::alloc::Global;

/// Reads the lines of a CSV of readings, one at a time. It keeps memory for the fields of a line.
///
/// A record is as the crate `csv` reads it. A field may be in quotes, and a CR ends a record as an LF does, so a line may end in CR. One
/// byte order mark at the start of a line is skipped, and so is white space around a field.
#[derive(Drop)]
pub struct ReadingReader {
    alloc: Global,
    delimiter: u8,
    row: ByteRecord,
}

impl ReadingReader {
    ghost use Rattle.std.specs.Prelude.{◌≡◌, ◌<◌, ◌^◌, [], length, OnErr};
    ghost use Rattle.tilt_reading_lines.specs.Delimiter.{delimiter_of};
    ghost use Rattle.tilt_reading_lines.specs.Header.{header_said};
    ghost use Rattle.tilt_reading_lines.specs.Header as header;
    ghost use Rattle.tilt_reading_lines.specs.Lines.{Gives, line_said};
    ghost use Rattle.tilt_reading_lines.specs.Rules.{layout_of};
    ghost use Rattle.tilt_reading_lines.specs.Titles.{titles_of};

    /// A reader of lines whose fields are separated by this byte. It takes no memory yet.
    pub fn new(alloc: Global, delimiter: u8) -> ReadingReader
        ensures { delimiter_of result ≡ delimiter }
    {
        ReadingReader {
            alloc,
            delimiter,
            row: ByteRecord::new(alloc),
        }
    }

    /// The columns of the header, for inputs in this order. `BadHeader` has the first cause why it is bad. The line comes without its LF.
    pub fn read_header(
        &mut self,
        line: &[u8],
        titles: &Titles,
        sources: &[Source],
    ) -> Result<Columns, ReadHeaderFault>
        requires { length sources.now < 2 ^ 32 }
        ensures said { header.Gives result (header_said (delimiter_of self.old) (titles_of titles.now) sources.now line.now) }
        ensures delimiter { delimiter_of self.new ≡ delimiter_of self.old }
    {
        if !read_fields(self.alloc, self.delimiter, line, &mut self.row)? {
            return Err(ReadHeaderFault::BadHeader(HeaderFault::NotOneRecord));
        }
        read_columns(self.alloc, &self.row, titles, sources)
    }

    /// What a line says, of inputs in these columns. Its readings replace what was in `readings`, and the result is the tick up to which
    /// all inputs are known, if it says that. `BadLine` has the first cause why it says nothing. After an error `readings` is empty. The
    /// line comes without its LF.
    pub fn read_line(
        &mut self,
        line: &[u8],
        columns: &Columns,
        rules: &Rules,
        sources: &[Source],
        readings: &mut Vec<InputReading>,
    ) -> Result<Option<i64>, ReadLineFault>
        requires { length sources.now < 2 ^ 32 }
        ensures said { Gives result readings.new.items
            (line_said (delimiter_of self.old) (layout_of columns.now) rules.now sources.now line.now) }
        ensures empty { OnErr result (readings.new.items ≡ []) }
        ensures delimiter { delimiter_of self.new ≡ delimiter_of self.old }
    {
        readings.clear();
        let said = self.read_record(line, columns, rules, sources, readings);
        if said.is_err() {
            readings.clear();
        }
        said
    }

    // The same without readings before it, and with any readings after an error.
    fn read_record(
        &mut self,
        line: &[u8],
        columns: &Columns,
        rules: &Rules,
        sources: &[Source],
        readings: &mut Vec<InputReading>,
    ) -> Result<Option<i64>, ReadLineFault>
        requires few { length sources.now < 2 ^ 32 }
        requires empty { readings.old.items ≡ [] }
        ensures said { Gives result readings.new.items
            (line_said (delimiter_of self.old) (layout_of columns.now) rules.now sources.now line.now) }
        ensures delimiter { delimiter_of self.new ≡ delimiter_of self.old }
    {
        if columns.count == 3
            && let Some(fields) = cut_three(line, self.delimiter)
        {
            return read_said(&fields, columns, rules, sources, readings);
        }
        if !read_fields(self.alloc, self.delimiter, line, &mut self.row)? {
            return Err(ReadLineFault::BadLine(LineFault::NotOneRecord));
        }
        let fields = LineFields::Copied(&self.row);
        read_said(&fields, columns, rules, sources, readings)
    }
}
