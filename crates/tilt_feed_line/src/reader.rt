// The readers of lines.
use crate::fault::{LineFault, ReadLineFault};
use crate::line::{KeyedLine, Line};
use crate::plain::{plain_part, read_keyed_words, read_words};
use crate::quick::{read_quick_keyed_line, read_quick_line};
use crate::record::read_one_record;
use crate::row::{read_keyed_row, read_row};
use csv::ByteRecord;
use std::alloc::Global;
use tilt_lexer::Name;

/// Reads lines, one at a time. Most lines take no memory. A line with quotes takes memory for its fields, which the reader keeps for the
/// next such line.
///
/// A record is as the crate `csv` reads it. A field may be in quotes, and a CR ends a record as an LF does, so a line may end in CR. One
/// byte order mark at the start of a line is skipped. Numbers are spelled as in series files: a sign is optional, and leading zeros are
/// allowed.
#[derive(Drop)]
pub struct LineReader {
    alloc: Global,
    row: ByteRecord,
}

impl LineReader {
    ghost use Rattle.std.specs.Prelude.{◌≢◌, ◌<◌, ◌^◌, length, IsTrue, IfOk};
    ghost use Rattle.tilt_feed_line.specs.Lines.{Gives, IsOfInputs, KeyedIsOfInputs, keyed_line_said, line_said};
    ghost use Rattle.tilt_feed_line.specs.Plain.{is_plain, without_return};

    /// A reader, which takes no memory yet.
    pub fn new(alloc: Global) -> LineReader {
        LineReader {
            alloc,
            row: ByteRecord::new(alloc),
        }
    }

    /// What a line says in a feed without keys, of inputs with these names; or the first cause why it says nothing, as `BadLine`. The line
    /// comes without its LF. `OutOfMemory` comes only for a line that is empty or a lone CR, starts with the byte 0xEF, or has a quote, an
    /// LF, or a CR before its end.
    pub fn read_line(&mut self, line: &[u8], inputs: &[Name]) -> Result<Line, ReadLineFault>
        requires { length inputs.now < 2 ^ 32 }
        ensures said { Gives result (line_said inputs.now line.now) }
        ensures input { IfOk result (IsOfInputs (length inputs.now)) }
        ensures memory { IsTrue (is_plain (without_return line.now)) → result ≢ Err ReadLineFault.OutOfMemory }
    {
        if let Some(said) = read_quick_line(line, inputs) {
            return Ok(said);
        }
        match plain_part(line) {
            Some(part) => Ok(read_words(part, inputs)?),
            None => self.read_record(line, inputs),
        }
    }

    // The same for a line that may have quotes.
    fn read_record(&mut self, line: &[u8], inputs: &[Name]) -> Result<Line, ReadLineFault>
        requires { length inputs.now < 2 ^ 32 }
        ensures { Gives result (line_said inputs.now line.now) }
    {
        if !read_one_record(self.alloc, line, &mut self.row)? {
            return Err(ReadLineFault::BadLine(LineFault::NotOneRecord));
        }
        Ok(read_row(&self.row, inputs)?)
    }

    /// What a line says in a feed with keys, as `read_line` does in a feed without. The key is borrowed from the line or from the reader.
    pub fn read_keyed_line<'a>(
        &'a mut self,
        line: &'a [u8],
        inputs: &[Name],
    ) -> Result<KeyedLine<'a>, ReadLineFault>
        requires { length inputs.now < 2 ^ 32 }
        ensures said { Gives result (keyed_line_said inputs.now line.now) }
        ensures input { IfOk result (KeyedIsOfInputs (length inputs.now)) }
        ensures memory { IsTrue (is_plain (without_return line.now)) → result ≢ Err ReadLineFault.OutOfMemory }
    {
        if let Some(said) = read_quick_keyed_line(line, inputs) {
            return Ok(said);
        }
        match plain_part(line) {
            Some(part) => Ok(read_keyed_words(part, inputs)?),
            None => self.read_keyed_record(line, inputs),
        }
    }

    // The same for a line that may have quotes.
    fn read_keyed_record(
        &mut self,
        line: &[u8],
        inputs: &[Name],
    ) -> Result<KeyedLine<'_>, ReadLineFault>
        requires { length inputs.now < 2 ^ 32 }
        ensures { Gives result (keyed_line_said inputs.now line.now) }
    {
        if !read_one_record(self.alloc, line, &mut self.row)? {
            return Err(ReadLineFault::BadLine(LineFault::NotOneRecord));
        }
        Ok(read_keyed_row(&self.row, inputs)?)
    }
}
