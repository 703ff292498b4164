// What a line says.
ghost use Rattle.std.specs.Prelude.{◌≡◌, ◌≢◌, ◌<◌, ◌^◌, ◌||◌, length, IfOk, IsTrue, MatchOption, ⊤};
ghost use Rattle.tilt_feed_line.specs.Lines.{Gives, IsOfInputs, line_said};
ghost use Rattle.tilt_feed_line.specs.Plain.{is_plain, without_return};
ghost use Rattle.tilt_feed_text.specs.Said.{IsContent, content, is_blank, is_header, is_skipped, read_or_bad};
ghost use Rattle.std.specs.Option.{IfSome};

use crate::bad_line::{BadLine, ReadContentFault};
use crate::pending::LINE;
use tilt_feed_line::{Line, LineReader, ReadLineFault};
use tilt_lexer::Name;

/// What the line with a number says of inputs with these names; the number is how many lines are before it. `None` if it is skipped: a
/// blank line, or a header that is the first line. `Bad` has the reason why it says nothing. The line comes without its LF. `OutOfMemory`
/// comes only for a line with a quote, an LF, or a CR before its end, or that starts with the byte 0xEF.
pub fn read_content(
    reader: &mut LineReader,
    inputs: &[Name],
    number: u64,
    line: &[u8],
) -> Result<Option<Line>, ReadContentFault>
    requires { length inputs.now < 2 ^ 32 }
    ensures content { IsContent result (content inputs.now number line.now) }
    ensures input { IfOk result (λ said. MatchOption said ⊤ (IsOfInputs (length inputs.now))) }
    ensures memory { IsTrue (is_plain (without_return line.now)) → result ≢ Err ReadContentFault.OutOfMemory }
{
    if line.len() > LINE {
        return Err(ReadContentFault::Bad(BadLine::TooLong));
    }
    if is_skipped(number, line) {
        return Ok(None);
    }
    read_said(reader, inputs, line)
}

// What a line says that isn't skipped.
fn read_said(
    reader: &mut LineReader,
    inputs: &[Name],
    line: &[u8],
) -> Result<Option<Line>, ReadContentFault>
    requires { length inputs.now < 2 ^ 32 }
    ensures content { IsContent result (read_or_bad (line_said inputs.now line.now)) }
    ensures input { IfOk result (λ said. MatchOption said ⊤ (IsOfInputs (length inputs.now))) }
    ensures memory { IsTrue (is_plain (without_return line.now)) → result ≢ Err ReadContentFault.OutOfMemory }
{
    match reader.read_line(line, inputs) {
        Ok(said) => Ok(Some(said)),
        Err(ReadLineFault::BadLine(fault)) => {
            Err(ReadContentFault::Bad(BadLine::Unreadable(fault)))
        }
        Err(ReadLineFault::OutOfMemory) => Err(ReadContentFault::OutOfMemory),
    }
}

// Whether a line is skipped.
fn is_skipped(number: u64, line: &[u8]) -> bool
    ensures { result ≡ is_skipped number line.now }
{
    is_blank(line) || (number == 0 && is_header(line))
}

// Whether a line is blank.
fn is_blank(line: &[u8]) -> bool
    ensures { result ≡ is_blank line.now }
{
    line.is_empty() || line == b"\r".as_slice()
}

// Whether a line is a header.
fn is_header(line: &[u8]) -> bool
    ensures { result ≡ is_header line.now }
{
    line == b"name,start,end,value".as_slice() || line == b"name,start,end,value\r".as_slice()
}
