// The key of a line.
ghost use Rattle.std.specs.Prelude.{◌≡◌, Ok, Err, Some, None, MatchOption, MatchResult};
ghost use Rattle.std.specs.List.{list_any};
ghost use Rattle.tilt_keyed_line.specs.Address.{address, is_blank, is_special};

use crate::key_fault::KeyFault;
use tilt_text::until;

/// The key of a line, which comes without its LF, and the rest of the line after the key and its comma. The key is empty in a line of every
/// key. `None` if the line is blank. The key is taken as it is: it can't be in quotes.
pub fn split_key(line: &[u8]) -> Result<Option<(&[u8], &[u8])>, KeyFault>
    ensures { MatchResult result (λ parts. MatchOption parts (address line.now ≡ Ok None)
        (λ p. address line.now ≡ Ok (Some (p.0.now, p.1.now)))) (λ why. address line.now ≡ Err why) }
{
    if is_blank(line) {
        return Ok(None);
    }
    let Some((key, rest)) = until(line, b',') else {
        return Err(KeyFault::NoKey);
    };
    if has_special(key) {
        return Err(KeyFault::BadKey);
    }
    Ok(Some((key, rest)))
}

// Whether a line is blank.
fn is_blank(line: &[u8]) -> bool
    ensures { result ≡ is_blank line.now }
{
    line.is_empty() || line == b"\r".as_slice()
}

// Whether a byte is a quote or ends a record.
fn has_special(bytes: &[u8]) -> bool
    ensures { result ≡ list_any is_special bytes.now }
{
    bytes
        .iter()
        .any(|byte| *byte == b'"' || *byte == b'\n' || *byte == b'\r')
}
