// The first line of bytes.
ghost use Rattle.std.specs.Prelude.{◌≡◌, MatchOption, None, Some};
ghost use Rattle.tilt_text.specs.Cut.{until_at};

use memchr::memchr;

// The bytes before the first LF, and those after it, which are searched many at a time; `None` if there is no LF.
#[inline]
pub(crate) fn until_line(bytes: &[u8]) -> Option<(&[u8], &[u8])>
    ensures { MatchOption result (until_at 10 bytes.now ≡ None)
        (λ parts. until_at 10 bytes.now ≡ Some (parts.0.now, parts.1.now)) }
{
    let at = memchr(b'\n', bytes)?;
    Some((&bytes[..at], &bytes[at + 1..]))
}
