// Blank lines.
ghost use Rattle.std.specs.Prelude.{◌≡◌};
ghost use Rattle.tilt_feed_text.specs.Said.{is_blank};

// Whether a line is blank.
pub(crate) fn is_blank(line: &[u8]) -> bool
    ensures { result ≡ is_blank line.now }
{
    line.is_empty() || line == b"\r".as_slice()
}
