// Bytes cut at a mark.
ghost use Rattle.std.specs.Prelude.{◌≡◌, ◌==◌, MatchOption};
ghost use Rattle.std.specs.List.{position};
ghost use Rattle.tilt_text.specs.Cut.{until_at};

/// The word before the first byte that is the mark, and the bytes after that byte; `None` if no byte is the mark.
pub fn until(bytes: &[u8], mark: u8) -> Option<(&[u8], &[u8])>
    ensures { MatchOption result (until_at mark bytes.now ≡ None)
        (λ parts. until_at mark bytes.now ≡ Some (parts.0.now, parts.1.now)) }
{
    let at = place_of(bytes, mark)?;
    Some((&bytes[..at], &bytes[at + 1..]))
}

// The first place of the mark.
fn place_of(bytes: &[u8], mark: u8) -> Option<usize>
    ensures { result ≡ position (λ byte. byte == mark) bytes.now }
{
    bytes.iter().position(|byte| *byte == mark)
}
