// A part of a text that comes after its length.
ghost use Rattle.std.specs.Prelude.{◌≡◌, ◌<◌, ◌^◌, ◌∷◌, ◌++◌, ℕ, List, length, MatchOption};
ghost use Rattle.std.specs.Fmt.{decimal};
ghost use Rattle.tilt_keyed_state.specs.Natural.{natural};
ghost use Rattle.tilt_keyed_state.specs.Spelling.{part_text};

use tilt_text::{shortest, until};

// The part with which bytes begin, and the bytes after it.
pub(crate) fn split_part(bytes: &[u8]) -> Option<(&[u8], &[u8])>
    ensures { MatchOption result ((part rest : List ℕ) → ¬ (bytes.now ≡ part_text part ++ rest))
        (λ p. bytes.now ≡ part_text p.0.now ++ p.1.now) }
{
    let (word, rest) = until(bytes, b'\n')?;
    let count = size_of(word)?;
    split_sized(rest, count)
}

// The size that a word spells.
fn size_of(word: &[u8]) -> Option<usize>
    ensures { MatchOption result ((n : ℕ) → n < 2 ^ 63 → ¬ (word.now ≡ decimal n)) (λ n. (word.now ≡ decimal n) × (n < 2 ^ 63)) }
{
    natural(shortest(word)?)
}

// The number, unless it is negative.
fn natural(number: i64) -> Option<usize>
    ensures { result ≡ natural number }
{
    usize::try_from(number).ok()
}

// The first bytes, as many as the count, and those after the LF that follows.
fn split_sized(bytes: &[u8], count: usize) -> Option<(&[u8], &[u8])>
    ensures { MatchOption result ((part rest : List ℕ) → length part ≡ count → ¬ (bytes.now ≡ part ++ 10 ∷ rest))
        (λ p. (length p.0.now ≡ count) × (bytes.now ≡ p.0.now ++ 10 ∷ p.1.now)) }
{
    if count < bytes.len() && bytes[count] == b'\n' {
        Some((&bytes[..count], &bytes[count + 1..]))
    } else {
        None
    }
}
