// Words that spell numbers.
ghost use Rattle.std.specs.Prelude.{◌≡◌};
ghost use Rattle.tilt_text.specs.Spelled.{shortest};

use tilt_base::read_shortest;

/// The number whose shortest decimal the word is; `None` if no number within 64 bits has it.
pub fn shortest(word: &[u8]) -> Option<i64>
    ensures { result ≡ shortest word.now }
{
    let number = read_shortest(word)?;
    Some(number)
}
