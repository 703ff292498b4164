// Whole numbers.
ghost use Rattle.std.specs.Prelude.{◌≡◌, ◌<◌, ◌≤◌, ◌^◌};
ghost use Rattle.std.specs.Option.{ForSome};
ghost use Rattle.tilt_reading_options.specs.Duration.{whole_said};

use tilt_base::read_number;

/// The number from 1 to another one that one or more digits spell. It is `None` for any other text.
pub fn read_whole(text: &[u8], greatest: u64) -> Option<u64>
    requires { greatest < 2 ^ 63 }
    ensures value { result ≡ whole_said greatest text.now }
    ensures some { ForSome result (λ number. 0 < number) }
    ensures most { ForSome result (λ number. number ≤ greatest) }
{
    let [first, ..] = text else {
        return None;
    };
    if !first.is_ascii_digit() {
        return None;
    }
    let number = u64::try_from(read_number(text)?).ok()?;
    if 1 <= number && number <= greatest {
        Some(number)
    } else {
        None
    }
}
