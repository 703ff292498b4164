// Numbers without a sign.
ghost use Rattle.std.specs.Prelude.{◌≡◌, ◌^◌, ◌<◌, pos};
ghost use Rattle.std.specs.List.{prefix_len};
ghost use Rattle.std.specs.Option.{SomeIff};
ghost use Rattle.std.specs.Char.{is_ascii_digit};
ghost use Rattle.std.specs.Str.Parse.{digits_value};
ghost use Rattle.tilt_lexer.specs.Tokens.{IsDigits};

// How many digits stand at the beginning.
pub(crate) fn digits_length(bytes: &[u8]) -> usize
    ensures { result ≡ prefix_len is_ascii_digit bytes.now }
{
    bytes
        .iter()
        .take_while(|byte| byte.is_ascii_digit())
        .count()
}

// The number that the digits spell, or `None` if it is 2 ^ 63 or more.
pub(crate) fn digits_value(digits: &[u8]) -> Option<i64>
    requires { IsDigits digits.now }
    ensures { SomeIff result (digits_value 10 digits.now < 2 ^ 63) (pos (digits_value 10 digits.now)) }
{
    std::str::from_utf8(digits).ok()?.parse().ok()
}
