// Numbers spelled in decimal digits.
ghost use Rattle.std.specs.Prelude.{◌≡◌, ◌≢◌, ◌^◌, ◌<◌, ◌≤◌, ◌∷◌, ℕ, ℤ, true, false, length, FitsSigned, IfSome, MatchOption};
ghost use Rattle.std.specs.Prelude.{option_and_then};
ghost use Rattle.std.specs.Char.{digit_value, is_ascii_digit};
ghost use Rattle.std.specs.Int.{w64};
ghost use Rattle.std.specs.Fmt.{signed_decimal};
ghost use Rattle.tilt_base.specs.Number.{cell_spelled, natural_spelled, number_spelled, within_u64};

use crate::cell::Cell;
use itoa::Buffer;

// So many digits spell a number below 2^63, whichever they are.
const SHORT: usize = 18;

/// The number that the bytes spell: an optional `+` or `-` and then one or more digits. Leading zeros are allowed.
/// `None` if the bytes are spelled otherwise, or the number lies outside 64 bits.
pub fn read_number(bytes: &[u8]) -> Option<i64>
    ensures { result ≡ number_spelled bytes.now }
{
    if bytes.len() <= SHORT {
        read_short(bytes)
    } else {
        read_long(bytes)
    }
}

/// The value that the bytes spell: null if there are none, and otherwise their number, as `read_number` reads it.
#[inline]
pub fn read_cell(bytes: &[u8]) -> Option<Cell>
    ensures { result ≡ cell_spelled bytes.now }
{
    if bytes.is_empty() {
        Some(None)
    } else {
        read_number(bytes).map(Some)
    }
}

// The number that at most 18 bytes spell, which lies within 64 bits. Most have no sign, so the first byte is looked at as a digit.
#[inline]
fn read_short(bytes: &[u8]) -> Option<i64>
    requires { length bytes.now ≤ 18 }
    ensures { result ≡ number_spelled bytes.now }
{
    let [first, rest @ ..] = bytes else {
        return None;
    };
    match digit_of(*first) {
        Some(digit) => Some(read_rest(digit, rest)? as i64),
        None => read_signed(*first, rest),
    }
}

// The number that a byte which is no digit and at most 17 bytes after it spell.
#[inline]
fn read_signed(sign: u8, digits: &[u8]) -> Option<i64>
    requires sign { is_ascii_digit sign ≡ false }
    requires few { length digits.now ≤ 17 }
    ensures { result ≡ number_spelled (sign ∷ digits.now) }
{
    match sign {
        b'-' => Some(-(read_digits(digits)? as i64)),
        b'+' => Some(read_digits(digits)? as i64),
        _ => None,
    }
}

// The number that at most 17 digits spell, of which there is at least one.
#[inline]
fn read_digits(digits: &[u8]) -> Option<u64>
    requires { length digits.now ≤ 17 }
    ensures value { result ≡ natural_spelled digits.now }
    ensures small { IfSome result (λ number. number < 10 ^ 18) }
{
    let [first, rest @ ..] = digits else {
        return None;
    };
    read_rest(digit_of(*first)?, rest)
}

// The number that a digit, whose value is known, and at most 17 digits after it spell.
#[inline]
fn read_rest(first: u64, digits: &[u8]) -> Option<u64>
    requires first { first < 10 }
    requires few { length digits.now ≤ 17 }
    ensures value { (digit : ℕ) → is_ascii_digit digit ≡ true → digit_value digit ≡ first → result ≡ natural_spelled (digit ∷ digits.now) }
    ensures small { IfSome result (λ number. number < 10 ^ 18) }
{
    let mut number = first;
    for digit in digits {
        number = number * 10 + digit_of(*digit)?;
    }
    Some(number)
}

// The value of a digit, or none where the byte is none.
#[inline]
fn digit_of(byte: u8) -> Option<u64>
    ensures digit { MatchOption result (is_ascii_digit byte ≡ false) (λ value. (is_ascii_digit byte ≡ true) × (value ≡ digit_value byte)) }
    ensures small { IfSome result (λ value. value < 10) }
{
    // A byte below `0` wraps to a number above 9 too.
    let value = u64::from(byte).wrapping_sub(u64::from(b'0'));
    if value > 9 { None } else { Some(value) }
}

// The number that more bytes spell.
fn read_long(bytes: &[u8]) -> Option<i64>
    ensures { result ≡ number_spelled bytes.now }
{
    match bytes {
        [b'-', digits @ ..] => i64::try_from(-i128::from(read_natural(digits)?)).ok(),
        [b'+', digits @ ..] => i64::try_from(read_natural(digits)?).ok(),
        digits => i64::try_from(read_natural(digits)?).ok(),
    }
}

// The number that one or more digits spell, or `None` where 64 bits without a sign don't hold it.
fn read_natural(digits: &[u8]) -> Option<u64>
    ensures { result ≡ option_and_then within_u64 (natural_spelled digits.now) }
{
    if digits.is_empty() {
        return None;
    }
    let mut number = 0u64;
    for digit in digits {
        if !digit.is_ascii_digit() {
            return None;
        }
        number = number
            .checked_mul(10)?
            .checked_add(u64::from(*digit - b'0'))?;
    }
    Some(number)
}

/// The number whose shortest decimal the bytes are: an optional `-` and digits without a leading zero, and `0` for
/// zero. `None` if they are the shortest decimal of no number within 64 bits.
pub fn read_shortest(bytes: &[u8]) -> Option<i64>
    ensures { MatchOption result
        ((z : ℤ) → FitsSigned w64 z → bytes.now ≢ signed_decimal z)
        (λ z. bytes.now ≡ signed_decimal z) }
{
    let number = read_number(bytes)?;
    let mut shortest = Buffer::new();
    (shortest.format(number).as_bytes() == bytes).then_some(number)
}
