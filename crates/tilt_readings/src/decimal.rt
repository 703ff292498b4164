// Decimals, as whole numbers at a scale.
ghost use Rattle.std.specs.Prelude.{◌≡◌, pos, negsuc, neg_ℤ, ◌≤ℤ◌, ◌<ℤ◌, ◌<◌, ◌-◌, ◌^◌, true, length, ◌+◌};
ghost use Rattle.std.specs.Prelude.{MatchOption, if◌then◌else◌, nat_lt, ◌&&◌, Ok, Err, None};
ghost use Rattle.std.specs.Str.{all_ascii_digits};
ghost use Rattle.tilt_readings.specs.Decimal.{bounded, halves, in_64_bits, is_negative, joined, number_at, unsigned};

use crate::digits::{are_digits, carry_of, total_of};
use crate::fault::DecimalFault;
use tilt_text::until;

/// The whole number that the decimal of a text is times a scale, such as 235 for `23.5` at the scale 10. A decimal is an optional sign and
/// one or more digits, with at most one mark (`.` or `,`, as the caller says) before, between or after them. Leading zeros are allowed. The
/// scale is at least 1. The errors, in this order: `NotDecimal` for any other text, `NotWhole` if digits would be lost, and `OutOfRange` if
/// 64 bits don't hold the number.
pub fn read_decimal(text: &[u8], mark: u8, scale: u64) -> Result<i64, DecimalFault>
    requires { 0 < scale }
    ensures { result ≡ in_64_bits (number_at mark scale text.now) }
{
    let number = read_bounded(
        text,
        mark,
        scale,
        i128::from(i64::MIN),
        i128::from(i64::MAX),
    )?;
    Ok(number as i64)
}

/// The same within two limits.
pub(crate) fn read_bounded(
    text: &[u8],
    mark: u8,
    scale: u64,
    low: i128,
    high: i128,
) -> Result<i128, DecimalFault>
    requires scale { 0 < scale }
    requires low { negsuc (2 ^ 127 - 1) <ℤ low }
    ensures { result ≡ bounded low high (number_at mark scale text.now) }
{
    let (negative, digits) = split_sign(text);
    let Some((whole, fraction)) = split_digits(digits, mark) else {
        return Err(DecimalFault::NotDecimal);
    };
    let Some(carried) = carry_of(fraction, scale) else {
        return Err(DecimalFault::NotWhole);
    };
    let Some(size) = total_of(whole, scale, carried) else {
        return Err(DecimalFault::OutOfRange);
    };
    within(with_sign(negative, size), low, high)
}

// Whether there is a minus sign, and the text without its sign.
fn split_sign(text: &[u8]) -> (bool, &[u8])
    ensures sign { result.0 ≡ is_negative text.now }
    ensures rest { result.1.now ≡ unsigned text.now }
{
    match text {
        [b'-', rest @ ..] => (true, rest),
        [b'+', rest @ ..] => (false, rest),
        _ => (false, text),
    }
}

// The digits before the mark and after it, or `None` if there is none or another byte.
fn split_digits(text: &[u8], mark: u8) -> Option<(&[u8], &[u8])>
    ensures { MatchOption result
        (joined (halves mark text.now) ≡ None)
        (λ parts. (halves mark text.now ≡ (parts.0.now, parts.1.now)) × (0 < length parts.0.now + length parts.1.now)
        × (all_ascii_digits parts.0.now ≡ true) × (all_ascii_digits parts.1.now ≡ true)) }
{
    let (whole, fraction) = halve(text, mark);
    if are_halves(whole, fraction) {
        Some((whole, fraction))
    } else {
        None
    }
}

// Whether both halves are digits, and there is at least one.
fn are_halves(whole: &[u8], fraction: &[u8]) -> bool
    ensures { result
        ≡ (nat_lt 0 (length whole.now + length fraction.now) && (all_ascii_digits whole.now && all_ascii_digits fraction.now)) }
{
    (!whole.is_empty() || !fraction.is_empty()) && (are_digits(whole) && are_digits(fraction))
}

// What comes before the first mark and after it.
fn halve(text: &[u8], mark: u8) -> (&[u8], &[u8])
    ensures { halves mark text.now ≡ (result.0.now, result.1.now) }
{
    match until(text, mark) {
        Some(parts) => parts,
        None => (text, &text[..0]),
    }
}

// A number with its sign.
fn with_sign(negative: bool, size: i128) -> i128
    requires { pos 0 ≤ℤ size }
    ensures { result ≡ (if negative then neg_ℤ size else size) }
{
    if negative { -size } else { size }
}

// A number, if it is within limits.
fn within(number: i128, low: i128, high: i128) -> Result<i128, DecimalFault>
    ensures { result ≡ bounded low high (Ok number) }
{
    if low <= number && number <= high {
        Ok(number)
    } else {
        Err(DecimalFault::OutOfRange)
    }
}
