// Numbers of digits: all of them, and those that a scale leaves whole.
ghost use Rattle.std.specs.Prelude.{◌≡◌, ◌≢◌, ℕ, ◌+◌, ◌-◌, ◌*◌, ◌^◌, ◌≤◌, ◌<◌, true, length, pos, MatchOption};
ghost use Rattle.std.specs.Str.{all_ascii_digits};
ghost use Rattle.std.specs.Str.Parse.{digits_value};

// So many digits spell a number of 64 bits, whichever they are.
const MOST: usize = 18;

// Ten times a scale up to it is a number of 64 bits.
const HIGHEST: u64 = 1_000_000_000_000_000_000;

/// Whether all bytes are digits.
pub(crate) fn are_digits(bytes: &[u8]) -> bool
    ensures { result ≡ all_ascii_digits bytes.now }
{
    for byte in bytes {
        if !byte.is_ascii_digit() {
            return false;
        }
    }
    true
}

/// The number that digits spell, or `None` if 128 bits don't hold it.
pub(crate) fn value_of(digits: &[u8]) -> Option<u128>
    requires { all_ascii_digits digits.now ≡ true }
    ensures { MatchOption result (2 ^ 128 ≤ digits_value 10 digits.now) (λ n. n ≡ digits_value 10 digits.now) }
{
    if digits.len() <= MOST {
        return Some(u128::from(value_of_few(digits)));
    }
    let mut number = 0u128;
    for digit in digits {
        number = number
            .checked_mul(10)?
            .checked_add(u128::from(*digit - b'0'))?;
    }
    Some(number)
}

// The number that a few digits spell.
fn value_of_few(digits: &[u8]) -> u64
    requires digits { all_ascii_digits digits.now ≡ true }
    requires few { length digits.now ≤ 18 }
    ensures { result ≡ digits_value 10 digits.now }
{
    let mut number = 0u64;
    for digit in digits {
        number = number * 10 + u64::from(*digit - b'0');
    }
    number
}

/// The decimals that the digits spell, times a scale, or `None` if that isn't whole. It is worked out from the last digit to the first,
/// and only what is carried is kept, so the digits may be as many as they like.
pub(crate) fn carry_of(digits: &[u8], scale: u64) -> Option<u128>
    requires { all_ascii_digits digits.now ≡ true }
    ensures { MatchOption result
        ((n : ℕ) → digits_value 10 digits.now * scale ≢ n * 10 ^ length digits.now)
        (λ n. (digits_value 10 digits.now * scale ≡ n * 10 ^ length digits.now) × (n ≤ scale)) }
{
    let mut carried = 0u128;
    let mut at = digits.len();
    while at > 0 {
        at -= 1;
        carried = carry_digit(digits[at], scale, carried)?;
    }
    Some(carried)
}

// A tenth of a digit times a scale and what is carried to it, or `None` if that isn't whole.
fn carry_digit(digit: u8, scale: u64, carried: u128) -> Option<u128>
    requires low { 48 ≤ digit }
    requires high { digit ≤ 57 }
    requires carried { carried ≤ scale }
    ensures { MatchOption result
        ((n : ℕ) → (digit - 48) * scale + carried ≢ n * 10)
        (λ n. ((digit - 48) * scale + carried ≡ n * 10) × (n ≤ scale)) }
{
    if scale <= HIGHEST {
        let sum = u64::from(digit - b'0') * scale + carried as u64;
        return if sum % 10 == 0 {
            Some(u128::from(sum / 10))
        } else {
            None
        };
    }
    let sum = u128::from(digit - b'0') * u128::from(scale) + carried;
    if sum % 10 == 0 { Some(sum / 10) } else { None }
}

/// Whole digits times a scale and what their decimals carry, or `None` if 127 bits don't hold it.
pub(crate) fn total_of(whole: &[u8], scale: u64, carried: u128) -> Option<i128>
    requires digits { all_ascii_digits whole.now ≡ true }
    requires scale { 0 < scale }
    ensures { MatchOption result
        (2 ^ 127 ≤ digits_value 10 whole.now * scale + carried)
        (λ n. n ≡ pos (digits_value 10 whole.now * scale + carried)) }
{
    let value = value_of(whole)?;
    let total = value.checked_mul(u128::from(scale))?.checked_add(carried)?;
    i128::try_from(total).ok()
}
