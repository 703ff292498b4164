// Literals, as decimals.
ghost use Rattle.std.specs.Prelude.{◌≡◌, ◌≤◌};
ghost use Rattle.tilt_unit_text.specs.Numbers.{smallest};

use tilt_units::{Decimal, Scale};

// The number of the digits, of which so many come after the point, at the smallest power of ten at which it is whole.
pub(crate) fn smallest(digits: i64, decimals: u32) -> Decimal
    requires { decimals ≤ 18 }
    ensures { result ≡ smallest digits decimals }
{
    if decimals == 0 {
        return Decimal {
            number: digits,
            scale: Scale::one(),
        };
    }
    if digits % 10 == 0 {
        return smallest(digits / 10, decimals - 1);
    }
    match Scale::new(10u64.pow(decimals)) {
        Some(scale) => Decimal {
            number: digits,
            scale,
        },
        None => unreachable!(),
    }
}
