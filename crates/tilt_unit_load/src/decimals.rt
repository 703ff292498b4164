// The decimals of an output.
ghost use Rattle.std.specs.Prelude.{◌≡◌, ◌≢◌, ◌^◌, ◌<◌, ◌≤◌, ℕ, IfOk, MatchOption, MatchResult};
ghost use Rattle.std.specs.Option.{ForSome};
ghost use Rattle.tilt_unit_load.specs.UnitFile.{emitted_scale};
ghost use Rattle.tilt_unit_text.specs.Units.{parts_of};

use crate::fault::UnitFileFault;
use tilt_unit_text::UnitQuery;
use tilt_units::Quantity;

// How many decimals the output of a query has; or its scale, if that is no power of ten.
pub(crate) fn output_decimals(query: &UnitQuery) -> Result<u8, UnitFileFault>
    ensures power { MatchResult result (λ decimals. 10 ^ decimals ≡ emitted_scale (parts_of query.now))
        (λ fault. (fault ≡ UnitFileFault.OutputScale (emitted_scale (parts_of query.now)))
        × ((decimals : ℕ) → 10 ^ decimals ≢ emitted_scale (parts_of query.now))) }
    ensures few { IfOk result (λ decimals. decimals ≤ 18) }
{
    let scale = emitted_scale(query);
    match decimals_of(scale) {
        Some(decimals) => Ok(decimals),
        None => Err(UnitFileFault::OutputScale { scale }),
    }
}

// The scale of what a query emits, 1 of truth values.
fn emitted_scale(query: &UnitQuery) -> u64
    ensures scale { result ≡ emitted_scale (parts_of query.now) }
    ensures small { result < 2 ^ 63 }
{
    let place = query.core.inputs().len() + query.core.names().len();
    match query.quantities.get(place) {
        Some(Quantity::Number(scale)) => scale.parts(),
        Some(Quantity::Truth) | None => 1,
    }
}

// Which power of ten a number is, if it is one.
fn decimals_of(scale: u64) -> Option<u8>
    requires { scale < 2 ^ 63 }
    ensures power { MatchOption result ((decimals : ℕ) → 10 ^ decimals ≢ scale) (λ decimals. 10 ^ decimals ≡ scale) }
    ensures few { ForSome result (λ decimals. decimals ≤ 18) }
{
    let mut power = 1;
    for decimals in 0..19u8 {
        if power == scale {
            return Some(decimals);
        }
        power *= 10;
    }
    None
}
