use crate::interval::WideInterval;
use tilt_units::Place;

/// An expression that can leave 64 bits.
#[derive(Clone, Copy, Debug, PartialEq, Eq)]
pub struct Overflow {
    /// Where it is in the query.
    pub place: Place,
    /// Its exact interval, which 64 bits don't hold.
    pub bounds: WideInterval,
}
