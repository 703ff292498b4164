use crate::scale::Scale;

/// A literal: the number divided by the scale. 23.5 is 235 at the scale 10.
#[derive(Clone, Copy, Debug, PartialEq, Eq)]
pub struct Decimal {
    pub number: i64,
    pub scale: Scale,
}
