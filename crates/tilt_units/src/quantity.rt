use crate::scale::Scale;

/// What the numbers of a stream represent.
#[derive(Clone, Copy, Debug, PartialEq, Eq)]
pub enum Quantity {
    /// Truth values: 1 for true and 0 for false. They have no scale.
    Truth,
    /// Numbers at a scale: a whole number represents itself divided by the scale.
    Number(Scale),
}
