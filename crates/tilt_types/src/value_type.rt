/// The type of an expression.
#[derive(Clone, Copy, Debug, PartialEq, Eq)]
pub enum ValueType {
    /// Numbers.
    Int,
    /// Truth values, which are the numbers 1 and 0 in the core.
    Bool,
}
