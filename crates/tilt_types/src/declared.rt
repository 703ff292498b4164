use crate::value_type::ValueType;
use tilt_lexer::Name;

/// A name that was declared, and the type of its stream.
#[derive(Debug, Drop)]
pub struct Declared {
    pub name: Name,
    pub value_type: ValueType,
}
