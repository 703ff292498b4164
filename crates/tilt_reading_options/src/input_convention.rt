use tilt_conventions::Convention;
use tilt_lexer::Name;

// What the readings of the input with a name mean.
#[derive(Drop)]
pub(crate) struct InputConvention {
    pub(crate) name: Name,
    pub(crate) convention: Convention,
}
