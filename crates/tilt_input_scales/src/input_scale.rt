use tilt_lexer::Name;

/// The scale of the input with a name. At the scale 10 the number 965 means 96.5.
#[derive(Debug, Drop)]
pub struct InputScale {
    pub name: Name,
    pub scale: u64,
}
