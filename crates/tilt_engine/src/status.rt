// How far an engine has come.
#[derive(Clone, Copy, PartialEq, Eq)]
pub(crate) enum Status {
    // The loops have made all that is known.
    Current,
    // Events were taken since.
    Behind,
    // Memory was refused while the loops made their turns.
    Refused,
}
