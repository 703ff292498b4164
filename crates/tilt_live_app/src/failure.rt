// Why the program doesn't do all that it is to do.
use crate::unbegun::Unbegun;
use tilt_serving::Halt;

// Why not all is done.
#[derive(Drop)]
pub(crate) enum Failure<'a> {
    // The feed wasn't begun.
    Unbegun(Unbegun<'a>),
    // The feed wasn't served to its end.
    Halted(Halt),
    // The feed was served to its end, and the save of its state in the file of this name failed.
    Unsaved(&'a str),
    // The feed was served to its end, and there was no memory for its state.
    Unmade,
}
