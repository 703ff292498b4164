// What a command results in.
ghost use Rattle.std.specs.Prelude.{◌≡◌, None};

use crate::printed::Printed;
use crate::save::Save;

/// What a command results in.
#[derive(Drop)]
pub struct Answered<'a> {
    /// What is printed.
    pub printed: Printed,
    /// What is saved after it, if anything is.
    pub save: Option<Save<'a>>,
}

impl<'a> Answered<'a> {
    /// What is printed, if nothing is saved.
    pub fn unsaved(printed: Printed) -> Answered<'a>
        ensures { result ≡ record { printed = printed; save = None } }
    {
        Answered {
            printed,
            save: None,
        }
    }
}
