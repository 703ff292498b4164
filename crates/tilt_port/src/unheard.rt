// Reports that go nowhere.
ghost use Rattle.std.specs.Prelude.{⊤, []};

use tilt_outside::{Failed, Sink};

/// A sink that drops what it gets.
#[derive(Drop)]
pub struct Unheard;

impl Sink for Unheard {
    ghost tells = { ⊥ };

    ghost written = { λ _. [] };

    ghost held_back = { λ _. 0 };

    ghost faults = { λ _. 0 };

    ghost takes = { λ _ _. ⊤ };

    fn put(&mut self, _piece: &[u8]) -> Result<(), Failed> {
        Ok(())
    }

    fn flush(&mut self) -> Result<(), Failed> {
        Ok(())
    }

    ghost takes_fewer = { λ _ _ _ _ takes. takes };
}
