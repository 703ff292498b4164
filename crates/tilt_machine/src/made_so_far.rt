// The buffers that a loop reads.
ghost use Rattle.std.specs.Prelude.{◌≡◌, [], get_or, neg_ℤ};
ghost use Rattle.tilt_base.specs.declared.limits.TheConstants.{WIDE};
ghost use Rattle.tilt_machine.specs.Lists.{lists_of};
ghost use Rattle.tilt_stream.specs.Snap.{InOrder};

use tilt_stream::{Rows, Snap, SnapList};
use tilt_turn::Buffers;

// The rows of the inputs, and after them the lists that loops made so far. All of them are kept.
#[derive(Drop)]
pub(crate) struct MadeSoFar<'a> {
    pub(crate) inputs: &'a [Rows],
    pub(crate) made: &'a [SnapList],
}

impl Buffers for MadeSoFar<'_> {
    ghost lists = { lists_of };

    ghost forgotten = { λ _. [] };

    fn made(&self, buffer: usize) -> usize {
        self.list(buffer).len()
    }

    fn first_kept(&self, _buffer: usize) -> usize {
        0
    }

    fn at(&self, buffer: usize, place: usize) -> Option<Snap> {
        self.list(buffer).get(place).copied()
    }
}

impl MadeSoFar<'_> {
    // The rows of an input, or the list that a loop made, and nothing where there is none of that number.
    fn list(&self, buffer: usize) -> &[Snap]
        ensures list { result.now ≡ get_or (lists_of self.now) buffer [] }
        ensures in_order { InOrder (neg_ℤ WIDE) WIDE result.now }
    {
        if buffer < self.inputs.len() {
            return self.inputs[buffer].as_slice();
        }
        let behind = buffer - self.inputs.len();
        if behind < self.made.len() {
            self.made[behind].as_slice()
        } else {
            &[]
        }
    }
}
