// The scales of all inputs.
ghost use Rattle.std.specs.Prelude.{◌≡◌, ◌++◌, ◌∷◌, [], OnErr, OnOk};
ghost use Rattle.tilt_input_scales.specs.Scales.{AreScales, IsInputScale, scale_among, scale_named};

use crate::input_scale::InputScale;
use std::alloc::{AllocError as OutOfMemory, Global};
use std::marker::Model;
use tilt_lexer::Name;

/// The scales of the inputs with some names, and of all others. Each is from 1 to 10^18. A clause sees it as plain data.
#[derive(Debug, Drop)]
pub struct Scales {
    named: Vec<InputScale>,
    others: u64,
}

impl Model for Scales {
    ghost use Rattle.tilt_input_scales.specs.Scales.{AreScales, ScalesValue};

    ghost Value = { ScalesValue };

    ghost view = { λ s. record { named = s.named.items; others = s.others } };

    ghost invariant = { λ s. AreScales (record { named = s.named.items; others = s.others }) };
}

impl Scales {
    /// One scale for all inputs.
    pub fn new(alloc: Global, others: u64) -> Scales
        requires { IsInputScale others }
        ensures { result ≡ record { named = []; others = others } }
    {
        Scales {
            named: Vec::new(alloc),
            others,
        }
    }

    /// Adds the scale of the input with a name. If the name has one already, that one counts. If memory runs out, all is as before.
    pub fn push(&mut self, one: InputScale) -> Result<(), OutOfMemory>
        requires { IsInputScale one.scale }
        ensures ok { OnOk result (self.new ≡ record self.old { named = self.old.named ++ one ∷ [] }) }
        ensures err { OnErr result (self.new ≡ self.old) }
    {
        self.named.push(one)?;
        Ok(())
    }

    /// The scales that have names, in order.
    pub fn named(&self) -> &[InputScale]
        ensures value { result.now ≡ self.now.named }
        ensures kept { AreScales self.now }
    {
        &self.named
    }

    /// The scale of the input with a name: the first one with that name, or else the scale of all others.
    pub fn find(&self, name: &Name) -> u64
        ensures scale { result ≡ scale_named self.now name.now }
        ensures bounds { IsInputScale result }
        ensures kept { AreScales self.now }
    {
        find_among(self.others, &self.named, name)
    }
}

// The scale of the input with a name.
fn find_among(others: u64, named: &[InputScale], name: &Name) -> u64
    ensures { result ≡ scale_among others named.now name.now }
{
    for at in 0..named.len() {
        let one = &named[at];
        if one.name.bytes() == name.bytes() {
            return one.scale;
        }
    }
    others
}
