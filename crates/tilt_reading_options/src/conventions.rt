// The conventions of all inputs.
ghost use Rattle.std.specs.Prelude.{◌≡◌, ◌++◌, ◌∷◌, [], OnErr, OnOk};
ghost use Rattle.tilt_conventions.specs.Laws.{HoldsATick};
ghost use Rattle.tilt_reading_options.specs.Conventions.{AreConventions, convention_among, convention_named};

use crate::input_convention::InputConvention;
use std::alloc::{AllocError as OutOfMemory, Global};
use std::marker::Model;
use tilt_conventions::Convention;
use tilt_lexer::Name;

// The conventions of the inputs with some names, and of all others. A clause sees them as plain data.
#[derive(Drop)]
pub(crate) struct Conventions {
    named: Vec<InputConvention>,
    others: Convention,
}

impl Model for Conventions {
    ghost use Rattle.tilt_reading_options.specs.Conventions.{AreConventions, ConventionsValue};

    ghost Value = { ConventionsValue };

    ghost view = { λ c. record { named = c.named.items; others = c.others } };

    ghost invariant = { λ c. AreConventions (record { named = c.named.items; others = c.others }) };
}

impl Conventions {
    // One convention for all inputs.
    pub(crate) fn new(alloc: Global, others: Convention) -> Conventions
        requires { HoldsATick others }
        ensures { result ≡ record { named = []; others = others } }
    {
        Conventions {
            named: Vec::new(alloc),
            others,
        }
    }

    // Adds the convention of the input with a name. If the name has one already, that one counts. If memory runs out, all is as before.
    pub(crate) fn push(&mut self, one: InputConvention) -> Result<(), OutOfMemory>
        requires { HoldsATick one.convention }
        ensures ok { OnOk result (self.new ≡ record self.old { named = self.old.named ++ one ∷ [] }) }
        ensures err { OnErr result (self.new ≡ self.old) }
    {
        self.named.push(one)?;
        Ok(())
    }

    // The conventions that have names, in order.
    pub(crate) fn named(&self) -> &[InputConvention]
        ensures { result.now ≡ self.now.named }
    {
        &self.named
    }

    // The convention of the input with a name.
    pub(crate) fn find(&self, name: &Name) -> Convention
        ensures convention { result ≡ convention_named self.now name.now }
        ensures age { HoldsATick result }
    {
        find_among(self.others, &self.named, name)
    }
}

// The convention of the input with a name.
fn find_among(others: Convention, named: &[InputConvention], name: &Name) -> Convention
    ensures { result ≡ convention_among others named.now name.now }
{
    for at in 0..named.len() {
        let one = &named[at];
        if one.name.bytes() == name.bytes() {
            return one.convention;
        }
    }
    others
}
