ghost use Rattle.std.specs.Prelude.{◌≡◌, Some};
ghost use Rattle.tilt_core.specs.Core.{IsCore, IsStretch, domain_of, emitted_number};

use crate::definition::Def;
use std::marker::Model;
use tilt_base::Span;
use tilt_lexer::Name;

/// The core of a query that was accepted. Its sources are numbered: the inputs in order from 0 on, then the definitions
/// in order. Each definition names only sources before it, and the last one is emitted.
#[derive(Debug, Drop)]
pub struct Core {
    inputs: Vec<Name>,
    names: Vec<Name>,
    defs: Vec<Def>,
}

impl Model for Core {
    ghost use Rattle.tilt_core.specs.Core.{CoreParts, IsCore, coded_core};

    ghost Value = { CoreParts };

    ghost coded = { coded_core };

    ghost view = { λ c. record { inputs = c.inputs.items; names = c.names.items; defs = c.defs.items } };

    ghost invariant = { λ c. IsCore (record { inputs = c.inputs.items; names = c.names.items; defs = c.defs.items }) };
}

impl Core {
    /// The core of these parts.
    pub fn new(inputs: Vec<Name>, names: Vec<Name>, defs: Vec<Def>) -> Core
        requires { IsCore (record { inputs = inputs.items; names = names.items; defs = defs.items }) }
        ensures { result ≡ record { inputs = inputs.items; names = names.items; defs = defs.items } }
    {
        Core {
            inputs,
            names,
            defs,
        }
    }

    /// The names of the inputs, in order.
    pub fn inputs(&self) -> &[Name]
        ensures names { result.now ≡ self.now.inputs }
        ensures accepted { IsCore self.now }
    {
        &self.inputs
    }

    /// The names of the definitions in order, except the last one, which has none.
    pub fn names(&self) -> &[Name]
        ensures names { result.now ≡ self.now.names }
        ensures accepted { IsCore self.now }
    {
        &self.names
    }

    /// The number of the source that is emitted: the last definition.
    pub fn emitted(&self) -> u32
        ensures number { result ≡ emitted_number self.now }
        ensures accepted { IsCore self.now }
    {
        (self.inputs.len() + self.names.len()) as u32
    }

    /// The output domain: the span of the last definition.
    pub fn domain(&self) -> Span
        ensures span { domain_of self.now.defs ≡ Some result }
        ensures stretch { IsStretch (Some result) }
    {
        let Some(last) = self.defs.last() else {
            unreachable!()
        };
        let Some(domain) = last.over else {
            unreachable!()
        };
        domain
    }

    /// The definitions in order. The last one is emitted, and its span is the output domain.
    pub fn defs(&self) -> &[Def]
        ensures defs { result.now ≡ self.now.defs }
        ensures accepted { IsCore self.now }
    {
        &self.defs
    }
}
