// A pipeline that was read.
ghost use Rattle.std.specs.Prelude.{◌≡◌, map};
ghost use Rattle.tilt_operators.specs.Flow.{step_tree};
ghost use Rattle.tilt_operators.specs.Steps.{IsFlow};

use crate::step::Step;
use std::marker::Model;
use tilt_base::Span;
use tilt_lexer::Name;

/// A pipeline that some text reads as. A clause sees it as plain data.
#[derive(Debug, Drop)]
pub struct Flow {
    first: Name,
    steps: Vec<Step>,
    domain: Span,
}

impl Model for Flow {
    ghost use Rattle.std.specs.Prelude.{map};
    ghost use Rattle.tilt_operators.specs.Flow.{FlowTree, step_tree};
    ghost use Rattle.tilt_operators.specs.Stored.{coded_flow};
    ghost use Rattle.tilt_operators.specs.Steps.{IsFlow};

    ghost Value = { FlowTree };

    ghost coded = { coded_flow };

    ghost view = { λ f. record { first = f.first; steps = map step_tree f.steps.items; domain = f.domain } };

    ghost invariant = { λ f. IsFlow (record { first = f.first; steps = map step_tree f.steps.items; domain = f.domain }) };
}

impl Flow {
    // The pipeline of these parts.
    pub(crate) fn new(first: Name, steps: Vec<Step>, domain: Span) -> Flow
        requires { IsFlow (record { first = first; steps = map step_tree steps.items; domain = domain }) }
        ensures { result ≡ record { first = first; steps = map step_tree steps.items; domain = domain } }
    {
        Flow {
            first,
            steps,
            domain,
        }
    }

    /// The input that it reads first.
    pub fn first(&self) -> &Name
        ensures name { result.now ≡ self.now.first }
        ensures read { IsFlow self.now }
    {
        &self.first
    }

    /// The steps between its first and its last, in order.
    pub fn steps(&self) -> &[Step]
        ensures trees { map step_tree result.now ≡ self.now.steps }
        ensures read { IsFlow self.now }
    {
        &self.steps
    }

    /// The ticks on which it gives its list.
    pub fn domain(&self) -> Span
        ensures { result ≡ self.now.domain }
    {
        self.domain
    }
}
