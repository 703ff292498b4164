ghost use Rattle.std.specs.Prelude.{◌≡◌};
ghost use Rattle.tilt_code.specs.References.{IsCode};

use crate::loops::Loop;
use std::marker::Model;
use tilt_lexer::Name;

/// A code that can be run: each instruction is where it may be, has its numbers within their bounds, and names only
/// what is before it. A clause sees it as plain data.
#[derive(Debug, Drop)]
pub struct Code {
    inputs: Vec<Name>,
    loops: Vec<Loop>,
}

impl Model for Code {
    ghost use Rattle.tilt_code.specs.Code.{CodeParts, coded_code};
    ghost use Rattle.tilt_code.specs.References.{IsCode};

    ghost Value = { CodeParts };

    ghost coded = { coded_code };

    ghost view = { λ c. record { inputs = c.inputs.items; loops = c.loops.items } };

    ghost invariant = { λ c. IsCode (record { inputs = c.inputs.items; loops = c.loops.items }) };
}

impl Code {
    /// The code of these parts.
    pub fn new(inputs: Vec<Name>, loops: Vec<Loop>) -> Code
        requires { IsCode (record { inputs = inputs.items; loops = loops.items }) }
        ensures { result ≡ record { inputs = inputs.items; loops = loops.items } }
    {
        Code { inputs, loops }
    }

    /// The names of the inputs, in order.
    pub fn inputs(&self) -> &[Name]
        ensures names { result.now ≡ self.now.inputs }
        ensures code { IsCode self.now }
    {
        &self.inputs
    }

    /// The loops in order, of which there is at least one. The last one fills the buffer that is the outcome.
    pub fn loops(&self) -> &[Loop]
        ensures loops { result.now ≡ self.now.loops }
        ensures code { IsCode self.now }
    {
        &self.loops
    }
}
