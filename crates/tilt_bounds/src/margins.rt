ghost use Rattle.std.specs.Prelude.{◌≡◌, map};
ghost use Rattle.tilt_bounds.specs.Margins.{AreMargins, need_of};

use crate::need::Need;
use std::marker::Model;

/// How far back and ahead a query reads. A clause sees it as plain data.
#[derive(Debug, Drop)]
pub struct Margins {
    back: i64,
    ahead: i64,
    needs: Vec<Need>,
}

impl Model for Margins {
    ghost use Rattle.std.specs.Prelude.{map};
    ghost use Rattle.tilt_bounds.specs.Margins.{MarginsParts, AreMargins, coded_margins, need_of};

    ghost Value = { MarginsParts };

    ghost coded = { coded_margins };

    ghost view = { λ m. record { back = m.back; ahead = m.ahead; needs = map need_of m.needs.items } };

    ghost invariant = { λ m. AreMargins (record { back = m.back; ahead = m.ahead; needs = map need_of m.needs.items }) };
}

impl Margins {
    // The margins of these parts.
    pub(crate) fn new(back: i64, ahead: i64, needs: Vec<Need>) -> Margins
        requires { AreMargins (record { back = back; ahead = ahead; needs = map need_of needs.items }) }
        ensures { result ≡ record { back = back; ahead = ahead; needs = map need_of needs.items } }
    {
        Margins { back, ahead, needs }
    }

    /// The look-back of the query: the farthest that any used source is read before the output, in ticks.
    pub fn back(&self) -> i64
        ensures value { result ≡ self.now.back }
        ensures kept { AreMargins self.now }
    {
        self.back
    }

    /// The look-ahead of the query, in ticks.
    pub fn ahead(&self) -> i64
        ensures value { result ≡ self.now.ahead }
        ensures kept { AreMargins self.now }
    {
        self.ahead
    }

    /// The need of each source: the inputs in order, then the definitions in order.
    pub fn needs(&self) -> &[Need]
        ensures value { map need_of result.now ≡ self.now.needs }
        ensures kept { AreMargins self.now }
    {
        &self.needs
    }
}
