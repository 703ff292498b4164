// The widest of the needs of a query.
ghost use Rattle.std.specs.Prelude.{◌≡◌, ◌+◌, ◌*◌, ◌++◌, ◌^◌, pos, length, take, drop};
ghost use Rattle.tilt_core.specs.Needs.{body_needs, widest};
ghost use Rattle.tilt_bounds.specs.Margins.{AreWithin, evenly};

use crate::asking::body_need;
use crate::wide_need::{WideNeed, no_margin, wider};
use tilt_core::Def;

/// The widest of the needs of the inputs and of the needs of the bodies of the definitions. The needs of the inputs come first, then the
/// needs of the definitions.
pub fn widest_of(needs: &[Option<WideNeed>], inputs: usize, defs: &[Def]) -> WideNeed
    requires many { length needs.now ≡ inputs + length defs.now }
    requires near { AreWithin (evenly (pos (2 ^ 80))) needs.now }
    ensures { result ≡ widest (take inputs needs.now ++ body_needs defs.now (drop inputs needs.now)) }
{
    let (of_inputs, of_defs) = needs.split_at(inputs);
    wider(widest_need(of_inputs), widest_body_need(defs, of_defs))
}

// The widest of needs.
fn widest_need(needs: &[Option<WideNeed>]) -> WideNeed
    ensures { result ≡ widest needs.now }
{
    let mut widest = no_margin();
    for need in needs {
        if let Some(need) = need {
            widest = wider(widest, *need);
        }
    }
    widest
}

// The widest of the needs of the bodies of definitions with these needs.
fn widest_body_need(defs: &[Def], needs: &[Option<WideNeed>]) -> WideNeed
    requires many { length needs.now ≡ length defs.now }
    requires near { AreWithin (evenly (pos (2 ^ 80))) needs.now }
    ensures { result ≡ widest (body_needs defs.now needs.now) }
{
    let mut widest = no_margin();
    for place in 0..defs.len() {
        let def = &defs[place];
        if let Some(need) = needs[place] {
            widest = wider(widest, body_need(def, need));
        }
    }
    widest
}
