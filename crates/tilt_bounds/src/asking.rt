// The needs of sources: each definition asks the sources before it, from the last definition to the first.
ghost use Rattle.std.specs.Prelude.{◌≡◌, ◌+◌, ◌*◌, ◌^◌, ◌<◌, ◌≤◌, ◌≤ℤ◌, ◌∷◌, ℕ, suc, pos, neg_ℤ};
ghost use Rattle.std.specs.Prelude.{None, Some, length, IfOk, replicate, slice_set};
ghost use Rattle.tilt_core.specs.Core.{AreDefinitions, IsDefinition, ReadsBelow};
ghost use Rattle.tilt_core.specs.CoreTree.{tree_of};
ghost use Rattle.tilt_core.specs.Needs.{asked_by, body_need, either, need_before, needs, reaching};
ghost use Rattle.tilt_bounds.specs.Margins.{AreWithin, IsWithin, evenly, need_at};

use crate::wide_need::{WideNeed, no_margin, wider};
use std::alloc::{AllocError as OutOfMemory, Global};
use tilt_core::{Def, Tree};

/// The needs of the sources, the inputs first; none if a source isn't used.
pub fn needs_of(
    alloc: Global,
    inputs: usize,
    defs: &[Def],
) -> Result<Vec<Option<WideNeed>>, OutOfMemory>
    requires few { inputs + length defs.now ≤ 256 }
    requires definitions { AreDefinitions inputs defs.now }
    ensures needs { IfOk result (λ asked. asked.items ≡ needs inputs defs.now) }
    ensures bounded { IfOk result (λ asked. AreWithin (evenly (pos (2 ^ 65 * length defs.now))) asked.items) }
{
    let mut asked = unasked(alloc, inputs + defs.len())?;
    for done in 0..defs.len() {
        let place = defs.len() - 1 - done;
        ask_before(&mut asked, inputs + place, &defs[place], &defs[place + 1..]);
    }
    Ok(asked)
}

// No need for any of `count` sources.
fn unasked(alloc: Global, count: usize) -> Result<Vec<Option<WideNeed>>, OutOfMemory>
    ensures { IfOk result (λ asked. asked.items ≡ replicate count None) }
{
    vec![in alloc; None; count]
}

// The definition of a number asks the sources before it. The definitions after it have asked already.
fn ask_before(asked: &mut [Option<WideNeed>], number: usize, def: &Def, behind: &[Def])
    requires few { number + 1 + length behind.now ≤ 256 }
    requires definition { IsDefinition number def.now }
    requires so_far { asked.old ≡ needs (suc number) behind.now }
    requires bounded { AreWithin (evenly (pos (2 ^ 65 * length behind.now))) asked.old }
    ensures needs { asked.new ≡ needs number (def.now ∷ behind.now) }
    ensures still_bounded { AreWithin (evenly (pos (2 ^ 65 * (1 + length behind.now)))) asked.new }
{
    let need = need_before(asked, number, behind);
    asked[number] = need;
    if let Some(need) = &need {
        ask(asked, &def.body, body_need(def, *need));
    }
}

// The need of the definition of a number. For the last one, which is emitted, it is the tick itself; for another one, it is what those
// after it have asked.
fn need_before(asked: &[Option<WideNeed>], number: usize, behind: &[Def]) -> Option<WideNeed>
    requires { number < length asked.now }
    ensures { result ≡ need_before behind.now (need_at asked.now number) }
{
    if behind.is_empty() {
        Some(no_margin())
    } else {
        asked[number]
    }
}

/// The need of the body of a definition with a need.
pub fn body_need(def: &Def, need: WideNeed) -> WideNeed
    requires { IsWithin (evenly (pos (2 ^ 80))) (Some need) }
    ensures { result ≡ body_need def.now need }
{
    WideNeed {
        back: need.back,
        ahead: need.ahead + i128::from(def.grid.period) - 1,
    }
}

// An expression with a need asks the sources that it names.
fn ask(asked: &mut [Option<WideNeed>], body: &Tree, need: WideNeed)
    requires reads { ReadsBelow (length asked.old) (tree_of body.now) }
    requires near { IsWithin (evenly (pos (2 ^ 80))) (Some need) }
    ensures many { length asked.new ≡ length asked.old }
    ensures asks { (source : ℕ) → source < length asked.old
        → need_at asked.new source ≡ either (need_at asked.old source) (asked_by need (tree_of body.now) source) }
    ensures bounded { (limit : ℕ) → IsWithin (evenly (pos limit)) (Some need) → AreWithin (evenly (pos (limit + 2 ^ 64))) asked.old
        → AreWithin (evenly (pos (limit + 2 ^ 64))) asked.new }
{
    match body {
        Tree::Const(_) => {}
        Tree::Read { source, offset } => {
            let offset = i128::from(*offset);
            ask_source(asked, *source, reaching(need, offset, offset));
        }
        Tree::Reduce {
            source,
            from,
            to,
            ..
        } => {
            let first = i128::from(*from) + 1;
            ask_source(asked, *source, reaching(need, first, i128::from(*to)));
        }
        Tree::One(_, a) => ask(asked, a, need),
        Tree::Two(_, a, b) => {
            ask(asked, a, need);
            ask(asked, b, need);
        }
        Tree::If(c, a, b) => {
            ask(asked, c, need);
            ask(asked, a, need);
            ask(asked, b, need);
        }
    }
}

// A source is asked for a need more.
fn ask_source(asked: &mut [Option<WideNeed>], source: u32, need: WideNeed)
    requires { source < length asked.old }
    ensures { asked.new ≡ slice_set asked.old source (either (need_at asked.old source) (Some need)) }
{
    let source = source as usize;
    asked[source] = match asked[source] {
        None => Some(need),
        Some(before) => Some(wider(before, need)),
    };
}

// A need moved by what reads from `first` ticks to `last` ticks later than each tick.
fn reaching(need: WideNeed, first: i128, last: i128) -> WideNeed
    requires near { IsWithin (evenly (pos (2 ^ 80))) (Some need) }
    requires first { (neg_ℤ (pos (2 ^ 64)) ≤ℤ first) × (first ≤ℤ pos (2 ^ 64)) }
    requires last { (neg_ℤ (pos (2 ^ 64)) ≤ℤ last) × (last ≤ℤ pos (2 ^ 64)) }
    ensures { result ≡ reaching need first last }
{
    WideNeed {
        back: need.back + 0i128.max(-first),
        ahead: need.ahead + 0i128.max(last),
    }
}
