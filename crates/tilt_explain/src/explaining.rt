// What is shown of a query.
ghost use Rattle.std.specs.Prelude.{◌≡◌, ◌++◌, ◌+◌, ℕ, List, Ok, IfOk, OnOk, codes, length, map, if◌then◌else◌};
ghost use Rattle.tilt_bounds.specs.Margins.{margins_of, need_of};
ghost use Rattle.tilt_fuse.specs.Plan.{has_loop};
ghost use Rattle.tilt_explain.specs.Explain.{explained, input_lines, let_lines, loops_line, reach_line, source_line, spaced};

use std::alloc::{AllocError as OutOfMemory, Global};
use tilt_bounds::{Margins, Need, need_at};
use tilt_core::Core;
use tilt_fuse::{PlanLoop, plan};
use tilt_lexer::Name;
use tilt_text::{put, put_number};

/// The query's look-back and look-ahead, and how far back and ahead each input and each named definition is read, or that it isn't used.
/// Also whether a definition has a loop or is merged into the definitions that read it, and how many loops there are with fusion and
/// without. The margins are the query's.
pub fn explain_text(alloc: Global, core: &Core, margins: &Margins) -> Result<Vec<u8>, OutOfMemory>
    requires { margins_of core.now ≡ Ok margins.now }
    ensures text { IfOk result (λ text. text.items ≡ explained core.now margins.now) }
{
    let fused = plan(alloc, core, true)?.loops;
    let plain = plan(alloc, core, false)?.loops;
    let mut text = Vec::new(alloc);
    put_margins(&mut text, margins)?;
    put_inputs(&mut text, core.inputs(), margins.needs())?;
    put_lets(&mut text, core, margins.needs(), &fused)?;
    put(&mut text, b"emit loop 0 0\n")?;
    put_loops(&mut text, &fused, &plain)?;
    Ok(text)
}

// Appends the look-back and the look-ahead.
fn put_margins(text: &mut Vec<u8>, margins: &Margins) -> Result<(), OutOfMemory>
    ensures { OnOk result (text.new.items ≡ text.old.items ++ reach_line (codes "reach") margins.now.back margins.now.ahead) }
{
    put_reach(text, b"reach", margins.back(), margins.ahead())
}

// Appends a line that begins with a word, followed by the number of ticks back and the number ahead.
fn put_reach(text: &mut Vec<u8>, front: &[u8], back: i64, ahead: i64) -> Result<(), OutOfMemory>
    ensures { OnOk result (text.new.items ≡ text.old.items ++ reach_line front.now back ahead) }
{
    put(text, front)?;
    put_spaced(text, back)?;
    put_spaced(text, ahead)?;
    put(text, b"\n")
}

// Appends a blank and a number in shortest decimal.
fn put_spaced(text: &mut Vec<u8>, number: i64) -> Result<(), OutOfMemory>
    ensures { OnOk result (text.new.items ≡ text.old.items ++ spaced number) }
{
    put(text, b" ")?;
    put_number(text, number)
}

// Appends the line of a source, after the word for what it is and its name.
fn put_source(text: &mut Vec<u8>, word: &[u8], need: Need) -> Result<(), OutOfMemory>
    ensures { (front : List ℕ) (before : List ℕ) → text.old.items ≡ before ++ front
        → OnOk result (text.new.items ≡ before ++ source_line front word.now (need_of need)) }
{
    match need {
        Need::Unused => put(text, b" unused\n"),
        Need::Used { back, ahead } => put_reach(text, word, back, ahead),
    }
}

// Appends the lines of the inputs.
fn put_inputs(text: &mut Vec<u8>, names: &[Name], needs: &[Need]) -> Result<(), OutOfMemory>
    ensures { OnOk result (text.new.items ≡ text.old.items ++ input_lines (map need_of needs.now) 0 names.now) }
{
    for source in 0..names.len() {
        put_line(text, b"input ", &names[source], b"", need_at(needs, source))?;
    }
    Ok(())
}

// Appends the lines of the named definitions.
fn put_lets(
    text: &mut Vec<u8>,
    core: &Core,
    needs: &[Need],
    loops: &[PlanLoop],
) -> Result<(), OutOfMemory>
    ensures { OnOk result (text.new.items
        ≡ text.old.items ++ let_lines loops.now (map need_of needs.now) (length core.now.inputs) 0 core.now.names) }
{
    let inputs = core.inputs().len();
    let names = core.names();
    for place in 0..names.len() {
        let word = word_of(has_loop(loops, place));
        put_line(
            text,
            b"let ",
            &names[place],
            word,
            need_at(needs, inputs + place),
        )?;
    }
    Ok(())
}

// Appends the line of a source.
fn put_line(
    text: &mut Vec<u8>,
    kind: &[u8],
    name: &Name,
    word: &[u8],
    need: Need,
) -> Result<(), OutOfMemory>
    ensures { OnOk result (text.new.items ≡ text.old.items ++ source_line (kind.now ++ name.now) word.now (need_of need)) }
{
    put(text, kind)?;
    put(text, name.bytes())?;
    put_source(text, word, need)
}

// What is said of a used definition.
fn word_of(loops: bool) -> &'static [u8]
    ensures { result.now ≡ (if loops then codes " loop" else codes " merged") }
{
    if loops { b" loop" } else { b" merged" }
}

// Whether one of the loops is the loop of a definition.
fn has_loop(loops: &[PlanLoop], def: usize) -> bool
    ensures { result ≡ has_loop loops.now def }
{
    loops.iter().any(|each| each.def as usize == def)
}

// Appends the numbers of loops.
fn put_loops(text: &mut Vec<u8>, fused: &[PlanLoop], plain: &[PlanLoop]) -> Result<(), OutOfMemory>
    ensures { OnOk result (text.new.items ≡ text.old.items ++ loops_line (length fused.now) (length plain.now)) }
{
    put(text, b"loops ")?;
    put_number(text, fused.len())?;
    put(text, b" ")?;
    put_number(text, plain.len())?;
    put(text, b"\n")
}
