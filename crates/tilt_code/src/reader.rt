// A listing as a code.
ghost use Rattle.std.specs.Prelude.{◌≡◌, ◌⊎◌, ℕ, [], ◌∷◌, IfOk, IfErr, MatchResult};
ghost use Rattle.tilt_code.specs.declared.fault.CodeFault.{CodeFault};
ghost use Rattle.tilt_code.specs.Code.{CodeParts};
ghost use Rattle.tilt_code.specs.Fault.{IsBadLine, IsBadReference};
ghost use Rattle.tilt_code.specs.Listing.{listing};
ghost use Rattle.tilt_code.specs.Partial.{is_end, is_whole, note, parts_of, read_from, read_text};
ghost use Rattle.tilt_code.specs.Partial.{refers_back, with_text, Gives, GivesProgress, TakesText};
ghost use Rattle.tilt_code.specs.References.{refers_below, IsCode};

use crate::code::Code;
use crate::fault::CodeFault;
use crate::instr::Instr;
use crate::line::{Line, read_line};
use crate::partial::Partial;
use crate::place::Place;
use crate::stage::Stage;
use crate::word::cut;
use std::alloc::{AllocError as OutOfMemory, Global};

// What the lines of a text so far give.
#[derive(Drop)]
struct Progress {
    code: Partial,
    bad: Option<Place>,
}

/// The code whose listing the bytes are. `BadCode` gives the first line that can't follow those before it, is spelled otherwise, or has a
/// number out of its range. If a text ends before a listing is whole, or without LF, the bad line is the one after its last whole line. If
/// the bytes are a listing by its grammar, `BadReference` gives the first line that names a buffer, a register or a map that isn't defined
/// before it.
pub fn read_code(alloc: Global, bytes: &[u8]) -> Result<Code, CodeFault>
    ensures code { IfOk result (λ code. IsCode code × (bytes.now ≡ listing code)) }
    ensures bad_line { IfErr result (λ fault. (line : ℕ) → fault ≡ CodeFault.BadCode line → IsBadLine bytes.now line) }
    ensures bad_reference { IfErr result (λ fault.
        (in_loop line : ℕ) → fault ≡ CodeFault.BadReference in_loop line → IsBadReference bytes.now in_loop line) }

    // Nothing else is: no other code, and no other fault.
    ensures only { (code : CodeParts) → IsCode code → bytes.now ≡ listing code →
        MatchResult result (λ found. found ≡ code) (λ fault. fault ≡ CodeFault.OutOfMemory) }
    ensures first_line { (line : ℕ) → IsBadLine bytes.now line →
        MatchResult result (λ _. ⊥) (λ fault. (fault ≡ CodeFault.BadCode line) ⊎ (fault ≡ CodeFault.OutOfMemory)) }
    ensures first_reference { (in_loop line : ℕ) → IsBadReference bytes.now in_loop line →
        MatchResult result (λ _. ⊥) (λ fault.
        (fault ≡ CodeFault.BadReference in_loop line) ⊎ (fault ≡ CodeFault.OutOfMemory)) }
{
    read(alloc, bytes)
}

// The code whose listing the bytes are, or the first fault.
fn read(alloc: Global, bytes: &[u8]) -> Result<Code, CodeFault>
    ensures { Gives result (read_text bytes.now) }
{
    let progress = read_lines(alloc, bytes)?;
    match progress.bad {
        Some(place) => Err(CodeFault::BadReference {
            in_loop: place.in_loop,
            line: place.line,
        }),
        None => Ok(Code::new(progress.code.inputs.into_list(), progress.code.loops)),
    }
}

// What the lines of a text give.
fn read_lines(alloc: Global, bytes: &[u8]) -> Result<Progress, CodeFault>
    ensures { GivesProgress (λ s. record { code = parts_of s.code; bad = s.bad }) result (read_text bytes.now) }
{
    let mut code = Partial::new(alloc);
    let mut bad = None;
    let mut left = bytes;
    for number in 1..u64::MAX {
        let (text, behind) = cut(left, b'\n');
        let Some(behind) = behind else {
            return finish(code, bad, text, number);
        };
        if !take_text(alloc, &mut code, &mut bad, text, number)? {
            return Err(CodeFault::BadCode { line: number });
        }
        left = behind;
    }
    // No memory holds so many lines.
    Err(CodeFault::OutOfMemory)
}

// What the lines of a text give, if those before this last one, which no LF ends, give that code and bad reference.
fn finish(
    code: Partial,
    bad: Option<Place>,
    text: &[u8],
    number: u64,
) -> Result<Progress, CodeFault>
    ensures { GivesProgress (λ s. record { code = parts_of s.code; bad = s.bad }) result
        (read_from number (record { code = parts_of code; bad = bad }) (text.now ∷ [])) }
{
    if is_end(&code, text) {
        Ok(Progress { code, bad })
    } else {
        Err(CodeFault::BadCode { line: number })
    }
}

// Whether no text is left, and the lines so far are a whole listing.
fn is_end(code: &Partial, text: &[u8]) -> bool
    ensures { result ≡ is_end text.now (parts_of code.now) }
{
    text.is_empty() && is_whole(code)
}

// Continues with the text of a line, which is the line of that number, and says whether it may be there.
fn take_text(
    alloc: Global,
    code: &mut Partial,
    bad: &mut Option<Place>,
    text: &[u8],
    number: u64,
) -> Result<bool, OutOfMemory>
    ensures { TakesText (with_text number text.now (record { code = parts_of code.old; bad = bad.old }))
        result (parts_of code.new) bad.new }
{
    let Some(line) = read_line(alloc, text)? else {
        return Ok(false);
    };
    *bad = note(*bad, code, &line, number);
    code.take(alloc, line)
}

// The first bad reference, with the line of that number, which comes after a code.
fn note(bad: Option<Place>, code: &Partial, line: &Line, number: u64) -> Option<Place>
    ensures { result ≡ note bad (parts_of code.now) line.now number }
{
    match bad {
        Some(place) => Some(place),
        None => {
            if refers_back(code, line) {
                None
            } else {
                Some(Place {
                    in_loop: code.loops.len() as u64 + 1,
                    line: number,
                })
            }
        }
    }
}

// Whether the line names only what is before it.
fn refers_back(code: &Partial, line: &Line) -> bool
    ensures { result ≡ refers_back (parts_of code.now) line.now }
{
    match line {
        Line::Step { register, instr } => {
            let buffers = code.inputs.len() as u128 + code.loops.len() as u128;
            refers_below(buffers, code.maps.len(), *register, *instr)
        }
        Line::Title | Line::Input(_) | Line::Head { .. } | Line::Map | Line::End => true,
    }
}

// Whether an instruction names only buffers, maps and registers below these numbers.
fn refers_below(buffers: u128, maps: usize, registers: u32, instr: Instr) -> bool
    ensures { result ≡ refers_below buffers maps registers instr }
{
    match instr {
        Instr::Const(_) | Instr::Null | Instr::Argument => true,
        Instr::Port { buffer, .. } => u128::from(buffer) < buffers,
        Instr::Win {
            buffer,
            map: None,
            ..
        } => u128::from(buffer) < buffers,
        Instr::Win {
            buffer,
            map: Some(map),
            ..
        } => u128::from(buffer) < buffers && (map as usize) < maps,
        Instr::One(_, a) => a < registers,
        Instr::Two(_, a, b) => a < registers && b < registers,
        Instr::If(c, a, b) => c < registers && a < registers && b < registers,
    }
}

// Whether the lines so far are a whole listing.
fn is_whole(code: &Partial) -> bool
    ensures { result ≡ is_whole code.now.stage (parts_of code.now) }
{
    match code.stage {
        Stage::Outside => !code.loops.is_empty(),
        Stage::Before | Stage::InMap | Stage::InBody => false,
    }
}
