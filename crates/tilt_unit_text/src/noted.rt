// The numbers of a text, with their points.
ghost use Rattle.std.specs.Prelude.{◌≡◌, ◌^◌, ◌<◌, [], ◌++◌, ◌∷◌, All, IfSome, OnOk};
ghost use Rattle.std.specs.List.{slice_get};
ghost use Rattle.tilt_unit_text.specs.Numbers.{decimals_in, first_place, left_over, noted, noted_by, point_fault, progress_of};
ghost use Rattle.tilt_unit_text.specs.Points.{IsToken};
ghost use Rattle.tilt_unit_text.specs.Reading.{Gives};

use crate::fault::UnitFault;
use crate::written::Written;
use std::alloc::{AllocError as OutOfMemory, Global};
use tilt_lexer::{Tok, Token};

// The most digits that may come after a point: the scale of a number with more leaves 64 bits.
const MOST: u64 = 18;

/// The numbers so far.
#[derive(Debug, Drop)]
pub(crate) struct Noted {
    pub numbers: Vec<Written>,
    /// How many points are in them.
    pub taken: usize,
}

// The numbers that the tokens are, with their points, or the fault of the first point that has one.
pub(crate) fn note_numbers(
    alloc: Global,
    tokens: &[Token],
    points: &[u64],
) -> Result<Vec<Written>, UnitFault>
    requires small { All (IsToken 9223372036854775807) tokens.now }
    requires few { All (λ point. point < 2 ^ 63) points.now }
    ensures { Gives (λ numbers. numbers.items) result (noted points.now tokens.now) }
{
    let mut noted = Noted {
        numbers: Vec::new(alloc),
        taken: 0,
    };
    for token in tokens {
        let point = point_at(points, noted.taken);
        note(&mut noted, token, point)?;
    }
    match left_over(noted.taken, point_at(points, noted.taken)) {
        Some(fault) => Err(fault),
        None => Ok(noted.numbers),
    }
}

// The point with a number, if there is one.
fn point_at(points: &[u64], number: usize) -> Option<u64>
    ensures { result ≡ slice_get points.now number }
{
    points.get(number).copied()
}

// Notes one more token, with the next point.
fn note(noted: &mut Noted, token: &Token, point: Option<u64>) -> Result<(), UnitFault>
    requires small { IsToken 9223372036854775807 token.now }
    requires few { noted.old.taken < 2 ^ 63 }
    ensures { Gives (λ _. progress_of noted.new) result (noted_by (progress_of noted.old) token.now point) }
{
    if let Some(fault) = point_fault(noted.taken as u64, token, point) {
        return Err(fault);
    }
    let decimals = decimals_in(token.end, point);
    if let Tok::Number(digits) = token.kind {
        let at = token.start + noted.taken as u64;
        let written = Written {
            digits,
            decimals,
            at,
        };
        push_number(&mut noted.numbers, written)?;
    }
    if decimals > 0 {
        noted.taken += 1;
    }
    Ok(())
}

// Adds a number.
fn push_number(numbers: &mut Vec<Written>, written: Written) -> Result<(), OutOfMemory>
    ensures { OnOk result (numbers.new.items ≡ numbers.old.items ++ written ∷ []) }
{
    numbers.push(written)?;
    Ok(())
}

// The fault of the next point, after so many others.
fn point_fault(taken: u64, token: &Token, point: Option<u64>) -> Option<UnitFault>
    requires small { IsToken 9223372036854775807 token.now }
    requires few { taken < 2 ^ 63 }
    ensures { result ≡ point_fault taken token.now point }
{
    let point = point?;
    if point < first_place(token) {
        Some(UnitFault::BadPoint { at: point + taken })
    } else if decimals_in(token.end, Some(point)) > MOST {
        Some(UnitFault::ManyDecimals {
            at: token.start + taken,
        })
    } else {
        None
    }
}

// The first place at which the next point may be.
fn first_place(token: &Token) -> u64
    requires { IsToken 9223372036854775807 token.now }
    ensures { result ≡ first_place token.now.kind token.now.start token.now.end }
{
    match token.kind {
        Tok::Number(_) => token.start + 1,
        _ => token.end,
    }
}

// How many digits before the end of a number come after the next point.
fn decimals_in(end: u64, point: Option<u64>) -> u64
    ensures { result ≡ decimals_in end point }
{
    match point {
        None => 0,
        Some(point) => end.saturating_sub(point),
    }
}

// The fault of a point after the last token.
fn left_over(taken: usize, point: Option<u64>) -> Option<UnitFault>
    requires small { IfSome point (λ place. place < 2 ^ 63) }
    requires few { taken < 2 ^ 63 }
    ensures { result ≡ left_over taken point }
{
    let point = point?;
    Some(UnitFault::BadPoint {
        at: point + taken as u64,
    })
}
