// The points of a text.
ghost use Rattle.std.specs.Prelude.{◌≡◌, ◌+◌, ◌^◌, ◌<◌, All, IfOk};
ghost use Rattle.tilt_unit_text.specs.Points.{IsBelow, fault_in_text, points_before, points_of, without_points};

use crate::fault::UnitFault;
use std::alloc::{AllocError as OutOfMemory, Global};
use tilt_lexer::LexFault;

// The text without its points.
pub(crate) fn without_points(alloc: Global, text: &[u8]) -> Result<Vec<u8>, OutOfMemory>
    ensures { IfOk result (λ plain. plain.items ≡ without_points text.now) }
{
    text.iter()
        .copied()
        .filter(|byte| *byte != b'.')
        .collect(alloc)
}

// Where the points are in the text without them, in order.
pub(crate) fn find_points(alloc: Global, text: &[u8]) -> Result<Vec<u64>, OutOfMemory>
    ensures points { IfOk result (λ points. points.items ≡ points_of text.now) }
    ensures small { IfOk result (λ points. All (λ point. point < 2 ^ 63) points.items) }
{
    let mut points = Vec::new(alloc);
    let mut before = 0;
    for byte in text {
        if *byte == b'.' {
            points.push(before)?;
        } else {
            before += 1;
        }
    }
    Ok(points)
}

// A fault of the text without points, at its place in the text.
pub(crate) fn fault_in_text(points: &[u64], fault: LexFault) -> UnitFault
    requires { IsBelow (2 ^ 63) fault }
    ensures { result ≡ fault_in_text points.now fault }
{
    match fault {
        LexFault::BadByte { at } => UnitFault::BadByte {
            at: place_in_text(points, at),
        },
        LexFault::BigNumber { at } => UnitFault::BigNumber {
            at: place_in_text(points, at),
        },
        LexFault::OutOfMemory => UnitFault::OutOfMemory,
    }
}

// The place in the text of a byte of the text without points.
fn place_in_text(points: &[u64], at: u64) -> u64
    requires { at < 2 ^ 63 }
    ensures { result ≡ at + points_before points.now at }
{
    at + points.iter().filter(|point| **point <= at).count() as u64
}
