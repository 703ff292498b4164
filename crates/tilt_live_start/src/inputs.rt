// What is known of inputs from a checkpoint.
ghost use Rattle.std.specs.Prelude.{◌≡◌, ℤ, IfOk, map};
ghost use Rattle.std.specs.List.{AllByRecursion};
ghost use Rattle.tilt_checkpoint.specs.Valid.{IsSeries};
ghost use Rattle.tilt_live_start.specs.Seen.{kept_input, seen_upto};

use std::alloc::{AllocError as OutOfMemory, Global};
use tilt_checkpoint::Kept;
use tilt_feed::Edge;
use tilt_input_state::InputState;

// What is known of each input.
pub(crate) fn kept_inputs(alloc: Global, series: Vec<Kept>) -> Result<Vec<InputState>, OutOfMemory>
    requires { (first : ℤ) × AllByRecursion (IsSeries first) series.items }
    ensures { IfOk result (λ inputs. inputs.items ≡ map kept_input series.items) }
{
    let mut inputs = Vec::new(alloc);
    for kept in series {
        inputs.push(kept_input(kept))?;
    }
    Ok(inputs)
}

// What is known of an input: the rows that are kept, and that no others come up to its cut, or up to the end of its last row.
fn kept_input(kept: Kept) -> InputState
    requires { (first : ℤ) × IsSeries first kept }
    ensures { result ≡ kept_input kept }
{
    let edge = Edge {
        open_row: None,
        watermark: seen_upto(kept.cut, kept.last_end),
    };
    match InputState::new(kept.rows, edge) {
        Some(input) => input,
        None => unreachable!(),
    }
}

// Up to where an input is known that has this cut, and of which the last row ends there.
fn seen_upto(cut: i64, last_end: Option<i64>) -> i64
    ensures { result ≡ seen_upto cut last_end }
{
    match last_end {
        Some(end) => cut.max(end),
        None => cut,
    }
}
