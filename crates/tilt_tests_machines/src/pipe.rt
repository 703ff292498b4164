// Pipes of listings, snapshot by snapshot.
ghost use Rattle.std.specs.Prelude.{◌≡◌, false, IfOk, OnOk};

use crate::runs::{CASES, FOUR_ROWS, WINDOW_OVER_SHIFT};
use std::alloc::Global;
use std::test::Fail;
use tilt_code::read_code;
use tilt_pipe::{Input, Pipe, share_inputs, share_rows, take_rows};
use tilt_stream::Rows;
use tilt_testing::{Piece, inputs_of, piece_of};

// The pipe of a listing, which shares the rows of the inputs.
fn pipe_over(alloc: Global, text: &str, inputs: &[Input]) -> Result<Pipe, Fail>
    ensures { IfOk result (λ pipe. pipe.refused ≡ false) }
{
    let code = read_code(alloc, text.as_bytes())?;
    if inputs.len() != code.inputs().len() {
        return Err("as many row lists as inputs are wanted".into());
    }
    Ok(Pipe::new(alloc, code, share_inputs(alloc, inputs)?)?)
}

// The pipe of a listing.
fn pipe_of(alloc: Global, text: &str, inputs: &[&[Piece]]) -> Result<Pipe, Fail>
    ensures { IfOk result (λ pipe. pipe.refused ≡ false) }
{
    let inputs = share_rows(alloc, inputs_of(alloc, inputs)?)?;
    pipe_over(alloc, text, &inputs)
}

#[test]
fn listings_give_their_runs_and_then_none(rt: HostRuntime) -> Result<(), Fail> {
    for case in CASES {
        let mut pipe = pipe_of(rt.alloc(), case.code, case.inputs)?;
        for piece in case.want {
            assert_eq!(rt;
                pipe.next()?.map(piece_of),
                Some(*piece),
                "at {}",
                case.code
            );
        }
        assert_eq!(rt; pipe.next()?, None, "at {}", case.code);
        assert_eq!(rt; pipe.next()?, None, "at {}", case.code);
    }
    Ok(())
}

// The pieces of the rows that inputs give back, one list after another.
fn pieces_back(alloc: Global, inputs: Vec<Input>) -> Result<Vec<Piece>, Fail> {
    let lists = take_rows(alloc, inputs)?;
    let mut pieces = Vec::new(alloc);
    for rows in &lists {
        push_pieces(&mut pieces, rows)?;
    }
    Ok(pieces)
}

// Adds the pieces of rows.
fn push_pieces(pieces: &mut Vec<Piece>, rows: &Rows) -> Result<(), Fail> {
    for row in rows.as_slice() {
        pieces.push(piece_of(*row))?;
    }
    Ok(())
}

#[test]
fn pipes_share_rows_and_give_them_back(rt: HostRuntime) -> Result<(), Fail> {
    let inputs = share_rows(rt.alloc(), inputs_of(rt.alloc(), &[FOUR_ROWS])?)?;
    let kept = share_inputs(rt.alloc(), &inputs)?;
    let mut first = pipe_over(rt.alloc(), WINDOW_OVER_SHIFT, &inputs)?;
    let mut second = pipe_over(rt.alloc(), WINDOW_OVER_SHIFT, &inputs)?;
    for piece in [(0, 2, None), (2, 4, Some(1)), (4, 5, Some(6))] {
        assert_eq!(rt; first.next()?.map(piece_of), Some(piece));
        assert_eq!(rt; second.next()?.map(piece_of), Some(piece));
    }
    // The pipes share them still, so these are copies.
    let copied = pieces_back(rt.alloc(), inputs)?;
    assert_eq!(rt; copied.as_slice(), FOUR_ROWS);
    drop(first);
    assert_eq!(rt; second.next()?.map(piece_of), Some((5, 6, Some(8))));
    drop(second);
    let moved = pieces_back(rt.alloc(), kept)?;
    assert_eq!(rt; moved.as_slice(), FOUR_ROWS);
    Ok(())
}

// The next snapshot, and how many the rings hold then.
fn next_and_held(pipe: &mut Pipe) -> Result<(Option<Piece>, u128), Fail>
    requires { pipe.old.refused ≡ false }
    ensures { OnOk result (pipe.new.refused ≡ false) }
{
    let next = pipe.next()?;
    Ok((next.map(piece_of), pipe.held()))
}

#[test]
fn a_ring_holds_what_the_next_turn_of_a_window_reads(rt: HostRuntime) -> Result<(), Fail> {
    let mut pipe = pipe_of(rt.alloc(), WINDOW_OVER_SHIFT, &[FOUR_ROWS])?;
    assert_eq!(rt; pipe.held(), 0);
    for (piece, held) in [
        ((0, 2, None), 1),
        ((2, 4, Some(1)), 1),
        ((4, 5, Some(6)), 2),
        ((5, 6, Some(8)), 2),
        ((6, 7, Some(14)), 0),
    ] {
        assert_eq!(rt; next_and_held(&mut pipe)?, (Some(piece), held));
    }
    assert_eq!(rt; next_and_held(&mut pipe)?, (None, 0));
    Ok(())
}
