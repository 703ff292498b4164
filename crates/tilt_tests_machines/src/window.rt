// What windows answer while they move over some cells.
ghost use Rattle.std.specs.Prelude.{◌≡◌, ◌<◌, ◌≤◌, ◌+◌, [], ◌++◌, length, OnOk};

use std::alloc::{AllocError as OutOfMemory, Global};
use std::test::Fail;
use tilt_base::Cell;
use tilt_window::{
    AllR, AnyR, AvgR, CountR, FirstR, LastR, MaxR, Merge, MinR, Refold, SumR, TwoStack, Undoing,
    Window,
};

// Stands for null in the tables: no answer here is that number.
const NULL: i64 = -99;

const MAX: i64 = i64::MAX;

const HALF: i64 = 4_611_686_018_427_387_904;

// Adds the cells, through the trait alone.
fn push_each<W: Window>(window: &mut W, cells: &[Cell]) -> Result<(), OutOfMemory>
    requires { length (W.cells window.old) + length cells.now < 4611686018427387904 }
    ensures { OnOk result (W.cells window.new ≡ W.cells window.old ++ cells.now) }
{
    for cell in cells {
        window.push_back(*cell)?;
    }
    Ok(())
}

// Takes the first cell out, and answers.
fn answer_without_first<W: Window>(window: &mut W) -> Result<i64, OutOfMemory>
    ensures { OnOk result (length (W.cells window.new) ≤ length (W.cells window.old)) }
{
    window.pop_front()?;
    Ok(window.result().unwrap_or(NULL))
}

// The results on 3, null, -8 and 0. Then without the first, with 5 after the last, and twice without the first again. Then on
// no cells, on the largest number and 1, and without the first.
fn answers<W: Window + Drop>(mut window: W) -> Result<[i64; 8], OutOfMemory>
    requires { W.cells window ≡ [] }
{
    push_each(&mut window, &[Some(3), None, Some(-8), Some(0)])?;
    let whole = window.result().unwrap_or(NULL);
    let without_first = answer_without_first(&mut window)?;
    push_each(&mut window, &[Some(5)])?;
    let with_last = window.result().unwrap_or(NULL);
    let without_null = answer_without_first(&mut window)?;
    let without_two = answer_without_first(&mut window)?;
    window.clear();
    let cleared = window.result().unwrap_or(NULL);
    push_each(&mut window, &[Some(MAX), Some(1)])?;
    let wide = window.result().unwrap_or(NULL);
    Ok([
        whole,
        without_first,
        with_last,
        without_null,
        without_two,
        cleared,
        wide,
        answer_without_first(&mut window)?,
    ])
}

// The answers of the kinds that take nothing back.
fn merged<R: Merge>(alloc: Global) -> Result<[[i64; 8]; 2], OutOfMemory> {
    Ok([
        answers(Refold::<R>::new(alloc))?,
        answers(TwoStack::<R>::new(alloc))?,
    ])
}

// Those of all nine reducers.
fn all_merged(alloc: Global) -> Result<[[[i64; 8]; 2]; 9], OutOfMemory> {
    Ok([
        merged::<SumR>(alloc)?,
        merged::<AvgR>(alloc)?,
        merged::<CountR>(alloc)?,
        merged::<AnyR>(alloc)?,
        merged::<AllR>(alloc)?,
        merged::<MinR>(alloc)?,
        merged::<MaxR>(alloc)?,
        merged::<FirstR>(alloc)?,
        merged::<LastR>(alloc)?,
    ])
}

// The answers of the kind that takes numbers back, by the reducers that can.
fn all_undone(alloc: Global) -> Result<[[i64; 8]; 5], OutOfMemory> {
    Ok([
        answers(Undoing::<SumR>::new(alloc))?,
        answers(Undoing::<AvgR>::new(alloc))?,
        answers(Undoing::<CountR>::new(alloc))?,
        answers(Undoing::<AnyR>::new(alloc))?,
        answers(Undoing::<AllR>::new(alloc))?,
    ])
}

const SUM: [i64; 8] = [-5, -8, -3, -3, 5, NULL, NULL, 1];

const AVERAGE: [i64; 8] = [-1, -4, -1, -1, 2, NULL, HALF, 1];

const COUNT: [i64; 8] = [3, 2, 3, 3, 2, NULL, 2, 1];

const ANY: [i64; 8] = [1, 1, 1, 1, 1, NULL, 1, 1];

const ALL: [i64; 8] = [0, 0, 0, 0, 0, NULL, 1, 1];

const LEAST: [i64; 8] = [-8, -8, -8, -8, 0, NULL, 1, 1];

const GREATEST: [i64; 8] = [3, 0, 5, 5, 5, NULL, MAX, 1];

const FIRST: [i64; 8] = [3, -8, -8, -8, 0, NULL, MAX, 1];

const LAST: [i64; 8] = [0, 0, 5, 5, 5, NULL, 1, 1];

#[test]
fn the_three_kinds_answer_alike_while_cells_come_and_go(rt: HostRuntime) -> Result<(), Fail> {
    assert_eq!(rt; all_undone(rt.alloc())?, [SUM, AVERAGE, COUNT, ANY, ALL]);
    assert_eq!(rt;
        all_merged(rt.alloc())?,
        [
            [SUM; 2],
            [AVERAGE; 2],
            [COUNT; 2],
            [ANY; 2],
            [ALL; 2],
            [LEAST; 2],
            [GREATEST; 2],
            [FIRST; 2],
            [LAST; 2],
        ]
    );
    Ok(())
}

#[test]
fn first_cells_are_taken_until_there_is_none(rt: HostRuntime) -> Result<(), Fail> {
    let mut undoing: Undoing<SumR> = Undoing::new(rt.alloc());
    push_each(&mut undoing, &[None, Some(5), Some(6)])?;
    let first_two = [undoing.take_first(), undoing.take_first()];
    assert_eq!(rt; first_two, [Some(None), Some(Some(5))]);
    let mut refold: Refold<SumR> = Refold::new(rt.alloc());
    push_each(&mut refold, &[Some(5)])?;
    assert_eq!(rt;
        [refold.take_first(), refold.take_first()],
        [Some(Some(5)), None]
    );
    let mut stacks: TwoStack<SumR> = TwoStack::new(rt.alloc());
    assert_eq!(rt; stacks.pop_front(), Ok(None));
    Ok(())
}
