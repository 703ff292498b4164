// What no clause says: a small run worked out by hand, and the texts of one.
use std::test::Fail;
use tilt_made::{made_rows, query_text, summary};
use tilt_stream::{Row, SnapList};
use tilt_testing::{Piece, rows_of};

#[test]
fn one_row_each_from_seed_1(rt: HostRuntime) -> Result<(), Fail> {
    let (first, second) = made_rows(rt.alloc(), 1, 1)?;
    let in_a = Row {
        start: 2,
        end: 10,
        value: Some(-892),
    };
    let in_b = Row {
        start: 1,
        end: 3,
        value: Some(625),
    };
    assert_eq!(rt; first.as_slice(), [in_a].as_slice());
    assert_eq!(rt; second.as_slice(), [in_b].as_slice());
    let (first, second) = made_rows(rt.alloc(), u32::MAX, 0)?;
    assert!(rt; first.is_empty() && second.is_empty());
    Ok(())
}

// Snapshots as of a run of one row each, and a null one, which isn't counted.
const RUN: &[Piece] = &[
    (0, 1, Some(0)),
    (1, 2, Some(625)),
    (2, 3, Some(625)),
    (3, 4, None),
    (4, 10, Some(0)),
    (10, 20, Some(0)),
];

#[test]
fn texts_of_a_run(rt: HostRuntime) -> Result<(), Fail> {
    let query =
        b"input a;\ninput b;\nlet m = avg(a[t-10:t]) every 10;\nlet d = a - m;\nemit ifnull(d, 0) + ifnull(b, 0) over (0, 10];\n";
    assert_eq!(rt; query_text(rt.alloc(), 0)?.as_slice(), query.as_slice());
    let list = SnapList::new(rt.alloc());
    let empty = b"rows 0 0\nprinted 0\nsum 0\n";
    assert_eq!(rt; summary(rt.alloc(), 0, &list)?.as_slice(), empty.as_slice());
    let rows = rows_of(rt.alloc(), RUN)?;
    let list = SnapList::from_rows(rt.alloc(), &rows)?;
    let run = b"rows 1 1\nprinted 5\nsum 1250\n";
    assert_eq!(rt; summary(rt.alloc(), 1, &list)?.as_slice(), run.as_slice());
    Ok(())
}
