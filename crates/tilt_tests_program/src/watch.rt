// What no clause says: figures worked out by hand, and a write that fails.
use std::alloc::Global;
use std::process::Abort;
use std::test::Fail;
use tilt_outside::MemSink;
use tilt_stream::SnapList;
use tilt_testing::{Piece, rows_of};
use tilt_watch::{
    Ends, FirstRows, Panel, Range, Tally, UntilAbove, UntilTime, Watcher, put_figures, show,
};

// The snapshots of these pieces.
fn snapshots(alloc: Global, pieces: &[Piece]) -> Result<SnapList, Fail> {
    let rows = rows_of(alloc, pieces)?;
    Ok(SnapList::from_rows(alloc, &rows)?)
}

// Shows the watchers these snapshots, and gives the places of all.
fn shown(
    alloc: Global,
    watchers: &mut Vec<Box<dyn Watcher>>,
    list: &SnapList,
) -> Result<Panel, Fail> {
    let mut panel = Panel::new(alloc, watchers)?;
    show(watchers, &mut panel, list);
    Ok(panel)
}

// Ends the test unless these are the figures of all.
fn assert_all(rt: &impl Abort, panel: &Panel, expected: &[(i64, i64)]) {
    assert_eq!(rt; panel.count(), expected.len());
    for (i, pair) in expected.iter().enumerate() {
        if i < panel.count() {
            assert_eq!(rt; panel.figures(i), *pair, "watcher {i}");
        }
    }
}

// Ends the test unless these are the figures of those who are left.
fn assert_left(rt: &impl Abort, watchers: &[Box<dyn Watcher>], expected: &[(i64, i64)]) {
    assert_eq!(rt; watchers.len(), expected.len());
    for (watcher, pair) in watchers.iter().zip(expected) {
        assert_eq!(rt; watcher.figures(), *pair);
    }
}

#[test]
fn each_kind_has_its_own_figures(rt: HostRuntime) -> Result<(), Fail> {
    let cases: [(&[Piece], &[(i64, i64)]); 5] = [
        (&[], &[(0, 0), (i64::MAX, i64::MIN), (i64::MAX, i64::MIN)]),
        (
            &[(-3, 4, None)],
            &[(0, 0), (i64::MAX, i64::MIN), (i64::MAX, i64::MIN)],
        ),
        (
            &[
                (-3, 1, None),
                (1, 2, Some(-7)),
                (2, 5, None),
                (5, 6, Some(4)),
                (6, 9, None),
            ],
            &[(2, -3), (-7, 4), (1, 6)],
        ),
        (
            &[
                (-3, 1, Some(i64::MAX)),
                (1, 2, Some(1)),
                (2, 3, Some(i64::MAX)),
            ],
            &[(3, i64::MAX), (1, i64::MAX), (-3, 3)],
        ),
        (
            &[(-3, 1, Some(i64::MIN)), (1, 2, Some(-1)), (2, 3, Some(5))],
            &[(3, i64::MIN + 5), (i64::MIN, 5), (-3, 3)],
        ),
    ];
    for (pieces, expected) in cases {
        let list = snapshots(rt.alloc(), pieces)?;
        let mut watchers: Vec<Box<dyn Watcher>> = Vec::new(rt.alloc());
        watchers.push(Box::new(rt.alloc(), Tally::new())?)?;
        watchers.push(Box::new(rt.alloc(), Range::new())?)?;
        watchers.push(Box::new(rt.alloc(), Ends::new())?)?;
        let panel = shown(rt.alloc(), &mut watchers, &list)?;
        assert_left(&rt, &watchers, expected);
        assert_all(&rt, &panel, expected);
    }
    Ok(())
}

// Four rows, and a null snapshot between the first two.
const PIECES: &[Piece] = &[
    (-3, 1, Some(4)),
    (2, 3, Some(-7)),
    (3, 5, Some(9)),
    (5, 6, Some(2)),
];

// A watcher that ends, by its limit.
#[derive(Clone, Copy)]
enum Kind {
    Rows(u64),
    Above(i64),
    Time(i64),
}

fn push_kind(alloc: Global, watchers: &mut Vec<Box<dyn Watcher>>, kind: &Kind) -> Result<(), Fail> {
    match kind {
        Kind::Rows(limit) => {
            let limit = (*limit).clamp(1, 10);
            watchers.push(Box::new(alloc, FirstRows::new(limit))?)?;
        }
        Kind::Above(limit) => {
            let limit = (*limit).max(-100);
            watchers.push(Box::new(alloc, UntilAbove::new(limit))?)?;
        }
        Kind::Time(limit) => watchers.push(Box::new(alloc, UntilTime::new(*limit))?)?,
    }
    Ok(())
}

#[test]
fn a_watcher_ends_at_its_limit(rt: HostRuntime) -> Result<(), Fail> {
    // The kind, its figures, and how many are left.
    let cases: [(Kind, (i64, i64), usize); 13] = [
        (Kind::Rows(1), (1, 4), 0),
        (Kind::Rows(2), (2, -3), 0),
        (Kind::Rows(4), (4, 8), 0),
        (Kind::Rows(5), (4, 8), 1),
        (Kind::Above(-8), (1, 4), 0),
        (Kind::Above(3), (1, 4), 0),
        (Kind::Above(4), (3, 9), 0),
        (Kind::Above(8), (3, 9), 0),
        (Kind::Above(9), (4, 9), 1),
        (Kind::Time(i64::MIN), (1, 1), 0),
        (Kind::Time(1), (1, 1), 0),
        (Kind::Time(4), (3, 5), 0),
        (Kind::Time(7), (4, 6), 1),
    ];
    let list = snapshots(rt.alloc(), PIECES)?;
    for (kind, pair, left) in cases {
        let mut watchers: Vec<Box<dyn Watcher>> = Vec::new(rt.alloc());
        push_kind(rt.alloc(), &mut watchers, &kind)?;
        let panel = shown(rt.alloc(), &mut watchers, &list)?;
        assert_eq!(rt; watchers.len(), left);
        assert_all(&rt, &panel, &[pair]);
    }
    Ok(())
}

#[test]
fn a_watcher_that_saw_nothing_is_left(rt: HostRuntime) -> Result<(), Fail> {
    for pieces in [&[] as &[Piece], &[(-3, 1, None)]] {
        let list = snapshots(rt.alloc(), pieces)?;
        let mut watchers: Vec<Box<dyn Watcher>> = Vec::new(rt.alloc());
        watchers.push(Box::new(rt.alloc(), FirstRows::new(1))?)?;
        watchers.push(Box::new(rt.alloc(), UntilAbove::new(-5))?)?;
        watchers.push(Box::new(rt.alloc(), UntilTime::new(i64::MIN))?)?;
        let panel = shown(rt.alloc(), &mut watchers, &list)?;
        let begin = [(0, 0), (0, i64::MIN), (0, i64::MIN)];
        assert_left(&rt, &watchers, &begin);
        assert_all(&rt, &panel, &begin);
    }
    Ok(())
}

#[test]
fn those_that_have_seen_enough_are_dropped_and_the_others_keep_their_order(
    rt: HostRuntime,
) -> Result<(), Fail> {
    let list = snapshots(rt.alloc(), PIECES)?;
    // How many rows each counts at most, the figures of all, and those of whom are left.
    let cases: [([u64; 3], &[(i64, i64)], &[(i64, i64)]); 6] = [
        ([1, 8, 9], &[(1, 4), (4, 8), (4, 8)], &[(4, 8), (4, 8)]),
        ([8, 2, 9], &[(4, 8), (2, -3), (4, 8)], &[(4, 8), (4, 8)]),
        ([8, 9, 3], &[(4, 8), (4, 8), (3, 6)], &[(4, 8), (4, 8)]),
        ([3, 9, 1], &[(3, 6), (4, 8), (1, 4)], &[(4, 8)]),
        ([1, 1, 1], &[(1, 4), (1, 4), (1, 4)], &[]),
        ([2, 4, 3], &[(2, -3), (4, 8), (3, 6)], &[]),
    ];
    for (limits, all, left) in cases {
        let mut watchers: Vec<Box<dyn Watcher>> = Vec::new(rt.alloc());
        for limit in limits {
            push_kind(rt.alloc(), &mut watchers, &Kind::Rows(limit))?;
        }
        let panel = shown(rt.alloc(), &mut watchers, &list)?;
        assert_left(&rt, &watchers, left);
        assert_all(&rt, &panel, all);
    }
    Ok(())
}

#[test]
fn others_stay_in_order_between_those_that_end(rt: HostRuntime) -> Result<(), Fail> {
    let list = snapshots(rt.alloc(), PIECES)?;
    let mut watchers: Vec<Box<dyn Watcher>> = Vec::new(rt.alloc());
    watchers.push(Box::new(rt.alloc(), Tally::new())?)?;
    watchers.push(Box::new(rt.alloc(), FirstRows::new(1))?)?;
    watchers.push(Box::new(rt.alloc(), Range::new())?)?;
    watchers.push(Box::new(rt.alloc(), UntilTime::new(3))?)?;
    watchers.push(Box::new(rt.alloc(), Ends::new())?)?;
    let panel = shown(rt.alloc(), &mut watchers, &list)?;
    assert_left(&rt, &watchers, &[(4, 8), (-7, 9), (-3, 6)]);
    assert_all(&rt, &panel, &[(4, 8), (1, 4), (-7, 9), (2, 3), (-3, 6)]);
    Ok(())
}

#[test]
fn figures_are_put_line_by_line_until_a_put_fails(rt: HostRuntime) -> Result<(), Fail> {
    let list = snapshots(rt.alloc(), &[(-3, 1, Some(20)), (1, 2, Some(-5))])?;
    let mut watchers: Vec<Box<dyn Watcher>> = Vec::new(rt.alloc());
    watchers.push(Box::new(rt.alloc(), Tally::new())?)?;
    watchers.push(Box::new(rt.alloc(), FirstRows::new(1))?)?;
    watchers.push(Box::new(rt.alloc(), Tally::new())?)?;
    let mut panel = Panel::new(rt.alloc(), &watchers)?;
    show(&mut watchers, &mut panel, &list);
    show(&mut watchers, &mut panel, &list);
    let mut out = MemSink::new(rt.alloc(), 100)?;
    assert!(rt; put_figures(&mut out, &panel).is_ok());
    assert_eq!(rt;
        out.written(),
        b"figures 4 30\nfigures 1 20\nfigures 4 30\n".as_slice()
    );
    let mut out = MemSink::new(rt.alloc(), 100)?;
    out.fail_at(2)?;
    assert!(rt; put_figures(&mut out, &panel).is_err());
    assert_eq!(rt; out.written(), b"figures 4 30\nfigure".as_slice());
    Ok(())
}
