// Rows, lists of snapshots, and cursors in both.
ghost use Rattle.std.specs.Prelude.{◌≡◌};

use std::test::Fail;
use tilt_base::Cell;
use tilt_stream::{Buffer, Cursor, Row, Rows, Snap, SnapList, join_open};

const FIRST: Row = Row {
    start: 0,
    end: 5,
    value: Some(7),
};

const SECOND: Row = Row {
    start: 6,
    end: 8,
    value: Some(9),
};

const THIRD: Row = Row {
    start: 8,
    end: 9,
    value: Some(9),
};

const GAP: Snap = Snap {
    start: 5,
    end: 6,
    value: None,
};

const JOINED: Snap = Snap {
    start: -7,
    end: 6,
    value: None,
};

const NULL: Row = Row {
    start: 8,
    end: 9,
    value: None,
};

const LAST: Row = Row {
    start: 20,
    end: 21,
    value: Some(1),
};

#[test]
fn a_gap_is_one_null_snapshot_and_equal_neighbours_stay_two(rt: HostRuntime) -> Result<(), Fail> {
    let mut rows = Rows::new(rt.alloc());
    assert_eq!(rt; rows.last_end(), None);
    rows.push(FIRST)?;
    rows.push(SECOND)?;
    rows.push(THIRD)?;
    assert_eq!(rt; rows.last_end(), Some(9));
    assert_eq!(rt; rows.len(), 3);
    assert_eq!(rt; rows.get(1), SECOND);
    let list = SnapList::from_rows(rt.alloc(), &rows)?;
    assert_eq!(rt; list.as_slice(), [FIRST, GAP, SECOND, THIRD].as_slice());
    Ok(())
}

#[test]
fn a_list_tells_its_cell_and_its_next_mark_at_each_tick(rt: HostRuntime) -> Result<(), Fail> {
    let mut list = SnapList::new(rt.alloc());
    assert_eq!(rt; list.value_at(0), None);
    assert_eq!(rt; list.next_begin(i64::MIN), None);
    list.push(FIRST)?;
    list.push(GAP)?;
    list.push(SECOND)?;
    for (tick, cell, next) in [
        (i64::MIN, None, Some(1)),
        (0, None, Some(1)),
        (1, Some(7), Some(6)),
        (5, Some(7), Some(6)),
        (6, None, Some(7)),
        (7, Some(9), Some(9)),
        (8, Some(9), Some(9)),
        (9, None, None),
        (i64::MAX, None, None),
    ] {
        assert_eq!(rt; list.value_at(tick), cell, "at {tick}");
        assert_eq!(rt; list.next_begin(tick), next, "at {tick}");
    }
    Ok(())
}

#[test]
fn the_last_snapshot_is_taken_off(rt: HostRuntime) -> Result<(), Fail> {
    let mut list = SnapList::new(rt.alloc());
    list.push(GAP)?;
    assert_eq!(rt; list.pop(), Some(GAP));
    assert_eq!(rt; list.pop(), None);
    Ok(())
}

#[test]
fn no_rows_make_no_snapshots(rt: HostRuntime) -> Result<(), Fail> {
    let rows = Rows::new(rt.alloc());
    assert!(rt; rows.is_empty());
    let mut list = SnapList::from_rows(rt.alloc(), &rows)?;
    assert!(rt; list.is_empty());
    list.push(GAP)?;
    assert_eq!(rt; list.len(), 1);
    assert_eq!(rt; list.get(0), GAP);
    let joined = join_open(list, -7);
    assert_eq!(rt; joined.as_slice(), [JOINED].as_slice());
    Ok(())
}

// What a cursor answers at a tick, to which it came by another one that isn't above it.
fn answers<B: Buffer>(buffer: &B, by: i64, tick: i64) -> (Cell, Option<i64>)
    requires { B.forgotten buffer.now ≡ 0 }
{
    let mut cursor = Cursor::new();
    if by <= tick {
        cursor.move_to(buffer, by);
    }
    cursor.move_to(buffer, tick);
    (cursor.value(buffer), cursor.next(buffer))
}

#[test]
fn a_cursor_tells_the_cell_and_the_next_mark(rt: HostRuntime) -> Result<(), Fail> {
    let mut rows = Rows::new(rt.alloc());
    rows.push(FIRST)?;
    rows.push(SECOND)?;
    rows.push(NULL)?;
    rows.push(LAST)?;
    let list = SnapList::from_rows(rt.alloc(), &rows)?;
    for (by, tick, cell, next) in [
        (i64::MIN, i64::MIN, None, Some(1)),
        (0, 1, Some(7), Some(6)),
        (1, 5, Some(7), Some(6)),
        (5, 6, None, Some(7)),
        (5, 8, Some(9), Some(9)),
        (8, 9, None, Some(10)),
        (9, 10, None, Some(21)),
        (0, 21, Some(1), Some(22)),
        (21, 22, None, None),
        (0, i64::MAX, None, None),
    ] {
        assert_eq!(rt;
            answers(&rows, by, tick),
            (cell, next),
            "in rows, at {tick}"
        );
        assert_eq!(rt;
            answers(&list, by, tick),
            (cell, next),
            "in a list, at {tick}"
        );
    }
    Ok(())
}
