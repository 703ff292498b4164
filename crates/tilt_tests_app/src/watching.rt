// Watchers of a run, of the kinds that there are and of new kinds.
ghost use Rattle.std.specs.Prelude.{◌≡◌, false, true};

use crate::call::{
    End, Failing, File, NONE, QUERY, SERIES, assert_end, end_beside, end_of, shelf_of,
};
use std::alloc::Global;
use std::process::Abort;
use std::test::Fail;
use tilt_stream::Row;
use tilt_watch::{Ends, FirstRows, Next, Range, Tally, UntilAbove, UntilTime, Watcher};

const FILES: &[File<'_>] = &[("q", QUERY), ("s", SERIES), ("none", b"start,end,value\n")];

// What the four watchers start with, what they have of the first row, and what they have of both.
const BEFORE: &[(i64, i64)] = &[(0, 0), (i64::MAX, i64::MIN), (i64::MAX, i64::MIN), (0, 0)];

const ONE: &[(i64, i64)] = &[(1, 7), (7, 7), (0, 5), (1, 7)];

const AFTER: &[(i64, i64)] = &[(2, 16), (7, 9), (0, 8), (2, 16)];

const FAULT: &[u8] = b"tilt: 5 write fault\n";

// A call: its arguments, the numbers of the read and of the write that fail, and 0 for none. Then the status, the output, the line and
// the figures of the watchers.
struct Watched<'a> {
    words: &'a str,
    read: u64,
    put: u64,
    status: u8,
    out: &'a [u8],
    line: &'a [u8],
    figures: &'a [(i64, i64)],
}

const WATCHED: &[Watched<'_>] = &[
    Watched {
        words: "watch\nq\nx=s",
        read: 0,
        put: 0,
        status: 0,
        out: b"start,end,value\n0,5,7\n6,8,9\nfigures 2 16\nfigures 7 9\nfigures 0 8\nfigures 2 16\n",
        line: b"",
        figures: AFTER,
    },
    Watched {
        words: "watch\nq\nx=s\n--plain",
        read: 0,
        put: 0,
        status: 0,
        out: b"start,end,value\n0,5,7\n6,8,9\nfigures 2 16\nfigures 7 9\nfigures 0 8\nfigures 2 16\n",
        line: b"",
        figures: AFTER,
    },
    Watched {
        words: "watch\nq\nx=none",
        read: 0,
        put: 0,
        status: 0,
        out: b"start,end,value\nfigures 0 0\nfigures 9223372036854775807 -9223372036854775808\n\
          figures 9223372036854775807 -9223372036854775808\nfigures 0 0\n",
        line: b"",
        figures: BEFORE,
    },
    // Nobody watches a run, or a query that is rejected.
    Watched {
        words: "run\nq\nx=s",
        read: 0,
        put: 0,
        status: 0,
        out: SERIES,
        line: b"",
        figures: BEFORE,
    },
    Watched {
        words: "watch\nq",
        read: 0,
        put: 0,
        status: 1,
        out: b"",
        line: b"tilt: 2 input names: x\n",
        figures: BEFORE,
    },
    Watched {
        words: "watch\nq\nx=s",
        read: 4,
        put: 0,
        status: 3,
        out: b"",
        line: b"tilt: 4 read fault: s\n",
        figures: BEFORE,
    },
    // A row is seen once its line is written, and after all lines come the figures and the flush.
    Watched {
        words: "watch\nq\nx=s",
        read: 0,
        put: 1,
        status: 4,
        out: b"start,en",
        line: FAULT,
        figures: BEFORE,
    },
    Watched {
        words: "watch\nq\nx=s",
        read: 0,
        put: 2,
        status: 4,
        out: b"start,end,value\n0,5",
        line: FAULT,
        figures: BEFORE,
    },
    Watched {
        words: "watch\nq\nx=s",
        read: 0,
        put: 3,
        status: 4,
        out: b"start,end,value\n0,5,7\n6,8",
        line: FAULT,
        figures: ONE,
    },
    Watched {
        words: "watch\nq\nx=s",
        read: 0,
        put: 4,
        status: 4,
        out: b"start,end,value\n0,5,7\n6,8,9\nfigure",
        line: FAULT,
        figures: AFTER,
    },
    Watched {
        words: "watch\nq\nx=s",
        read: 0,
        put: 5,
        status: 4,
        out: b"start,end,value\n0,5,7\n6,8,9\nfigures 2 16\nfigure",
        line: FAULT,
        figures: AFTER,
    },
    Watched {
        words: "watch\nq\nx=s",
        read: 0,
        put: 6,
        status: 4,
        out: b"start,end,value\n0,5,7\n6,8,9\nfigures 2 16\nfigures 7 9\nfigure",
        line: FAULT,
        figures: AFTER,
    },
    Watched {
        words: "watch\nq\nx=s",
        read: 0,
        put: 7,
        status: 4,
        out: b"start,end,value\n0,5,7\n6,8,9\nfigures 2 16\nfigures 7 9\nfigures 0 8\nfigure",
        line: FAULT,
        figures: AFTER,
    },
    Watched {
        words: "watch\nq\nx=s",
        read: 0,
        put: 8,
        status: 4,
        out: b"start,end,value\n0,5,7\n6,8,9\nfigures 2 16\nfigures 7 9\nfigures 0 8\nfigures 2 16\n",
        line: FAULT,
        figures: AFTER,
    },
];

// Ends the test unless these are the figures of the watchers in the list.
fn assert_figures(rt: &impl Abort, list: &[Box<dyn Watcher>], figures: &[(i64, i64)]) {
    assert_eq!(rt; list.len(), figures.len());
    for (watcher, pair) in list.iter().zip(figures) {
        assert_eq!(rt; watcher.figures(), *pair);
    }
}

// What the call leaves over these files beside watchers.
fn end_watched(
    alloc: Global,
    words: &str,
    files: &[File<'_>],
    failing: &Failing,
    watchers: &mut Vec<Box<dyn Watcher>>,
) -> Result<End, Fail> {
    let mut shelf = shelf_of(alloc, files, failing.read)?;
    end_beside(alloc, words, &mut shelf, failing, watchers)
}

// Ends the test unless the call ends so beside a watcher of each kind without a limit, and one of the first three rows.
fn assert_watched(
    rt: &impl Abort,
    alloc: Global,
    files: &[File<'_>],
    case: &Watched<'_>,
    i: usize,
) -> Result<(), Fail> {
    let mut watchers: Vec<Box<dyn Watcher>> = Vec::new(alloc);
    watchers.push(Box::new(alloc, Tally::new())?)?;
    watchers.push(Box::new(alloc, Range::new())?)?;
    watchers.push(Box::new(alloc, Ends::new())?)?;
    watchers.push(Box::new(alloc, FirstRows::new(3))?)?;
    let failing = Failing {
        read: case.read,
        put: case.put,
        line: 0,
    };
    let end = end_watched(alloc, case.words, files, &failing, &mut watchers)?;
    assert_end(rt, &end, case.status, case.out, case.line, i);
    assert_figures(rt, &watchers, case.figures);
    Ok(())
}

#[test]
fn watchers_see_what_is_printed(rt: HostRuntime) -> Result<(), Fail> {
    for (i, case) in WATCHED.iter().enumerate() {
        assert_watched(&rt, rt.alloc(), FILES, case, i)?;
    }
    // Nobody watches.
    let end = end_of(rt.alloc(), "watch\nq\nx=s", FILES, &NONE)?;
    assert_end(&rt, &end, 0, SERIES, b"", 0);
    Ok(())
}

// A count over three ticks, of two rows that touch: it has five rows.
const COUNT: &[File<'_>] = &[
    ("q", b"input x; emit count(x[t-3:t]) over (0, 10];"),
    ("s", b"start,end,value\n0,5,7\n5,8,7\n"),
];

const COUNTS: &[u8] = b"start,end,value\n0,2,1\n2,5,1\n5,7,2\n7,8,1\n8,10,1\n\
    figures 5 6\nfigures 1 2\nfigures 0 10\nfigures 3 4\n";

// The watcher of the first three rows is dropped.
const ENOUGH: Watched<'_> = Watched {
    words: "watch\nq\nx=s",
    read: 0,
    put: 0,
    status: 0,
    out: COUNTS,
    line: b"",
    figures: &[(5, 6), (1, 2), (0, 10)],
};

#[test]
fn a_watcher_that_has_seen_enough_is_dropped(rt: HostRuntime) -> Result<(), Fail> {
    assert_watched(&rt, rt.alloc(), COUNT, &ENOUGH, 0)
}

#[test]
fn all_watchers_may_end(rt: HostRuntime) -> Result<(), Fail> {
    let mut watchers: Vec<Box<dyn Watcher>> = Vec::new(rt.alloc());
    watchers.push(Box::new(rt.alloc(), UntilAbove::new(1))?)?;
    watchers.push(Box::new(rt.alloc(), UntilTime::new(5))?)?;
    let end = end_watched(rt.alloc(), "watch\nq\nx=s", COUNT, &NONE, &mut watchers)?;
    let text = b"start,end,value\n0,2,1\n2,5,1\n5,7,2\n7,8,1\n8,10,1\nfigures 3 2\nfigures 2 5\n";
    assert_end(&rt, &end, 0, text, b"", 0);
    assert_figures(&rt, &watchers, &[]);
    Ok(())
}

#[test]
fn a_row_whose_put_fails_is_not_seen(rt: HostRuntime) -> Result<(), Fail> {
    let mut watchers: Vec<Box<dyn Watcher>> = Vec::new(rt.alloc());
    watchers.push(Box::new(rt.alloc(), Tally::new())?)?;
    let failing = Failing {
        read: 0,
        put: 2,
        line: 0,
    };
    let end = end_watched(rt.alloc(), "watch\nq\nx=s", FILES, &failing, &mut watchers)?;
    assert_end(&rt, &end, 4, b"start,end,value\n0,5", FAULT, 0);
    assert_figures(&rt, &watchers, &[(0, 0)]);
    Ok(())
}

// A new kind of watcher: where the last row lies. It sees all rows.
#[derive(Drop)]
struct Last {
    start: i64,
    end: i64,
}

impl Watcher for Last {
    ghost pair = { λ last. (last.start, last.end) };

    ghost step = { λ _ _ row. (row.start, row.end) };

    ghost ends = { λ _ _. false };

    fn see(&mut self, row: &Row) -> Next {
        self.start = row.start;
        self.end = row.end;
        Next::More
    }

    fn figures(&self) -> (i64, i64) {
        (self.start, self.end)
    }
}

// And one of which every pair is an end, also the pair with which it starts: where the first row lies.
#[derive(Drop)]
struct First {
    start: i64,
    end: i64,
}

impl Watcher for First {
    ghost pair = { λ first. (first.start, first.end) };

    ghost step = { λ _ _ row. (row.start, row.end) };

    ghost ends = { λ _ _. true };

    fn see(&mut self, row: &Row) -> Next {
        self.start = row.start;
        self.end = row.end;
        Next::Done
    }

    fn figures(&self) -> (i64, i64) {
        (self.start, self.end)
    }
}

#[test]
fn a_watcher_of_ones_own_serves(rt: HostRuntime) -> Result<(), Fail> {
    let mut watchers: Vec<Box<dyn Watcher>> = Vec::new(rt.alloc());
    watchers.push(Box::new(rt.alloc(), First { start: 0, end: 0 })?)?;
    watchers.push(Box::new(rt.alloc(), Last { start: 0, end: 0 })?)?;
    let end = end_watched(rt.alloc(), "watch\nq\nx=s", FILES, &NONE, &mut watchers)?;
    let text = b"start,end,value\n0,5,7\n6,8,9\nfigures 0 5\nfigures 6 8\n";
    assert_end(&rt, &end, 0, text, b"", 0);
    assert_figures(&rt, &watchers, &[(6, 8)]);
    Ok(())
}

#[test]
fn an_end_before_the_first_row_has_no_effect(rt: HostRuntime) -> Result<(), Fail> {
    let mut watchers: Vec<Box<dyn Watcher>> = Vec::new(rt.alloc());
    watchers.push(Box::new(rt.alloc(), First { start: 1, end: 2 })?)?;
    let end = end_watched(rt.alloc(), "watch\nq\nx=none", FILES, &NONE, &mut watchers)?;
    assert_end(&rt, &end, 0, b"start,end,value\nfigures 1 2\n", b"", 0);
    assert_figures(&rt, &watchers, &[(1, 2)]);
    Ok(())
}
