// Reads, writes, lines and the flush that fail.
ghost use Rattle.std.specs.Prelude.{[], ⊤};

use crate::call::{
    Failing, File, QUERY, SERIES, WORDS, assert_end, end_of, shelf_of, sink_of, words_of,
};
use std::alloc::Global;
use std::process::Abort;
use std::test::Fail;
use tilt_app::tilt;
use tilt_outside::{Failed, MemShelf, Shelf};

// A call: its arguments and files, the numbers of the read and of the write that fail, and 0 for none; the status, the output and the
// line.
struct Fault<'a> {
    words: &'a str,
    files: &'a [File<'a>],
    read: u64,
    put: u64,
    status: u8,
    out: &'a [u8],
    line: &'a [u8],
}

const FILES: &[File<'_>] = &[("q", QUERY), ("s", SERIES)];

const NO_SERIES: &[File<'_>] = &[("q", QUERY), ("another", SERIES)];

const TWO: &[File<'_>] = &[
    ("q", b"input x; input y; emit x over (0, 10];"),
    ("o", SERIES),
    ("s", SERIES),
];

const YX: &str = "run\nq\ny=o\nx=s";

const FAULT: &[u8] = b"tilt: 5 write fault\n";

const FAULTS: &[Fault<'_>] = &[
    // A failing read names its file.
    Fault {
        words: WORDS,
        files: FILES,
        read: 1,
        put: 0,
        status: 3,
        out: b"",
        line: b"tilt: 4 read fault: q\n",
    },
    Fault {
        words: WORDS,
        files: FILES,
        read: 2,
        put: 0,
        status: 3,
        out: b"",
        line: b"tilt: 4 read fault: q\n",
    },
    Fault {
        words: WORDS,
        files: FILES,
        read: 3,
        put: 0,
        status: 3,
        out: b"",
        line: b"tilt: 4 read fault: s\n",
    },
    Fault {
        words: WORDS,
        files: FILES,
        read: 4,
        put: 0,
        status: 3,
        out: b"",
        line: b"tilt: 4 read fault: s\n",
    },
    Fault {
        words: WORDS,
        files: FILES,
        read: 5,
        put: 0,
        status: 0,
        out: SERIES,
        line: b"",
    },
    Fault {
        words: WORDS,
        files: NO_SERIES,
        read: 1,
        put: 0,
        status: 3,
        out: b"",
        line: b"tilt: 4 read fault: q\n",
    },
    // Each input is read.
    Fault {
        words: YX,
        files: TWO,
        read: 4,
        put: 0,
        status: 3,
        out: b"",
        line: b"tilt: 4 read fault: s\n",
    },
    Fault {
        words: YX,
        files: TWO,
        read: 5,
        put: 0,
        status: 3,
        out: b"",
        line: b"tilt: 4 read fault: o\n",
    },
    Fault {
        words: YX,
        files: TWO,
        read: 6,
        put: 0,
        status: 3,
        out: b"",
        line: b"tilt: 4 read fault: o\n",
    },
    Fault {
        words: YX,
        files: TWO,
        read: 7,
        put: 0,
        status: 0,
        out: SERIES,
        line: b"",
    },
    // A failing write leaves a prefix. The sink takes half of the piece at which it fails. After the three writes comes the flush.
    Fault {
        words: WORDS,
        files: FILES,
        read: 0,
        put: 1,
        status: 4,
        out: b"start,en",
        line: FAULT,
    },
    Fault {
        words: WORDS,
        files: FILES,
        read: 0,
        put: 2,
        status: 4,
        out: b"start,end,value\n0,5",
        line: FAULT,
    },
    Fault {
        words: WORDS,
        files: FILES,
        read: 0,
        put: 3,
        status: 4,
        out: b"start,end,value\n0,5,7\n6,8",
        line: FAULT,
    },
    Fault {
        words: WORDS,
        files: FILES,
        read: 0,
        put: 4,
        status: 4,
        out: SERIES,
        line: FAULT,
    },
    Fault {
        words: WORDS,
        files: FILES,
        read: 0,
        put: 5,
        status: 0,
        out: SERIES,
        line: b"",
    },
];

// Ends the test unless the call ends so.
fn assert_fault(
    rt: &impl Abort,
    alloc: Global,
    fault: &Fault<'_>,
    number: usize,
) -> Result<(), Fail> {
    let failing = Failing {
        read: fault.read,
        put: fault.put,
        line: 0,
    };
    let end = end_of(alloc, fault.words, fault.files, &failing)?;
    assert_end(rt, &end, fault.status, fault.out, fault.line, number);
    Ok(())
}

#[test]
fn faults_are_told(rt: HostRuntime) -> Result<(), Fail> {
    for (i, fault) in FAULTS.iter().enumerate() {
        assert_fault(&rt, rt.alloc(), fault, i)?;
    }
    Ok(())
}

const PIPED: &[File<'_>] = &[
    (
        "q",
        b"input x; let y = x[t-2]; emit sum(y[t-3:t]) over (0, 5];",
    ),
    ("s", b"start,end,value\n0,1,4\n1,3,6\n"),
];

// Writes of `pipe`. The first snapshot is null, and has no line. The calls are the header, three lines, `rings `, the number, LF, and the
// flush.
const PIPE_PUTS: &[Fault<'_>] = &[
    Fault {
        words: "pipe\nq\n--plain\nx=s",
        files: PIPED,
        read: 0,
        put: 1,
        status: 4,
        out: b"start,en",
        line: FAULT,
    },
    Fault {
        words: "pipe\nq\n--plain\nx=s",
        files: PIPED,
        read: 0,
        put: 3,
        status: 4,
        out: b"start,end,value\n2,3,4\n3,4",
        line: FAULT,
    },
    Fault {
        words: "pipe\nq\n--plain\nx=s",
        files: PIPED,
        read: 0,
        put: 5,
        status: 4,
        out: b"start,end,value\n2,3,4\n3,4,10\n4,5,10\nrin",
        line: FAULT,
    },
    Fault {
        words: "pipe\nq\n--plain\nx=s",
        files: PIPED,
        read: 0,
        put: 6,
        status: 4,
        out: b"start,end,value\n2,3,4\n3,4,10\n4,5,10\nrings ",
        line: FAULT,
    },
    Fault {
        words: "pipe\nq\n--plain\nx=s",
        files: PIPED,
        read: 0,
        put: 8,
        status: 4,
        out: b"start,end,value\n2,3,4\n3,4,10\n4,5,10\nrings 2\n",
        line: FAULT,
    },
];

#[test]
fn a_put_fails_in_mid_stream(rt: HostRuntime) -> Result<(), Fail> {
    for (i, fault) in PIPE_PUTS.iter().enumerate() {
        assert_fault(&rt, rt.alloc(), fault, i)?;
    }
    Ok(())
}

const COUNTED: &[File<'_>] = &[
    (
        "p",
        b"from x; where v > 3; window count 3; emit over (0, 10];",
    ),
    ("s", b"start,end,value\n0,5,7\n5,8,2\n"),
];

// Writes of `flow`. The calls are the header, three lines, and the flush.
const FLOW_PUTS: &[Fault<'_>] = &[
    Fault {
        words: "flow\np\nx=s",
        files: COUNTED,
        read: 0,
        put: 1,
        status: 4,
        out: b"start,en",
        line: FAULT,
    },
    Fault {
        words: "flow\np\nx=s",
        files: COUNTED,
        read: 0,
        put: 3,
        status: 4,
        out: b"start,end,value\n0,2,1\n2,5",
        line: FAULT,
    },
    Fault {
        words: "flow\np\nx=s",
        files: COUNTED,
        read: 0,
        put: 5,
        status: 4,
        out: b"start,end,value\n0,2,1\n2,5,1\n5,7,1\n",
        line: FAULT,
    },
];

#[test]
fn a_put_of_a_pipeline_fails(rt: HostRuntime) -> Result<(), Fail> {
    for (i, fault) in FLOW_PUTS.iter().enumerate() {
        assert_fault(&rt, rt.alloc(), fault, i)?;
    }
    Ok(())
}

const PARTED: &[File<'_>] = &[
    ("q", b"input x; emit count(x[t-3:t]) over (0, 10];"),
    ("s", b"start,end,value\n0,5,7\n5,8,7\n"),
];

// Writes of `parts`. The calls are the header, five lines, `parts`, a blank and a number for each part, LF, and the flush.
const PARTS_PUTS: &[Fault<'_>] = &[
    Fault {
        words: "parts\nq\nx=s\n--at\n5",
        files: PARTED,
        read: 0,
        put: 1,
        status: 4,
        out: b"start,en",
        line: FAULT,
    },
    Fault {
        words: "parts\nq\nx=s\n--at\n5",
        files: PARTED,
        read: 0,
        put: 7,
        status: 4,
        out: b"start,end,value\n0,2,1\n2,5,1\n5,7,2\n7,8,1\n8,10,1\npa",
        line: FAULT,
    },
    Fault {
        words: "parts\nq\nx=s\n--at\n5",
        files: PARTED,
        read: 0,
        put: 9,
        status: 4,
        out: b"start,end,value\n0,2,1\n2,5,1\n5,7,2\n7,8,1\n8,10,1\nparts ",
        line: FAULT,
    },
    Fault {
        words: "parts\nq\nx=s\n--at\n5",
        files: PARTED,
        read: 0,
        put: 13,
        status: 4,
        out: b"start,end,value\n0,2,1\n2,5,1\n5,7,2\n7,8,1\n8,10,1\nparts 2 4\n",
        line: FAULT,
    },
];

#[test]
fn a_put_of_parts_fails(rt: HostRuntime) -> Result<(), Fail> {
    for (i, fault) in PARTS_PUTS.iter().enumerate() {
        assert_fault(&rt, rt.alloc(), fault, i)?;
    }
    Ok(())
}

// Arguments, how many writes their line takes, the status and the line.
struct Line<'a> {
    words: &'a str,
    puts: u64,
    status: u8,
    line: &'a [u8],
}

const LINES: &[Line<'_>] = &[
    Line {
        words: "run",
        puts: 3,
        status: 2,
        line: b"tilt: 1 usage\n",
    },
    Line {
        words: "run\nq",
        puts: 4,
        status: 1,
        line: b"tilt: 2 input names: x\n",
    },
    Line {
        words: "run\ns\nx=s",
        puts: 5,
        status: 1,
        line: b"tilt: 24 statement 1: syntax\n",
    },
    Line {
        words: "run\nq\nx=a",
        puts: 4,
        status: 3,
        line: b"tilt: 4 read fault: a\n",
    },
    Line {
        words: "run\nq\nx=q",
        puts: 6,
        status: 1,
        line: b"tilt: 10 series x: bad header\n",
    },
];

// Lets the write of that number of the line fail. Ends the test unless the status is the same and a prefix of the line was written.
fn assert_line_cut(rt: &impl Abort, alloc: Global, case: &Line<'_>, put: u64) -> Result<(), Fail> {
    let end = end_of(
        alloc,
        case.words,
        FILES,
        &Failing {
            read: 0,
            put: 0,
            line: put,
        },
    )?;
    let told = end.err.written();
    let is_cut = case.line.starts_with(told) && told.len() < case.line.len();
    let found = (end.status, end.out.written().len(), is_cut);
    assert_eq!(rt; found, (case.status, 0, true), "{told:?}");
    Ok(())
}

#[test]
fn a_failing_line_changes_no_status(rt: HostRuntime) -> Result<(), Fail> {
    for case in LINES {
        for put in 1..=case.puts {
            assert_line_cut(&rt, rt.alloc(), case, put)?;
        }
    }
    Ok(())
}

// Series that are rejected.
const REFUSED: &[&[u8]] = &[
    b"start,end\n0,5\n",
    b"\xEF\xBB\xBF\xEF\xBB\xBFstart,end,value\n0,5,7\n",
    b"start,end,value\n0,5\n",
    b"start,end,value\n0,1x,3\n",
    b"start,end,value\n5,5,1\n",
    b"start,end,value\n0,2,1\n2,4,1\n3,5,1\n",
    b"start,end,value\n0,4000000000000000001,1\n",
    b"start,end,value\n0,5,9223372036854775808\n",
];

#[test]
fn a_refusal_stands_where_its_line_fails(rt: HostRuntime) -> Result<(), Fail> {
    for (i, series) in REFUSED.iter().enumerate() {
        let files = [("q", QUERY), ("s", *series)];
        let end = end_of(
            rt.alloc(),
            WORDS,
            &files,
            &Failing {
                read: 0,
                put: 0,
                line: 1,
            },
        )?;
        // The sink takes half of the first piece, which is `tilt: `.
        let found = (end.status, end.out.written().len(), end.err.written());
        assert_eq!(rt; found, (1, 0, b"til".as_slice()), "case {i}");
    }
    Ok(())
}

// Gives one byte a read.
#[derive(Drop)]
struct SlowShelf {
    shelf: MemShelf,
}

impl Shelf for SlowShelf {
    ghost tells = { ⊥ };

    ghost files = { λ _ _. [] };

    ghost read_faults = { λ s. s.shelf.read_faults };

    ghost save_faults = { λ s. s.shelf.save_faults };

    ghost given = { λ s. s.shelf.given };

    ghost takes = { λ _ _ _. ⊤ };

    ghost lends = { λ _. ⊤ };

    fn read_at(&mut self, name: &str, at: u64, room: &mut [u8]) -> Result<usize, Failed> {
        self.shelf.read_at(name, at, &mut room[..1])
    }

    fn save(&mut self, name: &str, bytes: &[u8]) -> Result<(), Failed> {
        self.shelf.save(name, bytes)
    }

    ghost takes_fewer = { λ _ _ _ _ _ takes. takes };
}

#[test]
fn a_shelf_that_gives_one_byte_a_read_serves(rt: HostRuntime) -> Result<(), Fail> {
    let words = words_of(rt.alloc(), WORDS)?;
    let shelf = shelf_of(rt.alloc(), &[("q", QUERY), ("s", SERIES)], 0)?;
    let mut shelf = SlowShelf { shelf };
    let mut out = sink_of(rt.alloc(), 0)?;
    let mut err = sink_of(rt.alloc(), 0)?;
    let mut watchers = Vec::new(rt.alloc());
    let status = tilt(
        rt.alloc(),
        &words,
        &mut shelf,
        &mut out,
        &mut err,
        &mut watchers,
    );
    assert_eq!(rt; status, 0);
    assert_eq!(rt; out.written(), SERIES);
    Ok(())
}
