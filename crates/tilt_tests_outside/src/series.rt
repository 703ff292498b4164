// Series and texts that no clause fixes: what the crate `csv` takes for a record, and what memory is found for.
use std::test::Fail;
use tilt_outside::MemSink;
use tilt_series::{ReadRowsFault, SeriesFault, put_header, put_rows, read_rows, row_text};
use tilt_stream::{Row, Rows, SnapList};

const REFUSED: &[(&str, SeriesFault)] = &[
    ("", SeriesFault::BadHeader),
    ("start,end\n", SeriesFault::BadHeader),
    ("start,end,value,\n", SeriesFault::BadHeader),
    ("Start,end,value\n", SeriesFault::BadHeader),
    ("\u{FEFF}\u{FEFF}start,end,value\n", SeriesFault::BadHeader),
    ("start,end,value\n0,5\n", SeriesFault::BadFields { row: 1 }),
    ("start,end,value\n \n", SeriesFault::BadFields { row: 1 }),
    (
        "start,end,value\n0,1,1,\n",
        SeriesFault::BadFields { row: 1 },
    ),
    (
        "start,end,value\n0,1x,3\n",
        SeriesFault::BadField { row: 1, field: 2 },
    ),
    (
        "start,end,value\n,1x,3x\n",
        SeriesFault::BadField { row: 1, field: 1 },
    ),
    (
        "start,end,value\n0,1,9223372036854775808\n",
        SeriesFault::BadField { row: 1, field: 3 },
    ),
    (
        "start,end,value\n0,1,\"5\n\"\n",
        SeriesFault::BadField { row: 1, field: 3 },
    ),
    (
        "start,end,value\n0,4000000000000000001,1\n",
        SeriesFault::TimeRange { row: 1 },
    ),
    (
        "start,end,value\n5,5,1\n",
        SeriesFault::EmptyInterval { row: 1 },
    ),
    (
        "start,end,value\n\n0,1,1\n\r\n\n5,5,1\n",
        SeriesFault::EmptyInterval { row: 2 },
    ),
    (
        "start,end,value\n0,2,1\n2,4,1\n3,5,1\n3,3\n",
        SeriesFault::OutOfOrder { row: 3 },
    ),
    // A time below all others, and the first of several faults of one row.
    (
        "start,end,value\n-4000000000000000001,0,1\n",
        SeriesFault::TimeRange { row: 1 },
    ),
    (
        "start,end,value\n4000000000000000001,0,x\n",
        SeriesFault::BadField { row: 1, field: 3 },
    ),
    (
        "start,end,value\n4000000000000000001,0,1\n",
        SeriesFault::TimeRange { row: 1 },
    ),
    (
        "start,end,value\n0,2,1\n1,4000000000000000001,1\n",
        SeriesFault::TimeRange { row: 2 },
    ),
    (
        "start,end,value\n0,2,1\n1,1,1\n",
        SeriesFault::EmptyInterval { row: 2 },
    ),
];

#[test]
fn a_series_is_refused_at_its_first_fault(rt: HostRuntime) {
    for (text, want) in REFUSED {
        let fault = read_rows(rt.alloc(), text.as_bytes(), None, None, None).err();
        assert_eq!(rt; fault, Some(ReadRowsFault::Refused(*want)), "at {text}");
    }
}

// A text, the end of the row before, the cut before, the cut after, and the fault.
const AT_CUTS: &[(
    &str,
    Option<i64>,
    Option<i64>,
    Option<i64>,
    Option<ReadRowsFault>,
)] = &[
    (
        "start,end,value\n5,6,1\n",
        None,
        None,
        Some(5),
        Some(ReadRowsFault::Refused(SeriesFault::RowPastCut { row: 1 })),
    ),
    ("start,end,value\n4,6,1\n", None, None, Some(5), None),
    (
        "start,end,value\n4,6,1\n",
        Some(5),
        Some(5),
        None,
        Some(ReadRowsFault::Refused(SeriesFault::OutOfOrder { row: 1 })),
    ),
    (
        "start,end,value\n4,6,1\n",
        Some(3),
        Some(5),
        None,
        Some(ReadRowsFault::Refused(SeriesFault::RowBeforeCut { row: 1 })),
    ),
    ("start,end,value\n5,6,1\n", Some(5), Some(5), None, None),
];

#[test]
fn a_row_outside_of_the_cut_is_refused(rt: HostRuntime) {
    for (text, last_end, from, upto, want) in AT_CUTS {
        let fault = read_rows(rt.alloc(), text.as_bytes(), *last_end, *from, *upto).err();
        assert_eq!(rt; fault, *want, "at {text}");
    }
}

const RECORDS: &[(&str, Option<i64>)] = &[
    ("start,end,value\r\n0,5,7\r\n", Some(7)),
    ("start,end,value\r0,5,7\r", Some(7)),
    ("start,end,value\n\"0\",\"5\",\"7\"\n", Some(7)),
    ("start,end,value\n+0,005,+7\n", Some(7)),
    ("start,end,value\n0,5,\n", None),
    ("start,end,value\n0,5,\"\"", None),
    ("\u{FEFF}start,end,value\n0,5,7\n", Some(7)),
    ("\"start\",end,value\n0,5,7", Some(7)),
    ("\n\nstart,end,value\n\n0,5,7\n\n", Some(7)),
    ("start,end,value\n0,5,\"5\"6\n", Some(56)),
    ("start,end,value\n0,5,\"-6", Some(-6)),
];

#[test]
fn a_record_is_what_csv_takes_for_one(rt: HostRuntime) -> Result<(), Fail> {
    for (text, value) in RECORDS {
        let rows = read_rows(rt.alloc(), text.as_bytes(), None, None, None)?;
        assert_eq!(rt; rows.len(), 1, "at {text}");
        let row = rows.get(0);
        assert_eq!(rt;
            (row.start, row.end, row.value),
            (0, 5, *value),
            "at {text}"
        );
    }
    Ok(())
}

#[test]
fn the_text_of_snapshots_is_put_line_by_line(rt: HostRuntime) -> Result<(), Fail> {
    let text = "start,end,value\n-4000000000000000000,0,-1\n0,5,7\n5,6,7\n8,4000000000000000000,\n";
    let rows: Rows = read_rows(rt.alloc(), text.as_bytes(), None, None, None)?;
    let list = SnapList::from_rows(rt.alloc(), &rows)?;
    let mut sink = MemSink::new(rt.alloc(), 100)?;
    put_header(&mut sink)?;
    put_rows(&mut sink, &list)?;
    assert_eq!(rt;
        sink.written(),
        b"start,end,value\n-4000000000000000000,0,-1\n0,5,7\n5,6,7\n".as_slice()
    );
    Ok(())
}

#[test]
fn the_longest_line_has_63_bytes(rt: HostRuntime) {
    let row = Row {
        start: i64::MIN,
        end: i64::MIN + 1,
        value: Some(i64::MIN),
    };
    let mut room = [0; 64];
    assert_eq!(rt; row_text(&row, &mut room), 63);
    let line = b"-9223372036854775808,-9223372036854775807,-9223372036854775808\n";
    assert_eq!(rt; &room[..63], line.as_slice());
}

#[test]
fn a_fault_tells_where_it_is(rt: HostRuntime) -> Result<(), Fail> {
    let text = format!(in rt.alloc(); "{}", SeriesFault::BadField { row: 2, field: 3 })?;
    assert_eq!(rt; text.as_str(), "field 3 of row 2 isn't a number");
    Ok(())
}
