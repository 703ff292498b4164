// Lines by example, worked out by hand, and the text of faults.
use std::alloc::Global;
use std::process::Abort;
use std::test::Fail;
use tilt_feed::Update;
use tilt_feed_line::{KeyedLine, Line, LineFault, LineReader, ReadLineFault};
use tilt_lexer::Name;

// The inputs `price` and `size`.
fn make_inputs(alloc: Global) -> Result<Vec<Name>, Fail> {
    let mut inputs = Vec::new(alloc);
    inputs.push(Name::read(alloc, b"price")?.ok_or("price is a name")?)?;
    inputs.push(Name::read(alloc, b"size")?.ok_or("size is a name")?)?;
    Ok(inputs)
}

const LINES: &[(&str, Line)] = &[
    (
        "price,0,5,7",
        Line::Update {
            input: 0,
            update: Update::Row {
                start: 0,
                end: 5,
                value: Some(7),
            },
        },
    ),
    (
        "size,-3,5,",
        Line::Update {
            input: 1,
            update: Update::Row {
                start: -3,
                end: 5,
                value: None,
            },
        },
    ),
    (
        "size,5,,-42",
        Line::Update {
            input: 1,
            update: Update::Value {
                start: 5,
                value: -42,
            },
        },
    ),
    (
        "price,5,,",
        Line::Update {
            input: 0,
            update: Update::NoValue { start: 5 },
        },
    ),
    (
        "size,,9,",
        Line::Update {
            input: 1,
            update: Update::KnownUpTo { watermark: 9 },
        },
    ),
    (",,9,", Line::AllKnownUpTo { watermark: 9 }),
    (",,,", Line::Finish),
    // Quotes, and a CR at the end.
    (
        "\"size\",\"\",9,\"\"",
        Line::Update {
            input: 1,
            update: Update::KnownUpTo { watermark: 9 },
        },
    ),
    (",,9,\r", Line::AllKnownUpTo { watermark: 9 }),
    ("\"\",,9,\r", Line::AllKnownUpTo { watermark: 9 }),
];

#[test]
fn lines_without_keys(rt: HostRuntime) -> Result<(), Fail> {
    let inputs = make_inputs(rt.alloc())?;
    assert!(rt; inputs.len() < 100);
    let mut reader = LineReader::new(rt.alloc());
    for (text, line) in LINES {
        let found = reader.read_line(text.as_bytes(), &inputs);
        assert_eq!(rt; found, Ok(*line), "at {text:?}");
    }
    Ok(())
}

const BAD_LINES: &[(&str, LineFault)] = &[
    ("", LineFault::NotOneRecord),
    ("\r", LineFault::NotOneRecord),
    (",,9,\r,,9,", LineFault::NotOneRecord),
    ("price,0,5", LineFault::FieldCount { expected: 4 }),
    ("price,0,5,7,", LineFault::FieldCount { expected: 4 }),
    ("\"price,0,5,7\"", LineFault::FieldCount { expected: 4 }),
    ("price,,,", LineFault::NoForm),
    ("price,,,7", LineFault::NoForm),
    ("price,,5,7", LineFault::NoForm),
    (",0,5,7", LineFault::NoForm),
    (",,5,7", LineFault::NoForm),
    // The form comes before the name, and the name before the numbers.
    ("cost,,5,7", LineFault::NoForm),
    ("cost,x,y,z", LineFault::UnknownInput),
    (" price,0,5,7", LineFault::UnknownInput),
    ("Price,0,5,7", LineFault::UnknownInput),
    ("price,x,y,z", LineFault::BadStart),
    ("price,0,y,z", LineFault::BadEnd),
    ("price,0,5,z", LineFault::BadValue),
    ("price,0,,z", LineFault::BadValue),
    ("price,0,5,7.0", LineFault::BadValue),
    ("price,0,9223372036854775808,7", LineFault::BadEnd),
    (",,x,", LineFault::BadEnd),
];

#[test]
fn bad_lines(rt: HostRuntime) -> Result<(), Fail> {
    let inputs = make_inputs(rt.alloc())?;
    assert!(rt; inputs.len() < 100);
    let mut reader = LineReader::new(rt.alloc());
    for (text, fault) in BAD_LINES {
        let found = reader.read_line(text.as_bytes(), &inputs);
        assert_eq!(rt; found, Err(ReadLineFault::BadLine(*fault)), "at {text:?}");
    }
    Ok(())
}

// What a line says with a key: the key, which is empty in the watermark of all keys, and the line.
const KEYED_LINES: &[(&str, Result<(&str, Line), LineFault>)] = &[
    (
        "a,price,0,5,7",
        Ok((
            "a",
            Line::Update {
                input: 0,
                update: Update::Row {
                    start: 0,
                    end: 5,
                    value: Some(7),
                },
            },
        )),
    ),
    (
        "\"a,\"\"b\"\"\",price,5,,",
        Ok((
            "a,\"b\"",
            Line::Update {
                input: 0,
                update: Update::NoValue { start: 5 },
            },
        )),
    ),
    ("a,,,9,", Ok(("a", Line::AllKnownUpTo { watermark: 9 }))),
    ("é,,,,", Ok(("é", Line::Finish))),
    (",,,9,", Ok(("", Line::AllKnownUpTo { watermark: 9 }))),
    (",,,,", Err(LineFault::NoForm)),
    (",cost,0,5,7", Err(LineFault::NoForm)),
    (",,,x,", Err(LineFault::BadEnd)),
    ("a,,9,", Err(LineFault::FieldCount { expected: 5 })),
    ("a,cost,0,5,7", Err(LineFault::UnknownInput)),
];

// Ends the test unless the line says that with a key.
fn assert_keyed(
    rt: &impl Abort,
    found: Result<KeyedLine<'_>, ReadLineFault>,
    want: &Result<(&str, Line), LineFault>,
    text: &str,
) {
    let found = match &found {
        Ok(KeyedLine::OfKey { key, line }) => Ok((key.bytes(), *line)),
        Ok(KeyedLine::AllKnownUpTo { watermark }) => Ok((
            b"".as_slice(),
            Line::AllKnownUpTo {
                watermark: *watermark,
            },
        )),
        Err(fault) => Err(*fault),
    };
    match (found, want) {
        (Ok((key, line)), Ok((want_key, want_line))) => {
            assert!(rt; key == want_key.as_bytes(), "at {text:?}");
            assert_eq!(rt; line, *want_line, "at {text:?}");
        }
        (Err(fault), Err(want)) => assert_eq!(rt;
            fault,
            ReadLineFault::BadLine(*want),
            "at {text:?}"
        ),
        _ => assert!(rt; false, "at {text:?}"),
    }
}

#[test]
fn lines_with_keys(rt: HostRuntime) -> Result<(), Fail> {
    let inputs = make_inputs(rt.alloc())?;
    assert!(rt; inputs.len() < 100);
    let mut reader = LineReader::new(rt.alloc());
    for (text, want) in KEYED_LINES {
        assert_keyed(
            &rt,
            reader.read_keyed_line(text.as_bytes(), &inputs),
            want,
            text,
        );
    }
    Ok(())
}

const FAULT_TEXTS: &[(LineFault, &str)] = &[
    (LineFault::NotOneRecord, "the line isn't one CSV record"),
    (
        LineFault::FieldCount { expected: 5 },
        "the line doesn't have 5 fields",
    ),
    (
        LineFault::NoForm,
        "no form of a line leaves exactly these fields empty",
    ),
    (LineFault::UnknownInput, "no input has this name"),
    (LineFault::BadStart, "the start isn't a number"),
    (LineFault::BadEnd, "the end isn't a number"),
    (LineFault::BadValue, "the value isn't a number"),
];

#[test]
fn faults_are_printed(rt: HostRuntime) -> Result<(), Fail> {
    for (fault, text) in FAULT_TEXTS {
        let printed = format!(in rt.alloc(); "{}", ReadLineFault::BadLine(*fault))?;
        assert_eq!(rt; printed.as_str(), *text);
    }
    let printed = format!(in rt.alloc(); "{}", ReadLineFault::OutOfMemory)?;
    assert_eq!(rt; printed.as_str(), "out of memory");
    Ok(())
}
