// What arguments give by a table of options that isn't the one of `tilt`.
use std::alloc::Global;
use std::test::Fail;
use tilt_cli::{Arguments, OptionRow, Shape, WordsFault, is_file};
use tilt_testing::name_text;

const TABLE: &[OptionRow] = &[
    OptionRow {
        word: "--loud",
        shape: Shape::Flag,
    },
    OptionRow {
        word: "--wait",
        shape: Shape::Ticks,
    },
    OptionRow {
        word: "--name",
        shape: Shape::Text,
    },
];

// What the arguments between bars give by a table.
fn read(alloc: Global, table: &[OptionRow], text: &str) -> Result<Arguments, Fail> {
    let mut words = Vec::new(alloc);
    for piece in text.split('|') {
        words.push(String::from_str(alloc, piece)?)?;
    }
    Ok(Arguments::read(alloc, table, words.as_slice())?)
}

// The binds one after another, each with a blank behind it.
fn show_binds(alloc: Global, arguments: &Arguments) -> Result<String, Fail> {
    let mut shown = String::new(alloc);
    for bind in &arguments.binds {
        let name = name_text(&bind.name)?;
        let bind = format!(in alloc; "{name}={} ", bind.file)?;
        shown.push_str(bind.as_str())?;
    }
    Ok(shown)
}

// Arguments with bars between them; and their binds, whether `--loud` and `--name` are set, and what `--wait` is set to.
type Given = (&'static str, &'static str, bool, bool, Option<u64>);

const GIVEN: &[Given] = &[
    ("--loud", "", true, false, None),
    ("x=F", "x=F ", false, false, None),
    ("--wait|5", "", false, false, Some(5)),
    ("--wait|0", "", false, false, Some(0)),
    ("--wait|-0", "", false, false, Some(0)),
    ("--wait|+007", "", false, false, Some(7)),
    (
        "--wait|8000000000000000000",
        "",
        false,
        false,
        Some(8_000_000_000_000_000_000),
    ),
    ("y=G|--wait|5|--loud|x=F", "y=G x=F ", true, false, Some(5)),
    ("--name|--loud|--wait|1", "", false, true, Some(1)),
    ("--name|5", "", false, true, None),
    ("--loud|--name|--wait", "", true, true, None),
];

#[test]
fn arguments_give_what_the_table_says(rt: HostRuntime) -> Result<(), Fail> {
    for (text, binds, loud, named, wait) in GIVEN {
        let given = read(rt.alloc(), TABLE, text)?;
        let shown = show_binds(rt.alloc(), &given)?;
        assert_eq!(rt; shown.as_str(), *binds, "at {text}");
        assert_eq!(rt; given.has("--loud"), *loud, "at {text}");
        assert_eq!(rt; given.has("--name"), *named, "at {text}");
        assert_eq!(rt; given.ticks_of("--wait"), *wait, "at {text}");
        assert_eq!(rt; given.has("--wait"), wait.is_some(), "at {text}");
        assert_eq!(rt; given.ticks_of("--name"), None, "at {text}");
    }
    Ok(())
}

// Arguments with bars between them that the table refuses.
const REFUSED: &[&str] = &[
    "",
    "F",
    "=F",
    "x=",
    "--loud|--loud",
    "--loud=1",
    "--Loud",
    "--wait",
    "--wait|",
    "--wait|-1",
    "--wait|x",
    "--wait|1,2",
    "--wait|1.5",
    "--wait| 1",
    "--wait|--loud",
    "--wait|8000000000000000001",
    "--wait|99999999999999999999",
    "--wait|5|--wait|5",
    "--wait=5",
    "--name|",
    "--plain",
    "--cut|5",
];

#[test]
fn other_arguments_are_refused(rt: HostRuntime) -> Result<(), Fail> {
    for text in REFUSED {
        let mut words = Vec::new(rt.alloc());
        for piece in text.split('|') {
            words.push(String::from_str(rt.alloc(), piece)?)?;
        }
        match Arguments::read(rt.alloc(), TABLE, words.as_slice()) {
            Ok(_) => assert!(rt; false, "at {text}"),
            Err(fault) => assert_eq!(rt; fault, WordsFault::Usage, "at {text}"),
        }
    }
    Ok(())
}

#[test]
fn an_empty_table_has_no_options(rt: HostRuntime) -> Result<(), Fail> {
    let given = read(rt.alloc(), &[], "x=F")?;
    assert_eq!(rt; given.binds.len(), 1);
    let none = Arguments::read(rt.alloc(), TABLE, &[])?;
    assert!(rt; none.binds.is_empty() && !none.has("--loud"));
    let loud = [String::from_str(rt.alloc(), "--loud")?];
    assert!(rt; Arguments::read(rt.alloc(), &[], loud.as_slice()).is_err());
    Ok(())
}

#[test]
fn a_file_is_no_option(rt: HostRuntime) -> Result<(), Fail> {
    for (word, is) in [
        ("q.tilt", true),
        ("-", true),
        ("-q", true),
        ("", false),
        ("--", false),
        ("--q", false),
    ] {
        assert_eq!(rt; is_file(word), is, "at {word}");
    }
    Ok(())
}
