// What the readings of the inputs `a`, `b` and `c` mean, by the texts of options. The conventions were worked out by hand from the rules
// of LIVE.md. A tick is a second.
use std::alloc::{AllocError as OutOfMemory, Global};
use std::test::Fail;
use tilt_conventions::{Convention, Options, Ties};
use tilt_lexer::Name;
use tilt_reading_options::{
    ChoiceFault, FormFault, ReadingChoice, ReadingOption, ReadingTexts, read_choice,
};
use tilt_zones::{Fold, Transition, Zone};

const EVENT: Options = Options {
    convention: Convention::Event,
    ties: Ties::Refuse,
};

const HOLD: Options = Options {
    convention: Convention::Hold { max_age: None },
    ties: Ties::Refuse,
};

const FIVE: Options = Options {
    convention: Convention::Hold { max_age: Some(5) },
    ties: Ties::Refuse,
};

const HOUR: Options = Options {
    convention: Convention::Hold {
        max_age: Some(3600),
    },
    ties: Ties::Refuse,
};

// The texts of `--events` and `--max-age`, and the options of the inputs.
const SAID: &[(&str, &str, [Options; 3])] = &[
    ("", "", [HOLD, HOLD, HOLD]),
    ("", "5s", [FIVE, FIVE, FIVE]),
    ("", "a=5s", [FIVE, HOLD, HOLD]),
    ("", "c=60min,a=5000ms", [FIVE, HOLD, HOUR]),
    ("b", "", [HOLD, EVENT, HOLD]),
    ("c,a", "", [EVENT, HOLD, EVENT]),
    ("b", "1h", [HOUR, EVENT, HOUR]),
    ("b", "c=1h", [HOLD, EVENT, HOUR]),
];

// Texts of `--event` if it is given, of `--events` and of `--max-age`, and the option that is bad.
const BAD: &[(bool, &str, &str, ReadingOption)] = &[
    (true, "a", "", ReadingOption::Events),
    (true, "", "5s", ReadingOption::MaxAge),
    (true, "", "a=5s", ReadingOption::MaxAge),
    (true, "a", "b=5s", ReadingOption::MaxAge),
    (false, "a", "a=5s", ReadingOption::MaxAge),
    (false, "b,a", "c=5s,a=5s", ReadingOption::MaxAge),
    (false, "a,a", "", ReadingOption::Events),
    (false, "a,", "", ReadingOption::Events),
    (false, "a=5s", "", ReadingOption::Events),
    (false, "7s", "", ReadingOption::Events),
    (false, "", "a=5s,a=6s", ReadingOption::MaxAge),
    (false, "", "a=5s,7s", ReadingOption::MaxAge),
    (false, "", "a=1500ms", ReadingOption::MaxAge),
    (false, "", "a=0s", ReadingOption::MaxAge),
    (false, "", "a=", ReadingOption::MaxAge),
    (false, "", "a", ReadingOption::MaxAge),
    (false, "", "7=5s", ReadingOption::MaxAge),
];

// Texts of `--scale`, `--max-age` and `--events`, and the first name that is no input.
const MISSING: &[(&str, &str, &str, &[u8])] = &[
    ("a=10,x=10", "y=5s", "z", b"x"),
    ("a=10", "b=5s,y=5s", "z", b"y"),
    ("a=10", "b=5s", "c,z", b"z"),
];

// Texts of `--zone` and `--fold`, and the fold that they say.
const ZONES: &[(&str, &str, Option<Fold>)] = &[
    ("UTC", "", None),
    ("Europe/Berlin", "first", Some(Fold::First)),
    (
        "America/Argentina/Buenos_Aires",
        "second",
        Some(Fold::Second),
    ),
    ("America/Port-au-Prince", "", None),
    ("Etc/GMT+5", "", None),
];

// Texts of `--unit`, `--zone` and `--fold`, and the option that is bad.
const BAD_ZONES: &[(&str, &str, &str, ReadingOption)] = &[
    ("", "", "first", ReadingOption::Fold),
    ("", "UTC", "third", ReadingOption::Fold),
    ("", "UTC", "First", ReadingOption::Fold),
    ("s", "UTC", "", ReadingOption::Zone),
    ("s", "", "first", ReadingOption::Fold),
    ("", "/etc/passwd", "", ReadingOption::Zone),
    ("", "../passwd", "", ReadingOption::Zone),
    ("", "Europe/../passwd", "", ReadingOption::Zone),
    ("", "Europe/Berlin ", "", ReadingOption::Zone),
    ("", "Europe\\Berlin", "", ReadingOption::Zone),
    ("", "Köln", "", ReadingOption::Zone),
    ("", "/", "third", ReadingOption::Zone),
];

// A text, unless it is empty.
fn copy_text(alloc: Global, text: &str) -> Result<Option<String>, OutOfMemory> {
    if text.is_empty() {
        return Ok(None);
    }
    Ok(Some(String::from_str(alloc, text)?))
}

// The texts of options for times in the column `time` and ticks of a second.
fn make_texts(alloc: Global) -> Result<ReadingTexts, OutOfMemory> {
    Ok(ReadingTexts {
        time: String::from_str(alloc, "time")?,
        name: None,
        value: None,
        tick: Some(String::from_str(alloc, "1s")?),
        origin: None,
        unit: None,
        zone: None,
        fold: None,
        scale: None,
        event: false,
        events: None,
        max_age: None,
        closed: None,
        ties: None,
        null: None,
        skips_empty: false,
        delimiter: None,
        decimal: None,
    })
}

// What these texts say. Those that are empty aren't given.
fn choose(
    alloc: Global,
    scale: &str,
    event: bool,
    events: &str,
    max_age: &str,
) -> Result<ReadingChoice, ChoiceFault> {
    let mut texts = make_texts(alloc)?;
    texts.scale = copy_text(alloc, scale)?;
    texts.event = event;
    texts.events = copy_text(alloc, events)?;
    texts.max_age = copy_text(alloc, max_age)?;
    read_choice(alloc, texts)
}

// What these texts say of times. Those that are empty aren't given.
fn choose_times(
    alloc: Global,
    unit: &str,
    zone: &str,
    fold: &str,
) -> Result<ReadingChoice, ChoiceFault> {
    let mut texts = make_texts(alloc)?;
    texts.unit = copy_text(alloc, unit)?;
    texts.zone = copy_text(alloc, zone)?;
    texts.fold = copy_text(alloc, fold)?;
    read_choice(alloc, texts)
}

// The names of the inputs.
fn make_inputs(alloc: Global) -> Result<[Name; 3], Fail> {
    Ok([
        Name::read(alloc, b"a")?.ok_or("a is a name")?,
        Name::read(alloc, b"b")?.ok_or("b is a name")?,
        Name::read(alloc, b"c")?.ok_or("c is a name")?,
    ])
}

#[test]
fn each_input_has_its_own_convention(rt: HostRuntime) -> Result<(), Fail> {
    let inputs = make_inputs(rt.alloc())?;
    for (events, max_age, expected) in SAID {
        let choice = choose(rt.alloc(), "", false, events, max_age)?;
        let (_, options) = choice.form(rt.alloc(), &None, &inputs)?;
        assert_eq!(rt; options.as_slice(), expected.as_slice());
    }
    Ok(())
}

#[test]
fn all_readings_are_events(rt: HostRuntime) -> Result<(), Fail> {
    let inputs = make_inputs(rt.alloc())?;
    let choice = choose(rt.alloc(), "", true, "", "")?;
    let (_, options) = choice.form(rt.alloc(), &None, &inputs)?;
    assert_eq!(rt; options.as_slice(), [EVENT, EVENT, EVENT].as_slice());
    Ok(())
}

#[test]
fn options_that_contradict_one_another_are_bad(rt: HostRuntime) -> Result<(), Fail> {
    for (event, events, max_age, expected) in BAD {
        match choose(rt.alloc(), "", *event, events, max_age) {
            Ok(_choice) => return Err("a bad option was taken".into()),
            Err(fault) => {
                let bad = ChoiceFault::Bad { option: *expected };
                assert_eq!(rt; fault, bad);
            }
        }
    }
    Ok(())
}

#[test]
fn the_first_name_that_is_no_input_is_reported(rt: HostRuntime) -> Result<(), Fail> {
    let inputs = make_inputs(rt.alloc())?;
    for (scale, max_age, events, expected) in MISSING {
        let choice = choose(rt.alloc(), scale, false, events, max_age)?;
        match choice.form(rt.alloc(), &None, &inputs) {
            Ok((_form, _options)) => return Err("a name that is no input was taken".into()),
            Err(FormFault::NoInput { name }) => assert_eq!(rt; name.bytes(), *expected),
            Err(FormFault::OutOfMemory) => return Err("out of memory".into()),
        }
    }
    Ok(())
}

#[test]
fn zones_that_options_name(rt: HostRuntime) -> Result<(), Fail> {
    for (name, text, fold) in ZONES {
        let choice = choose_times(rt.alloc(), "", name, text)?;
        let zone = choice.zone().as_ref().ok_or("no zone")?;
        assert_eq!(rt; zone.name(), *name);
        assert_eq!(rt; zone.fold(), *fold);
    }
    let choice = choose_times(rt.alloc(), "", "", "")?;
    assert!(rt; choice.zone().is_none());
    Ok(())
}

#[test]
fn options_of_local_times_that_are_bad(rt: HostRuntime) -> Result<(), Fail> {
    for (unit, zone, fold, expected) in BAD_ZONES {
        match choose_times(rt.alloc(), unit, zone, fold) {
            Ok(_choice) => return Err("a bad option was taken".into()),
            Err(fault) => {
                let bad = ChoiceFault::Bad { option: *expected };
                assert_eq!(rt; fault, bad);
            }
        }
    }
    Ok(())
}

// A form has rules for local times if the table of its zone is there.
#[test]
fn a_form_reads_local_times_by_a_table(rt: HostRuntime) -> Result<(), Fail> {
    let inputs = make_inputs(rt.alloc())?;
    let choice = choose_times(rt.alloc(), "", "UTC", "second")?;
    let (before, _) = choice.form(rt.alloc(), &None, &inputs)?;
    assert!(rt; before.rules.local().is_none());
    let transitions: Vec<Transition> = Vec::new(rt.alloc());
    let table = match Zone::new(0, transitions, 4_000_000_000) {
        Ok(table) => Some(table),
        Err(_fault) => return Err("no transitions are in order".into()),
    };
    let (form, _) = choice.form(rt.alloc(), &table, &inputs)?;
    let local = form.rules.local().as_ref().ok_or("no rules")?;
    assert_eq!(rt; local.name(), b"UTC".as_slice());
    assert_eq!(rt; local.fold(), Some(Fold::Second));
    Ok(())
}
