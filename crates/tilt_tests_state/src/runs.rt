// Texts of states of runs over rows and over readings, and texts from which such a run can't go on.
use std::alloc::Global;
use std::process::Abort;
use std::test::Fail;
use tilt_feed_form::{FeedForm, ReadingSetup};
use tilt_lexer::Name;
use tilt_reading_options::{ReadingTexts, read_choice};
use tilt_run_state::{StateRejection, encode, is_in_range, read_state};
use tilt_syntax::{Query, read_text};
use tilt_watermarks::Options;

// The query of the states, and another one.
const QUERY: &str = "input x;\ninput y;\nemit x + y over (0, 40000];\n";

const OTHER_QUERY: &str = "input x;\ninput y;\nemit x - y over (0, 40000];\n";

// What the state of a run over readings begins with. A tick is a minute, and one of the texts that mean no value has a space.
const OPENING: &str = "tilt live 2\ndelimiter 59\nnamed\ntime 4 time\nname 3 tag\nvalue 5 value\n\
    tick 60000000000\norigin 1704067200000000000\nclosed right\nmoments dates\nmark 44\n\
    nulls 2\nnull 2 NA\nnull 3 n a\nskips yes\nsources 2\nsource 1 x\nscale 10\nsource 1 y\nscale 10\n\
    meanings 2\nhold 5\nties last\nhold 5\nties last\n";

// What is kept of its text, and the state after that.
const KEPT: &str = "columns 3 time 0 named 1 value 2\nfinished no\ninputs 2\n\
    watermark 1290 open 1285 value 7 mark 1289 latest 1290 reading 7 skipped 3\n\
    watermark -3 open none value none mark -3 latest -2 reading none skipped 0\n";

const LIVE: &str =
    "tilt live 1\nquery 3\ninput x;\ninput y;\nemit x + y over (0, 40000];\nlateness none\nidle none\nahead none\n\
    bytes 1234\nlines 56\nwritten 789\nfrom 1200\nshown 1250\nfinished no\ngreatest none\nlatest none\n\
    watermark 1290 open 1285 value 7 rows 2 held 0\n1200,1250,10\n1250,1285,\n\
    watermark -3 open none value none rows 0 held 0\nend\n";

// The opening of a run whose records have a column for each input, whose moments are milliseconds, and whose readings are events.
const OF_INPUTS: &str =
    "tilt live 2\ndelimiter 44\nof inputs\ntime 1 t\ntick 1000000\norigin 0\nclosed left\nmoments ms\nmark 46\n\
    nulls 0\nskips no\nsources 2\nsource 1 x\nscale 1\nsource 1 y\nscale 1\n\
    meanings 2\nevent\nties refuse\nevent\nties refuse\n";

// A part of a state of a run over readings, what is in its place, and why the text is rejected.
const REPLACED: &[(&str, &str, StateRejection)] = &[
    // Another setup, and one that is cut off.
    ("delimiter 59", "delimiter 44", StateRejection::OtherOptions),
    ("name 3 tag\n", "name 3 tap\n", StateRejection::OtherOptions),
    ("closed right", "closed left", StateRejection::OtherOptions),
    ("hold 5\n", "hold none\n", StateRejection::OtherOptions),
    ("meanings 2\n", "", StateRejection::OtherOptions),
    // The first line of a version that there isn't.
    ("tilt live 2\n", "tilt live 3\n", StateRejection::NotAState),
    // Inputs of the text that are missing, a tick that no reading has, and numbers that aren't spelled in the shortest way.
    ("columns 3", "columns 03", StateRejection::NotAState),
    (
        "latest -2",
        "latest -4000000000000000000",
        StateRejection::NotAState,
    ),
    (
        "inputs 2\nwatermark 1290 open 1285 value 7 mark 1289 latest 1290 reading 7 skipped 3\n",
        "inputs 1\n",
        StateRejection::NotAState,
    ),
    // Options of watermarks, and updates that are held.
    ("idle none", "idle 10", StateRejection::NotAState),
    ("lateness none", "lateness 100", StateRejection::NotAState),
    (
        "rows 0 held 0\n",
        "rows 0 held 1\nnull 5\n",
        StateRejection::NotAState,
    ),
    // A state that is missing, and another query.
    ("tilt live 1\n", "", StateRejection::NotAState),
    ("emit x + y", "emit x - y", StateRejection::OtherQuery),
];

// The form of the text whose states have the first opening.
fn first_form(alloc: Global) -> Result<FeedForm, Fail> {
    form_of(
        alloc,
        ReadingTexts {
            time: String::from_str(alloc, "time")?,
            name: Some(String::from_str(alloc, "tag")?),
            value: Some(String::from_str(alloc, "value")?),
            tick: Some(String::from_str(alloc, "1min")?),
            origin: Some(String::from_str(alloc, "2024-01-01T00:00:00Z")?),
            unit: None,
            zone: None,
            fold: None,
            scale: Some(String::from_str(alloc, "10")?),
            event: false,
            events: None,
            max_age: Some(String::from_str(alloc, "5min")?),
            closed: Some(String::from_str(alloc, "right")?),
            ties: Some(String::from_str(alloc, "last")?),
            null: Some(String::from_str(alloc, "NA,n a")?),
            skips_empty: true,
            delimiter: Some(String::from_str(alloc, ";")?),
            decimal: Some(String::from_str(alloc, ",")?),
        },
    )
}

// The form of the text whose states have the second one.
fn second_form(alloc: Global) -> Result<FeedForm, Fail> {
    form_of(
        alloc,
        ReadingTexts {
            time: String::from_str(alloc, "t")?,
            name: None,
            value: None,
            tick: Some(String::from_str(alloc, "1ms")?),
            origin: Some(String::from_str(alloc, "1970-01-01T00:00:00Z")?),
            unit: Some(String::from_str(alloc, "ms")?),
            zone: None,
            fold: None,
            scale: None,
            event: true,
            events: None,
            max_age: None,
            closed: Some(String::from_str(alloc, "left")?),
            ties: Some(String::from_str(alloc, "refuse")?),
            null: None,
            skips_empty: false,
            delimiter: None,
            decimal: None,
        },
    )
}

// The form of a feed of readings that options say, for the inputs of the query.
fn form_of(alloc: Global, texts: ReadingTexts) -> Result<FeedForm, Fail> {
    let mut inputs = Vec::new(alloc);
    inputs.push(Name::read(alloc, b"x")?.ok_or("no name")?)?;
    inputs.push(Name::read(alloc, b"y")?.ok_or("no name")?)?;
    let choice = match read_choice(alloc, texts) {
        Ok(choice) => choice,
        Err(_fault) => return Err(Fail::from("bad options")),
    };
    match choice.form(alloc, &None, &inputs) {
        Ok((form, options)) => Ok(FeedForm::Readings {
            setup: ReadingSetup::new(form, options),
        }),
        Err(_fault) => Err(Fail::from("no form")),
    }
}

// The form of a feed of rows whose watermarks have this lateness.
fn form_of_rows(lateness: Option<u64>) -> FeedForm {
    FeedForm::Rows {
        options: Options {
            idle: None,
            ahead: None,
            lateness,
        },
    }
}

fn query_of(alloc: Global, text: &str) -> Result<Query, Fail> {
    match read_text(alloc, text.as_bytes()) {
        Ok(query) => Ok(query),
        Err(_fault) => Err(Fail::from("no query")),
    }
}

fn is_read_back<R: Abort>(alloc: Global, rt: &R, form: &FeedForm, text: &[u8]) -> Result<(), Fail> {
    let query = query_of(alloc, QUERY)?;
    match read_state(alloc, &query, form, text) {
        Ok(state) => {
            assert!(rt; is_in_range(&state));
            let mut again = Vec::new(alloc);
            encode(alloc, form, &state, &mut again)?;
            assert_eq!(rt; again.as_slice(), text);
        }
        Err(_rejection) => assert!(rt; false),
    }
    Ok(())
}

fn is_rejected<R: Abort>(
    alloc: Global,
    rt: &R,
    query: &str,
    form: &FeedForm,
    text: &[u8],
    why: &StateRejection,
) -> Result<(), Fail> {
    let query = query_of(alloc, query)?;
    match read_state(alloc, &query, form, text) {
        Ok(_state) => assert!(rt; false),
        Err(rejection) => assert!(rt; rejection == *why),
    }
    Ok(())
}

#[test]
fn states_of_rows_are_those_of_live_runs(rt: HostRuntime) -> Result<(), Fail> {
    let alloc = rt.alloc();
    is_read_back(alloc, &rt, &form_of_rows(None), LIVE.as_bytes())?;
    let late = format!(in alloc; "{LIVE}")?.replace(alloc, "lateness none", "lateness 100")?;
    is_read_back(alloc, &rt, &form_of_rows(Some(100)), late.as_bytes())
}

#[test]
fn states_of_readings_are_read_back(rt: HostRuntime) -> Result<(), Fail> {
    let alloc = rt.alloc();
    let text = format!(in alloc; "{OPENING}{KEPT}{LIVE}")?;
    is_read_back(alloc, &rt, &first_form(alloc)?, text.as_bytes())?;
    let events = format!(in alloc; "{OF_INPUTS}{KEPT}{LIVE}")?;
    is_read_back(alloc, &rt, &second_form(alloc)?, events.as_bytes())
}

#[test]
fn each_rejection_has_its_cause(rt: HostRuntime) -> Result<(), Fail> {
    let alloc = rt.alloc();
    let form = first_form(alloc)?;
    let whole = format!(in alloc; "{OPENING}{KEPT}{LIVE}")?;
    for (old, new, why) in REPLACED {
        let (front, back) = whole.split_once(old).ok_or("no such part")?;
        let text = format!(in alloc; "{front}{new}{back}")?;
        is_rejected(alloc, &rt, QUERY, &form, text.as_bytes(), why)?;
    }
    Ok(())
}

#[test]
fn states_of_other_runs_are_rejected(rt: HostRuntime) -> Result<(), Fail> {
    let alloc = rt.alloc();
    let rows = form_of_rows(None);
    let first = first_form(alloc)?;
    let text = format!(in alloc; "{OPENING}{KEPT}{LIVE}")?;
    let readings = text.as_bytes();
    let live = LIVE.as_bytes();
    is_rejected(
        alloc,
        &rt,
        QUERY,
        &rows,
        readings,
        &StateRejection::OtherOptions,
    )?;
    is_rejected(
        alloc,
        &rt,
        QUERY,
        &first,
        live,
        &StateRejection::OtherOptions,
    )?;
    is_rejected(
        alloc,
        &rt,
        QUERY,
        &second_form(alloc)?,
        readings,
        &StateRejection::OtherOptions,
    )?;
    is_rejected(
        alloc,
        &rt,
        QUERY,
        &form_of_rows(Some(100)),
        live,
        &StateRejection::OtherOptions,
    )?;
    is_rejected(
        alloc,
        &rt,
        OTHER_QUERY,
        &rows,
        live,
        &StateRejection::OtherQuery,
    )?;
    is_rejected(
        alloc,
        &rt,
        OTHER_QUERY,
        &first,
        readings,
        &StateRejection::OtherQuery,
    )
}

#[test]
fn texts_that_are_cut_off_are_rejected(rt: HostRuntime) -> Result<(), Fail> {
    let alloc = rt.alloc();
    let form = first_form(alloc)?;
    let query = query_of(alloc, QUERY)?;
    let text = format!(in alloc; "{OPENING}{KEPT}{LIVE}")?;
    let bytes = text.as_bytes();
    for length in 0..bytes.len() {
        assert!(rt; read_state(alloc, &query, &form, &bytes[..length]).is_err());
    }
    Ok(())
}
