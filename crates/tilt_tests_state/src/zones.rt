// Texts of states of runs over readings whose times are local times of a zone.
use std::alloc::Global;
use std::process::Abort;
use std::test::Fail;
use tilt_conventions::{Convention, Options, Ties};
use tilt_feed_form::{FeedForm, ReadingSetup};
use tilt_lexer::Name;
use tilt_reading_lines::{LocalRules, Moments, Rules, Source, Titles};
use tilt_reading_text::ReadingForm;
use tilt_readings::{Clock, Closed};
use tilt_run_state::{StateRejection, encode, is_in_range, read_state};
use tilt_syntax::{Query, read_text};
use tilt_zones::{Fold, Zone};

const QUERY: &str = "input x;\nemit x over (0, 40000];\n";

// What a state begins with, up to the rules for local times, and what is after those.
const FRONT: &str =
    "tilt live 2\ndelimiter 44\nof inputs\ntime 1 t\ntick 1000000\norigin 0\nclosed left\nmoments dates\nmark 46\nnulls 0\nskips no\n";

const BACK: &str = "sources 1\nsource 1 x\nscale 1\nmeanings 1\nevent\nties refuse\n\
    columns 2 time 0 places 1\nplace 1\nfinished no\ninputs 1\n\
    watermark 1290 open 1285 value 7 mark 1289 latest 1290 reading 7 skipped 3\n\
    tilt live 1\nquery 2\ninput x;\nemit x over (0, 40000];\nlateness none\nidle none\nahead none\n\
    bytes 1234\nlines 56\nwritten 789\nfrom 1200\nshown 1250\nfinished no\ngreatest none\nlatest none\n\
    watermark 1290 open 1285 value 7 rows 2 held 0\n1200,1250,10\n1250,1285,\nend\n";

// A zone and a fold, and how they are spelled.
const LOCALS: &[(&str, Option<Fold>, &str)] = &[
    ("Europe/Berlin", None, "zone 13 Europe/Berlin\nfold none\n"),
    (
        "Europe/Berlin",
        Some(Fold::First),
        "zone 13 Europe/Berlin\nfold first\n",
    ),
    (
        "Europe/Berlin",
        Some(Fold::Second),
        "zone 13 Europe/Berlin\nfold second\n",
    ),
    ("UTC", None, "zone 3 UTC\nfold none\n"),
];

// Rules for local times of a zone whose clocks are always so far ahead.
fn local_of(alloc: Global, name: &str, fold: Option<Fold>, ahead: i32) -> Result<LocalRules, Fail> {
    match Zone::new(ahead, Vec::new(alloc), 4_000_000_000) {
        Ok(zone) => Ok(LocalRules::new(zone, fold, name.as_bytes().to_vec(alloc)?)),
        Err(_fault) => Err(Fail::from("no zone")),
    }
}

// A form whose only input is `x`.
fn form_of(alloc: Global, local: Option<LocalRules>) -> Result<FeedForm, Fail> {
    let clock = Clock {
        origin: 0,
        length: 1_000_000,
        closed: Closed::Left,
    };
    let mut sources = Vec::new(alloc);
    sources.push(Source::new(Name::read(alloc, b"x")?.ok_or("no name")?, 1))?;
    let form = ReadingForm {
        delimiter: b',',
        titles: Titles::OfInputs {
            time: b"t".as_slice().to_vec(alloc)?,
        },
        rules: Rules::new(Moments::Dates, local, clock, b'.', Vec::new(alloc), false),
        sources,
    };
    let mut options = Vec::new(alloc);
    options.push(Options {
        convention: Convention::Event,
        ties: Ties::Refuse,
    })?;
    Ok(FeedForm::Readings {
        setup: ReadingSetup::new(form, options),
    })
}

fn form_in_zone(alloc: Global, name: &str, fold: Option<Fold>) -> Result<FeedForm, Fail> {
    form_of(alloc, Some(local_of(alloc, name, fold, 3600)?))
}

fn query_of(alloc: Global) -> Result<Query, Fail> {
    match read_text(alloc, QUERY.as_bytes()) {
        Ok(query) => Ok(query),
        Err(_fault) => Err(Fail::from("no query")),
    }
}

fn is_read_back<R: Abort>(alloc: Global, rt: &R, form: &FeedForm, lines: &str) -> Result<(), Fail> {
    let query = query_of(alloc)?;
    let text = format!(in alloc; "{FRONT}{lines}{BACK}")?;
    match read_state(alloc, &query, form, text.as_bytes()) {
        Ok(state) => {
            assert!(rt; is_in_range(&state));
            let mut again = Vec::new(alloc);
            encode(alloc, form, &state, &mut again)?;
            assert_eq!(rt; again.as_slice(), text.as_bytes());
        }
        Err(_rejection) => assert!(rt; false, "at {lines:?}"),
    }
    Ok(())
}

fn is_rejected<R: Abort>(alloc: Global, rt: &R, form: &FeedForm, lines: &str) -> Result<(), Fail> {
    let query = query_of(alloc)?;
    let text = format!(in alloc; "{FRONT}{lines}{BACK}")?;
    match read_state(alloc, &query, form, text.as_bytes()) {
        Ok(_state) => assert!(rt; false, "at {lines:?}"),
        Err(rejection) => assert!(rt; rejection == StateRejection::OtherOptions),
    }
    Ok(())
}

#[test]
fn states_with_a_zone_are_read_back(rt: HostRuntime) -> Result<(), Fail> {
    let alloc = rt.alloc();
    for (name, fold, lines) in LOCALS {
        is_read_back(alloc, &rt, &form_in_zone(alloc, name, *fold)?, lines)?;
    }
    is_read_back(alloc, &rt, &form_of(alloc, None)?, "")
}

// A new version of the time zone database can have another table of the zone.
#[test]
fn a_table_of_the_zone_is_not_kept(rt: HostRuntime) -> Result<(), Fail> {
    let alloc = rt.alloc();
    let local = local_of(alloc, "UTC", None, 0)?;
    let form = form_of(alloc, Some(local))?;
    is_read_back(alloc, &rt, &form, "zone 3 UTC\nfold none\n")
}

#[test]
fn states_of_another_zone_or_fold_are_rejected(rt: HostRuntime) -> Result<(), Fail> {
    let alloc = rt.alloc();
    let form = form_in_zone(alloc, "Europe/Berlin", Some(Fold::First))?;
    for lines in &[
        "",
        "zone 13 Europe/Berlin\nfold none\n",
        "zone 13 Europe/Berlin\nfold second\n",
        "zone 12 Europe/Paris\nfold first\n",
        "zone 13 Europe/Berlin\n",
        "fold first\n",
    ] {
        is_rejected(alloc, &rt, &form, lines)?;
    }
    let without = form_of(alloc, None)?;
    is_rejected(alloc, &rt, &without, "zone 13 Europe/Berlin\nfold first\n")
}
