// The spelling of a setup.
ghost use Rattle.std.specs.Prelude.{◌≡◌, ◌++◌, codes, flat_map, map, OnOk, Some};
ghost use Rattle.std.specs.Fmt.{decimal, signed_decimal};
ghost use Rattle.tilt_live_state.specs.Spelling.{flag_text, line};
ghost use Rattle.tilt_reading_lines.specs.Titles.{titles_of};
ghost use Rattle.tilt_run_state.specs.Setup.{clock_lines, closed_text, convention_line, counted_lines, fold_text, form_lines};
ghost use Rattle.tilt_run_state.specs.Setup.{local_lines, meaning_lines, moments_text, null_line, rules_lines, setup_lines};
ghost use Rattle.tilt_run_state.specs.Setup.{source_lines, text_line, ties_text};
ghost use Rattle.tilt_run_state.specs.Setup.{titles_lines};

use std::alloc::AllocError as OutOfMemory;
use tilt_conventions::{Convention, Options, Ties};
use tilt_feed_form::ReadingSetup;
use tilt_reading_lines::{LocalRules, Moments, Rules, Source, Titles};
use tilt_reading_text::ReadingForm;
use tilt_readings::{Clock, Closed, Unit};
use tilt_text::{put, put_number};
use tilt_zones::Fold;

// Appends the lines of a setup.
pub(crate) fn put_setup(text: &mut Vec<u8>, setup: &ReadingSetup) -> Result<(), OutOfMemory>
    ensures { OnOk result (text.new.items ≡ text.old.items ++ setup_lines setup.now) }
{
    put_form(text, setup.form())?;
    put_meanings(text, setup.options())
}

// Appends the lines of a form.
fn put_form(text: &mut Vec<u8>, form: &ReadingForm) -> Result<(), OutOfMemory>
    ensures { OnOk result (text.new.items ≡ text.old.items ++ form_lines form.now) }
{
    put_count(text, b"delimiter", u64::from(form.delimiter))?;
    put_titles(text, &form.titles)?;
    put_rules(text, &form.rules)?;
    put_local(text, form.rules.local())?;
    put_sources(text, &form.sources)
}

// Appends how columns are titled.
fn put_titles(text: &mut Vec<u8>, titles: &Titles) -> Result<(), OutOfMemory>
    ensures { OnOk result (text.new.items ≡ text.old.items ++ titles_lines (titles_of titles.now)) }
{
    match titles {
        Titles::Named { time, name, value } => {
            put(text, b"named\n")?;
            put_text(text, b"time", time)?;
            put_text(text, b"name", name)?;
            put_text(text, b"value", value)
        }
        Titles::OfInputs { time } => {
            put(text, b"of inputs\n")?;
            put_text(text, b"time", time)
        }
    }
}

// Appends the lines of rules.
fn put_rules(text: &mut Vec<u8>, rules: &Rules) -> Result<(), OutOfMemory>
    ensures { OnOk result (text.new.items ≡ text.old.items ++ rules_lines rules.now) }
{
    put_clock(text, rules.clock())?;
    put_word(text, b"moments", moments_text(rules.moments()))?;
    put_count(text, b"mark", u64::from(rules.mark()))?;
    put_nulls(text, rules.nulls())?;
    put_word(text, b"skips", flag_text(rules.skips_empty()))
}

// Appends the lines of rules for local times, if there are any.
fn put_local(text: &mut Vec<u8>, local: &Option<LocalRules>) -> Result<(), OutOfMemory>
    ensures { OnOk result (text.new.items ≡ text.old.items ++ local_lines local.now) }
{
    match local {
        Some(rules) => put_zone(text, rules),
        None => Ok(()),
    }
}

// Appends the lines of rules for local times.
fn put_zone(text: &mut Vec<u8>, rules: &LocalRules) -> Result<(), OutOfMemory>
    ensures { OnOk result (text.new.items ≡ text.old.items ++ local_lines (Some rules.now)) }
{
    put_text(text, b"zone", rules.name())?;
    put_word(text, b"fold", fold_text(rules.fold()))
}

// Appends the lines of a clock.
fn put_clock(text: &mut Vec<u8>, clock: Clock) -> Result<(), OutOfMemory>
    ensures { OnOk result (text.new.items ≡ text.old.items ++ clock_lines clock) }
{
    put_count(text, b"tick", clock.length)?;
    put_origin(text, clock.origin)?;
    put_word(text, b"closed", closed_text(clock.closed))
}

// Appends the line of an origin.
fn put_origin(text: &mut Vec<u8>, origin: i128) -> Result<(), OutOfMemory>
    ensures { OnOk result (text.new.items ≡ text.old.items ++ line (codes "origin") (signed_decimal origin)) }
{
    put(text, b"origin ")?;
    put_number(text, origin)?;
    put(text, b"\n")
}

// Appends how many texts mean that there is no value, and their lines.
fn put_nulls(text: &mut Vec<u8>, nulls: &[Vec<u8>]) -> Result<(), OutOfMemory>
    ensures { OnOk result (text.new.items
        ≡ text.old.items ++ counted_lines (codes "nulls") null_line (map (λ null. null.items) nulls.now)) }
{
    put_count(text, b"nulls", nulls.len() as u64)?;
    put_null_lines(text, nulls)
}

// Appends the lines of texts that mean that there is no value.
fn put_null_lines(text: &mut Vec<u8>, nulls: &[Vec<u8>]) -> Result<(), OutOfMemory>
    ensures { OnOk result (text.new.items ≡ text.old.items ++ flat_map null_line (map (λ null. null.items) nulls.now)) }
{
    for null in nulls {
        put_text(text, b"null", null)?;
    }
    Ok(())
}

// Appends how many inputs there are, and their lines.
fn put_sources(text: &mut Vec<u8>, sources: &[Source]) -> Result<(), OutOfMemory>
    ensures { OnOk result (text.new.items ≡ text.old.items ++ counted_lines (codes "sources") source_lines sources.now) }
{
    put_count(text, b"sources", sources.len() as u64)?;
    put_source_lines(text, sources)
}

// Appends the lines of all inputs.
fn put_source_lines(text: &mut Vec<u8>, sources: &[Source]) -> Result<(), OutOfMemory>
    ensures { OnOk result (text.new.items ≡ text.old.items ++ flat_map source_lines sources.now) }
{
    for source in sources {
        put_source(text, source)?;
    }
    Ok(())
}

// Appends the lines of an input.
fn put_source(text: &mut Vec<u8>, source: &Source) -> Result<(), OutOfMemory>
    ensures { OnOk result (text.new.items ≡ text.old.items ++ source_lines source.now) }
{
    put_text(text, b"source", source.name().bytes())?;
    put_count(text, b"scale", source.scale())
}

// Appends for how many inputs it is known what their readings mean, and the lines of that.
fn put_meanings(text: &mut Vec<u8>, options: &[Options]) -> Result<(), OutOfMemory>
    ensures { OnOk result (text.new.items ≡ text.old.items ++ counted_lines (codes "meanings") meaning_lines options.now) }
{
    put_count(text, b"meanings", options.len() as u64)?;
    put_meaning_lines(text, options)
}

// Appends the lines of what the readings of all inputs mean.
fn put_meaning_lines(text: &mut Vec<u8>, options: &[Options]) -> Result<(), OutOfMemory>
    ensures { OnOk result (text.new.items ≡ text.old.items ++ flat_map meaning_lines options.now) }
{
    for meaning in options {
        put_meaning(text, *meaning)?;
    }
    Ok(())
}

// Appends the lines of what the readings of an input mean.
fn put_meaning(text: &mut Vec<u8>, options: Options) -> Result<(), OutOfMemory>
    ensures { OnOk result (text.new.items ≡ text.old.items ++ meaning_lines options) }
{
    put_convention(text, options.convention)?;
    put_word(text, b"ties", ties_text(options.ties))
}

// Appends the line of how long a reading's value holds.
fn put_convention(text: &mut Vec<u8>, convention: Convention) -> Result<(), OutOfMemory>
    ensures { OnOk result (text.new.items ≡ text.old.items ++ convention_line convention) }
{
    match convention {
        Convention::Hold { max_age: None } => put(text, b"hold none\n"),
        Convention::Hold {
            max_age: Some(ticks),
        } => put_count(text, b"hold", ticks),
        Convention::Event => put(text, b"event\n"),
    }
}

// The word for how moments are written.
fn moments_text(moments: Moments) -> &'static [u8]
    ensures { result.now ≡ moments_text moments }
{
    match moments {
        Moments::Dates => b"dates",
        Moments::Numbers {
            unit: Unit::Seconds,
        } => b"s",
        Moments::Numbers {
            unit: Unit::Milliseconds,
        } => b"ms",
        Moments::Numbers {
            unit: Unit::Microseconds,
        } => b"us",
        Moments::Numbers {
            unit: Unit::Nanoseconds,
        } => b"ns",
    }
}

// The word for which moment a local time means that clocks skip or show twice.
fn fold_text(fold: Option<Fold>) -> &'static [u8]
    ensures { result.now ≡ fold_text fold }
{
    match fold {
        None => b"none",
        Some(Fold::First) => b"first",
        Some(Fold::Second) => b"second",
    }
}

// The word for the end of a tick that belongs to it.
fn closed_text(closed: Closed) -> &'static [u8]
    ensures { result.now ≡ closed_text closed }
{
    match closed {
        Closed::Left => b"left",
        Closed::Right => b"right",
    }
}

// The word for which of several readings in one tick counts.
fn ties_text(ties: Ties) -> &'static [u8]
    ensures { result.now ≡ ties_text ties }
{
    match ties {
        Ties::First => b"first",
        Ties::Last => b"last",
        Ties::Refuse => b"refuse",
        Ties::Spread => b"spread",
    }
}

// `yes` or `no`.
fn flag_text(flag: bool) -> &'static [u8]
    ensures { result.now ≡ flag_text flag }
{
    if flag { b"yes" } else { b"no" }
}

// Appends a text after its length.
fn put_text(text: &mut Vec<u8>, word: &[u8], piece: &[u8]) -> Result<(), OutOfMemory>
    ensures { OnOk result (text.new.items ≡ text.old.items ++ text_line word.now piece.now) }
{
    put(text, word)?;
    put(text, b" ")?;
    put_number(text, piece.len())?;
    put(text, b" ")?;
    put(text, piece)?;
    put(text, b"\n")
}

// Appends the line of a word.
fn put_word(text: &mut Vec<u8>, word: &[u8], piece: &[u8]) -> Result<(), OutOfMemory>
    ensures { OnOk result (text.new.items ≡ text.old.items ++ line word.now piece.now) }
{
    put(text, word)?;
    put(text, b" ")?;
    put(text, piece)?;
    put(text, b"\n")
}

// Appends the line of a count.
fn put_count(text: &mut Vec<u8>, word: &[u8], count: u64) -> Result<(), OutOfMemory>
    ensures { OnOk result (text.new.items ≡ text.old.items ++ line word.now (decimal count)) }
{
    put(text, word)?;
    put(text, b" ")?;
    put_number(text, count)?;
    put(text, b"\n")
}
