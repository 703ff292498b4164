// From the text of a time to a tick.
ghost use Rattle.std.specs.Prelude.{◌≡◌, ◌<◌, ◌<ℤ◌, neg_ℤ, pos, Err, IfOk, Ok, Some};
ghost use Rattle.std.specs.Option.{ForSome};
ghost use Rattle.tilt_base.specs.declared.limits.TheConstants.{T};
ghost use Rattle.tilt_reading_lines.specs.Lines.{date_said, dated, local_said, moment_said, shown_said, tick_said};
ghost use Rattle.tilt_reading_lines.specs.Tick.{tick_at};
ghost use Rattle.tilt_readings.specs.Date.{date_read, moment_of};

use crate::fault::LineFault;
use crate::rules::{LocalRules, Moments, Rules};
use tilt_readings::{
    Clock, DateFault, LocalDate, moment_of, read_date, read_epoch, read_local_date, tick_of,
};

// The tick that a text says.
pub(crate) fn read_tick(rules: &Rules, text: &[u8]) -> Result<i64, LineFault>
    ensures said { result ≡ tick_said rules.now text.now }
    ensures low { IfOk result (λ tick. neg_ℤ T <ℤ tick) }
{
    let moment = read_moment(rules, text)?;
    match tick_at(rules.clock, moment) {
        Some(tick) => Ok(tick),
        None => Err(LineFault::TimeOutOfRange),
    }
}

// The moment that a text is.
fn read_moment(rules: &Rules, text: &[u8]) -> Result<i128, LineFault>
    ensures { result ≡ moment_said rules.now.moments rules.now.local text.now }
{
    match rules.moments {
        Moments::Dates => read_dated(&rules.local, text),
        Moments::Numbers { unit } => match read_epoch(text, unit) {
            Ok(moment) => Ok(moment),
            Err(fault) => Err(LineFault::BadNumber(fault)),
        },
    }
}

// The moment of a date.
fn read_dated(local: &Option<LocalRules>, text: &[u8]) -> Result<i128, LineFault>
    ensures { result ≡ date_said local.now text.now (date_read text.now) }
{
    match read_date(text) {
        Ok(moment) => Ok(moment),
        Err(fault) => read_without_offset(local, text, fault),
    }
}

// The moment of a text that isn't a date with an offset for this cause.
fn read_without_offset(
    local: &Option<LocalRules>,
    text: &[u8],
    fault: DateFault,
) -> Result<i128, LineFault>
    ensures { result ≡ date_said local.now text.now (Err fault) }
{
    match fault {
        DateFault::NotDate => read_local(local, text),
        DateFault::NoSuchTime => Err(LineFault::BadDate(DateFault::NoSuchTime)),
        DateFault::TooFine => Err(LineFault::BadDate(DateFault::TooFine)),
        DateFault::OutOfYears => Err(LineFault::BadDate(DateFault::OutOfYears)),
    }
}

// The moment of a local time, if there are rules for them.
fn read_local(local: &Option<LocalRules>, text: &[u8]) -> Result<i128, LineFault>
    ensures { result ≡ local_said local.now text.now }
{
    match local {
        Some(rules) => read_zoned(rules, text),
        None => Err(LineFault::BadDate(DateFault::NotDate)),
    }
}

// The moment of a local time in a zone.
fn read_zoned(rules: &LocalRules, text: &[u8]) -> Result<i128, LineFault>
    ensures { result ≡ local_said (Some rules.now) text.now }
{
    match read_local_date(text) {
        Ok(date) => moment_shown(rules, date),
        Err(fault) => Err(LineFault::BadDate(fault)),
    }
}

// The moment at which clocks of a zone show a date.
fn moment_shown(rules: &LocalRules, date: LocalDate) -> Result<i128, LineFault>
    ensures { result ≡ shown_said rules.now date }
{
    match rules.zone.moment_taken(date.seconds, rules.fold) {
        Ok(seconds) => moment_in_years(seconds, date.nanoseconds),
        Err(fault) => Err(LineFault::BadLocal(fault)),
    }
}

// The moment of so many seconds and nanoseconds, if it is in the years 1 to 9999.
fn moment_in_years(seconds: i64, nanoseconds: u64) -> Result<i128, LineFault>
    ensures { result ≡ dated (moment_of seconds (Ok (pos nanoseconds))) }
{
    match moment_of(seconds, nanoseconds) {
        Ok(moment) => Ok(moment),
        Err(fault) => Err(LineFault::BadDate(fault)),
    }
}

// The tick that a moment lies in.
fn tick_at(clock: Clock, moment: i128) -> Option<i64>
    requires { 0 < clock.length }
    ensures tick { result ≡ tick_at clock moment }
    ensures low { ForSome result (λ tick. neg_ℤ T <ℤ tick) }
{
    tick_of(clock, moment)
}
