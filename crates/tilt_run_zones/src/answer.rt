// Answers to questions about a zone.

use std::io::Write;
use std::test::Fail;
use tilt_zones::{Fold, LocalFault, Zone};

// Prints the moments that a local time means.
pub(crate) fn answer_local<W: Write>(zone: &Zone, local: i64, out: &mut W) -> Result<(), Fail> {
    print(zone.moment_of_local(local, None), out)?;
    write!(out, " ")?;
    print(zone.moment_of_local(local, Some(Fold::First)), out)?;
    write!(out, " ")?;
    print(zone.moment_of_local(local, Some(Fold::Second)), out)?;
    writeln!(out)?;
    Ok(())
}

// Prints the moments that a local time is taken for.
pub(crate) fn answer_taken<W: Write>(zone: &Zone, local: i64, out: &mut W) -> Result<(), Fail> {
    print(zone.moment_taken(local, None), out)?;
    write!(out, " ")?;
    print(zone.moment_taken(local, Some(Fold::First)), out)?;
    write!(out, " ")?;
    print(zone.moment_taken(local, Some(Fold::Second)), out)?;
    writeln!(out)?;
    Ok(())
}

// Prints the local time at a moment.
pub(crate) fn answer_moment<W: Write>(zone: &Zone, moment: i64, out: &mut W) -> Result<(), Fail> {
    print(zone.local_of(moment).ok_or(LocalFault::Beyond), out)?;
    writeln!(out)?;
    Ok(())
}

// Prints a number of seconds, or why there is none.
fn print<W: Write>(seconds: Result<i64, LocalFault>, out: &mut W) -> Result<(), Fail> {
    match seconds {
        Ok(seconds) => write!(out, "{seconds}")?,
        Err(LocalFault::Skipped) => write!(out, "skipped")?,
        Err(LocalFault::Doubled) => write!(out, "doubled")?,
        Err(LocalFault::Beyond) => write!(out, "beyond")?,
    }
    Ok(())
}
