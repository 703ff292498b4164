// The lines that report bad lines.
ghost use Rattle.std.specs.Prelude.{ℕ};
ghost use Rattle.tilt_feed_form.specs.Report.{report};
ghost use Rattle.tilt_outside.specs.Written.{Puts};

use crate::bad_feed_line::BadFeedLine;
use tilt_feed_text as rows;
use tilt_outside::{Failed, Sink};
use tilt_reading_text as readings;

/// Writes the line that reports a bad line, by its number from 1. It takes no memory.
pub fn put_report<E: Sink>(err: &mut E, number: u64, why: BadFeedLine) -> Result<(), Failed>
    requires { (n : ℕ) → E.takes err.old n }
    ensures { Puts E.tells E.written E.faults E.takes err.old err.new (report number why) result }
{
    match why {
        BadFeedLine::Rows { why } => rows::put_report(err, number, why),
        BadFeedLine::Readings { why } => readings::put_report(err, number, why),
    }
}
