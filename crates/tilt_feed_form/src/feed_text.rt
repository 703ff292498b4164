// The text of a feed.
ghost use Rattle.std.specs.Prelude.{◌≡◌, option_map};
ghost use Rattle.tilt_feed_form.specs.declared.bad_feed_line.BadFeedLine.TheVariants as bad;

use crate::bad_feed_line::BadFeedLine;
use crate::feed_form::FeedForm;
use crate::kept_feed::KeptFeed;
use crate::reading_lines::ReadingLines;
use crate::row_lines::RowLines;
use std::alloc::{AllocError as OutOfMemory, Global};
use tilt_feed::Event;
use tilt_feed_text::BadLine;
use tilt_lexer::Name;
use tilt_reading_text::BadReadingLine;
use tilt_watermarks::{Options, Watermarks};

/// The text of a feed: it takes its lines, one after another, and hands on the events of the feed.
#[derive(Drop)]
pub struct FeedText {
    lines: FeedLines,
}

// The lines of a feed in either form.
#[derive(Drop)]
enum FeedLines {
    Rows(RowLines),
    Readings(ReadingLines),
}

impl FeedText {
    ghost use Rattle.std.specs.Prelude.{◌<◌, ◌^◌, [], IfOk, OnErr, length};
    ghost use Rattle.tilt_feed_form.specs.Kept.{FitsForm, IsOfForm, bare_kept, kept_with};
    ghost use Rattle.tilt_feed_form.specs.Machine.{form_of, kept_of};
    ghost use Rattle.tilt_feed_form.specs.Said.{first_kept, is_headless, line_fault, line_step, no_end, options_if_rows};

    /// The text of a feed of this many inputs before its first line. `OutOfMemory` comes if memory runs out, and for no other reason.
    pub fn new(alloc: Global, form: FeedForm, inputs: u32) -> Result<FeedText, OutOfMemory>
        ensures form { IfOk result (λ text. form_of text ≡ form) }
        ensures kept { IfOk result (λ text. kept_of text ≡ first_kept form inputs) }
    {
        match form {
            FeedForm::Rows { options } => {
                let watermarks = Watermarks::new(alloc, options, inputs)?;
                let lines = FeedLines::Rows(RowLines::new(alloc, watermarks));
                Ok(FeedText { lines })
            }
            FeedForm::Readings { setup } => {
                let lines = FeedLines::Readings(ReadingLines::new(alloc, setup)?);
                Ok(FeedText { lines })
            }
        }
    }

    /// The text of a feed of this form that goes on from what was kept of another one. Whatever lines come, it does with them what that one
    /// would have done. `OutOfMemory` comes if memory runs out, and for no other reason.
    pub fn resume(alloc: Global, form: FeedForm, kept: &KeptFeed) -> Result<FeedText, OutOfMemory>
        requires { FitsForm form kept.now }
        ensures form { IfOk result (λ text. form_of text ≡ form) }
        ensures kept { IfOk result (λ text. kept_of text ≡ kept_with form kept.now) }
    {
        match form {
            FeedForm::Rows { options } => {
                let KeptFeed::Rows { kept } = kept else {
                    unreachable!()
                };
                let watermarks = Watermarks::resume(alloc, options, kept)?;
                let lines = FeedLines::Rows(RowLines::new(alloc, watermarks));
                Ok(FeedText { lines })
            }
            FeedForm::Readings { setup } => {
                let KeptFeed::Readings { kept } = kept else {
                    unreachable!()
                };
                let lines = FeedLines::Readings(ReadingLines::resume(alloc, setup, kept)?);
                Ok(FeedText { lines })
            }
        }
    }

    /// Takes the line with a number, which is how many lines are before it. The line comes without its LF. Its events replace what is in
    /// `events`. Returns why the line is bad, if it is: then nothing changes, and there are no events. `OutOfMemory` comes if memory runs
    /// out, and for no other reason; nothing changes then either.
    pub fn take(
        &mut self,
        inputs: &[Name],
        number: u64,
        line: &[u8],
        events: &mut Vec<Event>,
    ) -> Result<Option<BadFeedLine>, OutOfMemory>
        requires { length inputs.now < 2 ^ 32 }
        ensures why { IfOk result (λ why. why ≡ line_fault (form_of self.old) inputs.now (kept_of self.old) number line.now) }
        ensures kept { IfOk result (λ _. kept_of self.new
            ≡ (line_step (form_of self.old) inputs.now number line.now (kept_of self.old)).kept) }
        ensures events { IfOk result (λ _. events.new.items
            ≡ (line_step (form_of self.old) inputs.now number line.now (kept_of self.old)).events) }
        ensures unchanged { OnErr result ((kept_of self.new ≡ kept_of self.old) × (events.new.items ≡ [])) }
        ensures form { form_of self.new ≡ form_of self.old }
    {
        events.clear();
        match &mut self.lines {
            FeedLines::Rows(lines) => {
                let why = lines.take(inputs, number, line, events)?;
                Ok(bad_row(why))
            }
            FeedLines::Readings(lines) => {
                let why = lines.take(line, events)?;
                Ok(bad_reading(why))
            }
        }
    }

    /// Whether a bad line ends the feed now, even if bad lines are skipped: the feed is one of readings, and its header hasn't come.
    pub fn is_headless(&self) -> bool
        ensures { result ≡ is_headless (kept_of self.now) }
    {
        match &self.lines {
            FeedLines::Rows(_) => false,
            FeedLines::Readings(lines) => !lines.text.has_header(),
        }
    }

    /// Why a line is bad if the feed ends before its LF.
    pub fn no_end(&self) -> BadFeedLine
        ensures { result ≡ no_end (form_of self.now) }
    {
        match &self.lines {
            FeedLines::Rows(_) => BadFeedLine::Rows {
                why: BadLine::NoEnd,
            },
            FeedLines::Readings(_) => BadFeedLine::Readings {
                why: BadReadingLine::NoEnd,
            },
        }
    }

    /// What it keeps, so that another text of its form can go on from it. `OutOfMemory` comes if memory runs out, and for no other reason.
    pub fn kept(&self, alloc: Global) -> Result<KeptFeed, OutOfMemory>
        ensures kept { IfOk result (λ kept. kept ≡ bare_kept (kept_of self.now)) }
        ensures fits { IsOfForm (form_of self.now) (kept_of self.now) → IfOk result (λ kept. FitsForm (form_of self.now) kept) }
    {
        match &self.lines {
            FeedLines::Rows(lines) => {
                let kept = lines.watermarks.kept(alloc)?;
                Ok(KeptFeed::Rows { kept })
            }
            FeedLines::Readings(lines) => {
                let kept = lines.text.kept(alloc)?;
                Ok(KeptFeed::Readings { kept })
            }
        }
    }

    /// What is asked of its watermarks, if the feed is one of rows.
    pub fn row_options(&self) -> Option<Options>
        ensures { result ≡ options_if_rows (form_of self.now) }
    {
        match &self.lines {
            FeedLines::Rows(lines) => Some(lines.watermarks.options()),
            FeedLines::Readings(_) => None,
        }
    }
}

// Why a line of rows is bad, if it is.
fn bad_row(why: Option<BadLine>) -> Option<BadFeedLine>
    ensures { result ≡ option_map bad.Rows why }
{
    match why {
        Some(why) => Some(BadFeedLine::Rows { why }),
        None => None,
    }
}

// Why a line of readings is bad, if it is.
fn bad_reading(why: Option<BadReadingLine>) -> Option<BadFeedLine>
    ensures { result ≡ option_map bad.Readings why }
{
    match why {
        Some(why) => Some(BadFeedLine::Readings { why }),
        None => None,
    }
}
