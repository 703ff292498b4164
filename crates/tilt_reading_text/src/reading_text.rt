// The text of a feed of readings.
ghost use Rattle.std.specs.Prelude.{◌≡◌, ◌<◌, ◌^◌, length};
ghost use Rattle.tilt_reading_lines.specs.Delimiter.{delimiter_of};

use crate::bad_reading_line::{BadReadingLine, TakeLineError};
use crate::blank::is_blank;
use crate::form::ReadingForm;
use crate::kept::{KeptText, copy_columns};
use crate::taker::Taker;
use std::alloc::{AllocError as OutOfMemory, Global};
use tilt_conventions::Options;
use tilt_feed::Event;
use tilt_feed_text::LINE;
use tilt_reading_feed::{ReadingFeed, TakeError};
use tilt_reading_lines::Columns;

/// The text of a feed of readings: it takes its lines, one after another, and hands on the events of the feed.
#[derive(Drop)]
pub struct ReadingText {
    form: ReadingForm,
    // The columns of the header, if it has come.
    columns: Option<Columns>,
    taker: Taker,
    ghost few: { length form.sources < 2 ^ 32 },
    ghost delimiter: { delimiter_of taker.reader ≡ form.delimiter },
}

impl ReadingText {
    ghost use Rattle.std.specs.List.{AllByRecursion};
    ghost use Rattle.std.specs.Prelude.{◌++◌, IfOk, if◌then◌else◌, is_ok, is_some, option_map, slice_get, true};
    ghost use Rattle.tilt_conventions.specs.Resumable.{fits};
    ghost use Rattle.tilt_reading_feed.specs.Kept.{options_kept};
    ghost use Rattle.tilt_reading_feed.specs.Laws.{HoldTicks};
    ghost use Rattle.tilt_reading_feed.specs.Machine as feed;
    ghost use Rattle.tilt_reading_feed.specs.Steps.{end_fault};
    ghost use Rattle.tilt_reading_text.specs.Kept.{bare_text, text_with};
    ghost use Rattle.tilt_reading_text.specs.Machine.{form_of, text_kept};
    ghost use Rattle.tilt_reading_text.specs.Said.{first_kept, line_fault, line_step, text_finished};
    ghost use Rattle.tilt_reading_text.specs.Taken.{IsTaken};

    /// The text of a feed before its first line. Its lines have this form, and the readings of its inputs mean this, in the order of the
    /// sources. A maximum age is at least one tick. `OutOfMemory` comes if memory runs out, and for no other reason.
    pub fn new(
        alloc: Global,
        form: ReadingForm,
        options: &[Options],
    ) -> Result<ReadingText, OutOfMemory>
        requires sources { length form.sources < 2 ^ 32 }
        requires few { length options.now < 2 ^ 32 }
        requires ages { HoldTicks options.now }
        ensures form { IfOk result (λ text. form_of text ≡ form) }
        ensures kept { IfOk result (λ text. text_kept text ≡ first_kept options.now) }
    {
        let feed = ReadingFeed::new(alloc, options)?;
        let taker = Taker::new(alloc, form.delimiter, feed);
        Ok(ReadingText {
            form,
            columns: None,
            taker,
        })
    }

    /// The text that keeps this, whose lines have this form, and the readings of whose inputs mean this. Whatever lines come, it does with
    /// them what the text did that it was kept of. `OutOfMemory` comes if memory runs out, and for no other reason.
    pub fn resume(
        alloc: Global,
        form: ReadingForm,
        options: &[Options],
        kept: &KeptText,
    ) -> Result<ReadingText, OutOfMemory>
        requires sources { length form.sources < 2 ^ 32 }
        requires few { length options.now < 2 ^ 32 }
        requires ages { HoldTicks options.now }
        requires each { length kept.now.readings.inputs ≡ length options.now }
        requires fit { AllByRecursion (λ kept. fits kept ≡ true) kept.now.readings.inputs }
        ensures form { IfOk result (λ text. form_of text ≡ form) }
        ensures kept { IfOk result (λ text. text_kept text ≡ text_with options.now kept.now) }
    {
        let feed = ReadingFeed::resume(alloc, options, &kept.readings)?;
        let columns = copy_columns(alloc, &kept.columns)?;
        let taker = Taker::new(alloc, form.delimiter, feed);
        Ok(ReadingText {
            form,
            columns,
            taker,
        })
    }

    /// What it keeps, so that another text with the same form and options can go on from it. `OutOfMemory` comes if memory runs out, and
    /// for no other reason.
    pub fn kept(&self, alloc: Global) -> Result<KeptText, OutOfMemory>
        ensures kept { IfOk result (λ kept. kept ≡ bare_text (text_kept self.now)) }
        ensures same { IfOk result (λ kept. text_with (options_kept (text_kept self.now).feed) kept ≡ text_kept self.now) }
        ensures each { IfOk result (λ kept. length kept.readings.inputs ≡ length (text_kept self.now).feed.inputs) }
        ensures few { length (text_kept self.now).feed.inputs < 2 ^ 32 }
        ensures fit { IfOk result (λ kept. AllByRecursion (λ kept. fits kept ≡ true) kept.readings.inputs) }
    {
        let readings = self.taker.feed.kept(alloc)?;
        let columns = copy_columns(alloc, &self.columns)?;
        Ok(KeptText { columns, readings })
    }

    /// How its lines are written.
    pub fn form(&self) -> &ReadingForm
        ensures { result.now ≡ form_of self.now }
    {
        &self.form
    }

    /// Whether the header has come. Before it, a bad line ends the feed.
    pub fn has_header(&self) -> bool
        ensures { result ≡ is_some (text_kept self.now).layout }
    {
        self.columns.is_some()
    }

    /// How many readings of an input were skipped, since another one of their tick counts; `None` if there is no such input. The count
    /// stays at `u64::MAX`.
    pub fn skipped(&self, input: u32) -> Option<u64>
        ensures { result ≡ option_map (λ kept. kept.kept.skipped) (slice_get (text_kept self.now).feed.inputs input) }
    {
        self.taker.feed.skipped(input)
    }

    /// Takes a line, which comes without its LF, and appends the events that it hands on. `Bad` has the first cause why the line is bad,
    /// and nothing changes. If the header hasn't come by then, the feed ends there. `OutOfMemory` comes if memory runs out, and nothing
    /// changes either.
    pub fn take(&mut self, line: &[u8], events: &mut Vec<Event>) -> Result<(), TakeLineError>
        ensures result { IsTaken result (line_fault (form_of self.old) (text_kept self.old) line.now) }
        ensures kept { text_kept self.new ≡ (if is_ok result
            then (line_step (form_of self.old) line.now (text_kept self.old)).kept else text_kept self.old) }
        ensures events { events.new.items ≡ (if is_ok result
            then events.old.items ++ (line_step (form_of self.old) line.now (text_kept self.old)).events else events.old.items) }
        ensures form { form_of self.new ≡ form_of self.old }
    {
        if line.len() > LINE {
            return Err(TakeLineError::Bad(BadReadingLine::TooLong));
        }
        if is_blank(line) {
            return Ok(());
        }
        if let Some(columns) = &self.columns {
            return self.taker.take(&self.form, columns, line, events);
        }
        let columns = self.taker.read_header(&self.form, line)?;
        self.columns = Some(columns);
        Ok(())
    }

    /// Finishes the feed, and appends the last events: those of each input when nothing more comes, and the end. `Fault` comes exactly if
    /// the feed is finished, and nothing changes. `OutOfMemory` comes if memory runs out, and nothing changes either.
    pub fn finish(&mut self, events: &mut Vec<Event>) -> Result<(), TakeError>
        ensures result { feed.IsTaken result (end_fault (text_kept self.old).feed) }
        ensures kept { text_kept self.new ≡ (if is_ok result then (text_finished (text_kept self.old)).kept else text_kept self.old) }
        ensures events { events.new.items ≡ (if is_ok result
            then events.old.items ++ (text_finished (text_kept self.old)).events else events.old.items) }
        ensures form { form_of self.new ≡ form_of self.old }
    {
        self.taker.feed.finish(events)
    }
}
