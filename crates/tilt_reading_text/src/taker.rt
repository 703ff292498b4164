// Records of a text, and the feed of the readings that they say.
ghost use Rattle.std.specs.Prelude.{◌≡◌, ◌++◌, ◌<◌, ◌^◌, if◌then◌else◌, is_ok, length};

use crate::bad_reading_line::{BadReadingLine, TakeLineError};
use crate::form::ReadingForm;
use std::alloc::Global;
use tilt_feed::Event;
use tilt_reading_feed::{ReadingFeed, TakeError};
use tilt_reading_lines::{Columns, InputReading, ReadHeaderFault, ReadLineFault, ReadingReader};

// A reader of lines, and the feed that takes what they say.
#[derive(Drop)]
pub(crate) struct Taker {
    reader: ReadingReader,
    // Room for the readings of a line.
    readings: Vec<InputReading>,
    pub(crate) feed: ReadingFeed,
}

impl Taker {
    ghost use Rattle.tilt_reading_feed.specs.Laws.{line_stepped};
    ghost use Rattle.tilt_reading_feed.specs.Machine.{feed_kept};
    ghost use Rattle.tilt_reading_lines.specs.Delimiter.{delimiter_of};
    ghost use Rattle.tilt_reading_lines.specs.Header.{header_said};
    ghost use Rattle.tilt_reading_lines.specs.Lines.{line_said};
    ghost use Rattle.tilt_reading_lines.specs.Rules.{layout_of};
    ghost use Rattle.tilt_reading_text.specs.Said.{content_fault, feed_step, header_or_bad, readings_or_bad};
    ghost use Rattle.tilt_reading_text.specs.Said.Content.{Readings};
    ghost use Rattle.tilt_reading_text.specs.Taken.{IsHeader, IsTaken};

    // A taker of lines whose fields are separated by this byte, which goes on with a feed.
    pub(crate) fn new(alloc: Global, delimiter: u8, feed: ReadingFeed) -> Taker
        ensures delimiter { delimiter_of result.reader ≡ delimiter }
        ensures feed { result.feed ≡ feed }
    {
        Taker {
            reader: ReadingReader::new(alloc, delimiter),
            readings: Vec::new(alloc),
            feed,
        }
    }

    // The columns of a header.
    pub(crate) fn read_header(
        &mut self,
        form: &ReadingForm,
        line: &[u8],
    ) -> Result<Columns, TakeLineError>
        requires few { length form.now.sources < 2 ^ 32 }
        requires delimiter { delimiter_of self.old.reader ≡ form.now.delimiter }
        ensures header { IsHeader result
            (header_or_bad (header_said form.now.delimiter form.now.titles form.now.sources line.now)) }
        ensures delimiter { delimiter_of self.new.reader ≡ form.now.delimiter }
        ensures feed { feed_kept self.new.feed ≡ feed_kept self.old.feed }
    {
        match self.reader.read_header(line, &form.titles, &form.sources) {
            Ok(columns) => Ok(columns),
            Err(ReadHeaderFault::BadHeader(cause)) => {
                Err(TakeLineError::Bad(BadReadingLine::BadHeader(cause)))
            }
            Err(ReadHeaderFault::OutOfMemory) => Err(TakeLineError::OutOfMemory),
        }
    }

    // Takes the readings of a line, and appends the events that they hand on. After an error nothing changes.
    pub(crate) fn take(
        &mut self,
        form: &ReadingForm,
        columns: &Columns,
        line: &[u8],
        events: &mut Vec<Event>,
    ) -> Result<(), TakeLineError>
        requires few { length form.now.sources < 2 ^ 32 }
        requires delimiter { delimiter_of self.old.reader ≡ form.now.delimiter }
        ensures result { IsTaken result (content_fault (feed_kept self.old.feed)
            (readings_or_bad (line_said form.now.delimiter (layout_of columns.now) form.now.rules form.now.sources line.now))) }
        ensures feed { feed_kept self.new.feed ≡ (if is_ok result then (feed_step
            (readings_or_bad (line_said form.now.delimiter (layout_of columns.now) form.now.rules form.now.sources line.now))
            (feed_kept self.old.feed)).kept else feed_kept self.old.feed) }
        ensures events { events.new.items ≡ (if is_ok result then events.old.items ++ (feed_step
            (readings_or_bad (line_said form.now.delimiter (layout_of columns.now) form.now.rules form.now.sources line.now))
            (feed_kept self.old.feed)).events else events.old.items) }
        ensures delimiter { delimiter_of self.new.reader ≡ form.now.delimiter }
    {
        let said = self.reader.read_line(
            line,
            columns,
            &form.rules,
            &form.sources,
            &mut self.readings,
        );
        match said {
            Ok(known) => self.take_said(known, events),
            Err(ReadLineFault::BadLine(cause)) => {
                Err(TakeLineError::Bad(BadReadingLine::Unreadable(cause)))
            }
            Err(ReadLineFault::OutOfMemory) => Err(TakeLineError::OutOfMemory),
        }
    }

    // Takes the readings that were read, and a tick up to which all inputs are known, if there is one.
    fn take_said(
        &mut self,
        known: Option<i64>,
        events: &mut Vec<Event>,
    ) -> Result<(), TakeLineError>
        ensures result { IsTaken result (content_fault (feed_kept self.old.feed)
            (Ok (Readings (record { readings = self.old.readings.items; known = known })))) }
        ensures feed { feed_kept self.new.feed ≡ (if is_ok result
            then (line_stepped (record { readings = self.old.readings.items; known = known }) (feed_kept self.old.feed)).kept
            else feed_kept self.old.feed) }
        ensures events { events.new.items ≡ (if is_ok result then events.old.items
            ++ (line_stepped (record { readings = self.old.readings.items; known = known }) (feed_kept self.old.feed)).events
            else events.old.items) }
        ensures delimiter { delimiter_of self.new.reader ≡ delimiter_of self.old.reader }
    {
        match self.feed.take(&self.readings, known, events) {
            Ok(()) => Ok(()),
            Err(TakeError::Fault(fault)) => {
                Err(TakeLineError::Bad(BadReadingLine::NotTaken(fault)))
            }
            Err(TakeError::OutOfMemory) => Err(TakeLineError::OutOfMemory),
        }
    }
}
