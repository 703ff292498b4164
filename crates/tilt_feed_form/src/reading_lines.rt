// Lines of readings.
ghost use Rattle.std.specs.Prelude.{◌≡◌, ◌++◌, IfOk, if◌then◌else◌, is_ok, length, true};
ghost use Rattle.std.specs.List.{AllByRecursion};
ghost use Rattle.tilt_conventions.specs.Resumable.{fits};
ghost use Rattle.tilt_feed_form.specs.Setup.{SetupParts};
ghost use Rattle.tilt_reading_text.specs.Kept.{text_with};
ghost use Rattle.tilt_reading_text.specs.Machine.{form_of, text_kept};
ghost use Rattle.tilt_reading_text.specs.Said.{first_kept, line_fault, line_step};

use crate::reading_setup::ReadingSetup;
use std::alloc::{AllocError as OutOfMemory, Global};
use tilt_conventions::Options;
use tilt_feed::Event;
use tilt_reading_text::{BadReadingLine, KeptText, ReadingText, TakeLineError};

// A text of readings, and what the readings of each input mean.
#[derive(Drop)]
pub(crate) struct ReadingLines {
    pub(crate) text: ReadingText,
    options: Vec<Options>,
}

impl ReadingLines {
    // The lines of a feed before the first one.
    pub(crate) fn new(alloc: Global, setup: ReadingSetup) -> Result<ReadingLines, OutOfMemory>
        ensures form { IfOk result (λ lines. form_of lines.text ≡ setup.form) }
        ensures options { IfOk result (λ lines. lines.options.items ≡ setup.options) }
        ensures kept { IfOk result (λ lines. text_kept lines.text ≡ first_kept setup.options) }
    {
        let (form, options) = setup.into_parts();
        let text = ReadingText::new(alloc, form, &options)?;
        Ok(ReadingLines { text, options })
    }

    // The lines of a feed that go on from what was kept of others.
    pub(crate) fn resume(
        alloc: Global,
        setup: ReadingSetup,
        kept: &KeptText,
    ) -> Result<ReadingLines, OutOfMemory>
        requires each { length kept.now.readings.inputs ≡ length setup.options }
        requires fit { AllByRecursion (λ input. fits input ≡ true) kept.now.readings.inputs }
        ensures form { IfOk result (λ lines. form_of lines.text ≡ setup.form) }
        ensures options { IfOk result (λ lines. lines.options.items ≡ setup.options) }
        ensures kept { IfOk result (λ lines. text_kept lines.text ≡ text_with setup.options kept.now) }
    {
        let (form, options) = setup.into_parts();
        let text = ReadingText::resume(alloc, form, &options, kept)?;
        Ok(ReadingLines { text, options })
    }

    // Takes a line, and appends its events. Returns why it is bad, if it is. If memory runs out, nothing changes.
    pub(crate) fn take(
        &mut self,
        line: &[u8],
        events: &mut Vec<Event>,
    ) -> Result<Option<BadReadingLine>, OutOfMemory>
        ensures why { IfOk result (λ why. why ≡ line_fault (form_of self.old.text) (text_kept self.old.text) line.now) }
        ensures kept { text_kept self.new.text ≡ (if is_ok result
            then (line_step (form_of self.old.text) line.now (text_kept self.old.text)).kept else text_kept self.old.text) }
        ensures events { events.new.items ≡ (if is_ok result
            then events.old.items ++ (line_step (form_of self.old.text) line.now (text_kept self.old.text)).events
            else events.old.items) }
        ensures form { form_of self.new.text ≡ form_of self.old.text }
        ensures options { self.new.options ≡ self.old.options }
    {
        match self.text.take(line, events) {
            Ok(()) => Ok(None),
            Err(TakeLineError::Bad(why)) => Ok(Some(why)),
            Err(TakeLineError::OutOfMemory) => Err(OutOfMemory),
        }
    }
}
