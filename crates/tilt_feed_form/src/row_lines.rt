// Lines of rows.
ghost use Rattle.std.specs.Prelude.{◌≡◌, ◌++◌, ◌<◌, ◌^◌, IfOk, if◌then◌else◌, is_ok, length};
ghost use Rattle.tilt_feed_form.specs.Said.{content_step};
ghost use Rattle.tilt_feed_text.specs.Said.{content, content_fault, not_taken};
ghost use Rattle.tilt_watermarks.specs.Laws.{stepped};
ghost use Rattle.tilt_watermarks.specs.Machine.{kept_by, options_of};
ghost use Rattle.tilt_watermarks.specs.Steps.{line_fault};

use std::alloc::{AllocError as OutOfMemory, Global};
use tilt_feed::Event;
use tilt_feed_line::{Line, LineReader};
use tilt_feed_text::{BadLine, ReadContentFault, read_content};
use tilt_lexer::Name;
use tilt_watermarks::{TakeError, Watermarks};

// A reader of lines of rows, and the watermarks that take what they say.
#[derive(Drop)]
pub(crate) struct RowLines {
    reader: LineReader,
    pub(crate) watermarks: Watermarks,
}

impl RowLines {
    // The lines whose rows these watermarks take.
    pub(crate) fn new(alloc: Global, watermarks: Watermarks) -> RowLines
        ensures { result.watermarks ≡ watermarks }
    {
        RowLines {
            reader: LineReader::new(alloc),
            watermarks,
        }
    }

    // Takes the line with a number, and appends its events. Returns why it is bad, if it is. If memory runs out, nothing changes.
    pub(crate) fn take(
        &mut self,
        inputs: &[Name],
        number: u64,
        line: &[u8],
        events: &mut Vec<Event>,
    ) -> Result<Option<BadLine>, OutOfMemory>
        requires { length inputs.now < 2 ^ 32 }
        ensures why { IfOk result (λ why. why ≡ content_fault
            (options_of self.old.watermarks) (kept_by self.old.watermarks) (content inputs.now number line.now)) }
        ensures kept { kept_by self.new.watermarks ≡ (if is_ok result then (content_step
            (options_of self.old.watermarks) (content inputs.now number line.now) (kept_by self.old.watermarks)).kept
            else kept_by self.old.watermarks) }
        ensures events { events.new.items ≡ (if is_ok result then events.old.items ++ (content_step
            (options_of self.old.watermarks) (content inputs.now number line.now) (kept_by self.old.watermarks)).events
            else events.old.items) }
        ensures options { options_of self.new.watermarks ≡ options_of self.old.watermarks }
    {
        match read_content(&mut self.reader, inputs, number, line) {
            Ok(None) => Ok(None),
            Ok(Some(said)) => take_said(&mut self.watermarks, said, events),
            Err(ReadContentFault::Bad(why)) => Ok(Some(why)),
            Err(ReadContentFault::OutOfMemory) => Err(OutOfMemory),
        }
    }
}

// Takes what a line says, and appends its events. Returns why the line is bad, if it is. If memory runs out, nothing changes.
fn take_said(
    watermarks: &mut Watermarks,
    said: Line,
    events: &mut Vec<Event>,
) -> Result<Option<BadLine>, OutOfMemory>
    ensures why { IfOk result (λ why. why ≡ not_taken (line_fault (options_of watermarks.old) (kept_by watermarks.old) said)) }
    ensures kept { kept_by watermarks.new ≡ (if is_ok result
        then (stepped (options_of watermarks.old) said (kept_by watermarks.old)).kept else kept_by watermarks.old) }
    ensures events { events.new.items ≡ (if is_ok result
        then events.old.items ++ (stepped (options_of watermarks.old) said (kept_by watermarks.old)).events else events.old.items) }
    ensures options { options_of watermarks.new ≡ options_of watermarks.old }
{
    match watermarks.take(said, events) {
        Ok(()) => Ok(None),
        Err(TakeError::Fault(fault)) => Ok(Some(BadLine::NotTaken(fault))),
        Err(TakeError::OutOfMemory) => Err(OutOfMemory),
    }
}
