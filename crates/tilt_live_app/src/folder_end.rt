// How serving a feed into a folder ended, as it is reported.
ghost use Rattle.std.specs.Prelude.{◌≡◌, ℕ};
ghost use Rattle.tilt_live_app.specs.FolderReport.{end_of, end_of_entering, end_of_halt, end_of_opening, end_of_start, end_value};
ghost use Rattle.tilt_live_app.specs.FolderReport.{line_of_end, status_of_end};
ghost use Rattle.tilt_serving.specs.Reported.{Reported};
ghost use Rattle.tilt_report.specs.Report.{line_of, report_of, status_of};

use crate::folder_fault::put_fault;
use tilt_exactly_once::{Failure, Halt, Refusal as Rejection, StartError};
use tilt_outside::{Failed, Sink};
use tilt_report::{Fault, Refusal};
use tilt_store::{EnterError, FolderError, OpenError};

// Why a feed isn't served into a folder, if that has no line of its own among the faults of all commands.
#[derive(Clone, Copy, Debug, PartialEq, Eq)]
pub(crate) enum FolderFault {
    // Another program has the folder.
    InUse,
    // There is an output but no state.
    NoState,
    // The output is shorter than its state says.
    CutOutput,
    // The feed is read from a byte after those that are committed.
    Gap,
    // It ended before them.
    ShortFeed,
    // The last of them aren't those of the feed.
    ChangedFeed,
    // A state can't count so long a feed or output.
    TooLong,
}

// How serving a feed into a folder ended, if it didn't end well.
#[derive(Drop)]
pub(crate) enum FolderEnd<'a> {
    // By a bad line, which was reported.
    BadLine,
    // By a fault of all commands.
    Shared(Fault<'a>),
    // By a fault of folders.
    Own(FolderFault),
}

// How it ended for the folder of that name.
pub(crate) fn end_of(name: &str, failure: Failure) -> FolderEnd<'_>
    ensures { end_value result ≡ end_of name.now failure }
{
    match failure {
        Failure::Unstarted(error) => end_of_start(name, error),
        Failure::Halted(halt) => end_of_halt(name, halt),
    }
}

// The same if the folder isn't given.
pub(crate) fn end_of_entering(name: &str, error: EnterError) -> FolderEnd<'_>
    ensures { end_value result ≡ end_of_entering name.now error }
{
    match error {
        EnterError::InUse => FolderEnd::Own(FolderFault::InUse),
        EnterError::Failed => FolderEnd::Shared(Fault::SaveFault(name)),
        EnterError::OutOfMemory => FolderEnd::Shared(Fault::OutOfMemory),
    }
}

// The same if nothing was read.
fn end_of_start(name: &str, error: StartError) -> FolderEnd<'_>
    ensures { end_value result ≡ end_of_start name.now error }
{
    match error {
        StartError::Unopened(why) => end_of_opening(name, why),
        StartError::Unwritten(FolderError::Failed) => FolderEnd::Shared(Fault::SaveFault(name)),
        StartError::Stateless | StartError::Rejected(Rejection::NotAState) => {
            FolderEnd::Shared(Fault::Refused(Refusal::BadState))
        }
        StartError::Rejected(Rejection::OtherQuery) => {
            FolderEnd::Shared(Fault::Refused(Refusal::OtherQuery))
        }
        StartError::Rejected(Rejection::OtherOptions) => {
            FolderEnd::Shared(Fault::Refused(Refusal::OtherOptions))
        }
        StartError::Unwritten(FolderError::OutOfMemory)
        | StartError::OutOfMemory
        | StartError::Rejected(Rejection::OutOfMemory) => FolderEnd::Shared(Fault::OutOfMemory),
    }
}

// The same if the folder isn't opened.
fn end_of_opening(name: &str, error: OpenError) -> FolderEnd<'_>
    ensures { end_value result ≡ end_of_opening name.now error }
{
    match error {
        OpenError::OutOfMemory => FolderEnd::Shared(Fault::OutOfMemory),
        OpenError::Failed => FolderEnd::Shared(Fault::SaveFault(name)),
        OpenError::OutputWithoutState => FolderEnd::Own(FolderFault::NoState),
        OpenError::BrokenState => FolderEnd::Shared(Fault::Refused(Refusal::BadState)),
        OpenError::OutputTooShort => FolderEnd::Own(FolderFault::CutOutput),
    }
}

// The same if something halted the feed.
fn end_of_halt(name: &str, halt: Halt) -> FolderEnd<'_>
    ensures { end_value result ≡ end_of_halt name.now halt }
{
    match halt {
        Halt::BadLine => FolderEnd::BadLine,
        Halt::TooLong => FolderEnd::Own(FolderFault::TooLong),
        Halt::OutOfMemory => FolderEnd::Shared(Fault::OutOfMemory),
        Halt::ReadFault => FolderEnd::Shared(Fault::ReadFault("-")),
        Halt::Failed => FolderEnd::Shared(Fault::SaveFault(name)),
        Halt::Gap => FolderEnd::Own(FolderFault::Gap),
        Halt::Short => FolderEnd::Own(FolderFault::ShortFeed),
        Halt::Changed => FolderEnd::Own(FolderFault::ChangedFeed),
    }
}

// Reports an end, and returns its status.
pub(crate) fn report_end<E: Sink>(err: &mut E, name: &str, end: &FolderEnd<'_>) -> u8
    requires { (n : ℕ) → E.takes err.old n }
    ensures status { result ≡ status_of_end (end_value end.now) }
    ensures line { Reported E.tells E.written E.faults err.old err.new (line_of_end name.now (end_value end.now)) }
{
    match end {
        FolderEnd::BadLine => 1,
        FolderEnd::Shared(fault) => report_fault(err, fault),
        FolderEnd::Own(fault) => {
            // A fault of the sink changes nothing.
            let _ = put_fault(err, name, *fault);
            1
        }
    }
}

// Reports a fault of all commands, and returns its status.
pub(crate) fn report_fault<E: Sink>(err: &mut E, fault: &Fault<'_>) -> u8
    requires { (n : ℕ) → E.takes err.old n }
    ensures status { result ≡ status_of (report_of fault.now) }
    ensures line { Reported E.tells E.written E.faults err.old err.new (line_of (report_of fault.now)) }
{
    // A fault of the sink changes nothing.
    let _ = fault.put(err);
    fault.status()
}
