// A feed whose engine is dropped from time to time, while another one goes on from the text of its state.
ghost use Rattle.std.specs.Prelude.{IfOk};
ghost use Rattle.tilt_live.specs.Lives.{IsLive};

use std::alloc::Global;
use std::test::Fail;
use tilt_base::Cell;
use tilt_compiler::{Accepted, accept};
use tilt_engine::FedRows;
use tilt_feed::Event;
use tilt_input_state::InputState;
use tilt_live::Live;
use tilt_live_state::{InputState as KeptInput, LiveState, Progress, decode, encode};
use tilt_stream::Rows;
use tilt_testing::query_of;
use tilt_watermarks::Options;

// There are no watermarks between the lines and the events here.
const NO_OPTIONS: Options = Options {
    idle: None,
    ahead: None,
    lateness: None,
};

// What the state of a feed needs beside the engine, and when the engine is dropped.
#[derive(Drop)]
pub(crate) struct Resuming {
    fed: FedRows,
    finished: bool,
    // After how many lines, if ever, and how many have come since.
    every: Option<u64>,
    lines: u64,
    // Whether the code of the engine is fused.
    fuse: bool,
}

impl Resuming {
    // A feed of this many inputs before its first event.
    pub(crate) fn new(
        alloc: Global,
        inputs: usize,
        every: Option<u64>,
        fuse: bool,
    ) -> Result<Resuming, Fail> {
        Ok(Resuming {
            fed: FedRows::new(alloc, inputs)?,
            finished: false,
            every,
            lines: 0,
            fuse,
        })
    }

    // Takes an event that the engine has taken.
    pub(crate) fn take(&mut self, event: Event) -> Result<(), Fail> {
        if self.every.is_none() {
            return Ok(());
        }
        self.fed.take(event)?;
        self.finished = event == Event::Finish;
        Ok(())
    }

    // Counts a line after which all that may be printed was returned. Another engine goes on if it is time.
    pub(crate) fn count_line(
        &mut self,
        alloc: Global,
        text: &str,
        live: &mut Live,
    ) -> Result<(), Fail>
        requires { IsLive live.old }
        ensures { IsLive live.new }
    {
        let Some(every) = self.every else {
            return Ok(());
        };
        self.lines = self.lines.saturating_add(1);
        if self.lines < every {
            return Ok(());
        }
        self.lines = 0;
        let state = self.state(alloc, text, live)?;
        self.go_on(alloc, &state, live)
    }

    // The text of the feed's state.
    fn state(&mut self, alloc: Global, text: &str, live: &mut Live) -> Result<Vec<u8>, Fail>
        requires { IsLive live.old }
        ensures { IsLive live.new }
    {
        let first = live.first_read();
        self.fed.forget(first)?;
        let inputs = self.fed.inputs(alloc, first)?;
        let begun = live.begun()?;
        let state = LiveState {
            query: query_of(alloc, text)?,
            progress: progress_at(live.resume_tick(), start_of(begun), self.finished),
            inputs: keep(alloc, &inputs, self.finished)?,
        };
        let mut spelled = Vec::new(alloc);
        encode(alloc, &state, &mut spelled)?;
        Ok(spelled)
    }

    // Goes on in another engine from the text of a state.
    fn go_on(&mut self, alloc: Global, state: &[u8], live: &mut Live) -> Result<(), Fail>
        requires { IsLive live.old }
        ensures { IsLive live.new }
    {
        let decoded = decode(alloc, state)?;
        let progress = decoded.state.progress;
        let inputs = restored(alloc, &decoded.state.inputs)?;
        self.fuse = !self.fuse;
        let accepted = accept(alloc, decoded.core, self.fuse)?;
        *live = resumed(alloc, accepted, progress.from, progress.finished, &inputs)?;
        self.fed = FedRows::of(alloc, &inputs)?;
        self.finished = progress.finished;
        Ok(())
    }
}

// The start of what has begun, if something has.
fn start_of(begun: Option<(i64, Cell)>) -> Option<i64> {
    Some(begun?.0)
}

// How far a feed is whose output goes on after a tick.
fn progress_at(from: i64, shown: Option<i64>, finished: bool) -> Progress {
    Progress {
        options: NO_OPTIONS,
        bytes: 0,
        lines: 0,
        written: 0,
        from,
        shown,
        finished,
        greatest: None,
        latest: None,
    }
}

// What is kept of inputs. No row of a finished feed is needed.
fn keep(alloc: Global, inputs: &[InputState], finished: bool) -> Result<Vec<KeptInput>, Fail> {
    let mut kept = Vec::new(alloc);
    for input in inputs {
        kept.push(KeptInput {
            rows: keep_rows(alloc, input, finished)?,
            edge: input.edge(),
            held: Vec::new(alloc),
        })?;
    }
    Ok(kept)
}

// The rows that are kept of an input.
fn keep_rows(alloc: Global, input: &InputState, finished: bool) -> Result<Rows, Fail> {
    let mut rows = Rows::new(alloc);
    if !finished {
        rows.append(input.rows())?;
    }
    Ok(rows)
}

// What was kept of inputs, as an engine takes it.
fn restored(alloc: Global, kept: &[KeptInput]) -> Result<Vec<InputState>, Fail> {
    let mut inputs = Vec::new(alloc);
    for input in kept {
        let mut rows = Rows::new(alloc);
        rows.append(input.rows.as_slice())?;
        inputs.push(InputState::new(rows, input.edge).ok_or("rows out of order")?)?;
    }
    Ok(inputs)
}

// The engine of a query that goes on after a tick.
fn resumed(
    alloc: Global,
    accepted: Accepted,
    from: i64,
    finished: bool,
    inputs: &[InputState],
) -> Result<Live, Fail>
    ensures { IfOk result (λ live. IsLive live) }
{
    let domain = accepted.domain();
    if inputs.len() != accepted.core().inputs().len() {
        return Err("another number of inputs".into());
    }
    if from < domain.start || domain.end < from {
        return Err("a tick outside of the domain".into());
    }
    Ok(Live::resume(alloc, accepted, from, finished, inputs)?)
}
