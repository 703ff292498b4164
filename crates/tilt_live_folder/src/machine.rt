// The run of a query, as a machine whose output goes into a folder.
ghost use Rattle.std.specs.Prelude.{◌≡◌, ◌++◌, ℕ, List, IfErr, IfOk, OnOk};
ghost use Rattle.tilt_feed_text.specs.Split.{ended, unfinished};
ghost use Rattle.tilt_live_folder.specs.Feeds.{Commits, EndsBadly, Fits, LiveFeed, Rejects, output_for};
ghost use Rattle.tilt_live_folder.specs.Laws.{has_output, has_state};
ghost use Rattle.tilt_live_folder.specs.Machines.{CanRun, IsRunning};
ghost use Rattle.tilt_live_run.specs.Left.{state_left};
ghost use Rattle.tilt_run_state.specs.Spelling.{kept_lines, opening};
ghost use Rattle.tilt_live_state.specs.Spelling as live;
ghost use Rattle.tilt_run_state.specs.Valid.{IsRunState};

use crate::query::copy;
use crate::recipe::LiveRecipe;
use crate::resuming::resume_lines;
use crate::tail::{grow, split_lines};
use std::alloc::{AllocError as OutOfMemory, Global};
use tilt_exactly_once::{Machine, Refusal, Resumed, Started, Stop};
use tilt_feed_form::FeedForm;
use tilt_live_run::{Keep, LiveRun};
use tilt_outside::Sink;
use tilt_port::{BufferPort, Unheard};
use tilt_run_state::{RunState, is_in_range, put_opening, put_state};
use tilt_syntax::Query;

/// The run of a query that keeps what its state needs.
#[derive(Drop)]
pub struct LiveMachine {
    pub(crate) run: LiveRun,
    pub(crate) query: Query,
    // What its states begin with.
    pub(crate) opening: Vec<u8>,
    // The bytes of the line whose LF hasn't come yet.
    pub(crate) tail: Vec<u8>,
    // How many bytes it has taken, as far as the count goes.
    pub(crate) taken: u64,
}

impl LiveMachine {
    // Its state, if this many bytes of output were written.
    fn make_state(&mut self, alloc: Global, written: u64) -> Result<RunState, OutOfMemory>
        requires { CanRun self.old }
        ensures is { (feed : LiveFeed) (bytes : List ℕ) → IsRunning self.old feed bytes
            → IfOk result (λ state. state ≡ state_left feed.options feed.accepted.core feed.query (ended bytes) written) }
        ensures valid { (feed : LiveFeed) (bytes : List ℕ) → IsRunning self.old feed bytes → IfOk result (IsRunState feed.options.form) }
        ensures goes_on { (feed : LiveFeed) (bytes : List ℕ) → IsRunning self.old feed bytes → OnOk result (IsRunning self.new feed bytes) }
        ensures tail { self.new.tail.items ≡ self.old.tail.items }
        ensures opening { self.new.opening.items ≡ self.old.opening.items }
        ensures can { CanRun self.new }
    {
        let query = copy(alloc, &self.query)?;
        self.run.state(alloc, query, written)
    }
}

impl Machine for LiveMachine {
    type Recipe = LiveRecipe;

    ghost Of = { LiveFeed };

    ghost of = { λ recipe. recipe };

    ghost rejects = { Rejects };

    ghost is = { IsRunning };

    ghost sound = { CanRun };

    ghost output = { output_for };

    ghost commits = { Commits };

    ghost stops = { EndsBadly };

    ghost fits = { Fits };

    fn take<E: Sink>(&mut self, alloc: Global, piece: &[u8], err: &mut E) -> Result<Vec<u8>, Stop> {
        let mut buffer = BufferPort::new(alloc);
        match self.run.take(piece, &mut buffer, err) {
            Ok(()) => {}
            Err(tilt_live_run::Stop::BadLine) => return Err(Stop::BadLine),
            Err(_) => return Err(Stop::OutOfMemory),
        }
        match grow(&mut self.tail, piece) {
            Ok(()) => {}
            Err(_) => return Err(Stop::OutOfMemory),
        }
        self.taken = self.taken.saturating_add(piece.len() as u64);
        Ok(buffer.into_bytes())
    }

    fn end<E: Sink>(&self, err: &mut E) -> Result<(), Stop> {
        match self.run.end(err) {
            Ok(()) => Ok(()),
            Err(_) => Err(Stop::BadLine),
        }
    }

    fn taken(&self) -> u64 {
        self.taken
    }

    fn state(&mut self, alloc: Global, written: u64) -> Result<Vec<u8>, Stop> {
        let Ok(state) = self.make_state(alloc, written) else {
            return Err(Stop::OutOfMemory);
        };
        if !is_in_range(&state) {
            return Err(Stop::TooLong);
        }
        match spell(alloc, &self.opening, &state, &self.tail) {
            Ok(text) => Ok(text),
            Err(_) => Err(Stop::OutOfMemory),
        }
    }

    fn start(alloc: Global, recipe: LiveRecipe) -> Result<Started<LiveMachine>, Stop> {
        let LiveRecipe {
            query,
            accepted,
            options,
        } = recipe;
        let Ok(opening) = open_states(alloc, &options.form) else {
            return Err(Stop::OutOfMemory);
        };
        let mut buffer = BufferPort::new(alloc);
        match LiveRun::start(alloc, accepted, options, Keep::State, &mut buffer) {
            Ok(run) => Ok(Started {
                machine: LiveMachine {
                    run,
                    query,
                    opening,
                    tail: Vec::new(alloc),
                    taken: 0,
                },
                output: buffer.into_bytes(),
            }),
            Err(_) => Err(Stop::OutOfMemory),
        }
    }

    fn resume(
        alloc: Global,
        recipe: LiveRecipe,
        text: &[u8],
    ) -> Result<Resumed<LiveMachine>, Refusal> {
        let (lines, tail) = split_lines(text);
        let resumed = resume_lines(alloc, recipe, lines)?;
        let written = resumed.written;
        let mut machine = resumed.machine;
        // There is no line in it, so nothing is reported.
        match machine.take(alloc, tail, &mut Unheard) {
            Ok(_) => Ok(Resumed { machine, written }),
            Err(_) => Err(Refusal::OutOfMemory),
        }
    }

    ghost has_output = { has_output };

    ghost has_state = { has_state };
}

// What the states of a run over a feed in this form begin with.
pub(crate) fn open_states(alloc: Global, form: &FeedForm) -> Result<Vec<u8>, OutOfMemory>
    ensures { IfOk result (λ front. front.items ≡ opening form.now) }
{
    let mut front = Vec::new(alloc);
    put_opening(&mut front, form)?;
    Ok(front)
}

// The spelling of a state after its opening, and these bytes behind it.
fn spell(
    alloc: Global,
    opening: &[u8],
    state: &RunState,
    tail: &[u8],
) -> Result<Vec<u8>, OutOfMemory>
    ensures { IfOk result (λ text. text.items ≡ (opening.now ++ (kept_lines state.now.kept ++ live.spelled state.now.state)) ++ tail.now) }
{
    let mut text = Vec::new(alloc);
    text.extend_from_slice(opening)?;
    put_state(alloc, state, &mut text)?;
    text.extend_from_slice(tail)?;
    Ok(text)
}
