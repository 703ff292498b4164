// Where the run of a query begins.
ghost use Rattle.std.specs.Prelude.{◌≡◌, IfOk, IfErr};
ghost use Rattle.tilt_live_app.specs.Resumed.{IsFitFor, StartsAt};
ghost use Rattle.tilt_live_run.specs.Adds.{Adds};
ghost use Rattle.tilt_live_run.specs.Feeds.{IsRunAt};
ghost use Rattle.tilt_live_run.specs.Left.{KeepsState};
ghost use Rattle.tilt_live_run.specs.Runs.{IsSound};
ghost use Rattle.tilt_serving.specs.Served.{Start};

use std::alloc::Global;
use tilt_compiler::Accepted;
use tilt_live_run::{Keep, LiveRun, RunOptions, Stop};
use tilt_port::Port;
use tilt_run_state::RunState;

// What a run of a query begins with.
#[derive(Drop)]
pub(crate) struct Begin {
    // What the compiler knows of the query.
    pub(crate) accepted: Accepted,
    // What is asked of the run.
    pub(crate) options: RunOptions,
    // The state that it goes on from, if there is one. Otherwise it begins with the first byte of a feed.
    pub(crate) from: Option<RunState>,
    // What it keeps.
    pub(crate) keep: Keep,
}

impl Begin {
    // The run, after what comes before all that it reads was written: nothing, if it goes on from a state.
    pub(crate) fn run<P: Port>(self, alloc: Global, port: &mut P) -> Result<LiveRun, Stop>
        requires { IsFitFor self.accepted.core self.options.form self.from }
        ensures adds { (start : Start) → StartsAt self.options self.accepted.core self.from start
            → Adds P.tells (P.transcript port.old) (P.transcript port.new) start.head result }
        ensures is { (start : Start) → StartsAt self.options self.accepted.core self.from start
            → IfOk result (λ run. IsRunAt run (record { accepted = self.accepted; options = self.options }) start.before) }
        ensures no_bad_line { IfErr result (λ stop. stop ≡ Stop.BadLine → ⊥) }
        ensures sound { IfOk result IsSound }
        ensures keeps { self.keep ≡ Keep.State → IfOk result KeepsState }
    {
        let Begin {
            accepted,
            options,
            from,
            keep,
        } = self;
        match from {
            None => LiveRun::start(alloc, accepted, options, keep, port),
            Some(state) => {
                let run = LiveRun::resume(alloc, accepted, options, state, keep)?;
                Ok(run)
            }
        }
    }
}
