// The run of a query on lines that comes without a header and reports nothing.
ghost use Rattle.std.specs.Prelude.{◌≡◌, ◌++◌, ◌∷◌, ℕ, List, [], IfErr, IfOk, OnOk};
ghost use Rattle.tilt_compiler.specs.Accepted.{AcceptedParts};
ghost use Rattle.tilt_live_run.specs.Adds.{Adds};
ghost use Rattle.tilt_live_run.specs.Bare.{IsBareRunOf, bad_after, line_news};
ghost use Rattle.tilt_live_run.specs.Output.{first_rows};
ghost use Rattle.tilt_live_run.specs.declared.run_options.RunOptions.{RunOptions};

use crate::keep::Keep;
use crate::line_run::LineRun;
use crate::run_options::RunOptions;
use crate::stop::Stop;
use std::alloc::Global;
use tilt_compiler::Accepted;
use tilt_feed_form::BadFeedLine;
use tilt_port::Port;

/// The run of a query on the lines of its feed, which it takes one by one. It writes what `LiveRun` does, but no header. It reports
/// nothing: it returns why a line is bad. No line stops it, and it keeps no state.
#[derive(Drop)]
pub struct BareRun {
    run: LineRun,
}

impl BareRun {
    /// The run of a query before the first line of its feed. It writes what can be printed by then. `WriteFault` comes only if the count
    /// of the port's write faults rose, `OutOfMemory` if memory runs out, and `BadLine` never.
    pub fn start<P: Port>(
        alloc: Global,
        accepted: Accepted,
        options: RunOptions,
        port: &mut P,
    ) -> Result<BareRun, Stop>
        ensures adds { Adds P.tells (P.transcript port.old) (P.transcript port.new) (first_rows options.display accepted.core) result }
        ensures is { IfOk result (λ run. IsBareRunOf run accepted options []) }
        ensures no_bad_line { IfErr result (λ stop. stop ≡ Stop.BadLine → ⊥) }
    {
        let mut run = LineRun::new(alloc, accepted, options, Keep::Nothing)?;
        run.show(port)?;
        Ok(BareRun { run })
    }

    /// Takes a line without its LF, and writes what it makes final. Returns why the line is bad, if it is: then nothing changes but the
    /// number of lines. The errors are those of `start`. After one the run is over, and takes no line.
    pub fn take<P: Port>(&mut self, line: &[u8], port: &mut P) -> Result<Option<BadFeedLine>, Stop>
        requires { (accepted : AcceptedParts) × (options : RunOptions) × (lines : List (List ℕ))
            × IsBareRunOf self.old accepted options lines }
        ensures adds { (accepted : AcceptedParts) (options : RunOptions) (lines : List (List ℕ))
            → IsBareRunOf self.old accepted options lines → Adds P.tells (P.transcript port.old) (P.transcript port.new)
            (line_news options accepted.core lines line.now) result }
        ensures goes_on { (accepted : AcceptedParts) (options : RunOptions) (lines : List (List ℕ))
            → IsBareRunOf self.old accepted options lines → OnOk result (IsBareRunOf self.new accepted options (lines ++ line.now ∷ [])) }
        ensures bad { (accepted : AcceptedParts) (options : RunOptions) (lines : List (List ℕ))
            → IsBareRunOf self.old accepted options lines → IfOk result (λ why. why ≡ bad_after options accepted.core lines line.now) }
        ensures no_bad_line { IfErr result (λ stop. stop ≡ Stop.BadLine → ⊥) }
    {
        let why = self.run.take_line(line)?;
        self.run.show(port)?;
        Ok(why)
    }
}
