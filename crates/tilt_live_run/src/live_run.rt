// The run of a query, piece by piece.
ghost use Rattle.std.specs.Prelude.{◌≡◌, ◌++◌, ◌&&◌, ℕ, List, [], true, false};
ghost use Rattle.std.specs.Prelude.{◌∷◌, ◌↔◌, None, Some, length, IfOk, IfErr, OnOk, MatchOption, MatchResult};
ghost use Rattle.tilt_compiler.specs.Accepted.{AcceptedParts};
ghost use Rattle.tilt_feed_form.specs.Said.{FeedState};
ghost use Rattle.tilt_feed_text.specs.Split.{ended};
ghost use Rattle.tilt_live_run.specs.Adds.{Adds};
ghost use Rattle.tilt_live_run.specs.Left.{KeepsState, keeps_state, state_left};
ghost use Rattle.tilt_live_run.specs.Output.{first_news};
ghost use Rattle.tilt_live_run.specs.Reported.{Reports};
ghost use Rattle.tilt_serving.specs.Reported.{Reported};
ghost use Rattle.tilt_live_run.specs.Runs.{IsPlaced, IsRunAfter, IsRunOf, IsSound, added, end_report, is_stopped};
ghost use Rattle.tilt_live_run.specs.Runs.{is_unfinished, reported};
ghost use Rattle.tilt_live_run.specs.Stepped.{HasStepped, HasTaken, is_lost};
ghost use Rattle.tilt_live_run.specs.Taken.{HasTakenLine, HasTakenPiece};
ghost use Rattle.tilt_live_run.specs.declared.run_options.RunOptions.{RunOptions};
ghost use Rattle.tilt_live.specs.Lives.{IsLiveOf};
ghost use Rattle.tilt_live_state.specs.Valid.{IsStateOf};
ghost use Rattle.tilt_run_state.specs.Valid.{FitsForm, HasOptions};
ghost use Rattle.tilt_syntax.specs.Tree.{StatementTree};
ghost use Rattle.tilt_text.specs.Cut.{until_at};

use crate::keep::Keep;
use crate::line_run::LineRun;
use crate::place::Place;
use crate::run_options::RunOptions;
use crate::stop::Stop;
use crate::until_line::until_line;
use std::alloc::{AllocError as OutOfMemory, Global};
use tilt_compiler::Accepted;
use tilt_feed_text::append_cut;
use tilt_outside::Sink;
use tilt_port::Port;
use tilt_run_state::RunState;
use tilt_syntax::Query;

/// The run of a query on the text of its feed. It takes the bytes of the feed, in pieces of any size, and writes what each line makes
/// final, and what has begun if its display says so. Bad lines are reported and change nothing; if it is `strict`, the first one stops the
/// run.
/// A bad line before the header of readings always stops it.
#[derive(Drop)]
pub struct LiveRun {
    run: LineRun,
    // The bytes of the line whose LF hasn't come yet, as far as a line may be long.
    pending: Vec<u8>,
    place: Place,
}

impl LiveRun {
    /// The run of a query before the first byte of its feed. It writes the header, and what can be printed by then.
    pub fn start<P: Port>(
        alloc: Global,
        accepted: Accepted,
        options: RunOptions,
        keep: Keep,
        port: &mut P,
    ) -> Result<LiveRun, Stop>
        ensures adds { Adds P.tells (P.transcript port.old) (P.transcript port.new) (first_news options.display accepted.core) result }
        ensures is { IfOk result (λ run. IsRunOf run accepted options []) }
        ensures placed { IfOk result (λ run. IsPlaced run []) }
        ensures sound { IfOk result IsSound }
        ensures keeps { IfOk result (λ run. KeepsState run ↔ (keep ≡ Keep.State)) }
        ensures no_bad_line { IfErr result (λ stop. stop ≡ Stop.BadLine → ⊥) }
    {
        let mut run = LineRun::new(alloc, accepted, options, keep)?;
        run.begin(port)?;
        Ok(LiveRun {
            run,
            pending: Vec::new(alloc),
            place: Place {
                ended: 0,
                unended: 0,
            },
        })
    }

    /// The run that goes on from a state, of the query of which the state is, over a feed of the form of which it is. It is the run that
    /// was left, after the lines that it had taken. Nothing is written. `OutOfMemory` comes if memory runs out, and for no other reason.
    pub fn resume(
        alloc: Global,
        accepted: Accepted,
        options: RunOptions,
        state: RunState,
        keep: Keep,
    ) -> Result<LiveRun, OutOfMemory>
        requires valid { IsStateOf accepted.core state.state }
        requires fits { FitsForm options.form state }
        requires options { HasOptions options.form state }
        ensures is { IfOk result (λ run. (query : List StatementTree) (bytes : List ℕ) (written : ℕ)
            → state ≡ state_left options accepted.core query (ended bytes) written → IsRunOf run accepted options (ended bytes)) }
        ensures placed { IfOk result (λ run. (query : List StatementTree) (bytes : List ℕ) (written : ℕ)
            → state ≡ state_left options accepted.core query (ended bytes) written → IsPlaced run (ended bytes)) }
        ensures sound { IfOk result IsSound }
        ensures keeps { IfOk result (λ run. KeepsState run ↔ (keep ≡ Keep.State)) }
    {
        let bytes = state.state.progress.bytes;
        let run = LineRun::resume(alloc, accepted, options, state, keep)?;
        Ok(LiveRun {
            run,
            pending: Vec::new(alloc),
            place: Place {
                ended: bytes,
                unended: 0,
            },
        })
    }

    /// Takes the next piece of the feed: it writes what the lines that end in it make final, and reports the bad ones of them. `BadLine`
    /// comes if one of them is bad and stops the run, `WriteFault` only if the count of the port's write faults rose, and
    /// `OutOfMemory` if memory runs out. After an error the run is over.
    pub fn take<P: Port, E: Sink>(
        &mut self,
        piece: &[u8],
        port: &mut P,
        err: &mut E,
    ) -> Result<(), Stop>
        requires sound { IsSound self.old }
        requires lines { (n : ℕ) → E.takes err.old n }
        ensures adds { (accepted : AcceptedParts) (options : RunOptions) (bytes : List ℕ) → IsRunOf self.old accepted options bytes
            → Adds P.tells (P.transcript port.old) (P.transcript port.new) (added options accepted.core bytes piece.now) result }
        ensures reports { (accepted : AcceptedParts) (options : RunOptions) (bytes : List ℕ) → IsRunOf self.old accepted options bytes
            → Reports E.tells E.written E.faults err.old err.new (reported options accepted.core bytes piece.now) result }
        ensures goes_on { (accepted : AcceptedParts) (options : RunOptions) (bytes : List ℕ) → IsRunOf self.old accepted options bytes
            → OnOk result (IsRunOf self.new accepted options (bytes ++ piece.now)) }
        ensures stops { (accepted : AcceptedParts) (options : RunOptions) (bytes : List ℕ) → IsRunOf self.old accepted options bytes
            → MatchResult result (λ _. is_stopped options accepted.core bytes piece.now ≡ false)
            (λ stop. stop ≡ Stop.BadLine → is_stopped options accepted.core bytes piece.now ≡ true) }
        ensures placed { (bytes : List ℕ) → IsPlaced self.old bytes → OnOk result (IsPlaced self.new (bytes ++ piece.now)) }
        ensures keeps { KeepsState self.old → KeepsState self.new }
        ensures sound { IsSound self.new }
        ensures takes { (n : ℕ) → E.takes err.new n }
    {
        if !self.run.display.with_begun {
            return self.step(piece, port, err);
        }
        self.take_lines(piece, port, err)
    }

    // The same, line by line: after each line what has begun is written too.
    fn take_lines<P: Port, E: Sink>(
        &mut self,
        piece: &[u8],
        port: &mut P,
        err: &mut E,
    ) -> Result<(), Stop>
        requires sound { IsSound self.old }
        requires lines { (n : ℕ) → E.takes err.old n }
        ensures taken { (accepted : AcceptedParts) (options : RunOptions) (bytes : List ℕ) → IsRunOf self.old accepted options bytes
            → HasTaken P.tells (P.transcript port.old) (P.transcript port.new) E.tells E.written E.faults err.old err.new
            (λ later. IsRunOf self.new accepted options later) accepted.core options bytes piece.now result }
        ensures placed { (bytes : List ℕ) → IsPlaced self.old bytes → OnOk result (IsPlaced self.new (bytes ++ piece.now)) }
        ensures keeps { keeps_state self.new.run ≡ keeps_state self.old.run }
        ensures sound { IsSound self.new }
        ensures takes { (n : ℕ) → E.takes err.new n }
    {
        let mut rest = piece;
        while let Some((line, after)) = split_line(rest) {
            self.step(line, port, err)?;
            rest = after;
        }
        self.step(rest, port, err)
    }

    // Takes a piece, and then writes what all of its lines make final.
    fn step<P: Port, E: Sink>(
        &mut self,
        piece: &[u8],
        port: &mut P,
        err: &mut E,
    ) -> Result<(), Stop>
        requires sound { IsSound self.old }
        requires lines { (n : ℕ) → E.takes err.old n }
        ensures stepped { (accepted : AcceptedParts) (options : RunOptions) (bytes : List ℕ) → IsRunOf self.old accepted options bytes
            → HasStepped P.tells (P.transcript port.old) (P.transcript port.new) E.tells E.written E.faults err.old err.new
            (λ later. IsRunOf self.new accepted options later) accepted.core options bytes piece.now result }
        ensures placed { (bytes : List ℕ) → IsPlaced self.old bytes → OnOk result (IsPlaced self.new (bytes ++ piece.now)) }
        ensures keeps { keeps_state self.new.run ≡ keeps_state self.old.run }
        ensures sound { IsSound self.new }
        ensures takes { (n : ℕ) → E.takes err.new n }
    {
        let taken = self.take_piece(piece, err);
        if is_lost(taken) {
            return taken;
        }
        self.run.show(port)?;
        taken
    }

    // Takes a piece, and writes nothing yet.
    fn take_piece<E: Sink>(&mut self, piece: &[u8], err: &mut E) -> Result<(), Stop>
        requires sound { IsSound self.old }
        requires lines { (n : ℕ) → E.takes err.old n }
        ensures taken { (accepted : AcceptedParts) (options : RunOptions) (number : ℕ) (state : FeedState) (front : List ℕ) (given : ℕ)
            → IsRunAfter self.old accepted options number state front given
            → HasTakenPiece E.tells E.written E.faults err.old err.new (λ n s rest. IsRunAfter self.new accepted options n s rest given)
            (λ s. IsLiveOf self.new.run.live accepted s.feed given) accepted.core options number state front piece.now result }
        ensures kept { (self.new.run.shown ≡ self.old.run.shown) × (self.new.run.display ≡ self.old.run.display) }
        ensures no_write_fault { IfErr result (λ stop. stop ≡ Stop.WriteFault → ⊥) }
        ensures placed { (bytes : List ℕ) → IsPlaced self.old bytes → OnOk result (IsPlaced self.new (bytes ++ piece.now)) }
        ensures keeps { keeps_state self.new.run ≡ keeps_state self.old.run }
        ensures sound { IsSound self.new }
        ensures takes { (n : ℕ) → E.takes err.new n }
    {
        let mut rest = piece;
        while let Some((line, after)) = until_line(rest) {
            self.take_end(line, err)?;
            self.place = self.place.pass_line(line.len());
            rest = after;
        }
        append_cut(&mut self.pending, rest)?;
        self.place = self.place.pass(rest.len());
        Ok(())
    }

    // Takes the last bytes of a line, before its LF.
    fn take_end<E: Sink>(&mut self, end: &[u8], err: &mut E) -> Result<(), Stop>
        requires sound { IsSound self.old }
        requires lines { (n : ℕ) → E.takes err.old n }
        ensures taken { (accepted : AcceptedParts) (options : RunOptions) (number : ℕ) (state : FeedState) (front : List ℕ) (given : ℕ)
            → IsRunAfter self.old accepted options number state front given
            → HasTakenLine E.tells E.written E.faults err.old err.new (λ n s. IsRunAfter self.new accepted options n s [] given)
            (λ s. IsLiveOf self.new.run.live accepted s.feed given) accepted.core options number state (front ++ end.now) result }
        ensures kept { (self.new.run.shown ≡ self.old.run.shown) × (self.new.run.display ≡ self.old.run.display) }
        ensures no_write_fault { IfErr result (λ stop. stop ≡ Stop.WriteFault → ⊥) }
        ensures placed { self.new.place ≡ self.old.place }
        ensures keeps { keeps_state self.new.run ≡ keeps_state self.old.run }
        ensures sound { IsSound self.new }
        ensures takes { (n : ℕ) → E.takes err.new n }
    {
        if self.pending.is_empty() {
            return self.run.take(end, err);
        }
        append_cut(&mut self.pending, end)?;
        self.run.take(&self.pending, err)?;
        self.pending.clear();
        Ok(())
    }

    /// Reports bytes at the end of the feed that are no line, since their LF is missing. `BadLine` comes exactly if there are some and the
    /// run is strict.
    pub fn end<E: Sink>(&self, err: &mut E) -> Result<(), Stop>
        requires lines { (n : ℕ) → E.takes err.old n }
        ensures reports { (accepted : AcceptedParts) (options : RunOptions) (bytes : List ℕ) → IsRunOf self.now accepted options bytes
            → Reported E.tells E.written E.faults err.old err.new (end_report options bytes) }
        ensures stops { (accepted : AcceptedParts) (options : RunOptions) (bytes : List ℕ) → IsRunOf self.now accepted options bytes
            → MatchResult result (λ _. (options.strict && is_unfinished bytes) ≡ false)
            (λ stop. (stop ≡ Stop.BadLine) × ((options.strict && is_unfinished bytes) ≡ true)) }
        ensures only { IfErr result (λ stop. stop ≡ Stop.BadLine) }
        ensures takes { (n : ℕ) → E.takes err.new n }
    {
        if self.pending.is_empty() {
            return Ok(());
        }
        self.run.report_end(err)
    }

    /// What it hands on to the next run: its state after the lines that it has taken. `written` is how many bytes of output were written
    /// by then. The bytes of a line whose LF hasn't come yet aren't part of it. `OutOfMemory` comes if memory runs out, or ran out in an
    /// earlier call of the run.
    pub fn state(
        &mut self,
        alloc: Global,
        query: Query,
        written: u64,
    ) -> Result<RunState, OutOfMemory>
        requires sound { IsSound self.old }
        requires keeps { KeepsState self.old }
        ensures is { (accepted : AcceptedParts) (options : RunOptions) (bytes : List ℕ) → IsRunOf self.old accepted options bytes
            → IsPlaced self.old bytes
            → IfOk result (λ state. state ≡ state_left options accepted.core query (ended bytes) written) }
        ensures valid { (accepted : AcceptedParts) (options : RunOptions) (bytes : List ℕ) → IsRunOf self.old accepted options bytes
            → IfOk result (λ state. IsStateOf accepted.core state.state) }
        ensures fits { (accepted : AcceptedParts) (options : RunOptions) (bytes : List ℕ) → IsRunOf self.old accepted options bytes
            → IfOk result (FitsForm options.form) }
        ensures goes_on { (accepted : AcceptedParts) (options : RunOptions) (bytes : List ℕ) → IsRunOf self.old accepted options bytes
            → OnOk result (IsRunOf self.new accepted options bytes) }
        ensures placed { (bytes : List ℕ) → IsPlaced self.old bytes → IsPlaced self.new bytes }
        ensures still_keeps { KeepsState self.new }
        ensures still_sound { IsSound self.new }
    {
        self.run.state(alloc, query, self.place.ended, written)
    }
}

// Whether a run can't go on showing anything: it stopped, and not at a bad line.
fn is_lost(taken: Result<(), Stop>) -> bool
    ensures { result ≡ is_lost taken }
{
    matches!(taken, Err(Stop::WriteFault | Stop::OutOfMemory))
}

// The first line with its LF, and the rest; `None` if there is no LF.
fn split_line(bytes: &[u8]) -> Option<(&[u8], &[u8])>
    ensures { MatchOption result (until_at 10 bytes.now ≡ None)
        (λ parts. (line : List ℕ) × (until_at 10 bytes.now ≡ Some (line, parts.1.now)) × (parts.0.now ≡ line ++ 10 ∷ [])) }
{
    let (line, _) = until_line(bytes)?;
    Some(bytes.split_at(line.len() + 1))
}
