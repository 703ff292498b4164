// The run of a query, line by line.
ghost use Rattle.std.specs.Prelude.{◌≡◌, Option, map, ◌++◌, ℕ, ℤ, [], None};
ghost use Rattle.std.specs.Prelude.{true, false, length, drop, if◌then◌else◌, IfOk, IfErr, OnOk, MatchResult};
ghost use Rattle.tilt_compiler.specs.Accepted.{AcceptedParts};
ghost use Rattle.tilt_feed.specs.Feed.{Feed, empty_feed};
ghost use Rattle.tilt_feed.specs.Printed.{begun, printed};
ghost use Rattle.tilt_feed_form.specs.Report.{report};
ghost use Rattle.tilt_feed_form.specs.Machine.{form_of, kept_of};
ghost use Rattle.tilt_feed_form.specs.Said.{FeedState, after_line, ends, first_state, line_fault, no_end};
ghost use Rattle.tilt_feed_form.specs.Kept.{bare_kept, kept_with};
ghost use Rattle.tilt_feed_form.specs.declared.feed_form.FeedForm.{FeedForm};
ghost use Rattle.tilt_input_state.specs.Resume.{first_read};
ghost use Rattle.tilt_live.specs.Lives.{IsLive, IsLiveOf, tick_of_live};
ghost use Rattle.tilt_live_run.specs.Adds.{Adds};
ghost use Rattle.tilt_live_run.specs.KeptRows.{KeepsRows, has_rows, needs_rows};
ghost use Rattle.tilt_live_run.specs.Left.{each_left, inputs_left, keeps_state, kept_given, none_held, progress_of};
ghost use Rattle.tilt_live_run.specs.Left.{readings_kept, watermark_options};
ghost use Rattle.tilt_live_run.specs.Leaves.{AreResumable, Belongs, IsLeftOf};
ghost use Rattle.tilt_live_run.specs.Output.{begun_news, begun_start, first_news};
ghost use Rattle.tilt_serving.specs.Reported.{Reported};
ghost use Rattle.tilt_live_run.specs.Runs.{IsLineRunOf};
ghost use Rattle.tilt_live_run.specs.Taken.{HasTakenLine};
ghost use Rattle.tilt_live_run.specs.declared.run_options.RunOptions.{RunOptions};
ghost use Rattle.tilt_outside.specs.Counts.{next_count};
ghost use Rattle.tilt_row_text.specs.Lines.{lines_in};
ghost use Rattle.tilt_live.specs.Resuming.{IsLeft};
ghost use Rattle.tilt_live_state.specs.State as parts;
ghost use Rattle.tilt_live_state.specs.Valid.{IsStateOf};
ghost use Rattle.tilt_run_state.specs.Valid.{FitsForm, HasOptions};
ghost use Rattle.tilt_engine.specs.Engines.{begun_pair};
ghost use Rattle.tilt_feed.specs.Printed.{Begun};
ghost use Rattle.tilt_watermarks.specs.Laws.{IsKeptOf};

use crate::display::Display;
use crate::events::take_events;
use crate::inputs::{bare_inputs, join_inputs, kept_feed, known_inputs};
use crate::keep::Keep;
use crate::left::Left;
use crate::run_options::RunOptions;
use crate::shown::{show_begun, show_final, write_header};
use crate::state_rows::StateRows;
use crate::stop::Stop;
use std::alloc::{AllocError as OutOfMemory, Global};
use tilt_base::Cell;
use tilt_compiler::Accepted;
use tilt_feed::Event;
use tilt_feed_form::{BadFeedLine, FeedText, KeptFeed, put_report};
use tilt_live::Live;
use tilt_live_state::{InputState, LiveState, Progress};
use tilt_outside::Sink;
use tilt_port::Port;
use tilt_run_state::RunState;
use tilt_syntax::Query;
use tilt_watermarks::{KeptState, Options};

// The live engine of a query, and what was taken and written by it.
#[derive(Drop)]
pub(crate) struct LineRun {
    pub(crate) live: Live,
    // The rows that its state needs, if they are kept.
    pub(crate) rows: StateRows,
    text: FeedText,
    // Room for the events of a line.
    events: Vec<Event>,
    // How many lines were taken, as far as the count goes.
    pub(crate) number: u64,
    pub(crate) display: Display,
    strict: bool,
    // The start of the snapshot that had begun after the last line.
    pub(crate) shown: Option<i64>,
}

impl LineRun {
    // The run before the first line, of which nothing was written.
    pub(crate) fn new(
        alloc: Global,
        accepted: Accepted,
        options: RunOptions,
        keep: Keep,
    ) -> Result<LineRun, OutOfMemory>
        ensures is { IfOk result (λ run. IsLineRunOf run accepted options 0 (first_state options.form (length accepted.core.inputs)) 0) }
        ensures keeps { IfOk result (λ run. keeps_state run ≡ needs_rows keep) }
        ensures shown { IfOk result (λ run. run.shown ≡ None) }
        ensures live { IfOk result (λ run. IsLive run.live) }
    {
        let live = Live::new(alloc, accepted)?;
        let inputs = live.inputs().len();
        Ok(LineRun {
            live,
            rows: StateRows::new(alloc, inputs, keep)?,
            text: FeedText::new(alloc, options.form, inputs as u32)?,
            events: Vec::new(alloc),
            number: 0,
            display: options.display,
            strict: options.strict,
            shown: None,
        })
    }

    // The run that goes on from a state of its query.
    pub(crate) fn resume(
        alloc: Global,
        accepted: Accepted,
        options: RunOptions,
        from: RunState,
        keep: Keep,
    ) -> Result<LineRun, OutOfMemory>
        requires valid { IsStateOf accepted.core from.state }
        requires fits { FitsForm options.form from }
        requires options { HasOptions options.form from }
        ensures is { IfOk result (λ run. (feeds : FeedState)
            → IsLeft accepted.core feeds.feed from.state.progress.from from.state.progress.finished (map parts.feed_of from.state.inputs)
            → kept_with options.form (kept_given from) ≡ feeds.kept
            → IsLineRunOf run accepted options from.state.progress.lines feeds (length (printed accepted.core feeds.feed))) }
        ensures shown { IfOk result (λ run. run.shown ≡ from.state.progress.shown) }
        ensures keeps { IfOk result (λ run. keeps_state run ≡ needs_rows keep) }
        ensures live { IfOk result (λ run. IsLive run.live) }
    {
        // That it has few inputs is known from here on.
        let _core = accepted.core();
        let RunState { state, kept } = from;
        let progress = state.progress;
        let known = known_inputs(alloc, &state.inputs)?;
        let kept = kept_feed(alloc, &state, kept)?;
        Ok(LineRun {
            live: Live::resume(alloc, accepted, progress.from, progress.finished, &known)?,
            rows: StateRows::of(alloc, &known, keep)?,
            text: FeedText::resume(alloc, options.form, &kept)?,
            events: Vec::new(alloc),
            number: progress.lines,
            display: options.display,
            strict: options.strict,
            shown: progress.shown,
        })
    }

    // Writes the header, and what can be printed before the first line.
    pub(crate) fn begin<P: Port>(&mut self, port: &mut P) -> Result<(), Stop>
        requires live { IsLive self.old.live }
        ensures adds { (accepted : AcceptedParts) → IsLiveOf self.old.live accepted (empty_feed (length accepted.core.inputs)) 0
            → self.old.shown ≡ None
            → Adds P.tells (P.transcript port.old) (P.transcript port.new) (first_news self.old.display accepted.core) result }
        ensures goes_on { (accepted : AcceptedParts) → IsLiveOf self.old.live accepted (empty_feed (length accepted.core.inputs)) 0
            → OnOk result (IsLiveOf self.new.live accepted (empty_feed (length accepted.core.inputs))
            (length (printed accepted.core (empty_feed (length accepted.core.inputs))))) }
        ensures begun { (accepted : AcceptedParts) → IsLiveOf self.old.live accepted (empty_feed (length accepted.core.inputs)) 0
            → OnOk result (self.old.display.with_begun ≡ true
            → self.new.shown ≡ begun_start (begun accepted.core (empty_feed (length accepted.core.inputs)))) }
        ensures rows { (accepted : AcceptedParts) → IsLiveOf self.old.live accepted (empty_feed (length accepted.core.inputs)) 0
            → KeepsRows self.old.rows (first_read accepted.core (tick_of_live self.old.live)) (empty_feed (length accepted.core.inputs))
            → OnOk result (KeepsRows self.new.rows (first_read accepted.core (tick_of_live self.new.live))
            (empty_feed (length accepted.core.inputs))) }
        ensures keeps { keeps_state self.new ≡ keeps_state self.old }
        ensures rest { (self.new.number ≡ self.old.number) × (self.new.display ≡ self.old.display)
            × (self.new.strict ≡ self.old.strict) × (self.new.text ≡ self.old.text) }
        ensures no_bad_line { IfErr result (λ stop. stop ≡ Stop.BadLine → ⊥) }
        ensures live { IsLive self.new.live }
    {
        write_header(port)?;
        self.show(port)
    }

    // Takes a line without its LF, and reports it if it is bad. Nothing is written yet.
    pub(crate) fn take<E: Sink>(&mut self, line: &[u8], err: &mut E) -> Result<(), Stop>
        requires { (n : ℕ) → E.takes err.old n }
        ensures taken { (accepted : AcceptedParts) (options : RunOptions) (number : ℕ) (state : FeedState) (given : ℕ)
            → IsLineRunOf self.old accepted options number state given
            → HasTakenLine E.tells E.written E.faults err.old err.new (λ n s. IsLineRunOf self.new accepted options n s given)
            (λ s. IsLiveOf self.new.live accepted s.feed given) accepted.core options number state line.now result }
        ensures kept { (self.new.shown ≡ self.old.shown) × (self.new.display ≡ self.old.display) }
        ensures keeps { keeps_state self.new ≡ keeps_state self.old }
        ensures no_write_fault { IfErr result (λ stop. stop ≡ Stop.WriteFault → ⊥) }
        ensures live { IsLive self.old.live → IsLive self.new.live }
        ensures takes { (n : ℕ) → E.takes err.new n }
    {
        if let Some(why) = self.take_content(line)? {
            self.report_bad(why, err)?;
        }
        self.number = self.number.saturating_add(1);
        Ok(())
    }

    // Takes a line without its LF, and returns why it is bad, if it is. Nothing is written or reported.
    pub(crate) fn take_line(&mut self, line: &[u8]) -> Result<Option<BadFeedLine>, OutOfMemory>
        ensures taken { (accepted : AcceptedParts) (options : RunOptions) (number : ℕ) (state : FeedState) (given : ℕ)
            → IsLineRunOf self.old accepted options number state given
            → IfOk result (λ why. (why ≡ line_fault options.form accepted.core.inputs state.kept number line.now)
            × IsLineRunOf self.new accepted options (next_count number)
            (after_line options.form accepted.core.inputs number line.now state) given) }
        ensures kept { (self.new.shown ≡ self.old.shown) × (self.new.display ≡ self.old.display) }
        ensures live { IsLive self.old.live → IsLive self.new.live }
    {
        let why = self.take_content(line)?;
        let next = self.number.saturating_add(1);
        self.number = next;
        Ok(why)
    }

    // Reports that the line after those that were taken is bad, which stops the run if bad lines do, or if the header hasn't come.
    fn report_bad<E: Sink>(&self, why: BadFeedLine, err: &mut E) -> Result<(), Stop>
        requires { (n : ℕ) → E.takes err.old n }
        ensures reported { Reported E.tells E.written E.faults err.old err.new (report (next_count self.now.number) why) }
        ensures result { let stopped = ends self.now.strict (kept_of self.now.text) (Some why) in
            MatchResult result (λ _. stopped ≡ false) (λ stop. (stop ≡ Stop.BadLine) × (stopped ≡ true)) }
        ensures takes { (n : ℕ) → E.takes err.new n }
    {
        self.report_next(why, err);
        if self.strict || self.text.is_headless() {
            return Err(Stop::BadLine);
        }
        Ok(())
    }

    // Reports that the feed ended before the LF of the line after those that were taken, which stops the run if bad lines do.
    pub(crate) fn report_end<E: Sink>(&self, err: &mut E) -> Result<(), Stop>
        requires { (n : ℕ) → E.takes err.old n }
        ensures reported { Reported E.tells E.written E.faults err.old err.new
            (report (next_count self.now.number) (no_end (form_of self.now.text))) }
        ensures result { MatchResult result (λ _. self.now.strict ≡ false) (λ stop. (stop ≡ Stop.BadLine) × (self.now.strict ≡ true)) }
        ensures takes { (n : ℕ) → E.takes err.new n }
    {
        self.report_next(self.text.no_end(), err);
        if self.strict {
            return Err(Stop::BadLine);
        }
        Ok(())
    }

    // Reports that the line after those that were taken is bad. A fault of the sink changes nothing.
    fn report_next<E: Sink>(&self, why: BadFeedLine, err: &mut E)
        requires { (n : ℕ) → E.takes err.old n }
        ensures reported { Reported E.tells E.written E.faults err.old err.new (report (next_count self.now.number) why) }
        ensures takes { (n : ℕ) → E.takes err.new n }
    {
        let _ = put_report(err, self.number.saturating_add(1), why);
    }

    // Takes what the next line says, and returns why it is bad, if it is.
    fn take_content(&mut self, line: &[u8]) -> Result<Option<BadFeedLine>, OutOfMemory>
        ensures taken { (accepted : AcceptedParts) (state : FeedState) (given : ℕ) → IsLiveOf self.old.live accepted state.feed given
            → kept_of self.old.text ≡ state.kept → let form = form_of self.old.text in
            IfOk result (λ why. (why ≡ line_fault form accepted.core.inputs state.kept self.old.number line.now)
            × (kept_of self.new.text ≡ (after_line form accepted.core.inputs self.old.number line.now state).kept)
            × IsLiveOf self.new.live accepted (after_line form accepted.core.inputs self.old.number line.now state).feed given) }
        ensures rows { (accepted : AcceptedParts) (state : FeedState) (given : ℕ) (first : ℤ)
            → IsLiveOf self.old.live accepted state.feed given → kept_of self.old.text ≡ state.kept
            → KeepsRows self.old.rows first state.feed → let form = form_of self.old.text in
            OnOk result (KeepsRows self.new.rows first (after_line form accepted.core.inputs self.old.number line.now state).feed) }
        ensures tick { tick_of_live self.new.live ≡ tick_of_live self.old.live }
        ensures keeps { has_rows self.new.rows ≡ has_rows self.old.rows }
        ensures form { form_of self.new.text ≡ form_of self.old.text }
        ensures live { IsLive self.old.live → IsLive self.new.live }
        ensures rest { (self.new.number ≡ self.old.number) × (self.new.display ≡ self.old.display)
            × (self.new.strict ≡ self.old.strict) × (self.new.shown ≡ self.old.shown) }
    {
        let inputs = self.live.inputs();
        let why = self.text.take(inputs, self.number, line, &mut self.events)?;
        take_events(&mut self.live, &mut self.rows, &self.events)?;
        Ok(why)
    }

    // Writes what can be printed and wasn't, and then what has begun, if that is asked for. Then it lets go of rows that its state won't
    // need.
    pub(crate) fn show<P: Port>(&mut self, port: &mut P) -> Result<(), Stop>
        requires live { IsLive self.old.live }
        ensures adds { (accepted : AcceptedParts) (feed : Feed) (given : ℕ) → IsLiveOf self.old.live accepted feed given
            → Adds P.tells (P.transcript port.old) (P.transcript port.new)
            (lines_in self.old.display.style (drop given (printed accepted.core feed))
            ++ (if self.old.display.with_begun
            then begun_news self.old.display.style self.old.shown (begun accepted.core feed) else [])) result }
        ensures goes_on { (accepted : AcceptedParts) (feed : Feed) (given : ℕ) → IsLiveOf self.old.live accepted feed given
            → OnOk result (IsLiveOf self.new.live accepted feed (length (printed accepted.core feed))) }
        ensures begun { (accepted : AcceptedParts) (feed : Feed) (given : ℕ) → IsLiveOf self.old.live accepted feed given
            → OnOk result (self.old.display.with_begun ≡ true → self.new.shown ≡ begun_start (begun accepted.core feed)) }
        ensures rows { (accepted : AcceptedParts) (feed : Feed) (given : ℕ) → IsLiveOf self.old.live accepted feed given
            → KeepsRows self.old.rows (first_read accepted.core (tick_of_live self.old.live)) feed
            → OnOk result (KeepsRows self.new.rows (first_read accepted.core (tick_of_live self.new.live)) feed) }
        ensures keeps { keeps_state self.new ≡ keeps_state self.old }
        ensures no_bad_line { IfErr result (λ stop. stop ≡ Stop.BadLine → ⊥) }
        ensures rest { (self.new.number ≡ self.old.number) × (self.new.display ≡ self.old.display)
            × (self.new.strict ≡ self.old.strict) × (self.new.text ≡ self.old.text) }
        ensures live { IsLive self.new.live }
    {
        self.write_news(port)?;
        self.rows.forget(self.live.first_read())?;
        Ok(())
    }

    // Writes what can be printed and wasn't, and then what has begun, if that is asked for.
    fn write_news<P: Port>(&mut self, port: &mut P) -> Result<(), Stop>
        requires live { IsLive self.old.live }
        ensures adds { (accepted : AcceptedParts) (feed : Feed) (given : ℕ) → IsLiveOf self.old.live accepted feed given
            → Adds P.tells (P.transcript port.old) (P.transcript port.new)
            (lines_in self.old.display.style (drop given (printed accepted.core feed))
            ++ (if self.old.display.with_begun
            then begun_news self.old.display.style self.old.shown (begun accepted.core feed) else [])) result }
        ensures goes_on { (accepted : AcceptedParts) (feed : Feed) (given : ℕ) → IsLiveOf self.old.live accepted feed given
            → OnOk result (IsLiveOf self.new.live accepted feed (length (printed accepted.core feed))) }
        ensures begun { (accepted : AcceptedParts) (feed : Feed) (given : ℕ) → IsLiveOf self.old.live accepted feed given
            → OnOk result (self.old.display.with_begun ≡ true → self.new.shown ≡ begun_start (begun accepted.core feed)) }
        ensures no_bad_line { IfErr result (λ stop. stop ≡ Stop.BadLine → ⊥) }
        ensures rest { (self.new.number ≡ self.old.number) × (self.new.display ≡ self.old.display)
            × (self.new.strict ≡ self.old.strict) × (self.new.rows ≡ self.old.rows) × (self.new.text ≡ self.old.text) }
        ensures live { IsLive self.new.live }
    {
        show_final(&mut self.live, self.display.style, port)?;
        if self.display.with_begun {
            self.shown = show_begun(&mut self.live, self.display.style, self.shown, port)?;
        }
        Ok(())
    }

    // What it hands on, if it keeps what that needs, when this many bytes of its feed were taken and this many bytes of output written.
    pub(crate) fn state(
        &mut self,
        alloc: Global,
        query: Query,
        bytes: u64,
        written: u64,
    ) -> Result<RunState, OutOfMemory>
        requires live { IsLive self.old.live }
        requires keeps { keeps_state self.old ≡ true }
        ensures is { (accepted : AcceptedParts) (options : RunOptions) (number : ℕ) (state : FeedState)
            → IsLineRunOf self.old accepted options number state (length (printed accepted.core state.feed)) → Belongs options.form state
            → IfOk result (λ left. left ≡ record {
              state = record {
                query = query;
                progress = progress_of options accepted.core state bytes number written;
                inputs = inputs_left accepted.core state;
              };
              kept = readings_kept state.kept;
            }) }
        ensures fits { (accepted : AcceptedParts) (options : RunOptions) (number : ℕ) (state : FeedState)
            → IsLineRunOf self.old accepted options number state (length (printed accepted.core state.feed)) → Belongs options.form state
            → IfOk result (λ left. AreResumable left.kept) }
        ensures goes_on { (accepted : AcceptedParts) (options : RunOptions) (number : ℕ) (state : FeedState)
            → IsLineRunOf self.old accepted options number state (length (printed accepted.core state.feed))
            → OnOk result (IsLineRunOf self.new accepted options number state (length (printed accepted.core state.feed))) }
        ensures shown { self.new.shown ≡ self.old.shown }
        ensures still_keeps { keeps_state self.new ≡ true }
        ensures live { IsLive self.new.live }
    {
        let shown = start_of(self.live.begun()?);
        let kept = self.text.kept(alloc)?;
        let left = self.left(alloc, kept)?;
        Ok(RunState {
            state: LiveState {
                query,
                progress: Progress {
                    options: self.watermark_options(),
                    bytes,
                    lines: self.number,
                    written,
                    from: self.live.resume_tick(),
                    shown,
                    finished: left.finished,
                    greatest: left.greatest,
                    latest: left.latest,
                },
                inputs: left.inputs,
            },
            kept: left.kept,
        })
    }

    // What is asked of its watermarks.
    fn watermark_options(&self) -> Options
        ensures { result ≡ watermark_options (form_of self.now.text) }
    {
        match self.text.row_options() {
            Some(options) => options,
            None => NO_OPTIONS,
        }
    }

    // What is left of its feed, of whose text this is kept.
    fn left(&self, alloc: Global, kept: KeptFeed) -> Result<Left, OutOfMemory>
        requires { has_rows self.now.rows ≡ true }
        ensures { (accepted : AcceptedParts) (form : FeedForm) (state : FeedState)
            → IsLiveOf self.now.live accepted state.feed (length (printed accepted.core state.feed))
            → KeepsRows self.now.rows (first_read accepted.core (tick_of_live self.now.live)) state.feed
            → Belongs form state → kept ≡ bare_kept state.kept → IfOk result (IsLeftOf accepted.core state) }
    {
        match kept {
            KeptFeed::Rows { kept } => Ok(Left {
                inputs: self.inputs_left(alloc, &kept)?,
                finished: kept.finished,
                greatest: kept.greatest,
                latest: kept.latest,
                kept: None,
            }),
            KeptFeed::Readings { kept } => Ok(Left {
                inputs: self.inputs_known(alloc)?,
                finished: false,
                greatest: None,
                latest: None,
                kept: Some(kept),
            }),
        }
    }

    // What is left of each input, of which the watermarks keep this. Of a finished feed no row is needed.
    fn inputs_left(&self, alloc: Global, kept: &KeptState) -> Result<Vec<InputState>, OutOfMemory>
        requires { has_rows self.now.rows ≡ true }
        ensures { (accepted : AcceptedParts) (feed : Feed) (lateness : Option ℕ)
            → IsLiveOf self.now.live accepted feed (length (printed accepted.core feed))
            → KeepsRows self.now.rows (first_read accepted.core (tick_of_live self.now.live)) feed → IsKeptOf lateness kept.now feed
            → IfOk result (λ inputs. inputs.items ≡ each_left accepted.core feed feed.inputs kept.now.inputs) }
    {
        if kept.finished {
            return join_inputs(alloc, &[], &kept.inputs);
        }
        let known = self.rows.inputs(alloc, self.live.first_read())?;
        join_inputs(alloc, &known, &kept.inputs)
    }

    // What is left of each input of an unfinished feed, of which no update is held.
    fn inputs_known(&self, alloc: Global) -> Result<Vec<InputState>, OutOfMemory>
        requires { has_rows self.now.rows ≡ true }
        ensures { (accepted : AcceptedParts) (feed : Feed)
            → IsLiveOf self.now.live accepted feed (length (printed accepted.core feed))
            → KeepsRows self.now.rows (first_read accepted.core (tick_of_live self.now.live)) feed → feed.finished ≡ false
            → IfOk result (λ inputs. inputs.items ≡ each_left accepted.core feed feed.inputs (map none_held feed.inputs)) }
    {
        let known = self.rows.inputs(alloc, self.live.first_read())?;
        bare_inputs(alloc, &known)
    }
}

// No option is given.
const NO_OPTIONS: Options = Options {
    idle: None,
    ahead: None,
    lateness: None,
};

// Where something has begun, if something has.
fn start_of(begun: Option<(i64, Cell)>) -> Option<i64>
    ensures { (found : Option Begun) → begun ≡ begun_pair found → result ≡ begun_start found }
{
    match begun {
        Some((start, _)) => Some(start),
        None => None,
    }
}
