// The feeds of a query, one after another.
ghost use Rattle.std.specs.Prelude.{IfOk};
ghost use Rattle.tilt_live.specs.Lives.{IsLive};
ghost use Rattle.tilt_live_start.specs.Sessions.{IsLiveSession};
ghost use Rattle.tilt_run_feeds.specs.Engines.{IsEngine};

use crate::engine::Engine;
use crate::resuming::Resuming;
use std::alloc::Global;
use std::io::{self, BufRead, BufReader, BufWriter, Write};
use std::test::Fail;
use std::{env, fs};
use tilt_base::Cell;
use tilt_checkpoint::decode;
use tilt_compiler::accept;
use tilt_core::Core;
use tilt_engine::TakeError;
use tilt_feed::{Event, EventFault, Update};
use tilt_feed_line::{Line, LineReader};
use tilt_live::Live;
use tilt_live_start::LiveSession;
use tilt_testing::core_of;

// How the engines of feeds are made: whether their code is fused, and the checkpoint of sessions that they go on from, if there is one. An
// engine is dropped after so many lines, or never.
#[derive(Drop)]
struct Way {
    fuse: bool,
    every: Option<u64>,
    checkpoint: Option<String>,
}

// A run of feeds of a query: how their engines are made, the engine of the last feed, and what a state of that feed needs.
#[derive(Drop)]
struct FeedRun {
    alloc: Global,
    text: String,
    way: Way,
    core: Core,
    lines: LineReader,
    engine: Engine,
    resuming: Resuming,
}

// Runs the feeds that standard input has.
pub(crate) fn run(rt: &HostRuntime) -> Result<(), Fail> {
    let alloc = rt.alloc();
    let mut run = asked(rt)?;
    let mut out = BufWriter::new(alloc, io::writer(rt))?;
    for line in BufReader::new(alloc, rt.reader())?.lines(alloc) {
        let line = line?;
        run.take_line(line.as_bytes(), &mut out)?;
    }
    out.flush()?;
    Ok(())
}

// The run that the arguments ask for.
fn asked(rt: &HostRuntime) -> Result<FeedRun, Fail>
    ensures { IfOk result (λ run. IsEngine run.engine) }
{
    let mut words = env::args(rt)?.skip(1);
    let path = words.next().ok_or("no query")?;
    let text = fs::read_to_string(rt, path.as_str())?;
    let way = way_of(rt, words.next(), words.next(), words.next())?;
    FeedRun::new(rt.alloc(), text, way)
}

// The way that the arguments after the query ask for.
fn way_of(
    rt: &HostRuntime,
    option: Option<String>,
    value: Option<String>,
    last: Option<String>,
) -> Result<Way, Fail> {
    let mut way = Way {
        fuse: !is_plain(&option) && !is_plain(&last),
        every: None,
        checkpoint: None,
    };
    if let Some(value) = value {
        match option {
            Some(word) if word.as_str() == "--after" => {
                way.checkpoint = Some(fs::read_to_string(rt, value.as_str())?);
            }
            _ => way.every = Some(value.as_str().parse()?),
        }
    }
    Ok(way)
}

// Whether code isn't fused, by this word if it is there.
fn is_plain(word: &Option<String>) -> bool {
    match word {
        Some(word) => word.as_str() == "--plain",
        None => false,
    }
}

impl FeedRun {
    // A run before its first feed has begun.
    fn new(alloc: Global, text: String, way: Way) -> Result<FeedRun, Fail>
        ensures { IfOk result (λ run. IsEngine run.engine) }
    {
        let core = core_of(alloc, text.as_str())?;
        let engine = engine_of(alloc, text.as_str(), &way)?;
        let resuming = Resuming::new(alloc, core.inputs().len(), way.every, way.fuse)?;
        Ok(FeedRun {
            alloc,
            text,
            way,
            core,
            lines: LineReader::new(alloc),
            engine,
            resuming,
        })
    }

    // Starts another feed.
    fn start_again(&mut self) -> Result<(), Fail>
        requires { IsEngine self.old.engine }
        ensures { IsEngine self.new.engine }
    {
        let inputs = self.core.inputs().len();
        self.resuming = Resuming::new(self.alloc, inputs, self.way.every, self.way.fuse)?;
        self.engine = engine_of(self.alloc, self.text.as_str(), &self.way)?;
        Ok(())
    }

    // Takes a line, and prints what comes out. An empty line starts another feed.
    fn take_line<W: Write>(&mut self, line: &[u8], out: &mut W) -> Result<(), Fail>
        requires { IsEngine self.old.engine }
        ensures { IsEngine self.new.engine }
    {
        if line.is_empty() {
            return self.start_again();
        }
        match self.lines.read_line(line, self.core.inputs()) {
            Ok(said) => self.take_said(said, out)?,
            Err(fault) => writeln!(out, "?{fault}")?,
        }
        writeln!(out, ".")?;
        Ok(())
    }

    // Takes what a line says, and prints what comes out. If a rule is broken, the engine stays: what the events before that one have made
    // final is returned after a later line.
    fn take_said<W: Write>(&mut self, said: Line, out: &mut W) -> Result<(), Fail>
        requires { IsEngine self.old.engine }
        ensures { IsEngine self.new.engine }
    {
        let fault = self.take(said)?;
        print(&mut self.engine, fault, out)?;
        if fault.is_some() {
            return Ok(());
        }
        self.count_line()
    }

    // Counts a line after which all that may be printed was returned. Another live engine goes on if it is time.
    fn count_line(&mut self) -> Result<(), Fail>
        requires { IsEngine self.old.engine }
        ensures { IsEngine self.new.engine }
    {
        match &mut self.engine {
            Engine::Live(live) => self
                .resuming
                .count_line(self.alloc, self.text.as_str(), live),
            Engine::Session(_) => Ok(()),
        }
    }

    // Takes what a line says, and returns the rule that it breaks.
    fn take(&mut self, said: Line) -> Result<Option<EventFault>, Fail>
        requires { IsEngine self.old.engine }
        ensures { IsEngine self.new.engine }
    {
        match said {
            Line::Update { input, update } => self.take_event(Event::Input { input, update }),
            Line::Finish => self.take_event(Event::Finish),
            Line::AllKnownUpTo { watermark } => self.take_for_all(Update::KnownUpTo { watermark }),
        }
    }

    // Takes an update for all inputs, up to the first that it breaks a rule for.
    fn take_for_all(&mut self, update: Update) -> Result<Option<EventFault>, Fail>
        requires { IsEngine self.old.engine }
        ensures { IsEngine self.new.engine }
    {
        if self.core.inputs().len() > 1000 {
            return Err("too many inputs".into());
        }
        for input in 0..self.core.inputs().len() as u32 {
            let fault = self.take_event(Event::Input { input, update })?;
            if fault.is_some() {
                return Ok(fault);
            }
        }
        Ok(None)
    }

    // Takes an event, and returns the rule that it breaks.
    fn take_event(&mut self, event: Event) -> Result<Option<EventFault>, Fail>
        requires { IsEngine self.old.engine }
        ensures { IsEngine self.new.engine }
    {
        match self.engine.take(event) {
            Ok(()) => {
                self.resuming.take(event)?;
                Ok(None)
            }
            Err(TakeError::Fault(fault)) => Ok(Some(fault)),
            Err(TakeError::OutOfMemory) => Err("out of memory".into()),
        }
    }
}

// The engine of a query.
fn engine_of(alloc: Global, text: &str, way: &Way) -> Result<Engine, Fail>
    ensures { IfOk result (λ engine. IsEngine engine) }
{
    match &way.checkpoint {
        Some(checkpoint) => Ok(Engine::Session(session_of(alloc, checkpoint, way.fuse)?)),
        None => Ok(Engine::Live(live_of(alloc, text, way.fuse)?)),
    }
}

// The live engine of a query.
fn live_of(alloc: Global, text: &str, fuse: bool) -> Result<Live, Fail>
    ensures { IfOk result (λ live. IsLive live) }
{
    let core = core_of(alloc, text)?;
    let accepted = accept(alloc, core, fuse)?;
    Ok(Live::new(alloc, accepted)?)
}

// The engine that goes on from a checkpoint of sessions.
fn session_of(alloc: Global, checkpoint: &str, fuse: bool) -> Result<LiveSession, Fail>
    ensures { IfOk result (λ session. IsLiveSession session) }
{
    let decoded = decode(alloc, checkpoint.as_bytes())?;
    let accepted = accept(alloc, decoded.core, fuse)?;
    Ok(LiveSession::resume(alloc, decoded.checkpoint, accepted)?)
}

// Prints a rule that is broken, or what is final by now and what has begun.
fn print<W: Write>(engine: &mut Engine, fault: Option<EventFault>, out: &mut W) -> Result<(), Fail>
    requires { IsEngine engine.old }
    ensures { IsEngine engine.new }
{
    if let Some(fault) = fault {
        writeln!(out, "!{fault}")?;
        return Ok(());
    }
    print_final(engine, out)?;
    if let Some((start, value)) = engine.begun()? {
        write!(out, "{start},,")?;
        print_cell(value, out)?;
    }
    Ok(())
}

// Prints the snapshots that are final by now and weren't printed.
fn print_final<W: Write>(engine: &mut Engine, out: &mut W) -> Result<(), Fail>
    requires { IsEngine engine.old }
    ensures { IsEngine engine.new }
{
    for _ in 0..u64::MAX {
        let Some(snap) = engine.next()? else {
            return Ok(());
        };
        write!(out, "{},{},", snap.start, snap.end)?;
        print_cell(snap.value, out)?;
    }
    Ok(())
}

// Prints a cell and the end of the line.
fn print_cell<W: Write>(cell: Cell, out: &mut W) -> Result<(), Fail> {
    match cell {
        Some(value) => writeln!(out, "{value}")?,
        None => writeln!(out, "")?,
    }
    Ok(())
}
