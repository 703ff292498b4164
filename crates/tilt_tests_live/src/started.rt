// Live engines that start from checkpoints of sessions. What the sessions printed isn't printed again, and the rest is what would be
// printed if one engine had taken all events.
ghost use Rattle.std.specs.Prelude.{IfOk};
ghost use Rattle.tilt_live.specs.Lives.{IsLive};
ghost use Rattle.tilt_live_start.specs.Sessions.{IsLiveSession};

use crate::worked::{
    AHEAD_STEPS, AVERAGED_STEPS, ITSELF_STEPS, SHIFTED_STEPS, Said, Step, event_of, take,
};
use std::alloc::Global;
use std::process::Abort;
use std::test::Fail;
use tilt_base::Cell;
use tilt_checkpoint::decode;
use tilt_compiler::accept;
use tilt_engine::TakeError;
use tilt_feed::EventFault;
use tilt_live::Live;
use tilt_live_start::LiveSession;
use tilt_testing::{Piece, piece_of};

// The text of a checkpoint, and what comes out before the first event, and after each from one of these steps on.
#[derive(Drop)]
struct Start {
    checkpoint: &'static str,
    printed: &'static [Piece],
    begun: Option<(i64, Cell)>,
    steps: &'static [Step],
    first: usize,
}

// The sessions printed the snapshot up to 2. The one after it is open, and ends at 5, where the row does.
const COUNTED: Start = Start {
    checkpoint: "tilt checkpoint 2\nquery 2\ninput x;\nemit count(x[t-3:t]) over (0, 10];\n\
        cut 5\nopen 2\ncut 5 last 5 rows 1\n0,5,7\nend\n",
    printed: &[(2, 5, Some(1))],
    begun: None,
    steps: COUNTED_STEPS,
    first: 0,
};

const COUNTED_STEPS: &[Step] = &[
    Step {
        said: Said::Row(0, 5, 8, 7),
        printed: &[(5, 7, Some(2)), (7, 8, Some(1))],
        begun: None,
    },
    Step {
        said: Said::Finish,
        printed: &[(8, 10, Some(1))],
        begun: None,
    },
];

// A gap is open that began before the last row that is kept would have to end.
const GAP: Start = Start {
    checkpoint: "tilt checkpoint 2\nquery 2\ninput x;\nemit x over (0, 30];\n\
        cut 20\nopen 10\ncut 20 last 10 rows 0\nend\n",
    printed: &[],
    begun: Some((10, None)),
    steps: ITSELF_STEPS,
    first: 2,
};

// The row ends behind the cut, so that its end is known.
const BEHIND: Start = Start {
    checkpoint: "tilt checkpoint 2\nquery 2\ninput x;\nemit x over (0, 30];\n\
        cut 12\nopen 0\ncut 12 last 25 rows 1\n0,25,7\nend\n",
    printed: &[(0, 25, Some(7))],
    begun: None,
    steps: BEHIND_STEPS,
    first: 0,
};

const BEHIND_STEPS: &[Step] = &[
    Step {
        said: Said::Row(0, 25, 26, 1),
        printed: &[(25, 26, Some(1))],
        begun: None,
    },
    Step {
        said: Said::Finish,
        printed: &[(26, 30, None)],
        begun: None,
    },
];

// All of the output is printed.
const ENDED: Start = Start {
    checkpoint: "tilt checkpoint 2\nquery 2\ninput x;\nemit x over (0, 30];\n\
        cut 30\nopen none\ncut 30 last 26 rows 0\nend\n",
    printed: &[],
    begun: None,
    steps: ENDED_STEPS,
    first: 0,
};

const ENDED_STEPS: &[Step] = &[
    Step {
        said: Said::Row(0, 30, 31, 1),
        printed: &[],
        begun: None,
    },
    Step {
        said: Said::Finish,
        printed: &[],
        begun: None,
    },
];

// Inputs with cuts of their own. The third one isn't read, but holds the sessions back.
const HELD_BACK: Start = Start {
    checkpoint: "tilt checkpoint 2\nquery 4\ninput x;\ninput y;\ninput z;\nemit x + y over (0, 10];\n\
        cut -4000000000000000000\nopen none\ncut 10 last 10 rows 1\n0,10,1\ncut 6 last 4 rows 1\n0,4,2\n\
        cut -4000000000000000000 last none rows 0\nend\n",
    printed: &[(0, 4, Some(3))],
    begun: Some((4, None)),
    steps: ADDED_STEPS,
    first: 0,
};

const ADDED_STEPS: &[Step] = &[Step {
    said: Said::Row(1, 6, 10, 5),
    printed: &[(4, 6, None), (6, 10, Some(6))],
    begun: None,
}];

// The same, but the third input is known as far as the second one.
const ADDED: Start = Start {
    checkpoint: "tilt checkpoint 2\nquery 4\ninput x;\ninput y;\ninput z;\nemit x + y over (0, 10];\n\
        cut 6\nopen 4\ncut 10 last 10 rows 1\n0,10,1\ncut 6 last 4 rows 0\ncut 6 last none rows 0\nend\n",
    printed: &[],
    begun: Some((4, None)),
    steps: ADDED_STEPS,
    first: 0,
};

// A grid point is known that the sessions take to look ahead.
const AVERAGED: Start = Start {
    checkpoint: "tilt checkpoint 2\nquery 4\ninput x;\nlet y = x + 1;\nlet z = y - 1;\nemit avg(z[t-10:t]) over (0, 30] every 10;\n\
        cut 10\nopen 0\ncut 10 last 5 rows 1\n0,5,4\nend\n",
    printed: &[(0, 10, Some(4))],
    begun: None,
    steps: AVERAGED_STEPS,
    first: 2,
};

// Nothing is printed yet, and the output is known ahead of the input.
const SHIFTED: Start = Start {
    checkpoint: "tilt checkpoint 2\nquery 2\ninput x;\nemit x[t-2] over (0, 10];\n\
        cut 0\nopen none\ncut 0 last none rows 0\nend\n",
    printed: &[],
    begun: Some((0, None)),
    steps: SHIFTED_STEPS,
    first: 0,
};

// The output is known behind the input.
const AHEAD: Start = Start {
    checkpoint: "tilt checkpoint 2\nquery 2\ninput x;\nemit x[t+3] over (0, 10];\n\
        cut 5\nopen 0\ncut 5 last 5 rows 1\n0,5,1\nend\n",
    printed: &[(0, 2, Some(1))],
    begun: None,
    steps: AHEAD_STEPS,
    first: 1,
};

// No input is read, so that all of the output is known.
const CONSTANT: Start = Start {
    checkpoint: "tilt checkpoint 2\nquery 1\nemit 3 over (0, 5];\ncut 3\nopen 0\nend\n",
    printed: &[(0, 5, Some(3))],
    begun: None,
    steps: FINISH_STEPS,
    first: 0,
};

const FINISH_STEPS: &[Step] = &[Step {
    said: Said::Finish,
    printed: &[],
    begun: None,
}];

// The live session that goes on from a checkpoint.
fn session_of(alloc: Global, checkpoint: &str, fuse: bool) -> Result<LiveSession, Fail>
    ensures { IfOk result (λ session. IsLiveSession session) }
{
    let decoded = decode(alloc, checkpoint.as_bytes())?;
    let accepted = accept(alloc, decoded.core, fuse)?;
    Ok(LiveSession::resume(alloc, decoded.checkpoint, accepted)?)
}

// The snapshots that are final, at most 100, are these, and then this has begun.
fn has(
    alloc: Global,
    rt: &impl Abort,
    session: &mut LiveSession,
    printed: &[Piece],
    begun: Option<(i64, Cell)>,
) -> Result<(), Fail>
    requires { IsLiveSession session.old }
    ensures { IsLiveSession session.new }
{
    let pieces = drain(alloc, session)?;
    assert_eq!(rt; pieces.as_slice(), printed);
    let found = session.begun()?;
    assert_eq!(rt; found, begun);
    Ok(())
}

fn drain(alloc: Global, session: &mut LiveSession) -> Result<Vec<Piece>, Fail>
    requires { IsLiveSession session.old }
    ensures { IsLiveSession session.new }
{
    let mut pieces = Vec::new(alloc);
    for _ in 0..100 {
        match session.next()? {
            Some(snap) => pieces.push(piece_of(snap))?,
            None => return Ok(pieces),
        }
    }
    Ok(pieces)
}

// Takes an event, and what comes out is what is wanted.
fn goes_on(
    alloc: Global,
    rt: &impl Abort,
    session: &mut LiveSession,
    step: &Step,
) -> Result<(), Fail>
    requires { IsLiveSession session.old }
    ensures { IsLiveSession session.new }
{
    session.take(event_of(&step.said))?;
    has(alloc, rt, session, step.printed, step.begun)
}

// The same from a step with this number on. The sessions have seen the steps before it.
fn goes_on_from(
    alloc: Global,
    rt: &impl Abort,
    session: &mut LiveSession,
    first: usize,
    number: usize,
    step: &Step,
) -> Result<(), Fail>
    requires { IsLiveSession session.old }
    ensures { IsLiveSession session.new }
{
    if number < first {
        return Ok(());
    }
    goes_on(alloc, rt, session, step)
}

// An event that is late.
fn is_late(rt: &impl Abort, session: &mut LiveSession, said: &Said) -> Result<(), Fail>
    requires { IsLiveSession session.old }
    ensures { IsLiveSession session.new }
{
    let taken = session.take(event_of(said));
    assert!(rt; taken == Err(TakeError::Fault(EventFault::Late)));
    Ok(())
}

// The session itself, since a snapshot is open that was open at the checkpoint.
fn still_open(session: LiveSession) -> Result<LiveSession, Fail>
    requires { IsLiveSession session }
    ensures { IfOk result (λ session. IsLiveSession session) }
{
    match session.into_live() {
        Ok(_) => Err("no snapshot is open".into()),
        Err(session) => Ok(session),
    }
}

// The live engine, since no such snapshot is open.
fn become_live(session: LiveSession) -> Result<Live, Fail>
    requires { IsLiveSession session }
    ensures { IfOk result (λ live. IsLive live) }
{
    match session.into_live() {
        Ok(live) => Ok(live),
        Err(_) => Err("a snapshot is open".into()),
    }
}

// What comes out before the first event and after each is what is wanted.
fn run(alloc: Global, rt: &impl Abort, start: &Start) -> Result<(), Fail> {
    for fuse in [true, false] {
        run_one(alloc, rt, start, fuse)?;
    }
    Ok(())
}

fn run_one(alloc: Global, rt: &impl Abort, start: &Start, fuse: bool) -> Result<(), Fail> {
    let mut session = session_of(alloc, start.checkpoint, fuse)?;
    has(alloc, rt, &mut session, start.printed, start.begun)?;
    for (number, step) in start.steps.iter().enumerate() {
        goes_on_from(alloc, rt, &mut session, start.first, number, step)?;
    }
    Ok(())
}

#[test]
fn a_snapshot_that_is_open_is_returned_from_where_it_began(rt: HostRuntime) -> Result<(), Fail> {
    run(rt.alloc(), &rt, &COUNTED)?;
    run(rt.alloc(), &rt, &GAP)?;
    run(rt.alloc(), &rt, &BEHIND)
}

#[test]
fn nothing_comes_after_all_of_the_output(rt: HostRuntime) -> Result<(), Fail> {
    run(rt.alloc(), &rt, &ENDED)
}

#[test]
fn each_input_is_known_up_to_its_own_cut(rt: HostRuntime) -> Result<(), Fail> {
    run(rt.alloc(), &rt, &HELD_BACK)?;
    run(rt.alloc(), &rt, &ADDED)
}

#[test]
fn what_is_known_is_more_than_sessions_decide(rt: HostRuntime) -> Result<(), Fail> {
    run(rt.alloc(), &rt, &AVERAGED)?;
    run(rt.alloc(), &rt, &SHIFTED)?;
    run(rt.alloc(), &rt, &AHEAD)?;
    run(rt.alloc(), &rt, &CONSTANT)
}

// An event before the end of the last row is late, though it is behind the cut.
#[test]
fn an_event_that_sessions_have_seen_past_is_late(rt: HostRuntime) -> Result<(), Fail> {
    let alloc = rt.alloc();
    let mut session = session_of(alloc, BEHIND.checkpoint, true)?;
    is_late(&rt, &mut session, &Said::Row(0, 24, 26, 1))?;
    has(alloc, &rt, &mut session, BEHIND.printed, None)?;
    let mut session = session_of(alloc, GAP.checkpoint, true)?;
    is_late(&rt, &mut session, &Said::Value(0, 19, 1))?;
    has(alloc, &rt, &mut session, &[], Some((10, None)))
}

// The engine itself is there once the snapshot that was open is returned.
#[test]
fn a_live_session_becomes_a_live_engine(rt: HostRuntime) -> Result<(), Fail> {
    let alloc = rt.alloc();
    let mut session = still_open(session_of(alloc, COUNTED.checkpoint, true)?)?;
    has(alloc, &rt, &mut session, COUNTED.printed, COUNTED.begun)?;
    let mut live = become_live(session)?;
    take(&mut live, &Said::Row(0, 5, 8, 7))?;
    let next = live.next()?.ok_or("nothing is final")?;
    assert_eq!(&rt; piece_of(next), (5, 7, Some(2)));
    Ok(())
}
