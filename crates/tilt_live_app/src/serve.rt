// The feed of a query, served from where its run starts to its last byte.
ghost use Rattle.std.specs.Prelude.{◌≡◌, ℕ, [], None, Ok, Err, true, IfOk, MatchResult};
ghost use Rattle.tilt_live_app.specs.Counting.{IsFirst, meaning_with};
ghost use Rattle.tilt_live_app.specs.Resumed.{IsFitFor, StartsAt};
ghost use Rattle.tilt_live_app.specs.declared.counting.Counting.TheVariants.{By};
ghost use Rattle.tilt_live_run.specs.Feeds.{IsRunAt, live_meaning};
ghost use Rattle.tilt_live_run.specs.Left.{KeepsState};
ghost use Rattle.tilt_live_run.specs.Output.{first_news};
ghost use Rattle.tilt_live_run.specs.Runs.{IsSound};
ghost use Rattle.tilt_serving.specs.Served.{HasEnded, HasServed, Start};
ghost use Rattle.tilt_serving.specs.Stops.{is_whole};

use crate::begin::Begin;
use crate::counting::Counting;
use std::alloc::{AllocError as OutOfMemory, Global};
use tilt_counting::CountingRun;
use tilt_live_run::{Keep, LiveRun};
use tilt_outside::Sink;
use tilt_port::{BufferPort, Port};
use tilt_serving as serving;
use tilt_serving::Halt;

// Serves the feed of a query to its end, and returns the run of it. It goes on from a state, if there is one. Results that leave 64 bits
// are counted like this.
pub(crate) fn serve<P: Port, E: Sink>(
    alloc: Global,
    begin: Begin,
    counting: Counting,
    port: &mut P,
    err: &mut E,
) -> Result<LiveRun, Halt>
    requires first { IsFirst counting begin.from }
    requires fit { IsFitFor begin.accepted.core begin.options.form begin.from }
    requires lines { (n : ℕ) → E.takes err.old n }
    ensures served { (start : Start) → StartsAt begin.options begin.accepted.core begin.from start
        → MatchResult result
        (λ run. HasEnded (meaning_with begin.accepted.core begin.options counting) start P.tells (P.transcript port.old)
        (P.transcript port.new) E.tells E.written E.faults err.old err.new
        (IsRunAt run (record { accepted = begin.accepted; options = begin.options })) (Ok tt))
        (λ why. HasServed (meaning_with begin.accepted.core begin.options counting) start P.tells (P.transcript port.old)
        (P.transcript port.new) E.tells E.written E.faults err.old err.new (Err why)) }
    ensures handed_on { is_whole result ≡ true → (P.transcript port.new).held_back ≡ 0 }
    ensures sound { IfOk result IsSound }
    ensures keeps { begin.keep ≡ Keep.State → IfOk result KeepsState }
    ensures takes { (n : ℕ) → E.takes err.new n }
{
    match counting {
        Counting::By(watch) => serve_counting(alloc, begin, watch, port, err),
        Counting::Unneeded | Counting::Left => serve_alone(alloc, begin, port, err),
    }
}

// The same if they aren't counted.
fn serve_alone<P: Port, E: Sink>(
    alloc: Global,
    begin: Begin,
    port: &mut P,
    err: &mut E,
) -> Result<LiveRun, Halt>
    requires fit { IsFitFor begin.accepted.core begin.options.form begin.from }
    requires lines { (n : ℕ) → E.takes err.old n }
    ensures served { (start : Start) → StartsAt begin.options begin.accepted.core begin.from start
        → MatchResult result
        (λ run. HasEnded (live_meaning begin.accepted.core begin.options) start P.tells (P.transcript port.old) (P.transcript port.new)
        E.tells E.written E.faults err.old err.new (IsRunAt run (record { accepted = begin.accepted; options = begin.options })) (Ok tt))
        (λ why. HasServed (live_meaning begin.accepted.core begin.options) start P.tells (P.transcript port.old) (P.transcript port.new)
        E.tells E.written E.faults err.old err.new (Err why)) }
    ensures handed_on { is_whole result ≡ true → (P.transcript port.new).held_back ≡ 0 }
    ensures sound { IfOk result IsSound }
    ensures keeps { begin.keep ≡ Keep.State → IfOk result KeepsState }
    ensures takes { (n : ℕ) → E.takes err.new n }
{
    let mut run = begin.run(alloc, port)?;
    serving::serve(alloc, &mut run, port, err)?;
    Ok(run)
}

// The same if they are the rows of another run.
fn serve_counting<P: Port, E: Sink>(
    alloc: Global,
    begin: Begin,
    watch: Begin,
    port: &mut P,
    err: &mut E,
) -> Result<LiveRun, Halt>
    requires first { (watch.from ≡ None) × (begin.from ≡ None) }
    requires fit { IsFitFor begin.accepted.core begin.options.form begin.from }
    requires lines { (n : ℕ) → E.takes err.old n }
    ensures served { (start : Start) → StartsAt begin.options begin.accepted.core begin.from start
        → MatchResult result
        (λ run. HasEnded (meaning_with begin.accepted.core begin.options (By watch)) start P.tells (P.transcript port.old)
        (P.transcript port.new) E.tells E.written E.faults err.old err.new
        (IsRunAt run (record { accepted = begin.accepted; options = begin.options })) (Ok tt))
        (λ why. HasServed (meaning_with begin.accepted.core begin.options (By watch)) start P.tells (P.transcript port.old)
        (P.transcript port.new) E.tells E.written E.faults err.old err.new (Err why)) }
    ensures handed_on { is_whole result ≡ true → (P.transcript port.new).held_back ≡ 0 }
    ensures sound { IfOk result IsSound }
    ensures keeps { begin.keep ≡ Keep.State → IfOk result KeepsState }
    ensures takes { (n : ℕ) → E.takes err.new n }
{
    let (watch, head) = start_watch(alloc, watch)?;
    let run = begin.run(alloc, port)?;
    let mut both = CountingRun::new(run, watch, &head);
    serving::serve(alloc, &mut both, port, err)?;
    Ok(both.run)
}

// A run before the first byte of its feed, and what it writes by then.
fn start_watch(alloc: Global, watch: Begin) -> Result<(LiveRun, Vec<u8>), OutOfMemory>
    requires { watch.from ≡ None }
    ensures is { IfOk result (λ started. IsRunAt started.0 (record { accepted = watch.accepted; options = watch.options }) []) }
    ensures head { IfOk result (λ started. started.1.items ≡ first_news watch.options.display watch.accepted.core) }
    ensures sound { IfOk result (λ started. IsSound started.0) }
{
    let mut port = BufferPort::new(alloc);
    match watch.run(alloc, &mut port) {
        Ok(run) => Ok((run, port.into_bytes())),
        Err(_) => Err(OutOfMemory),
    }
}
