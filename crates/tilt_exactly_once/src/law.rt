// What programs leave that serve one feed into a folder, one after another.
ghost use Rattle.std.specs.Prelude.{◌≡◌, ◌≤◌, ◌⊎◌, ◌++◌, ◌-◌, List, ℕ, Result, drop, length, take, Err};
ghost use Rattle.tilt_exactly_once.specs.Committed.{Holds};
ghost use Rattle.tilt_exactly_once.specs.Feeding.{HasServedFeed};
ghost use Rattle.tilt_exactly_once.specs.Framed.{IsFramed, KeepsLast, frames};
ghost use Rattle.tilt_exactly_once.specs.Last.{EndsAs};
ghost use Rattle.tilt_exactly_once.specs.Passing.{count_passed};
ghost use Rattle.tilt_exactly_once.specs.Runs.{AreRuns, GivesFrom, HoldsPart, IsRun, last_left, no_files};
ghost use Rattle.tilt_exactly_once.specs.declared.failure.Failure.{Failure};
ghost use Rattle.tilt_exactly_once.specs.declared.failure.Failure.TheVariants.{Halted};
ghost use Rattle.tilt_exactly_once.specs.declared.halt.Halt.TheVariants.{Changed};
ghost use Rattle.tilt_outside.specs.Counts.{last_count};
ghost use Rattle.tilt_port.specs.Transcript.{Transcript};
ghost use Rattle.tilt_store.specs.Kept.{Kept};

use crate::machine::Machine;
use tilt_port::Port;
use tilt_store::Folder;

/// This does nothing. Its clause is a law of the definitions. Any number of programs serve one feed into a folder that was empty at first,
/// each from behind what is committed. Whatever kills each of them, the folder holds the commit of a front of the feed.
pub fn runs_hold_a_front<M: Machine>()
    ensures { (of : M.Of) (feed : List ℕ) (left : List Kept) → AreRuns (IsFramed (M.commits of)) feed no_files left
        → HoldsPart (IsFramed (M.commits of)) feed (last_left no_files left) }
{}

/// This does nothing. Its clause is a law of the definitions. A program serves a feed into a folder by `serve_feed`, from one of its bytes
/// on, and its port gives it what is there of the feed. Whatever kills it at whatever moment, this is a run as in `runs_hold_a_front`. So
/// any number of such programs leave the commit of a front of the feed.
pub fn programs_are_runs<F: Folder, M: Machine, P: Port>()
    ensures { P.tells → (of : M.Of) (feed more : List ℕ) (from : ℕ) (first folder : F) (old new : Transcript)
        (end : Result (Unit {0}) Failure) (c : Kept)
        → ((bytes : List ℕ) → Holds (IsFramed (M.commits of)) bytes (F.seen first)
        → HasServedFeed F.seen F.may_leave (KeepsLast M.is) M.output of (frames M.commits) M.stops M.fits F.moment F.left_since P.tells
        from bytes first old folder new end)
        → length feed ≤ last_count → GivesFrom feed from more old new → F.left_since folder (F.moment first) c
        → IsRun (IsFramed (M.commits of)) feed (F.seen first) c }
{}

/// This does nothing. Its clause is a law of the definitions. Bytes of a feed are committed, and it is read again from one of them on.
/// What is read after the bytes that are passed over is what comes after those that are committed. So each run reads the feed from behind
/// what is committed, as `runs_hold_a_front` asks of it.
pub fn passing_leaves_the_rest()
    ensures { (feed bytes rest passed more : List ℕ) (from : ℕ) → feed ≡ bytes ++ rest → length bytes ≤ last_count → from ≤ length bytes
        → drop from feed ≡ passed ++ more → length passed ≡ count_passed from bytes → more ≡ rest }
{}

/// This does nothing. Its clauses are a law of the definitions. Bytes of a feed are committed in a folder, and a program serves a feed into
/// it by `serve_feed`, whatever the port gives it. Whatever kills it, the folder holds the same commit, or the feed's bytes that come
/// before the others end as those that are committed (`changed`). If the feed starts with the bytes that are committed, it isn't reported
/// as changed (`same`).
pub fn changes_are_noticed<F: Folder, M: Machine, P: Port>()
    ensures changed { P.tells → (of : M.Of) (feed more bytes : List ℕ) (from : ℕ) (first folder : F) (old new : Transcript)
        (end : Result (Unit {0}) Failure) (c : Kept)
        → HasServedFeed F.seen F.may_leave (KeepsLast M.is) M.output of (frames M.commits) M.stops M.fits F.moment F.left_since P.tells
        from bytes first old folder new end
        → length bytes ≤ last_count → GivesFrom feed from more old new → F.left_since folder (F.moment first) c
        → Holds (IsFramed (M.commits of)) bytes c ⊎ EndsAs (take (length bytes - from) (drop from feed)) bytes }
    ensures same { P.tells → (of : M.Of) (feed more bytes rest : List ℕ) (from : ℕ) (first folder : F) (old new : Transcript)
        → length bytes ≤ last_count → GivesFrom feed from more old new → feed ≡ bytes ++ rest
        → HasServedFeed F.seen F.may_leave (KeepsLast M.is) M.output of (frames M.commits) M.stops M.fits F.moment F.left_since P.tells
        from bytes first old folder new (Err (Halted Changed)) → ⊥ }
{}
