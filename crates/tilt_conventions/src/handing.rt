// What is handed on.
ghost use Rattle.std.specs.Prelude.{◌≡◌, ◌≤◌, ◌+◌, ◌++◌, ◌≤ℤ◌, true, vec_len};
ghost use Rattle.std.specs.Option.{ForSome};
ghost use Rattle.std.specs.Vec.{vec_capacity};
ghost use Rattle.tilt_base.specs.declared.limits.TheConstants.{T};
ghost use Rattle.tilt_conventions.specs.Rows.{age_of, start_of};
ghost use Rattle.tilt_conventions.specs.Steps.{aged, aged_at_last, due, handed, is_reading_time, known, moved_all, rising, said};

use crate::moving::push;
use crate::options::Convention;
use crate::turn::Reading;
use tilt_base::{Cell, T};
use tilt_feed::{Edge, Update};

// For how many ticks a reading holds at most, if that is limited.
fn age_of(convention: Convention) -> Option<u64>
    ensures { result ≡ age_of convention }
{
    match convention {
        Convention::Hold { max_age } => max_age,
        Convention::Event => Some(1),
    }
}

// Where the row of a reading starts.
pub(crate) fn start_of(reading: Reading) -> i64
    requires { is_reading_time reading.tick ≡ true }
    ensures { result ≡ start_of reading }
{
    reading.tick - 1
}

// What a value says from a start on.
fn said(convention: Convention, start: i64, value: Cell) -> Update
    requires { start ≤ℤ T }
    ensures { result ≡ said convention start value }
{
    match (convention, value) {
        (_, None) => Update::NoValue { start },
        (Convention::Hold { .. }, Some(value)) => Update::Value { start, value },
        (Convention::Event, Some(value)) => Update::Row {
            start,
            end: start + 1,
            value: Some(value),
        },
    }
}

// The open row ends by its age before a tick.
fn end_by_age(age: Option<u64>, tick: i64, edge: &mut Edge, updates: &mut Vec<Update>)
    requires times { tick ≤ℤ T }
    requires room { vec_len updates.old + 1 ≤ vec_capacity updates.old }
    ensures edge { edge.new ≡ moved_all (aged age tick edge.old.open_row) edge.old }
    ensures updates { updates.new.items ≡ updates.old.items ++ aged age tick edge.old.open_row }
    ensures capacity { vec_capacity updates.new ≡ vec_capacity updates.old }
    ensures len { vec_len updates.new ≤ vec_len updates.old + 1 }
{
    let (Some(age), Some(row)) = (age, edge.open_row) else {
        return;
    };
    let Some(end) = row.start.checked_add_unsigned(age) else {
        return;
    };
    if end < tick {
        push(Update::NoValue { start: end }, edge, updates);
    }
}

// The input becomes known up to a tick, if its watermark is below it.
fn rise(tick: i64, edge: &mut Edge, updates: &mut Vec<Update>)
    requires times { tick ≤ℤ T }
    requires room { vec_len updates.old + 1 ≤ vec_capacity updates.old }
    ensures edge { edge.new ≡ moved_all (rising tick edge.old.watermark) edge.old }
    ensures updates { updates.new.items ≡ updates.old.items ++ rising tick edge.old.watermark }
    ensures capacity { vec_capacity updates.new ≡ vec_capacity updates.old }
    ensures len { vec_len updates.new ≤ vec_len updates.old + 1 }
{
    if edge.watermark < tick {
        push(Update::KnownUpTo { watermark: tick }, edge, updates);
    }
}

// A reading is handed on.
pub(crate) fn hand_on(
    convention: Convention,
    reading: Reading,
    edge: &mut Edge,
    updates: &mut Vec<Update>,
)
    requires times { is_reading_time reading.tick ≡ true }
    requires room { vec_len updates.old + 2 ≤ vec_capacity updates.old }
    ensures edge { edge.new ≡ moved_all (handed convention reading edge.old) edge.old }
    ensures updates { updates.new.items ≡ updates.old.items ++ handed convention reading edge.old }
    ensures capacity { vec_capacity updates.new ≡ vec_capacity updates.old }
    ensures len { vec_len updates.new ≤ vec_len updates.old + 2 }
{
    let start = start_of(reading);
    end_by_age(age_of(convention), start, edge, updates);
    push(said(convention, start, reading.value), edge, updates);
}

// A reading that waits is handed on if its tick has ended at a tick.
pub(crate) fn hand_on_due(
    convention: Convention,
    tick: i64,
    waiting: Option<Reading>,
    edge: &mut Edge,
    updates: &mut Vec<Update>,
)
    requires times { ForSome waiting (λ reading. is_reading_time reading.tick ≡ true) }
    requires room { vec_len updates.old + 2 ≤ vec_capacity updates.old }
    ensures edge { edge.new ≡ moved_all (due convention tick edge.old waiting) edge.old }
    ensures updates { updates.new.items ≡ updates.old.items ++ due convention tick edge.old waiting }
    ensures capacity { vec_capacity updates.new ≡ vec_capacity updates.old }
    ensures len { vec_len updates.new ≤ vec_len updates.old + 2 }
{
    let Some(reading) = waiting else {
        return;
    };
    if start_of(reading) < tick {
        hand_on(convention, reading, edge, updates);
    }
}

// The input becomes known up to a tick at least.
pub(crate) fn raise(convention: Convention, tick: i64, edge: &mut Edge, updates: &mut Vec<Update>)
    requires times { tick ≤ℤ T }
    requires room { vec_len updates.old + 2 ≤ vec_capacity updates.old }
    ensures edge { edge.new ≡ moved_all (known (age_of convention) tick edge.old) edge.old }
    ensures updates { updates.new.items ≡ updates.old.items ++ known (age_of convention) tick edge.old }
    ensures capacity { vec_capacity updates.new ≡ vec_capacity updates.old }
    ensures len { vec_len updates.new ≤ vec_len updates.old + 2 }
{
    end_by_age(age_of(convention), tick, edge, updates);
    rise(tick, edge, updates);
}

// The open row ends by its age, at `T` at the latest.
pub(crate) fn end_at_last(convention: Convention, edge: &mut Edge, updates: &mut Vec<Update>)
    requires room { vec_len updates.old + 1 ≤ vec_capacity updates.old }
    ensures updates { updates.new.items ≡ updates.old.items ++ aged_at_last (age_of convention) edge.old.open_row }
    ensures capacity { vec_capacity updates.new ≡ vec_capacity updates.old }
    ensures len { vec_len updates.new ≤ vec_len updates.old + 1 }
{
    let (Some(age), Some(row)) = (age_of(convention), edge.open_row) else {
        return;
    };
    let end = row.start.saturating_add_unsigned(age).min(T);
    push(Update::NoValue { start: end }, edge, updates);
}
