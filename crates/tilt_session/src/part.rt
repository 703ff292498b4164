// The rows of a session, out of those of a whole run.
ghost use Rattle.std.specs.Prelude.{◌≡◌, ◌≤◌, Some, length, map, take, drop, IfOk};
ghost use Rattle.std.specs.List.{AllByRecursion};
ghost use Rattle.tilt_session.specs.Parts.{behind, early, part_of};
ghost use Rattle.tilt_stream.specs.Snap.{AreRows};

use std::alloc::{AllocError as OutOfMemory, Global};
use tilt_stream::{Row, Rows};

// The rows of each input that a session is handed: those that start at the earlier cut or after it, and before the session's own, where
// there are such. Each row is copied once.
pub(crate) fn session_rows(
    alloc: Global,
    rows: &[Rows],
    from: Option<i64>,
    cut: Option<i64>,
) -> Result<Vec<Rows>, OutOfMemory>
    ensures parts { IfOk result (λ parts. parts.items ≡ map (part_of from cut) rows.now) }
    ensures in_order { IfOk result (λ _. AllByRecursion AreRows rows.now) }
{
    let mut parts = Vec::new(alloc);
    for input in rows {
        parts.push(part(alloc, input, from, cut)?)?;
    }
    Ok(parts)
}

// The same of one input.
fn part(
    alloc: Global,
    rows: &Rows,
    from: Option<i64>,
    cut: Option<i64>,
) -> Result<Rows, OutOfMemory>
    ensures part { IfOk result (λ part. part ≡ part_of from cut rows.now) }
    ensures in_order { AreRows rows.now }
{
    let all = rows.as_slice();
    match from {
        None => copied(alloc, all_early(all, cut)),
        Some(from) => copied(alloc, all_early(all_behind(all, from), cut)),
    }
}

// The first rows, which start before a cut, where there is one.
fn all_early(rows: &[Row], cut: Option<i64>) -> &[Row]
    requires { AreRows rows.now }
    ensures rows { result.now ≡ early cut rows.now }
    ensures in_order { AreRows result.now }
{
    match cut {
        Some(cut) => &rows[..started_before(rows, cut)],
        None => rows,
    }
}

// The rows after those that start before a cut.
fn all_behind(rows: &[Row], cut: i64) -> &[Row]
    requires { AreRows rows.now }
    ensures rows { result.now ≡ behind cut rows.now }
    ensures in_order { AreRows result.now }
{
    &rows[started_before(rows, cut)..]
}

// How many rows start before a cut: the first ones.
fn started_before(rows: &[Row], cut: i64) -> usize
    requires { AreRows rows.now }
    ensures bound { result ≤ length rows.now }
    ensures front { take result rows.now ≡ early (Some cut) rows.now }
    ensures rest { drop result rows.now ≡ behind cut rows.now }
{
    rows.partition_point(|row| row.start < cut)
}

// Equal rows.
fn copied(alloc: Global, rows: &[Row]) -> Result<Rows, OutOfMemory>
    requires { AreRows rows.now }
    ensures { IfOk result (λ copies. copies ≡ rows.now) }
{
    let mut copies = Rows::new(alloc);
    copies.append(rows)?;
    Ok(copies)
}
