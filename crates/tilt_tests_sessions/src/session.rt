// Sessions of queries that were worked out by hand.
ghost use Rattle.std.specs.Prelude.{◌≡◌, ◌<ℤ◌, ◌≤ℤ◌, [], ◌∷◌, neg_ℤ, Some, IfOk};
ghost use Rattle.tilt_base.specs.declared.limits.TheConstants.{T};

use std::alloc::Global;
use std::process::Abort;
use std::test::Fail;
use tilt_checkpoint::{Checkpoint, Cuts, encode};
use tilt_compiler::accept;
use tilt_session::{Cut, CutBack, next_cut, resume, start};
use tilt_stream::{Row, Rows, Snap, SnapList};
use tilt_testing::query_of;
use tilt_types::check;

fn snap(start: i64, end: i64, value: i64) -> Snap
    requires { start <ℤ end }
    ensures { result ≡ record { start = start; end = end; value = Some value } }
{
    Snap {
        start,
        end,
        value: Some(value),
    }
}

// One input with one row.
fn one_row(alloc: Global, row: Row) -> Result<Vec<Rows>, Fail>
    requires low { neg_ℤ T ≤ℤ row.start }
    requires high { row.end ≤ℤ T }
    ensures { IfOk result (λ inputs. inputs.items ≡ (row ∷ []) ∷ []) }
{
    let mut rows = Rows::new(alloc);
    rows.push(row)?;
    let mut inputs = Vec::new(alloc);
    inputs.push(rows)?;
    Ok(inputs)
}

// The list has these snapshots: starts, ends and values.
fn has(rt: &impl Abort, list: &SnapList, want: &[(i64, i64, i64)]) {
    assert_eq!(rt; list.len(), want.len());
    for (i, (start, end, value)) in want.iter().enumerate() {
        let snap = list.get(i);
        assert_eq!(rt; snap.start, *start, "at {i}");
        assert_eq!(rt; snap.end, *end, "at {i}");
        assert_eq!(rt; snap.value, Some(*value), "at {i}");
    }
}

#[test]
fn a_window_goes_on_over_the_cut(rt: HostRuntime) -> Result<(), Fail> {
    let alloc = rt.alloc();
    let query = query_of(alloc, "input x; emit count(x[t-3:t]) over (0, 10];")?;
    let core = check(alloc, &query)?;
    assert!(rt; core.inputs().len() == 1);
    let accepted = accept(alloc, core, true)?;
    let rows = one_row(alloc, snap(0, 5, 7))?;
    let upto = Cuts::same(alloc, 5, 1)?;
    let session = start(alloc, query, &accepted, rows, upto)?;
    let (printed, checkpoint) = session;
    has(&rt, &printed, &[(0, 2, 1)]);
    is_spelled(alloc, &rt, &checkpoint)?;
    let rows = one_row(alloc, snap(5, 8, 7))?;
    let session = resume(alloc, checkpoint, &accepted, rows, Cut::End)?;
    let (more, next) = session;
    has(&rt, &more, &[(2, 5, 1), (5, 7, 2), (7, 8, 1), (8, 10, 1)]);
    assert!(rt; next.is_none());
    Ok(())
}

// The checkpoint has the text that was worked out.
fn is_spelled(alloc: Global, rt: &impl Abort, checkpoint: &Checkpoint) -> Result<(), Fail> {
    let bytes = encode(alloc, checkpoint)?;
    let text = "tilt checkpoint 2\nquery 2\ninput x;\nemit count(x[t-3:t]) over (0, 10];\n\
        cut 5\nopen 2\ncut 5 last 5 rows 1\n0,5,7\nend\n";
    assert_eq!(rt; bytes.as_slice(), text.as_bytes());
    Ok(())
}

#[test]
fn a_snapshot_that_is_open_is_printed_once_at_its_end(rt: HostRuntime) -> Result<(), Fail> {
    let alloc = rt.alloc();
    let query = query_of(alloc, "emit 1 over (0, 5];")?;
    let core = check(alloc, &query)?;
    assert!(rt; core.inputs().is_empty());
    let accepted = accept(alloc, core, false)?;
    let none = Cuts::same(alloc, 3, 0)?;
    let session = start(alloc, query, &accepted, Vec::new(alloc), none)?;
    let (printed, checkpoint) = session;
    has(&rt, &printed, &[]);
    is_cut_back(alloc, &rt, &checkpoint)?;
    let session = resume(alloc, checkpoint, &accepted, Vec::new(alloc), Cut::End)?;
    let (more, next) = session;
    has(&rt, &more, &[(0, 5, 1)]);
    assert!(rt; next.is_none());
    Ok(())
}

// The cut of the checkpoint is 3, and there are no inputs.
fn is_cut_back(alloc: Global, rt: &impl Abort, checkpoint: &Checkpoint) -> Result<(), Fail> {
    let back = CutBack { old: 3, new: 2 };
    assert!(rt; checkpoint.series().is_empty());
    let below = Cut::Upto(Cuts::same(alloc, 2, 0)?);
    assert_eq!(rt; next_cut(checkpoint, &below), Err(back));
    let same = Cut::Upto(Cuts::same(alloc, 3, 0)?);
    assert_eq!(rt; next_cut(checkpoint, &same), Ok(()));
    Ok(())
}
