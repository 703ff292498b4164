// The summary of a run.
ghost use Rattle.std.specs.Prelude.{◌≡◌, ◌<◌, List, [], ◌∷◌, ◌++◌, length, IfOk};
ghost use Rattle.tilt_made.specs.Summary.{summary_text, values};
ghost use Rattle.tilt_window.specs.States.{IsSumAndCount};
ghost use Rattle.tilt_stream.specs.Snap.{Snapshot};

use std::alloc::{AllocError as OutOfMemory, Global};
use tilt_stream::{Snap, SnapList};
use tilt_text::{put, put_number};
use tilt_window::{Reduction, SumR};

/// The summary of a run over two made series of so many rows, of which these are the snapshots: how many aren't null, and
/// the exact sum of their values.
pub fn summary(alloc: Global, count: u32, list: &SnapList) -> Result<Vec<u8>, OutOfMemory>
    ensures { IfOk result (λ text. text.items ≡ summary_text count list.now) }
{
    let sums = sums_of(list);
    let mut text = Vec::new(alloc);
    put(&mut text, b"rows ")?;
    put_number(&mut text, count)?;
    put(&mut text, b" ")?;
    put_number(&mut text, count)?;
    put(&mut text, b"\nprinted ")?;
    put_number(&mut text, sums.count)?;
    put(&mut text, b"\nsum ")?;
    put_number(&mut text, sums.sum)?;
    put(&mut text, b"\n")?;
    Ok(text)
}

// How many of the snapshots aren't null, and the sum of their values, which 128 bits hold.
fn sums_of(list: &SnapList) -> <SumR as Reduction>::State
    ensures { IsSumAndCount result (values list.now) }
{
    let mut sums = SumR::empty();
    for snap in list.as_slice() {
        add_snap(&mut sums, snap);
    }
    sums
}

// Counts a snapshot that isn't null, and adds its value.
fn add_snap(sums: &mut <SumR as Reduction>::State, snap: &Snap)
    requires { (list : List Snapshot) × IsSumAndCount sums.old (values list) × (length list < 9223372036854775807) }
    ensures { (list : List Snapshot) → length list < 9223372036854775807 → IsSumAndCount sums.old (values list) →
        IsSumAndCount sums.new (values (list ++ snap.now ∷ [])) }
{
    if let Some(value) = snap.value {
        SumR::add(sums, value);
    }
}
