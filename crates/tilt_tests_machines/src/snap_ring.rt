// Snapshots in a ring.
ghost use Rattle.std.specs.Prelude.{◌≡◌, ◌≤◌, ℤ, pos, OnOk};
ghost use Rattle.std.specs.Option.{ForSome};
ghost use Rattle.tilt_stream.specs.Snap.{last_end};

use std::alloc::{AllocError as OutOfMemory, Global};
use std::test::Fail;
use tilt_pipe::SnapRing;
use tilt_stream::Snap;

// Adds the snapshots of one tick from a start to an end.
fn push_ticks(ring: &mut SnapRing, from: u16, to: u16) -> Result<(), OutOfMemory>
    requires touches { ForSome (last_end ring.old) (λ end. end ≡ pos from) }
    requires ahead { from ≤ to }
    ensures { OnOk result (ForSome (last_end ring.new) (λ end. end ≡ pos to)) }
{
    for start in from..to {
        ring.push(Snap {
            start: i64::from(start),
            end: i64::from(start) + 1,
            value: None,
        })?;
    }
    Ok(())
}

// Takes so many snapshots off.
fn pop_some(ring: &mut SnapRing, count: usize)
    ensures { (limit : ℤ) → ForSome (last_end ring.old) (λ end. end ≡ limit)
        → ForSome (last_end ring.new) (λ end. end ≡ limit) }
{
    for _ in 0..count {
        ring.pop_front();
    }
}

// Where the snapshots start.
fn starts(alloc: Global, ring: &SnapRing) -> Result<Vec<i64>, OutOfMemory> {
    let mut starts = Vec::new(alloc);
    for place in 0..ring.len() {
        starts.push(ring.get(place).start)?;
    }
    Ok(starts)
}

#[test]
fn a_ring_grows_and_keeps_its_snapshots_in_order(rt: HostRuntime) -> Result<(), Fail> {
    for (pushed, popped, more, left) in [
        (0, 0, 0, [].as_slice()),
        (0, 1, 2, [0, 1].as_slice()),
        (4, 4, 2, [4, 5].as_slice()),
        (4, 0, 1, [0, 1, 2, 3, 4].as_slice()),
        (4, 3, 5, [3, 4, 5, 6, 7, 8].as_slice()),
        (9, 7, 3, [7, 8, 9, 10, 11].as_slice()),
    ] {
        let mut ring = SnapRing::new(rt.alloc())?;
        push_ticks(&mut ring, 0, pushed)?;
        pop_some(&mut ring, popped);
        push_ticks(&mut ring, pushed, pushed.saturating_add(more))?;
        assert_eq!(rt; starts(rt.alloc(), &ring)?.as_slice(), left);
        for start in left {
            assert_eq!(rt; ring.pop_front().map(|snap| snap.start), Some(*start));
        }
        assert_eq!(rt; ring.pop_front(), None);
    }
    Ok(())
}
