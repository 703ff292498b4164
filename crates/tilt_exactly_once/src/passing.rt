// A feed that is read again from one of its bytes, up to what is committed of it.
ghost use Rattle.std.specs.Prelude.{◌≡◌, ◌++◌, ◌<◌, ◌≤◌, length, IfErr, IfOk, IsErrOf, OnOk};
ghost use Rattle.tilt_exactly_once.specs.Last.{last_of};
ghost use Rattle.tilt_exactly_once.specs.Passing.{HasPassed, IsEndedShort, IsPassingHalt};
ghost use Rattle.tilt_outside.specs.Faults.{Rose};

use crate::halt::Halt;
use crate::last::last_of;
use std::alloc::Global;
use tilt_port::Port;

// Reads so many bytes, and returns the last of them.
pub(crate) fn pass_over<P: Port>(
    alloc: Global,
    room: &mut [u8],
    count: u64,
    port: &mut P,
) -> Result<Vec<u8>, Halt>
    requires space { 0 < length room.old }
    ensures passed { P.tells → IfOk result (λ last. HasPassed count (λ passed. last.items ≡ last_of passed)
        (P.transcript port.old) (P.transcript port.new)) }
    ensures short { P.tells → IfErr result (λ why. why ≡ Halt.Short → IsEndedShort count (P.transcript port.old) (P.transcript port.new)) }
    ensures halt { IfErr result IsPassingHalt }
    ensures read_fault { IsErrOf result Halt.ReadFault → Rose (P.transcript port.old).read_faults (P.transcript port.new).read_faults }
    ensures reads { (P.transcript port.old).read_faults ≤ (P.transcript port.new).read_faults }
{
    let mut last = Vec::new(alloc);
    let mut left = count;
    for _ in 0..u64::MAX {
        if left == 0 {
            return Ok(last);
        }
        left -= pass_some(alloc, room, left, &mut last, port)?;
    }
    // No feed has so many pieces. If one did, the program would stop here.
    Err(Halt::OutOfMemory)
}

// Reads at least one byte and at most so many, and returns how many. Of all that was read the last bytes are kept.
fn pass_some<P: Port>(
    alloc: Global,
    room: &mut [u8],
    most: u64,
    last: &mut Vec<u8>,
    port: &mut P,
) -> Result<u64, Halt>
    requires space { 0 < length room.old }
    requires some { 0 < most }
    ensures most { IfOk result (λ n. (0 < n) × (n ≤ most)) }
    ensures passed { P.tells → IfOk result (λ n. HasPassed n (λ passed. last.new.items ≡ last_of (last.old.items ++ passed))
        (P.transcript port.old) (P.transcript port.new)) }
    ensures short { P.tells → IfErr result (λ why. why ≡ Halt.Short → IsEndedShort most (P.transcript port.old) (P.transcript port.new)) }
    ensures halt { IfErr result IsPassingHalt }
    ensures length { length room.new ≡ length room.old }
    ensures read_fault { IsErrOf result Halt.ReadFault → Rose (P.transcript port.old).read_faults (P.transcript port.new).read_faults }
    ensures reads { (P.transcript port.old).read_faults ≤ (P.transcript port.new).read_faults }
{
    let size = (room.len() as u64).min(most) as usize;
    let Ok(count) = port.read(&mut room[..size]) else {
        return Err(Halt::ReadFault);
    };
    if count == 0 {
        return Err(Halt::Short);
    }
    *last = last_of(alloc, last, &room[..count])?;
    Ok(count as u64)
}
