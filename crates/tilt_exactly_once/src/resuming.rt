// A feed that is served from behind what is committed of it.
ghost use Rattle.std.specs.Prelude.{◌≡◌, ◌≤◌, ℕ, List, IfErr, IsErrOf, OnOk};
ghost use Rattle.tilt_exactly_once.specs.Committed.{Holds};
ghost use Rattle.tilt_exactly_once.specs.Feeding.{HasServedFrom};
ghost use Rattle.tilt_exactly_once.specs.Framed.{IsFramed, KeepsLast, frames};
ghost use Rattle.tilt_exactly_once.specs.Passing.{HasPassedOver, IsReached, IsUnpassed};
ghost use Rattle.tilt_exactly_once.specs.Serving.{IsUnderway};
ghost use Rattle.tilt_outside.specs.Faults.{Rose};
ghost use Rattle.tilt_store.specs.Open.{IsOpen};

use crate::framed_machine::FramedMachine;
use crate::halt::Halt;
use crate::keeper::{Keeper, PIECE, make_room};
use crate::machine::Machine;
use crate::passing::pass_over;
use crate::plan::Plan;
use std::alloc::Global;
use tilt_outside::Sink;
use tilt_port::Port;
use tilt_store::Folder;

/// Serves a feed that is read from the byte that the plan says. What is committed of it is passed over, and what is left is served.
pub(crate) fn serve_from<F: Folder, M: Machine + Drop, P: Port, E: Sink>(
    alloc: Global,
    keeper: &mut Keeper<F, FramedMachine<M>>,
    plan: Plan,
    port: &mut P,
    err: &mut E,
) -> Result<(), Halt>
    requires sound { M.sound keeper.old.machine.machine }
    requires is_open { F.tells → IsOpen (F.seen keeper.old.ledger.folder) (F.may_leave keeper.old.ledger.folder) }
    requires lines { (n : ℕ) → E.takes err.old n }
    ensures served { F.tells → (of : M.Of) (bytes : List ℕ)
        → IsUnderway F.seen F.may_leave (KeepsLast M.is) M.output of keeper.old.ledger.folder keeper.old.machine keeper.old.written bytes
        → Holds (IsFramed (M.commits of)) bytes (F.seen keeper.old.ledger.folder)
        → HasServedFrom F.seen F.may_leave (KeepsLast M.is) M.output of (frames M.commits) M.stops M.fits F.moment F.left_since P.tells
        plan.from bytes keeper.old.ledger.folder (P.transcript port.old) keeper.new.ledger.folder (P.transcript port.new) result }
    ensures read_fault { IsErrOf result Halt.ReadFault → Rose (P.transcript port.old).read_faults (P.transcript port.new).read_faults }
    ensures failed { IsErrOf result Halt.Failed → Rose (F.faults keeper.old.ledger.folder) (F.faults keeper.new.ledger.folder) }
    ensures faults { F.faults keeper.old.ledger.folder ≤ F.faults keeper.new.ledger.folder }
    ensures takes { (n : ℕ) → E.takes err.new n }
{
    pass(alloc, &keeper.machine, plan.from, port)?;
    keeper.serve(alloc, plan.every, port, err)
}

// Passes over what a machine took of a feed that is read from a byte on. The last bytes of it are compared with those that were taken.
fn pass<M: Machine + Drop, P: Port>(
    alloc: Global,
    machine: &FramedMachine<M>,
    from: u64,
    port: &mut P,
) -> Result<(), Halt>
    ensures passed { P.tells → (of : M.Of) (bytes : List ℕ) → KeepsLast M.is machine.now of bytes
        → OnOk result (HasPassedOver from bytes (P.transcript port.old) (P.transcript port.new)) }
    ensures reached { (of : M.Of) (bytes : List ℕ) → KeepsLast M.is machine.now of bytes → OnOk result (IsReached from bytes) }
    ensures unpassed { (of : M.Of) (bytes : List ℕ) → KeepsLast M.is machine.now of bytes
        → IfErr result (IsUnpassed P.tells from bytes (P.transcript port.old) (P.transcript port.new)) }
    ensures read_fault { IsErrOf result Halt.ReadFault → Rose (P.transcript port.old).read_faults (P.transcript port.new).read_faults }
    ensures unfailed { IsErrOf result Halt.Failed → ⊥ }
    ensures reads { (P.transcript port.old).read_faults ≤ (P.transcript port.new).read_faults }
{
    let Some(count) = machine.taken().checked_sub(from) else {
        return Err(Halt::Gap);
    };
    let mut room = make_room(alloc, PIECE)?;
    let last = pass_over(alloc, &mut room, count, port)?;
    if machine.last.ends_with(&last) {
        Ok(())
    } else {
        Err(Halt::Changed)
    }
}
