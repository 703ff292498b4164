// A checkpoint file, from the shelf to the checkpoint that it spells.
ghost use Rattle.std.specs.Prelude.{◌≡◌, IfOk, IfErr, length};
ghost use Rattle.tilt_checkpoint.specs.Valid.{IsCheckpoint};
ghost use Rattle.tilt_load.specs.CheckpointFile.{TakesCheckpoint, RefusesCheckpoint};
ghost use Rattle.tilt_load.specs.Load.{IsLoadFault};
ghost use Rattle.tilt_outside.specs.Counts.{added_count};
ghost use Rattle.tilt_outside.specs.Reads.{OnlyReads};
ghost use Rattle.tilt_report.specs.Report.{report_of};
ghost use Rattle.tilt_types.specs.Checked.{core_of};

use crate::file::load;
use std::alloc::Global;
use tilt_checkpoint::{Checkpoint, CheckpointFault, decode};
use tilt_compiler::Accepted;
use tilt_outside::Shelf;
use tilt_report::{Fault, Refusal};

/// A checkpoint that was read, and what the compiler knows of its query.
#[derive(Drop)]
pub struct LoadedCheckpoint {
    pub checkpoint: Checkpoint,
    pub accepted: Accepted,
}

/// The checkpoint in the file of that name, whose query goes on with fusion or without. Its reader has checked the query, which isn't
/// done again. `Refused` has the first reason why the file is rejected. `ReadFault` comes if a read failed, and `OutOfMemory` only if
/// there was no memory.
pub fn load_checkpoint<'a, S: Shelf>(
    alloc: Global,
    shelf: &mut S,
    name: &'a str,
    fuse: bool,
) -> Result<LoadedCheckpoint, Fault<'a>>
    requires { S.lends name.now }
    ensures taken { S.tells → IfOk result (λ loaded. TakesCheckpoint (S.files shelf.old name.now) loaded.checkpoint) }
    ensures valid { IfOk result (λ loaded. IsCheckpoint loaded.checkpoint) }
    ensures core { IfOk result (λ loaded. loaded.accepted.core ≡ core_of loaded.checkpoint.query) }
    ensures fuse { IfOk result (λ loaded. loaded.accepted.fuse ≡ fuse) }
    ensures fault { IfErr result (λ fault. IsLoadFault S.tells (RefusesCheckpoint name.now (S.files shelf.old name.now))
        (λ which. which ≡ name.now) (S.read_faults shelf.old) (S.read_faults shelf.new) (report_of fault)) }
    ensures given { S.tells → IfOk result (λ _. S.given shelf.new ≡ added_count (S.given shelf.old) (length (S.files shelf.old name.now))) }
    ensures rest { OnlyReads S.files S.read_faults S.save_faults S.takes shelf.old shelf.new }
{
    let bytes = load(alloc, shelf, name)?;
    let decoded = match decode(alloc, &bytes) {
        Ok(decoded) => decoded,
        Err(CheckpointFault::BadCheckpoint) => {
            return Err(Fault::Refused(Refusal::BadCheckpoint));
        }
        Err(CheckpointFault::OutOfMemory) => return Err(Fault::OutOfMemory),
    };
    let accepted = Accepted::of(alloc, decoded.core, decoded.margins, fuse)?;
    Ok(LoadedCheckpoint {
        checkpoint: decoded.checkpoint,
        accepted,
    })
}
