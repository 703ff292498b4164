// The run of a code.
ghost use Rattle.std.specs.Prelude.{◌≡◌, length, IfOk};
ghost use Rattle.tilt_code.specs.Run.{run_of};

use crate::made_so_far::MadeSoFar;
use crate::turns::turns;
use std::alloc::{AllocError as OutOfMemory, Global};
use tilt_code::Code;
use tilt_stream::{Rows, SnapList};

/// The run of a code on the rows of its inputs: the list of the buffer of its last loop. There is one list of rows for each
/// input, in the order of the code. `OutOfMemory` comes if memory runs out, and for no other reason.
pub fn run_code(alloc: Global, code: &Code, inputs: &[Rows]) -> Result<SnapList, OutOfMemory>
    requires inputs { length inputs.now ≡ length code.now.inputs }
    ensures run { IfOk result (λ list. list ≡ run_of code.now inputs.now) }
{
    let mut made = Vec::new(alloc);
    for each in code.loops() {
        let buffers = MadeSoFar {
            inputs,
            made: &made,
        };
        let list = turns(alloc, each, &buffers)?;
        made.push(list)?;
    }
    Ok(made.pop().unwrap())
}
