// The run of a code by a pipe.
ghost use Rattle.std.specs.Prelude.{◌≡◌, length, IfOk};
ghost use Rattle.tilt_code.specs.Run.{run_of};

use crate::input::Input;
use crate::pipe::Pipe;
use std::alloc::{AllocError as OutOfMemory, Global};
use tilt_code::Code;
use tilt_stream::SnapList;

/// The run of a code on its inputs, in their order: all that its pipe gives out. It returns `OutOfMemory` if memory runs out, and for no
/// other reason.
pub fn run_pipe(alloc: Global, code: Code, inputs: Vec<Input>) -> Result<SnapList, OutOfMemory>
    requires { length inputs.items ≡ length code.inputs }
    ensures { IfOk result (λ list. list ≡ run_of code inputs.items) }
{
    // What a code keeps is known from here on.
    let _ = code.loops();
    let mut pipe = Pipe::new(alloc, code, inputs)?;
    let mut list = SnapList::new(alloc);
    while let Some(snap) = pipe.next()? {
        list.push(snap)?;
    }
    Ok(list)
}
