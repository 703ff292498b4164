// The numbers of buffers.
ghost use Rattle.std.specs.Prelude.{◌≡◌, ◌+◌, ◌≤◌, length};
ghost use Rattle.tilt_lower.specs.Lowering.{buffer_of, loops_before};

use tilt_fuse::PlanLoop;

/// The buffers of a code: first the inputs, and then the loops, which are those of definitions.
#[derive(Clone, Copy)]
pub struct Buffers<'a> {
    pub inputs: u32,
    pub loops: &'a [PlanLoop],
}

/// The number of the buffer of a source.
pub fn buffer_of(buffers: &Buffers, source: u32) -> u32
    requires { buffers.now.inputs + length buffers.now.loops.now ≤ 256 }
    ensures { result ≡ buffer_of buffers.now.inputs buffers.now.loops.now source }
{
    if source < buffers.inputs {
        return source;
    }
    buffers.inputs + loops_before(buffers.loops, source - buffers.inputs)
}

// How many of the loops are those of definitions before one.
fn loops_before(loops: &[PlanLoop], def: u32) -> u32
    requires { length loops.now ≤ 256 }
    ensures { result ≡ loops_before loops.now def }
{
    let mut count = 0;
    for l in loops {
        if l.def < def {
            count += 1;
        }
    }
    count
}
