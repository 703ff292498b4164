// What an instruction reads of a buffer.
ghost use Rattle.std.specs.Prelude.{ℕ, [], ◌∷◌, ◌≡◌, MatchOption};
ghost use Rattle.tilt_pipe.specs.Reads.{reads_of};
ghost use Rattle.tilt_turn.specs.Ready.{IsReadable};

use tilt_code::Instr;

// A buffer that is read, and the first and the last of its ticks that are, seen from the grid point.
#[derive(Clone, Copy)]
pub(crate) struct Read {
    pub(crate) buffer: u32,
    pub(crate) first: i64,
    pub(crate) last: i64,
}

// What an instruction reads, if it reads a buffer.
pub(crate) fn read_of(instr: Instr) -> Option<Read>
    requires { (buffers maps : ℕ) × IsReadable buffers maps instr }
    ensures { MatchOption result (reads_of instr ≡ []) (λ read. reads_of instr ≡ read ∷ []) }
{
    match instr {
        Instr::Port { buffer, offset } => Some(Read {
            buffer,
            first: offset,
            last: offset,
        }),
        Instr::Win {
            buffer,
            from,
            to,
            ..
        } => Some(Read {
            buffer,
            first: from + 1,
            last: to,
        }),
        _ => None,
    }
}
