// A machine whose state comes behind the last bytes that it took.
ghost use Rattle.std.specs.Prelude.{◌≡◌, Some, None, MatchOption, IfOk};
ghost use Rattle.tilt_exactly_once.specs.Framed.{KeepsLast, frames, framed, rejects_framed, unframed};
ghost use Rattle.tilt_exactly_once.specs.FramedLaws.{has_output, has_state};

use crate::halt::Stop;
use crate::last::last_of;
use crate::machine::{Machine, Resumed, Started};
use crate::refusal::Refusal;
use std::alloc::{AllocError as OutOfMemory, Global};
use tilt_outside::Sink;
use tilt_store::{read_counted, spell_counted};

/// A machine that keeps the last bytes that it took, and hands them on with its state. So the next one can compare them with those of its
/// feed.
#[derive(Drop)]
pub struct FramedMachine<M> {
    pub machine: M,
    // The last bytes that it took.
    pub last: Vec<u8>,
}

impl<M: Machine + Drop> Machine for FramedMachine<M> {
    type Recipe = M::Recipe;

    ghost Of = { M.Of };

    ghost of = { M.of };

    ghost rejects = { λ recipe. rejects_framed (M.rejects recipe) };

    ghost is = { KeepsLast M.is };

    ghost sound = { λ framed. M.sound framed.machine };

    ghost output = { M.output };

    ghost commits = { frames M.commits };

    ghost stops = { M.stops };

    ghost fits = { M.fits };

    fn take<E: Sink>(&mut self, alloc: Global, piece: &[u8], err: &mut E) -> Result<Vec<u8>, Stop> {
        let out = self.machine.take(alloc, piece, err)?;
        match last_of(alloc, &self.last, piece) {
            Ok(last) => self.last = last,
            Err(_) => return Err(Stop::OutOfMemory),
        }
        Ok(out)
    }

    fn end<E: Sink>(&self, err: &mut E) -> Result<(), Stop> {
        self.machine.end(err)
    }

    fn taken(&self) -> u64 {
        self.machine.taken()
    }

    fn state(&mut self, alloc: Global, written: u64) -> Result<Vec<u8>, Stop> {
        let text = self.machine.state(alloc, written)?;
        match frame(alloc, &self.last, &text) {
            Ok(state) => Ok(state),
            Err(_) => Err(Stop::OutOfMemory),
        }
    }

    fn start(alloc: Global, recipe: M::Recipe) -> Result<Started<FramedMachine<M>>, Stop> {
        let started = M::start(alloc, recipe)?;
        Ok(Started {
            machine: FramedMachine {
                machine: started.machine,
                last: Vec::new(alloc),
            },
            output: started.output,
        })
    }

    fn resume(
        alloc: Global,
        recipe: M::Recipe,
        text: &[u8],
    ) -> Result<Resumed<FramedMachine<M>>, Refusal> {
        let Some((last, text)) = unframe(text) else {
            return Err(Refusal::NotAState);
        };
        let Ok(last) = last.to_vec(alloc) else {
            return Err(Refusal::OutOfMemory);
        };
        let resumed = M::resume(alloc, recipe, text)?;
        Ok(Resumed {
            machine: FramedMachine {
                machine: resumed.machine,
                last,
            },
            written: resumed.written,
        })
    }

    ghost has_output = { has_output M.output M.commits M.has_output };

    ghost has_state = { has_state M.commits };
}

// The last bytes that were taken, behind a line with how many they are, and the machine's text.
fn frame(alloc: Global, last: &[u8], text: &[u8]) -> Result<Vec<u8>, OutOfMemory>
    ensures { IfOk result (λ state. state.items ≡ framed last.now text.now) }
{
    let mut both = Vec::new(alloc);
    both.extend_from_slice(last)?;
    both.extend_from_slice(text)?;
    spell_counted(alloc, last.len() as u64, &both)
}

// The last bytes and the machine's text that a state spells.
fn unframe(state: &[u8]) -> Option<(&[u8], &[u8])>
    ensures { MatchOption result (unframed state.now ≡ None) (λ parts. unframed state.now ≡ Some (parts.0.now, parts.1.now)) }
{
    let (count, both) = read_counted(state)?;
    if count > both.len() as u64 {
        return None;
    }
    let count = count as usize;
    Some((&both[..count], &both[count..]))
}
