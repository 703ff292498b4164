// The pipelined machine.
ghost use Rattle.std.specs.Prelude.{◌≡◌, [], ◌∷◌, ◌++◌, ◌<◌, ℕ, suc, true, false};
ghost use Rattle.std.specs.Prelude.{length, slice_get, None, Some, IfOk, IfSome, OnOk, IsErr, IsSome, OnErr, MatchOption};
ghost use Rattle.tilt_code.specs.Run.{run_of};
ghost use Rattle.tilt_pipe.specs.Chain.{IsChain};
ghost use Rattle.tilt_pipe.specs.Pulled.{IsPulled, given_in, steps_left};
ghost use Rattle.tilt_pipe.specs.Pipes.{IsExact};
ghost use Rattle.tilt_pipe.specs.Rings.{held};
ghost use Rattle.tilt_pipe.specs.Value.{pipe_after};

use crate::chain::Chain;
use crate::input::Input;
use std::alloc::{AllocError as OutOfMemory, Global};
use std::marker::Model;
use tilt_code::Code;
use tilt_stream::Snap;

/// A code that runs on the rows of its inputs, snapshot by snapshot. For each loop it also keeps a ring, the state of its turns, and its
/// position. A loop makes a snapshot only if a later one reads it or it is asked for as output. What no next turn reads is let go at once.
#[derive(Drop)]
pub struct Pipe {
    chain: Chain,
    asked: Vec<usize>,
    refused: bool,
}

impl Model for Pipe {
    ghost use Rattle.tilt_pipe.specs.Value.{PipeParts, coded_pipe};

    ghost Value = { PipeParts };

    ghost coded = { coded_pipe };

    ghost use Rattle.tilt_pipe.specs.Pipes.{pipe_parts, IsPipe};

    ghost view = { pipe_parts };

    ghost invariant = { IsPipe };
}

impl Pipe {
    /// A pipe that has given out no snapshot, over the inputs of the code in their order. It returns `OutOfMemory` if memory runs out, and
    /// for no other reason.
    pub fn new(alloc: Global, code: Code, inputs: Vec<Input>) -> Result<Pipe, OutOfMemory>
        requires { length inputs.items ≡ length code.inputs }
        ensures { IfOk result (λ pipe. pipe ≡ pipe_after code inputs.items 0) }
    {
        Ok(Pipe {
            chain: Chain::new(alloc, code, inputs)?,
            asked: Vec::new(alloc),
            refused: false,
        })
    }

    /// The next snapshot of the code's run: `None` exactly if all were given out, and then nothing changes. It returns `OutOfMemory` if
    /// memory runs out, and each time after that.
    // Inlined, so that the owner of a pipe reads its parts where they lie, and not by an address that takes a register.
    #[inline(always)]
    pub fn next(&mut self) -> Result<Option<Snap>, OutOfMemory>
        ensures given { self.old.refused ≡ false → IfOk result
            (λ next. next ≡ slice_get (run_of self.old.code self.old.inputs) self.old.given) }
        ensures after { self.old.refused ≡ false → IfOk result (λ next. MatchOption next (self.new ≡ self.old)
            (λ _. self.new ≡ pipe_after self.old.code self.old.inputs (suc self.old.given))) }
        ensures refused { OnErr result (self.new.refused ≡ true) }
        ensures for_good { self.old.refused ≡ true → IsErr result }
        ensures code { self.new.code ≡ self.old.code }
        ensures inputs { self.new.inputs ≡ self.old.inputs }
    {
        if self.refused {
            return Err(OutOfMemory);
        }
        let next = pull(&mut self.chain, &mut self.asked);
        self.refused = next.is_err();
        next
    }

    /// How many snapshots the rings hold together. It takes no memory.
    pub fn held(&self) -> u128
        requires { self.now.refused ≡ false }
        ensures { result ≡ held self.now.rings }
    {
        self.chain.rings.held()
    }
}

// The next snapshot of the last loop. `None` if it is at the end of its stretch, and then nothing changes.
#[inline(always)]
fn pull(chain: &mut Chain, asked: &mut Vec<usize>) -> Result<Option<Snap>, OutOfMemory>
    requires exact { IsExact chain.old }
    requires none { asked.old.items ≡ [] }
    ensures given { IfOk result (λ next. next
        ≡ slice_get (run_of chain.old.rings.code chain.old.rings.inputs) (given_in chain.old.rings)) }
    ensures after { IfOk result (λ next. MatchOption next (chain.new ≡ chain.old)
        (λ _. given_in chain.new.rings ≡ suc (given_in chain.old.rings))) }
    ensures exact { OnOk result (IsExact chain.new) }
    ensures none { OnOk result (asked.new.items ≡ []) }
    ensures code { chain.new.rings.code ≡ chain.old.rings.code }
    ensures inputs { chain.new.rings.inputs ≡ chain.old.rings.inputs }
{
    let last = chain.rings.loops().len() - 1;
    if !chain.rings.is_open(last) {
        return Ok(None);
    }
    let mut place = last;
    loop {
        if let Some(snap) = step(chain, asked, &mut place)? {
            return Ok(Some(snap));
        }
    }
}

// One step towards the next snapshot, of the loop at a place. Either its turn is made, and then the loop that waits for it goes on; or an
// earlier loop, which this turn waits for, goes on. It gives the snapshot of a turn for which no loop waits, which is the last loop's.
#[inline(always)]
fn step(
    chain: &mut Chain,
    asked: &mut Vec<usize>,
    place: &mut usize,
) -> Result<Option<Snap>, OutOfMemory>
    requires chain { IsChain chain.old }
    requires pulled { (given : ℕ) × IsPulled given chain.old.rings (asked.old.items ++ place.old ∷ []) }
    ensures chain { OnOk result (IsChain chain.new) }
    ensures pulled { (given : ℕ) → IsPulled given chain.old.rings (asked.old.items ++ place.old ∷ [])
        → IfOk result (λ made. MatchOption made (IsPulled given chain.new.rings (asked.new.items ++ place.new ∷ []))
        (λ _. IsPulled given chain.new.rings [])) }
    ensures nearer { (given : ℕ) → IsPulled given chain.old.rings (asked.old.items ++ place.old ∷ [])
        → IfOk result (λ made. made ≡ None → steps_left given chain.new.rings (asked.new.items ++ place.new ∷ [])
        < steps_left given chain.old.rings (asked.old.items ++ place.old ∷ [])) }
    ensures made { (given : ℕ) → IsPulled given chain.old.rings (asked.old.items ++ place.old ∷ [])
        → IfOk result (λ made. IfSome made (λ snap. Some snap ≡ slice_get (run_of chain.old.rings.code chain.old.rings.inputs) given)) }
    ensures none { IfOk result (λ made. IsSome made → asked.new.items ≡ []) }
    ensures code { chain.new.rings.code ≡ chain.old.rings.code }
    ensures inputs { chain.new.rings.inputs ≡ chain.old.rings.inputs }
{
    let here = *place;
    if let Some(source) = chain.behind(here) {
        asked.push(here)?;
        *place = source;
        return Ok(None);
    }
    let snap = chain.make(here)?;
    let Some(before) = asked.pop() else {
        return Ok(Some(snap));
    };
    *place = before;
    Ok(None)
}
