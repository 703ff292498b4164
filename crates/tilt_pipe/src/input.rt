// An input of a code, as pipes read it.
ghost use Rattle.std.specs.Prelude.{◌≡◌, IfOk};

use std::alloc::{AllocError as OutOfMemory, Global};
use std::marker::Model;
use std::rc::Rc;
use tilt_stream::{Buffer, Rows, Snap};

/// The rows of an input. Any number of pipes may share them, and none copies a row. A clause sees the rows.
#[derive(Drop)]
pub struct Input {
    rows: Rc<Rows>,
}

impl Model for Input {
    ghost use Rattle.std.specs.Prelude.{List};
    ghost use Rattle.tilt_stream.specs.Snap.{Snapshot};

    ghost Value = { List Snapshot };

    ghost view = { λ i. i.rows.value };
}

impl Buffer for Input {
    ghost list = { λ rows. rows };

    ghost forgotten = { λ _. 0 };

    #[inline(always)]
    fn made(&self) -> usize {
        self.rows.as_ref().made()
    }

    #[inline(always)]
    fn first_kept(&self) -> usize {
        0
    }

    #[inline(always)]
    fn at(&self, place: usize) -> Option<Snap> {
        Buffer::at(self.rows.as_ref(), place)
    }
}

impl Input {
    // The input that has these rows.
    fn new(alloc: Global, rows: Rows) -> Result<Input, OutOfMemory>
        ensures { IfOk result (λ input. input ≡ rows) }
    {
        Ok(Input {
            rows: Rc::new(alloc, rows)?,
        })
    }

    // The same input once more, for another pipe.
    fn share(&self) -> Result<Input, OutOfMemory>
        ensures { IfOk result (λ input. input ≡ self.now) }
    {
        Ok(Input {
            rows: self.rows.clone()?,
        })
    }

    // Its rows: they are moved if no pipe shares them any more, and copied otherwise.
    fn into_rows(self, alloc: Global) -> Result<Rows, OutOfMemory>
        ensures { IfOk result (λ rows. rows ≡ self) }
    {
        let Input { rows } = self;
        match Rc::try_unwrap(rows) {
            Ok(rows) => Ok(rows),
            Err(shared) => copy_rows(alloc, shared.as_ref()),
        }
    }
}

// A copy of rows.
fn copy_rows(alloc: Global, rows: &Rows) -> Result<Rows, OutOfMemory>
    ensures { IfOk result (λ copy. copy ≡ rows.now) }
{
    let mut copy = Rows::new(alloc);
    copy.append(rows.as_slice())?;
    Ok(copy)
}

/// The inputs that have these rows, in the same order. No row is copied. It returns `OutOfMemory` if memory runs out, and only then.
pub fn share_rows(alloc: Global, rows: Vec<Rows>) -> Result<Vec<Input>, OutOfMemory>
    ensures { IfOk result (λ inputs. inputs.items ≡ rows.items) }
{
    let mut inputs = Vec::new(alloc);
    for each in rows {
        inputs.push(Input::new(alloc, each)?)?;
    }
    Ok(inputs)
}

/// The same inputs once more, for another pipe. No row is copied. It returns `OutOfMemory` if memory runs out, and for no other reason.
pub fn share_inputs(alloc: Global, inputs: &[Input]) -> Result<Vec<Input>, OutOfMemory>
    ensures { IfOk result (λ shared. shared.items ≡ inputs.now) }
{
    let mut shared = Vec::new(alloc);
    for input in inputs {
        shared.push(input.share()?)?;
    }
    Ok(shared)
}

/// The rows of these inputs, in the same order. The rows of an input are moved if no pipe shares them any more, and copied otherwise. It
/// returns `OutOfMemory` if memory runs out, and for no other reason.
pub fn take_rows(alloc: Global, inputs: Vec<Input>) -> Result<Vec<Rows>, OutOfMemory>
    ensures { IfOk result (λ rows. rows.items ≡ inputs.items) }
{
    let mut rows = Vec::new(alloc);
    for input in inputs {
        rows.push(input.into_rows(alloc)?)?;
    }
    Ok(rows)
}
