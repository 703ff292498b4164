// The run of an accepted query on a part of its output domain.
ghost use Rattle.std.specs.Prelude.{◌≡◌, ◌≤ℤ◌, IfOk, length};
ghost use Rattle.std.specs.Option.{ForSome};
ghost use Rattle.tilt_compiler.specs.Compiled.{given};
ghost use Rattle.tilt_core.specs.Core.{domain_of};

use crate::compiler::Accepted;
use std::alloc::{AllocError as OutOfMemory, Global};
use tilt_pipe::{run_pipe, share_rows};
use tilt_stream::{Rows, SnapList};

impl Accepted {
    /// The snapshots of what the query means on `(lo, hi]`, in ticks, which lies within the output domain or is empty; there is one
    /// list of rows for each input. If it is empty, nothing is run. `OutOfMemory` comes if memory runs out, and for no other
    /// reason.
    pub fn run_on(
        &self,
        alloc: Global,
        inputs: Vec<Rows>,
        lo: i64,
        hi: i64,
    ) -> Result<SnapList, OutOfMemory>
        requires inputs { length inputs.items ≡ length self.now.core.inputs }
        requires within { ForSome (domain_of self.now.core.defs) (λ domain. (domain.start ≤ℤ lo) × (hi ≤ℤ domain.end)) }
        ensures { IfOk result (λ list. list ≡ given self.now.core inputs.items lo hi) }
    {
        if hi <= lo {
            return Ok(SnapList::new(alloc));
        }
        // The output domain is known from here on.
        let _domain = self.domain();
        let code = self.code_on(alloc, lo, hi)?;
        run_pipe(alloc, code, share_rows(alloc, inputs)?)
    }
}
