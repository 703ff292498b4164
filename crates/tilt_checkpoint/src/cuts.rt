// Up to where the rows of inputs were seen.
ghost use Rattle.std.specs.Prelude.{◌≡◌, ◌≢◌, [], fold, replicate, IfOk};
ghost use Rattle.std.specs.Int.{int_min};
ghost use Rattle.std.specs.List.{AllByRecursion};
ghost use Rattle.tilt_checkpoint.specs.Cuts.{AreCuts, IsCut, IsLeast};
ghost use Rattle.tilt_checkpoint.specs.Reading.{is_cut};

use std::alloc::{AllocError as OutOfMemory, Global};
use std::marker::Model;
use tilt_base::T;

/// Up to where the rows of each input were seen, in ticks: the rows of an input that start below its cut. The least of the cuts decides how
/// much of the output can't change any more; for a query without inputs it is the only one. All lie in `-T..=T`. A clause sees them as
/// plain data.
#[derive(Drop)]
pub struct Cuts {
    least: i64,
    each: Vec<i64>,
}

impl Model for Cuts {
    ghost use Rattle.tilt_checkpoint.specs.Cuts.{AreCuts, CutsParts};

    ghost Value = { CutsParts };

    ghost view = { λ c. record { least = c.least; each = c.each.items } };

    ghost invariant = { λ c. AreCuts (record { least = c.least; each = c.each.items }) };
}

impl Cuts {
    /// One cut for this number of inputs. It returns `OutOfMemory` if memory runs out, and for no other reason.
    pub fn same(alloc: Global, cut: i64, inputs: usize) -> Result<Cuts, OutOfMemory>
        requires { IsCut cut }
        ensures { IfOk result (λ cuts. cuts ≡ record { least = cut; each = replicate inputs cut }) }
    {
        let each = repeated(alloc, cut, inputs)?;
        Ok(Cuts { least: cut, each })
    }

    /// A cut for each input, of which there is at least one.
    pub fn of(each: Vec<i64>) -> Cuts
        requires some { each.items ≢ [] }
        requires range { AllByRecursion IsCut each.items }
        ensures each { result.each ≡ each.items }
        ensures cuts { AreCuts result }
    {
        let least = least_in(&each);
        Cuts { least, each }
    }

    /// The least of them.
    pub fn least(&self) -> i64
        ensures value { result ≡ self.now.least }
        ensures cuts { AreCuts self.now }
    {
        self.least
    }

    /// The cut of each input, in the order of the query.
    pub fn each(&self) -> &[i64]
        ensures value { result.now ≡ self.now.each }
        ensures cuts { AreCuts self.now }
    {
        &self.each
    }
}

// A cut, repeated this number of times.
fn repeated(alloc: Global, cut: i64, count: usize) -> Result<Vec<i64>, OutOfMemory>
    ensures { IfOk result (λ each. each.items ≡ replicate count cut) }
{
    vec![in alloc; cut; count]
}

// The least of numbers, of which there is one at least.
fn least_in(numbers: &[i64]) -> i64
    requires { numbers.now ≢ [] }
    ensures { IsLeast result numbers.now }
{
    least_of(numbers[0], numbers)
}

// The least of a number and others.
fn least_of(first: i64, others: &[i64]) -> i64
    ensures { result ≡ fold int_min first others.now }
{
    let mut best = first;
    for number in others {
        best = best.min(*number);
    }
    best
}

// Whether a cut lies within the range of times.
pub(crate) fn is_cut(cut: i64) -> bool
    ensures { result ≡ is_cut cut }
{
    -T <= cut && cut <= T
}
