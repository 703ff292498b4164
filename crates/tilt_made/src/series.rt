// The two made series.
ghost use Rattle.std.specs.Prelude.{◌≡◌, ◌≤◌, IfOk, OnOk};
ghost use Rattle.tilt_made.specs.Generator.{after_rows, first_rows, second_rows, series};

use crate::generator::Generator;
use std::alloc::{AllocError as OutOfMemory, Global};
use tilt_stream::Rows;

/// The rows of `a` and of `b`, each so many, at most 1,000,000. Each ends at tick 11 * `count` or before.
pub fn made_rows(alloc: Global, seed: u32, count: u32) -> Result<(Rows, Rows), OutOfMemory>
    requires { count ≤ 1000000 }
    ensures { IfOk result (λ both. (both.0 ≡ first_rows seed count) × (both.1 ≡ second_rows seed count)) }
{
    let mut generator = Generator::new(seed);
    let first = made_series(alloc, &mut generator, count)?;
    let second = made_series(alloc, &mut generator, count)?;
    Ok((first, second))
}

// So many rows, the first at position 0.
fn made_series(alloc: Global, generator: &mut Generator, count: u32) -> Result<Rows, OutOfMemory>
    requires { count ≤ 1000000 }
    ensures rows { IfOk result (λ rows. rows ≡ series count generator.old.state 0) }
    ensures state { OnOk result (generator.new.state ≡ after_rows count generator.old.state) }
{
    let mut rows = Rows::new(alloc);
    let mut position = 0;
    for _ in 0..count {
        let row = generator.row(&mut position);
        rows.push(row)?;
    }
    Ok(rows)
}
