// The text of the query.
ghost use Rattle.std.specs.Prelude.{◌≡◌, IfOk};
ghost use Rattle.tilt_made.specs.TryQuery.{query_text};

use std::alloc::{AllocError as OutOfMemory, Global};
use tilt_text::{put, put_number};

/// The text of the query over two made series of so many rows.
pub fn query_text(alloc: Global, count: u32) -> Result<Vec<u8>, OutOfMemory>
    ensures { IfOk result (λ text. text.items ≡ query_text count) }
{
    let mut text = Vec::new(alloc);
    put(
        &mut text,
        b"input a;\ninput b;\nlet m = avg(a[t-10:t]) every 10;\nlet d = a - m;\nemit ifnull(d, 0) + ifnull(b, 0) over (0, ",
    )?;
    put_number(&mut text, 10 * u64::from(count) + 10)?;
    put(&mut text, b"];\n")?;
    Ok(text)
}
