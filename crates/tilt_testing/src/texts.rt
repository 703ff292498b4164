// Names as text, and long texts.
use std::alloc::Global;
use std::test::Fail;
use tilt_lexer::Name;

/// The name as text.
pub fn name_text(name: &Name) -> Result<&str, Fail> {
    Ok(std::str::from_utf8(name.bytes())?)
}

/// A text that starts and ends like this, with this many copies of a part between.
pub fn repeated(
    alloc: Global,
    start: &str,
    part: &str,
    times: usize,
    end: &str,
) -> Result<String, Fail> {
    let mut text = String::from_str(alloc, start)?;
    for _ in 0..times {
        text.push_str(part)?;
    }
    text.push_str(end)?;
    Ok(text)
}
