// How large a query may be that is watched.
use std::alloc::Global;
use std::test::Fail;
use tilt_bounds::reach;
use tilt_overflows::{WatchError, watch_query};
use tilt_testing::{core_of, repeated};

// How many definitions the watching query of a text has, or why it has none.
fn count_of(alloc: Global, text: &str) -> Result<Result<usize, WatchError>, Fail> {
    let core = core_of(alloc, text)?;
    let margins = reach(alloc, &core)?;
    Ok(match watch_query(alloc, &core, &margins) {
        Ok(watching) => Ok(watching.defs().len()),
        Err(fault) => Err(fault),
    })
}

// A sum of so many operands after the first one.
fn sum_of(alloc: Global, operands: usize) -> Result<String, Fail> {
    repeated(alloc, "input x; emit x", " + x", operands, " over (0, 5];")
}

// The watch of a sum of ten operands has 235 nodes, and that of eleven has 281.
#[test]
fn long_sums_are_too_large(rt: HostRuntime) -> Result<(), Fail> {
    let alloc = rt.alloc();
    let text = sum_of(alloc, 9)?;
    assert_eq!(rt; count_of(alloc, &text)?, Ok(3));
    let text = sum_of(alloc, 10)?;
    assert_eq!(rt; count_of(alloc, &text)?, Err(WatchError::TooLarge));
    Ok(())
}

// A query of one input and so many definitions.
fn definitions_of(alloc: Global, count: usize) -> Result<String, Fail> {
    let mut text = String::from_str(alloc, "input x;")?;
    for number in 1..count {
        let one = format!(in alloc; " let a{number} = x;")?;
        text.push_str(&one)?;
    }
    text.push_str(" emit x over (0, 5];")?;
    Ok(text)
}

// One input, two definitions for each, and what is emitted: 256 in all for 127 definitions.
#[test]
fn many_definitions_are_too_large(rt: HostRuntime) -> Result<(), Fail> {
    let alloc = rt.alloc();
    let text = definitions_of(alloc, 127)?;
    assert_eq!(rt; count_of(alloc, &text)?, Ok(255));
    let text = definitions_of(alloc, 128)?;
    assert_eq!(rt; count_of(alloc, &text)?, Err(WatchError::TooLarge));
    Ok(())
}

#[test]
fn faults_have_a_text(rt: HostRuntime) -> Result<(), Fail> {
    let text = format!(in rt.alloc(); "{}; {}", WatchError::TooLarge, WatchError::OutOfMemory)?;
    assert_eq!(rt;
        text.as_str(),
        "the query is too large to be watched; out of memory"
    );
    Ok(())
}
