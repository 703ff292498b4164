// Query files in units, checked before they run.
use crate::checks::{BAD_BOUNDS, CHECKS, CheckCase};
use crate::reading::scales_of;
use std::alloc::Global;
use std::test::Fail;
use tilt_outside::MemShelf;
use tilt_unit_check::{CheckFault, Checked, check_in_units, read_bounds};
use tilt_unit_report::InputBound;

// The bounds that a text says.
fn bounds_of(
    alloc: Global,
    given: &[(&str, u64)],
    text: &str,
) -> Result<Option<Vec<InputBound>>, Fail> {
    let scales = scales_of(alloc, given)?;
    let text = Some(String::from_str(alloc, text)?);
    Ok(read_bounds(alloc, &scales, &text)?)
}

// What the check of a file finds.
fn check(
    alloc: Global,
    file: &str,
    given: &[(&str, u64)],
    bounds: &[InputBound],
) -> Result<Result<Checked, CheckFault<'static>>, Fail> {
    let mut shelf = MemShelf::new(alloc);
    shelf.hold("query.tilt", file.as_bytes(), 0)?;
    let scales = scales_of(alloc, given)?;
    Ok(check_in_units(alloc, &mut shelf, "query.tilt", &scales, bounds))
}

// What the check of a case finds.
fn found(alloc: Global, case: &CheckCase) -> Result<Checked, Fail> {
    let Some(bounds) = bounds_of(alloc, case.scales, case.bounds)? else {
        return Err("no bounds".into());
    };
    match check(alloc, case.file, case.scales, &bounds)? {
        Ok(found) => Ok(found),
        Err(_) => Err("a fault".into()),
    }
}

#[test]
fn files_in_units_are_checked(rt: HostRuntime) -> Result<(), Fail> {
    let alloc = rt.alloc();
    for case in CHECKS {
        let found = found(alloc, case)?;
        assert_eq!(rt; found.text.as_slice(), case.report.as_bytes());
        let definition = found.can_leave.unwrap_or(Vec::new(alloc));
        assert_eq!(rt; definition.as_slice(), case.can_leave.as_bytes());
    }
    Ok(())
}

#[test]
fn other_texts_are_no_bounds(rt: HostRuntime) -> Result<(), Fail> {
    let alloc = rt.alloc();
    for text in BAD_BOUNDS {
        let bounds = bounds_of(alloc, &[("x", 10)], text)?;
        assert!(rt; bounds.is_none());
    }
    Ok(())
}

#[test]
fn a_bound_of_no_input_is_rejected(rt: HostRuntime) -> Result<(), Fail> {
    let alloc = rt.alloc();
    let bounds = bounds_of(alloc, &[], "x=0:1,y=0:1")?.ok_or("no bounds")?;
    match check(alloc, "input x; emit x over (0, 5];", &[], &bounds)? {
        Err(CheckFault::NoInput(name)) => assert_eq!(rt; name.bytes(), b"y".as_slice()),
        _ => return Err("no such fault".into()),
    }
    Ok(())
}
