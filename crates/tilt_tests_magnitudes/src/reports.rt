// What is printed of queries.
use crate::printed::{Known, REPORTS, ReportCase, UNKNOWN};
use std::alloc::Global;
use std::test::Fail;
use tilt_input_scales::{InputScale, Scales};
use tilt_lexer::Name;
use tilt_magnitudes::{Interval, Rate};
use tilt_testing::query_of;
use tilt_types::check;
use tilt_unit_report::{BoundFault, IllScaled, InputBound, MagnitudeReport, report_magnitudes};

fn name_of(alloc: Global, name: &str) -> Result<Name, Fail> {
    Ok(Name::read(alloc, name.as_bytes())?.ok_or("no name")?)
}

fn scales_of(alloc: Global, given: &[(&str, u64)]) -> Result<Scales, Fail> {
    let mut scales = Scales::new(alloc, 1);
    for (name, scale) in given {
        push_scale(alloc, &mut scales, name, *scale)?;
    }
    Ok(scales)
}

fn push_scale(alloc: Global, scales: &mut Scales, name: &str, scale: u64) -> Result<(), Fail> {
    if scale < 1 || scale > 1_000_000_000_000_000_000 {
        return Err("no scale".into());
    }
    let name = name_of(alloc, name)?;
    scales.push(InputScale { name, scale })?;
    Ok(())
}

fn bounds_of(alloc: Global, given: &[Known]) -> Result<Vec<InputBound>, Fail> {
    let mut bounds = Vec::new(alloc);
    for at in 0..given.len() {
        push_bound(alloc, &mut bounds, &given[at])?;
    }
    Ok(bounds)
}

fn push_bound(alloc: Global, bounds: &mut Vec<InputBound>, known: &Known) -> Result<(), Fail> {
    let (name, (low, high), (marks, ticks)) = known;
    let name = name_of(alloc, name)?;
    let values = Interval {
        low: *low,
        high: *high,
    };
    let rate = Rate {
        marks: *marks,
        ticks: *ticks,
    };
    bounds.push(InputBound { name, values, rate })?;
    Ok(())
}

fn report(alloc: Global, case: &ReportCase) -> Result<Result<MagnitudeReport, BoundFault>, Fail> {
    let (scales, known, decimals, text, _) = case;
    let query = query_of(alloc, text)?;
    let core = check(alloc, &query)?;
    let scales = scales_of(alloc, scales)?;
    let bounds = bounds_of(alloc, known)?;
    Ok(report_magnitudes(alloc, &query, &core, *decimals, &scales, &bounds))
}

#[test]
fn reports_have_this_text(rt: HostRuntime) -> Result<(), Fail> {
    let alloc = rt.alloc();
    for case in REPORTS {
        let Ok(report) = report(alloc, case)? else {
            return Err("a fault".into());
        };
        let shown = str::from_utf8(&report.text).map_err(|_| "no text")?;
        assert_eq!(rt; shown, case.4);
    }
    Ok(())
}

fn push_statement(alloc: Global, shown: &mut String, ill: Option<IllScaled>) -> Result<(), Fail> {
    let one = match ill {
        None => format!(in alloc; "- ")?,
        Some(ill) => format!(in alloc; "{}.{} ", ill.definition, ill.statement)?,
    };
    shown.push_str(one.as_str())?;
    Ok(())
}

// The statement is beside the text.
#[test]
fn reports_have_the_statement(rt: HostRuntime) -> Result<(), Fail> {
    let alloc = rt.alloc();
    let mut statements = String::new(alloc);
    for case in REPORTS {
        let Ok(report) = report(alloc, case)? else {
            return Err("a fault".into());
        };
        push_statement(alloc, &mut statements, report.ill_scaled)?;
    }
    assert_eq!(rt; statements.as_str(), "- - 0.2 1.4 ");
    Ok(())
}

#[test]
fn bounds_of_no_input_are_reported(rt: HostRuntime) -> Result<(), Fail> {
    let alloc = rt.alloc();
    match report(alloc, &UNKNOWN)? {
        Err(fault) => assert_eq!(rt; fault, BoundFault::UnknownInput { bound: 1 }),
        Ok(_) => return Err("no fault".into()),
    }
    Ok(())
}
