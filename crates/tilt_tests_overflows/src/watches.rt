// What watching queries emit.
use crate::cases::{CASES, Case, DOMAINS};
use std::alloc::Global;
use std::test::Fail;
use tilt_bounds::{ReachFault, reach};
use tilt_core::Core;
use tilt_evaluator::evaluate_query;
use tilt_overflows::watch_query;
use tilt_stream::SnapList;
use tilt_testing::{Piece, core_of, inputs_of};

/// The watching query of the query of a text.
pub fn watching_of(alloc: Global, text: &str) -> Result<Core, Fail> {
    let core = core_of(alloc, text)?;
    let margins = reach(alloc, &core)?;
    Ok(watch_query(alloc, &core, &margins)?)
}

fn numbered(alloc: Global, list: &SnapList) -> Result<Vec<Piece>, Fail> {
    let mut pieces = Vec::new(alloc);
    for snap in list.as_slice() {
        if snap.value.is_some() {
            pieces.push((snap.start, snap.end, snap.value))?;
        }
    }
    Ok(pieces)
}

// The snapshots of the watching query that aren't null.
fn emitted(alloc: Global, case: &Case) -> Result<Vec<Piece>, Fail> {
    let (text, rows, _, _) = case;
    let core = watching_of(alloc, text)?;
    let inputs = inputs_of(alloc, rows)?;
    if inputs.len() != core.inputs().len() {
        return Err("another number of inputs".into());
    }
    let list = evaluate_query(alloc, &core, &inputs)?;
    numbered(alloc, &list)
}

#[test]
fn watching_queries_emit_what_left_64_bits(rt: HostRuntime) -> Result<(), Fail> {
    for case in CASES {
        let output = emitted(rt.alloc(), case)?;
        assert_eq!(rt; output.as_slice(), case.3, "at {}", case.0);
    }
    Ok(())
}

fn domain_of(alloc: Global, text: &str) -> Result<(i64, i64), Fail> {
    let domain = watching_of(alloc, text)?.domain();
    Ok((domain.start, domain.end))
}

#[test]
fn domains_are_as_wide_as_what_is_read(rt: HostRuntime) -> Result<(), Fail> {
    for (text, _, domain, _) in CASES {
        assert_eq!(rt; domain_of(rt.alloc(), text)?, *domain, "at {text}");
    }
    for (text, domain) in DOMAINS {
        assert_eq!(rt; domain_of(rt.alloc(), text)?, *domain, "at {text}");
    }
    Ok(())
}

// The definition isn't read by the output, and it looks 2,000,000,000,000 ticks back in two steps.
const FAR: &str =
    "input x; let a = x[t-1000000000000]; let b = a[t-1000000000000] + 1; emit x over (0, 5];";

// So does its watch, and the watching query looks too far. The query itself doesn't.
#[test]
fn watches_of_unread_definitions_can_look_too_far(rt: HostRuntime) -> Result<(), Fail> {
    let alloc = rt.alloc();
    let watching = watching_of(alloc, FAR)?;
    let (back, ahead) = (2_000_000_000_000, 0);
    match reach(alloc, &watching) {
        Err(fault) => assert_eq!(rt; fault, ReachFault::TooFar { back, ahead }),
        Ok(_) => return Err("it doesn't look too far".into()),
    }
    Ok(())
}
