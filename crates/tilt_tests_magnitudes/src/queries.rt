// The intervals of queries, or their first overflow.
use crate::cases::{CASES, Case, RATED};
use std::alloc::Global;
use std::test::Fail;
use tilt_magnitudes::{Interval, MagnitudeFault, Rate, magnitudes};
use tilt_testing::core_of;

fn intervals_of(alloc: Global, ends: &[(i64, i64)]) -> Result<Vec<Interval>, Fail> {
    let mut intervals = Vec::new(alloc);
    for (low, high) in ends {
        intervals.push(Interval {
            low: *low,
            high: *high,
        })?;
    }
    Ok(intervals)
}

// The ends of intervals, with a space between two of them.
fn shown_all(alloc: Global, intervals: &[Interval]) -> Result<String, Fail> {
    let mut shown = String::new(alloc);
    for interval in intervals {
        let space = if shown.is_empty() { "" } else { " " };
        let one = format!(in alloc; "{space}{}..{}", interval.low, interval.high)?;
        shown.push_str(one.as_str())?;
    }
    Ok(shown)
}

// The intervals of the sources; or the definition and the node that can overflow, and its interval.
fn shown(alloc: Global, rates: &[Rate], case: &Case) -> Result<String, Fail> {
    let (ends, text, _) = case;
    let inputs = intervals_of(alloc, ends)?;
    let core = core_of(alloc, text)?;
    match magnitudes(alloc, &inputs, rates, &core) {
        Ok(all) => shown_all(alloc, &all),
        Err(MagnitudeFault::CanOverflow(overflow)) => {
            let place = overflow.place;
            let bounds = overflow.bounds;
            Ok(format!(in alloc;
                "{}.{}: {}..{}",
                place.definition, place.node, bounds.low, bounds.high
            )?)
        }
        Err(fault) => Ok(format!(in alloc; "{fault:?}")?),
    }
}

fn rates_of(alloc: Global, pairs: &[(u64, u64)]) -> Result<Vec<Rate>, Fail> {
    let mut rates = Vec::new(alloc);
    for (marks, ticks) in pairs {
        rates.push(Rate {
            marks: *marks,
            ticks: *ticks,
        })?;
    }
    Ok(rates)
}

#[test]
fn queries_have_these_bounds(rt: HostRuntime) -> Result<(), Fail> {
    let alloc = rt.alloc();
    let rates = rates_of(alloc, &[(0, 0), (0, 0)])?;
    for case in CASES {
        let inputs = case.0.len();
        let rates = rates.get(..inputs).ok_or("too many inputs")?;
        let shown = shown(alloc, rates, case)?;
        assert_eq!(rt; shown.as_str(), case.2);
    }
    Ok(())
}

#[test]
fn windows_meet_few_snapshots(rt: HostRuntime) -> Result<(), Fail> {
    let alloc = rt.alloc();
    for (pairs, case) in RATED {
        let rates = rates_of(alloc, pairs)?;
        let shown = shown(alloc, &rates, case)?;
        assert_eq!(rt; shown.as_str(), case.2);
    }
    Ok(())
}
