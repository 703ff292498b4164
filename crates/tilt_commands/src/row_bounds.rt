// Where the rows of a session may start, input by input.
ghost use Rattle.std.specs.Prelude.{◌≡◌, None, IfOk, length, map};
ghost use Rattle.tilt_checkpoint.specs.Cuts.{AreCuts, CutsParts};
ghost use Rattle.tilt_commands.specs.RowBounds.{after_kept, all_after, before_cut, up_to};
ghost use Rattle.tilt_session.specs.Cuts.{IsInRange};
ghost use Rattle.tilt_session.specs.declared.cut.Cut.TheVariants.{Upto};

use std::alloc::{AllocError as OutOfMemory, Global};
use tilt_checkpoint::{Cuts, Kept};
use tilt_series::Bounds;
use tilt_session::Cut;

// Of a first session that ends by cuts.
pub(crate) fn first_bounds(alloc: Global, cuts: &Cuts) -> Result<Vec<Bounds>, OutOfMemory>
    ensures bounds { IfOk result (λ bounds. bounds.items ≡ map before_cut cuts.now.each) }
    ensures range { AreCuts cuts.now }
{
    cuts.each()
        .iter()
        .map(|cut| before_cut(*cut))
        .collect(alloc)
}

// Of a session that goes on after what was kept of each input.
pub(crate) fn later_bounds(
    alloc: Global,
    series: &[Kept],
    cut: &Cut,
) -> Result<Vec<Bounds>, OutOfMemory>
    requires { (cuts : CutsParts) → cut.now ≡ Upto cuts → length cuts.each ≡ length series.now }
    ensures bounds { IfOk result (λ bounds. bounds.items ≡ all_after cut.now series.now) }
    ensures range { IsInRange cut.now }
{
    match cut {
        Cut::Upto(cuts) => bounds_up_to(alloc, series, cuts.each()),
        Cut::End => bounds_to_the_end(alloc, series),
    }
}

// The same, if it ends after the last row.
fn bounds_to_the_end(alloc: Global, series: &[Kept]) -> Result<Vec<Bounds>, OutOfMemory>
    ensures { IfOk result (λ bounds. bounds.items ≡ map (λ k. after_kept k None) series.now) }
{
    series
        .iter()
        .map(|kept| after_kept(kept, None))
        .collect(alloc)
}

// The same, if it ends by cuts.
fn bounds_up_to(alloc: Global, series: &[Kept], cuts: &[i64]) -> Result<Vec<Bounds>, OutOfMemory>
    requires { length cuts.now ≡ length series.now }
    ensures { IfOk result (λ bounds. bounds.items ≡ up_to series.now cuts.now) }
{
    let mut bounds = Vec::new(alloc);
    for (i, kept) in series.iter().enumerate() {
        bounds.push(after_kept(kept, Some(cuts[i])))?;
    }
    Ok(bounds)
}

// Below a cut.
fn before_cut(cut: i64) -> Bounds
    ensures { result ≡ before_cut cut }
{
    Bounds {
        last_end: None,
        from: None,
        upto: Some(cut),
    }
}

// From the old cut and the last end on, and below the new cut if there is one.
fn after_kept(kept: &Kept, upto: Option<i64>) -> Bounds
    ensures { result ≡ after_kept kept.now upto }
{
    Bounds {
        last_end: kept.last_end,
        from: Some(kept.cut),
        upto,
    }
}
