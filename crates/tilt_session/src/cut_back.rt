// Whether a session may end where it is to.
ghost use Rattle.std.specs.Prelude.{◌≡◌, ◌≤ℤ◌, ◌<ℤ◌, None, Some, length, MatchOption, MatchResult};
ghost use Rattle.tilt_checkpoint.specs.Checkpoint.{cuts_kept, cuts_of};
ghost use Rattle.tilt_checkpoint.specs.Cuts.{AreCuts, CutsParts};
ghost use Rattle.tilt_checkpoint.specs.Valid.{IsCheckpoint};
ghost use Rattle.tilt_session.specs.Cuts.{IsOnward, fall_of, first_fall};
ghost use Rattle.tilt_session.specs.declared.cut.Cut.TheVariants.{Upto};

use crate::cut::Cut;
use thiserror::Error;
use tilt_checkpoint::{Checkpoint, Cuts, Kept};

/// The cut of an input is below the checkpoint's cut of it. Both are ticks.
#[derive(Clone, Copy, Debug, Drop, PartialEq, Eq, Error)]
#[error("the cut {new} lies below the cut {old} of the checkpoint")]
pub struct CutBack {
    pub old: i64,
    pub new: i64,
}

/// Whether a session after the checkpoint may end there. `CutBack` comes exactly if it would end by cuts of which one lies below the
/// checkpoint's cut of its input, and reports both cuts of the first such input. For a query without inputs, it comes exactly if the
/// smallest cut does.
pub fn next_cut(checkpoint: &Checkpoint, cut: &Cut) -> Result<(), CutBack>
    requires { (cuts : CutsParts) → cut.now ≡ Upto cuts → length cuts.each ≡ length checkpoint.now.series }
    ensures { MatchResult result (λ _. IsOnward (cuts_of checkpoint.now) cut.now)
        (λ back. (cuts : CutsParts) × (cut.now ≡ Upto cuts) × (first_fall (cuts_of checkpoint.now) cuts ≡ Some (back.old, back.new))) }
{
    let Cut::Upto(cuts) = cut else {
        return Ok(());
    };
    match first_fall(checkpoint, cuts) {
        Some(back) => Err(back),
        None => Ok(()),
    }
}

// The fall of the first input whose cut falls; for a query without inputs, that of the least.
fn first_fall(checkpoint: &Checkpoint, cuts: &Cuts) -> Option<CutBack>
    requires { length cuts.now.each ≡ length checkpoint.now.series }
    ensures fall { MatchOption result (first_fall (cuts_of checkpoint.now) cuts.now ≡ None)
        (λ back. first_fall (cuts_of checkpoint.now) cuts.now ≡ Some (back.old, back.new)) }
    ensures valid { IsCheckpoint checkpoint.now }
    ensures cuts { AreCuts cuts.now }
{
    let series = checkpoint.series();
    if series.is_empty() {
        fall(checkpoint.cut(), cuts.least())
    } else {
        input_fall(series, cuts.each())
    }
}

// The fall of the first input whose new cut lies below the kept one.
fn input_fall(series: &[Kept], cuts: &[i64]) -> Option<CutBack>
    requires { length cuts.now ≡ length series.now }
    ensures { MatchOption result (fall_of (cuts_kept series.now) cuts.now ≡ None)
        (λ back. fall_of (cuts_kept series.now) cuts.now ≡ Some (back.old, back.new)) }
{
    for (i, kept) in series.iter().enumerate() {
        if let Some(back) = fall(kept.cut, cuts[i]) {
            return Some(back);
        }
    }
    None
}

// Both cuts, where the new one lies below the old one.
fn fall(old: i64, new: i64) -> Option<CutBack>
    ensures { MatchOption result (old ≤ℤ new) (λ back. (back.old ≡ old) × (back.new ≡ new) × (new <ℤ old)) }
{
    if new < old {
        Some(CutBack { old, new })
    } else {
        None
    }
}
