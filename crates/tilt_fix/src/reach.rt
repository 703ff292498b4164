// The ticks of the output that an edit reaches.
ghost use Rattle.std.specs.Prelude.{◌≡◌, ◌<ℤ◌, ◌≤ℤ◌, neg_ℤ, Some};
ghost use Rattle.tilt_base.specs.declared.limits.TheConstants.{REACH, T};
ghost use Rattle.tilt_bounds.specs.Margins.{IsWithin, evenly};
ghost use Rattle.tilt_core.specs.Core.{IsStretch};
ghost use Rattle.tilt_edits.specs.Edited.{end_of, start_of};
ghost use Rattle.tilt_fix.specs.Piece.{first_before};
ghost use Rattle.tilt_fix.specs.Reached.{looking_at, reached};

use tilt_base::Span;
use tilt_bounds::{Need, need_at};
use tilt_compiler::Accepted;
use tilt_edits::Edit;

// The ticks of the output that an edit reaches; none if its input isn't used.
pub(crate) fn reached(accepted: &Accepted, edit: &Edit) -> Option<Span>
    requires low { neg_ℤ T ≤ℤ start_of edit.now }
    requires some { start_of edit.now <ℤ end_of edit.now }
    requires high { end_of edit.now ≤ℤ T }
    ensures { result ≡ reached accepted.now edit.now }
{
    let domain = accepted.domain();
    let need = need_at(accepted.margins().needs(), edit.input() as usize);
    match need {
        Need::Unused => None,
        Need::Used { back, ahead } => looking_at(domain, edit, back, ahead),
    }
}

// Some ticks of a domain, and the tick before them, if it is one of the domain.
pub(crate) fn widened(domain: Span, span: Span) -> Span
    requires low { neg_ℤ T ≤ℤ domain.start }
    requires later { domain.start ≤ℤ span.start }
    ensures start { result.start ≡ first_before domain span }
    ensures end { result.end ≡ span.end }
{
    let Span { start, end } = span;
    Span {
        start: (start - 1).max(domain.start),
        end,
    }
}

// The ticks of a domain that look at those of an edit, and the one after them.
fn looking_at(domain: Span, edit: &Edit, back: i64, ahead: i64) -> Option<Span>
    requires stretch { IsStretch (Some domain) }
    requires near { IsWithin (evenly REACH) (Some (record { back = back; ahead = ahead })) }
    requires low { neg_ℤ T ≤ℤ start_of edit.now }
    requires some { start_of edit.now <ℤ end_of edit.now }
    requires high { end_of edit.now ≤ℤ T }
    ensures { result ≡ looking_at domain (start_of edit.now) (end_of edit.now) (record { back = back; ahead = ahead }) }
{
    let start = domain.start.max(edit.start() - ahead);
    let end = domain.end.min(edit.end() + back + 1);
    if start < end {
        Some(Span { start, end })
    } else {
        None
    }
}
