ghost use Rattle.std.specs.Prelude.{◌≡◌, map};
ghost use Rattle.tilt_bounds.specs.Margins.{need_at, need_of};

/// How far back and ahead a source is read.
#[derive(Clone, Copy, Debug, PartialEq, Eq)]
pub enum Need {
    /// The emitted definition doesn't reach it.
    Unused,
    /// For the output up to a tick, it is read from `back` ticks back to `ahead` ticks ahead.
    Used { back: i64, ahead: i64 },
}

/// The need of the source with a number, counted from 0; a source that doesn't exist isn't used.
pub fn need_at(needs: &[Need], source: usize) -> Need
    ensures { need_of result ≡ need_at (map need_of needs.now) source }
{
    match needs.get(source) {
        Some(need) => *need,
        None => Need::Unused,
    }
}
