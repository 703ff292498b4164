// Where a feed is, counted in bytes.
ghost use Rattle.std.specs.Prelude.{◌≡◌, ◌+◌};
ghost use Rattle.tilt_live_run.specs.Places.{passed, passed_line};
ghost use Rattle.tilt_outside.specs.Counts.{added_count};

// How many bytes of a feed were taken, as far as counts go.
#[derive(Clone, Copy, Debug, PartialEq, Eq)]
pub(crate) struct Place {
    // Those up to the last LF, with it.
    pub(crate) ended: u64,
    // Those after it.
    pub(crate) unended: u64,
}

impl Place {
    // The place after so many bytes more, of which none is an LF.
    pub(crate) fn pass(self, bytes: usize) -> Place
        ensures { result ≡ passed self bytes }
    {
        Place {
            ended: self.ended,
            unended: self.unended.saturating_add(bytes as u64),
        }
    }

    // The place after an LF behind them.
    pub(crate) fn pass_line(self, bytes: usize) -> Place
        ensures { result ≡ passed_line self bytes }
    {
        Place {
            ended: count_line(self.ended, self.unended, bytes),
            unended: 0,
        }
    }
}

// A count of bytes with those of a line, which come in two parts, and its LF.
fn count_line(before: u64, front: u64, back: usize) -> u64
    ensures { result ≡ added_count before (front + back + 1) }
{
    before
        .saturating_add(front)
        .saturating_add(back as u64)
        .saturating_add(1)
}
