ghost use Rattle.std.specs.Prelude.{◌≡◌, Ok};
ghost use Rattle.tilt_bounds.specs.Margins.{margins_of};
ghost use Rattle.tilt_checkpoint.specs.Cuts.{IsCut};
ghost use Rattle.tilt_checkpoint.specs.Decided.{IsFrame, decided, first_kept, frame_of};

use tilt_bounds::Margins;
use tilt_core::Core;

/// What the sessions of a query go by: its output domain `(start, end]`, and its look-back and look-ahead, all in ticks.
#[derive(Clone, Copy, Debug, PartialEq, Eq)]
pub struct Frame {
    pub start: i64,
    pub end: i64,
    /// The look-back.
    pub back: i64,
    /// The look-ahead.
    pub ahead: i64,
}

impl Frame {
    /// The frame of a core with its margins.
    pub fn new(core: &Core, reach: &Margins) -> Frame
        requires { margins_of core.now ≡ Ok reach.now }
        ensures frame { result ≡ frame_of core.now }
        ensures bounds { IsFrame result }
    {
        let domain = core.domain();
        Frame {
            start: domain.start,
            end: domain.end,
            back: reach.back(),
            ahead: reach.ahead(),
        }
    }

    /// The last tick of the output that no row starting at the cut or after it can change, and at most the end of the output. If inputs
    /// have cuts of their own, the least of them counts. It may lie below the start.
    pub fn decided(&self, cut: i64) -> i64
        requires frame { IsFrame self.now }
        requires cut { IsCut cut }
        ensures { result ≡ decided self.now cut }
    {
        self.end.min(cut - self.ahead)
    }

    /// The first tick that sessions after the cut may read: they go on at the tick that is decided last.
    pub fn first_kept(&self, cut: i64) -> i64
        requires frame { IsFrame self.now }
        requires cut { IsCut cut }
        ensures { result ≡ first_kept self.now cut }
    {
        self.decided(cut).max(self.start + 1) - self.back
    }
}
