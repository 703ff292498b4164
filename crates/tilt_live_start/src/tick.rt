// From which tick the output goes on.
ghost use Rattle.std.specs.Prelude.{◌≡◌, ◌≤ℤ◌};
ghost use Rattle.tilt_checkpoint.specs.Cuts.{IsCut};
ghost use Rattle.tilt_checkpoint.specs.Decided.{IsFrame};
ghost use Rattle.tilt_live_start.specs.Seen.{tick_from};

use tilt_checkpoint::Frame;

// The tick after which the output goes on from a checkpoint with this least cut.
pub(crate) fn tick_from(frame: Frame, cut: i64) -> i64
    requires frame { IsFrame frame }
    requires cut { IsCut cut }
    ensures value { result ≡ tick_from frame cut }
    ensures low { frame.start ≤ℤ result }
    ensures high { result ≤ℤ frame.end }
{
    let decided = frame.decided(cut);
    if decided < frame.end {
        frame.start.max(decided - 1)
    } else {
        frame.end
    }
}
