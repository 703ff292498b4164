// Needs before it is known that they are within the limit.
ghost use Rattle.std.specs.Prelude.{◌≡◌};
ghost use Rattle.tilt_core.specs.Needs.{no_margin, wider};

use std::marker::Model;

/// How far back and how far ahead a source is read, in ticks. 128 bits hold what the definitions of a query add up to,
/// since each offset has 64 bits.
#[derive(Clone, Copy)]
pub struct WideNeed {
    pub back: i128,
    pub ahead: i128,
}

impl Model for WideNeed {
    ghost use Rattle.tilt_core.specs.Needs.{Need};

    ghost Value = { Need };

    ghost view = { λ n. record { back = n.back; ahead = n.ahead } };

    ghost inverse = { λ n. record { back = n.back; ahead = n.ahead } };
}

/// Nothing but the tick itself.
pub fn no_margin() -> WideNeed
    ensures { result ≡ no_margin }
{
    WideNeed { back: 0, ahead: 0 }
}

/// The larger of two needs, part by part.
pub fn wider(m: WideNeed, n: WideNeed) -> WideNeed
    ensures { result ≡ wider m n }
{
    WideNeed {
        back: m.back.max(n.back),
        ahead: m.ahead.max(n.ahead),
    }
}
