use crate::instr::Instr;
use std::marker::Model;
use tilt_base::Grid;

/// A loop, which fills one buffer on a stretch of time. A clause sees it as plain data.
#[derive(Debug, Drop)]
pub struct Loop {
    /// The tick before the first of the stretch.
    pub lo: i64,
    /// The last tick of the stretch.
    pub hi: i64,
    /// The grid on which the body is taken. Period 1 takes it at each tick.
    pub grid: Grid,
    /// The maps of the windows of the body, each a block.
    pub maps: Vec<Vec<Instr>>,
    /// The block whose last register is the loop's value.
    pub body: Vec<Instr>,
}

impl Model for Loop {
    ghost use Rattle.std.specs.Prelude.{map};
    ghost use Rattle.tilt_code.specs.Code.{LoopParts, coded_loop};

    ghost Value = { LoopParts };

    ghost coded = { coded_loop };

    ghost view = { λ l. record { lo = l.lo; hi = l.hi; grid = l.grid; maps = map (λ m. m.items) l.maps.items; body = l.body.items } };
}
