use tilt_base::{Op1, Op2, Reducer};

/// What a loop computes: an expression over the buffers of sources, the inputs in order from 0 on, then the definitions in order.
/// `Argument` occurs only in the maps of windows, and a map has neither `Port` nor `Win`.
#[derive(Debug, Drop)]
pub enum Fused {
    /// A number, at every tick.
    Const(i64),
    /// The source as it is `offset` ticks later, or earlier if that is negative.
    Port {
        source: u32,
        offset: i64,
    },
    /// What the reducer gives on the window of the ticks `t+from+1` to `t+to` of the source, each of its cells taken by the map, if there
    /// is one.
    Win {
        reducer: Reducer,
        source: u32,
        from: i64,
        to: i64,
        map: Option<Box<Fused>>,
    },
    /// The cell that a map is run on.
    Argument,
    /// An operator on one expression.
    One(Op1, Box<Fused>),
    /// An operator on two expressions.
    Two(Op2, Box<Fused>, Box<Fused>),
    /// `if` the first `then` the second `else` the third.
    If(Box<Fused>, Box<Fused>, Box<Fused>),
}
