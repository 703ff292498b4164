use tilt_base::{Op1, Op2, Reducer};

/// One instruction of a block. It fills the register of its own number in the block; the registers that it names are
/// earlier ones.
#[derive(Clone, Copy, Debug, PartialEq, Eq)]
pub enum Instr {
    /// A number.
    Const(i64),
    /// Null.
    Null,
    /// The cell that a map is run on. It occurs only in maps.
    Argument,
    /// The cell of a buffer, `offset` ticks later, or earlier if that is negative.
    Port {
        buffer: u32,
        offset: i64,
    },
    /// What a reducer gives on the snapshots of a buffer that meet the ticks from `from + 1` to `to` ticks later. Each snapshot counts by
    /// the result of a map on its cell, or by its cell if there is no map.
    Win {
        reducer: Reducer,
        buffer: u32,
        from: i64,
        to: i64,
        map: Option<u32>,
    },
    /// An operator on one register.
    One(Op1, u32),
    /// An operator on two registers.
    Two(Op2, u32, u32),
    /// `if` the first register `then` the second `else` the third.
    If(u32, u32, u32),
}
