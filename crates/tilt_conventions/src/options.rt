/// What the readings of an input mean.
#[derive(Clone, Copy, Debug, PartialEq, Eq)]
pub struct Options {
    pub convention: Convention,
    pub ties: Ties,
}

/// How long a reading's value holds.
#[derive(Clone, Copy, Debug, PartialEq, Eq)]
pub enum Convention {
    /// From its tick until the tick before the next reading's. If there is a maximum age, it holds for that many ticks at most.
    Hold { max_age: Option<u64> },
    /// On its tick alone.
    Event,
}

/// Which of several readings in one tick counts.
#[derive(Clone, Copy, Debug, PartialEq, Eq)]
pub enum Ties {
    /// The first one. The others are skipped.
    First,
    /// The last one. It is handed on when its tick has ended, and the others are skipped.
    Last,
    /// The first one. The others aren't taken.
    Refuse,
    /// Each one. One that isn't after the reading before it moves to the next tick, so they get ticks one after another.
    Spread,
}
