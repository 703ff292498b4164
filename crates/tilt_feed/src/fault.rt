use thiserror::Error;

/// The first rule that an event breaks.
#[derive(Clone, Copy, Debug, PartialEq, Eq, Error)]
pub enum EventFault {
    /// The feed is finished.
    #[error("the feed is finished")]
    Finished,
    /// A time isn't in `-T..=T`.
    #[error("a time is out of range")]
    OutOfRange,
    /// It starts before the watermark of its input; or it says where the open row ends, and that is before the watermark.
    #[error("it is before the watermark")]
    Late,
    /// It has no tick: its start isn't before its end. A value whose end isn't known ends at `T` at the latest.
    #[error("its start isn't before its end")]
    NoTick,
}
