use crate::key::Key;
use tilt_feed::Update;

/// What a line says of a feed. Times are ticks.
#[derive(Clone, Copy, Debug, PartialEq, Eq)]
pub enum Line {
    /// An update of an input, which is counted from 0 in the order of the names that the reader was given.
    Update { input: u32, update: Update },
    /// Nothing new starts before the watermark at any input.
    AllKnownUpTo { watermark: i64 },
    /// Nothing more comes.
    Finish,
}

/// What a line says of a feed with keys, in which each key has inputs of its own.
#[derive(Debug, Drop)]
pub enum KeyedLine<'a> {
    /// What the line says of the feed of one key.
    OfKey { key: Key<'a>, line: Line },
    /// Nothing new starts before the watermark at any input of any key.
    AllKnownUpTo { watermark: i64 },
}
