use crate::update::Update;

/// An event of a feed.
#[derive(Clone, Copy, Debug, PartialEq, Eq)]
pub enum Event {
    /// An update of an input, which is counted from 0.
    Input { input: u32, update: Update },
    /// Nothing more comes. Each open row ends at its input's watermark.
    Finish,
}
