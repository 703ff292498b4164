// A moment at which more was read.

/// How many bytes had been read and written before more was read, and how many of those written were held back.
#[derive(Clone, Copy, Debug, PartialEq, Eq)]
pub struct Asked {
    pub read: usize,
    pub written: usize,
    pub held_back: usize,
}
