use tilt_keyed_line::KeyFault;

/// Why a line of a feed with keys is bad.
#[derive(Clone, Copy, Debug, PartialEq, Eq)]
pub enum BadKeyedLine<B> {
    /// It has no key.
    NoKey { why: KeyFault },
    /// It has a key, and is bad for the run of the key. If it is a line of every key, this is so of the first run for which it is bad.
    OfKey { why: B },
}
