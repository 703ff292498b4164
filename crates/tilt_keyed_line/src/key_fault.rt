use thiserror::Error;

/// Why a line of a feed with keys has no key.
#[derive(Clone, Copy, Debug, PartialEq, Eq, Error)]
pub enum KeyFault {
    /// The line has no comma.
    #[error("no key")]
    NoKey,
    /// The bytes before the first comma have a quote, an LF or a CR.
    #[error("bad key")]
    BadKey,
}
