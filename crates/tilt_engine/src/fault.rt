use std::alloc::AllocError;
use thiserror::Error;
use tilt_feed::EventFault;

/// Why an engine didn't take an event.
#[derive(Clone, Copy, Debug, PartialEq, Eq, Error)]
pub enum TakeError {
    /// The event isn't allowed: the first rule that it breaks.
    #[error("{0}")]
    Fault(EventFault),
    /// Memory ran out.
    #[error("out of memory")]
    OutOfMemory,
}
