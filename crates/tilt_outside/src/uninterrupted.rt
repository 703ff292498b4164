// Calls of the system that a signal interrupts.
use std::io::{self, ErrorKind};

/// How often a call is retried at most, so that one that is interrupted each time ends too.
pub(crate) const TRIES: u32 = 1_000_000;

/// Makes the call, and retries it if it was interrupted.
pub(crate) fn again<T, F: FnMut() -> io::Result<T>>(mut call: F) -> io::Result<T>
    requires { F.IsAlwaysCallable call }
{
    for _ in 0..TRIES {
        match call() {
            Err(error) if error.kind() == ErrorKind::Interrupted => {}
            answer => return answer,
        }
    }
    Err(io::Error::from(ErrorKind::Interrupted))
}
