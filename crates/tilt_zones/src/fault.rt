use thiserror::Error;

/// Why a local time gives no moment.
#[derive(Clone, Copy, Debug, PartialEq, Eq, Error)]
pub enum LocalFault {
    /// Clocks skip the local time: it is shown at no moment.
    #[error("the clocks of the zone skip this local time")]
    Skipped,
    /// Clocks show the local time at more than one moment, and none of them was chosen.
    #[error("the clocks of the zone show this local time twice")]
    Doubled,
    /// The moment is one at which the table of the zone doesn't say what clocks show.
    #[error("the table of the zone ends before this local time")]
    Beyond,
}

/// Why there is no zone.
#[derive(Clone, Copy, Debug, PartialEq, Eq, Error)]
pub enum ZoneFault {
    /// The bytes aren't a table of a zone.
    #[error("a file of the time zone database was expected")]
    NotZone,
    /// The transitions aren't in order, or clocks would show a local time at more than two moments.
    #[error("the transitions of the zone are not in order")]
    Disordered,
    #[error("out of memory")]
    OutOfMemory,
}
