ghost use Rattle.std.specs.Prelude.{◌≡◌};

use std::alloc::AllocError;
use thiserror::Error;

/// Why the file of a zone gives no table.
#[derive(Clone, Copy, Debug, PartialEq, Eq, Error)]
pub enum ZoneFileFault {
    /// Its bytes aren't a table of a zone.
    #[error("a file of the time zone database was expected")]
    NoTable,
    /// A read failed. The shelf's count of read faults rose.
    #[error("the file of the zone could not be read")]
    ReadFault,
    /// Memory ran out.
    #[error("out of memory")]
    OutOfMemory,
}

impl From<AllocError> for ZoneFileFault {
    ghost use Rattle.tilt_zone_files.specs.declared.fault.ZoneFileFault.TheVariants.{OutOfMemory};

    ghost from_gives = { λ _ fault. fault ≡ OutOfMemory };

    fn from(_: AllocError) -> Self {
        ZoneFileFault::OutOfMemory
    }
}
