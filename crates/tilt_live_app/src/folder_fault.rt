// The lines that report faults of folders. None takes memory.
ghost use Rattle.std.specs.Prelude.{◌≡◌, ◌++◌, ℕ, codes};
ghost use Rattle.tilt_live_app.specs.FolderReport.{front_of};
ghost use Rattle.tilt_outside.specs.Written.{Puts};

use crate::folder_end::FolderFault;
use crate::named_line::put_line;
use tilt_outside::{Failed, Sink};

// Writes the line that reports the fault of the folder of that name.
pub(crate) fn put_fault<E: Sink>(err: &mut E, name: &str, fault: FolderFault) -> Result<(), Failed>
    requires { (n : ℕ) → E.takes err.old n }
    ensures { Puts E.tells E.written E.faults E.takes err.old err.new (front_of fault ++ (name.now ++ codes "\n")) result }
{
    put_line(err, front_of(fault), name.as_bytes())
}

// The number and the words of a fault.
fn front_of(fault: FolderFault) -> &'static [u8]
    ensures { result.now ≡ front_of fault }
{
    match fault {
        FolderFault::InUse => b"tilt: 60 folder in use: ",
        FolderFault::NoState => b"tilt: 61 output without state: ",
        FolderFault::CutOutput => b"tilt: 62 output too short: ",
        FolderFault::Gap => b"tilt: 63 feed starts too late: ",
        FolderFault::ShortFeed => b"tilt: 64 feed ends too early: ",
        FolderFault::TooLong => b"tilt: 65 feed too long: ",
        FolderFault::ChangedFeed => b"tilt: 68 feed has changed: ",
    }
}
