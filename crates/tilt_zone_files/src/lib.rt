//! Files of zones: the table of a zone by its name, from the folder of the time zone database.
//!
//! What comes in is a shelf of files and the name of a zone, such as `Europe/Berlin` (`load_zone`). What goes out is the table that the
//! zone's file has, or why it has none. `specs/ZoneFile` says which file that is, and when bytes are a table of a zone or none.
#![tactic(auto)]

mod fault;
mod zone_file;

pub use fault::ZoneFileFault;
pub use zone_file::load_zone;
