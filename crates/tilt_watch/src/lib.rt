//! Watchers of printed snapshots. They are given rows, and each watcher gives a pair of figures. The law is on the trait: `see` makes the
//! pair what the watcher's step makes of it, and says that it is done exactly if that is an end. A `Panel` keeps which watchers of a list
//! are still there, and the last figures of all. So `show` leaves each of them with its step folded over the rows that aren't null, up to
//! the first at which it was done. `put_figures` writes a line for each.
#![tactic(auto)]

mod ends;
mod figures;
mod first_rows;
mod next;
mod panel;
mod place;
mod range;
mod showing;
mod tally;
mod until_above;
mod until_time;
mod watcher;

pub use ends::Ends;
pub use figures::put_figures;
pub use first_rows::FirstRows;
pub use next::Next;
pub use panel::Panel;
pub use range::Range;
pub use showing::{show, show_snap};
pub use tally::Tally;
pub use until_above::UntilAbove;
pub use until_time::UntilTime;
pub use watcher::Watcher;
