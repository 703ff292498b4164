//! Sessions: a query is run on its rows part by part, each session after the checkpoint of the one before it.
//!
//! What comes in is a query, or the checkpoint of an earlier session, with the rows of each input up to its cut. What goes out is the
//! snapshots that are printed by then, and a checkpoint. How much of the output is decided depends on the smallest of the cuts, and which
//! rows are to come depends on each input's own. `start` gives what is printed up to its cuts (`printed`), and the checkpoint there
//! (`left`), by `specs/Emitted` and `Kept`. `resume` gives what is printed newly (`newly`), and the next checkpoint (`next`), by
//! `specs/Later`; its clause `law` says that sessions print together what one session prints on all rows (`specs/Law`). Each checkpoint
//! that they leave is valid (`valid`). Both run the query's code only on the ticks that are newly decided. `resume` also runs it on the
//! last one before them, if there is one, so that it meets the snapshot that is open there.
//!
//! `run_cut` takes a query, its rows and cuts, and gives what the sessions of a whole run print, joined; its clause `whole` says that it is
//! what one run gives. From session to session nothing is handed on but the bytes of a checkpoint.
#![tactic(auto)]

mod closing;
mod cut;
mod cut_back;
mod cut_run;
mod first_session;
mod handed;
mod joined;
mod later_session;
mod part;

pub use cut::Cut;
pub use cut_back::{CutBack, next_cut};
pub use cut_run::run_cut;
pub use first_session::start;
pub use later_session::resume;
