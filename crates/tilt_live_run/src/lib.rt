//! The run of a query on the text of a live feed, piece by piece.
//!
//! What comes in is bytes of the feed, in pieces of any size. Its lines are rows or readings: `tilt_feed_form` makes events of either. What
//! goes out is what each line makes final, written to a port at once, and reports of bad lines. `IsRunOf run accepted bytes` of
//! `specs/Runs` says that `run` is the run of a query after these bytes. The clauses of `LiveRun::take` say that after a piece it is the
//! run after the bytes with the piece (`goes_on`). They also say that exactly what the lines of the piece add was written (`adds`, by
//! `specs/Output`), and that exactly the bad ones of them were reported (`reports`). So it doesn't matter how the feed was cut into pieces.
//!
//! A run that keeps what its state needs hands it on by `LiveRun::state`: exactly what `specs/Left` says of the bytes of
//! its lines. The clauses of `LiveRun::resume` say that it makes of that state the run after these bytes, which goes on as the other would
//! have.
//!
//! `BareRun` is a run over single lines, for feeds whose lines come with a key. It writes the same without the header, and returns why a
//! line is bad.
#![tactic(auto)]

mod bare_run;
mod display;
mod events;
mod inputs;
mod keep;
mod law;
mod left;
mod line_run;
mod live_run;
mod place;
mod query_feed;
mod run_options;
mod shown;
mod state_rows;
mod stop;
mod until_line;

pub use bare_run::BareRun;
pub use display::Display;
pub use keep::Keep;
pub use law::output_is_printed;
pub use live_run::LiveRun;
pub use run_options::RunOptions;
pub use stop::Stop;
