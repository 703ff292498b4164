//! Many runs in one feed with keys, one for each key.
//!
//! What comes in is the lines of a feed with keys, one after another. What goes out is what the run of each key writes for its own lines,
//! with the key before each line, and why a line is bad if it is. `KeyRun` is the trait of what is run.
//!
//! `IsKeyedRunOf` of `specs/Runs` says that a `KeyedRun` is the one after lines of a feed. It has the keys of these lines, in the order of
//! their first lines, and of each key a run after exactly its lines. The clauses of `KeyedRun::take` say that a line more keeps this, that
//! exactly what `specs/Output` says was written, and exactly which lines are bad. The clause of `keys_run_apart` is the law that each key
//! has the output that its run alone would have.
//!
//! If the runs of keys meet `KeptRun`, `KeyedRun::put_state` appends the state of all keys. `KeyedRun::resume` gives the runs that go on
//! from it. Its clause `is` says that they are those after the same lines.
#![tactic(auto)]

mod bad_keyed_line;
mod halt;
mod kept_keys;
mod kept_run;
mod key_index;
mod key_run;
mod keyed_rejection;
mod keyed_run;
mod law;
mod one_key;
mod resumed_keys;

pub use bad_keyed_line::BadKeyedLine;
pub use halt::Halt;
pub use kept_run::KeptRun;
pub use key_run::KeyRun;
pub use keyed_rejection::KeyedRejection;
pub use keyed_run::KeyedRun;
pub use law::keys_run_apart;
