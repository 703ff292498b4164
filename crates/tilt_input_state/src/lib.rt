//! What has to be kept of a feed, so that its output can go on in a new process.
//!
//! What is kept is rows of inputs, and nothing that loops have made. So it belongs to the query and not to a plan of the compiler, and each
//! well-formed state is valid. `specs/Resume` says from which tick the output goes on (`resume_tick`), and what is left of a feed then
//! (`left_feed`). Of each input that is its edge, and the closed rows that the rest of the output reads. `InputState` is one input of
//! these, whose rows are in order.
#![tactic(auto)]

mod input_state;

pub use input_state::InputState;
