//! The scales of a query's inputs: what the numbers of each input are multiplied by to be whole.
//!
//! `Scales` has the scales of inputs by name, and one scale for all other inputs. `scale_named` of `specs/Scales` says which scale the
//! input with a name has. The clause `scale` of `Scales::find` says that this one is found.
#![tactic(auto)]

mod input_scale;
mod scales;

pub use input_scale::InputScale;
pub use scales::Scales;
