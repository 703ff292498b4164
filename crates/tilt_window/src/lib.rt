//! Reducers, and windows over snapshots. The reducers take numbers one by one, and the law is on their trait. If a state holds
//! a list (`Holds`), `finish` returns what the reducer is defined to give on that list. `empty` holds the empty list, and `add`
//! makes the list one number longer. Some reducers can also take the first number back (`Undo`), and each can join two states
//! (`Merge`). What comes into a window is cells, one after another, and the first of them goes again. What goes out is the
//! reducer's result on those that are there and aren't null. The clause of `result` on the trait says which result it is, and
//! the kinds of windows differ in how many steps it takes. No code but tests makes a `Refold`, with which the others are compared.
#![tactic(auto)]

mod count;
mod end;
mod extreme;
mod merge;
mod reduction;
mod refold;
mod state;
mod sum;
mod truth;
mod turn;
mod two_stack;
mod undo;
mod undoing;
mod window;

pub use count::CountR;
pub use end::{FirstR, LastR};
pub use extreme::{MaxR, MinR};
pub use merge::Merge;
pub use reduction::Reduction;
pub use refold::Refold;
pub use sum::{AvgR, SumR};
pub use truth::{AllR, AnyR};
pub use two_stack::TwoStack;
pub use undo::Undo;
pub use undoing::Undoing;
pub use window::Window;
