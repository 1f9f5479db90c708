//! The least family of abstract states that is good for a program.
#![tactic(auto)]

mod approach;
mod carry;
pub mod finder;
mod marks;
mod solver;
mod stop;
mod successor;
mod walk;
mod worklist;

pub use finder::{Explored, Finder, Found, ListedStates, explore, find};
pub use tt_setting::{Refusal, Spot};
