//! Symbolic states: what is known of a hint machine's state up to symbols, each of which is any
//! number of its range.
#![tactic(auto)]

pub mod cell;
pub mod stack;
pub mod state;

pub use cell::{Cell, Range};
pub use stack::Stack;
pub use state::{OpenCall, State, Zone};
