//! What is known of a hint machine's state: cells and abstract states, their order, and what an
//! instruction makes of them.
#![tactic(auto)]

mod arithmetic;
mod cell_codes;
pub mod cells;
mod changes;
mod compute;
mod control;
mod entry_order;
pub mod graphics;
mod instruction;
pub mod laws;
pub mod moves;
mod operands;
pub mod order;
mod plain;
mod push;
mod registers;
mod shuffle;
pub mod stack;
pub mod state;
mod successors;

pub use cells::Cell;
pub use instruction::{Stepped, step, step_at};
pub use moves::{Move, Moves};
pub use order::{DepthMismatch, DepthMismatch as AbsFault, Order};
pub use stack::Stack;
pub use state::State;
pub use successors::{Successor, Successors, transfer};
pub use tt_setting::{
    EntryValue, Exhausted, Failed, Kind, Point, Refusal, Register, Role, Setting, SortedMap, Spot,
    StepFault, ZoneCell, exhausted, failed, refusal, setting, sorted_map, spot, step_fault,
};
