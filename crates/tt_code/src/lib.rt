//! The instruction set of TrueType hint programs as data, programs cut into instructions, and the
//! hint machine's definitions (Apple TrueType Reference Manual, "Instructions", "The TrueType
//! interpreter", "The TrueType instruction set"; OpenType specification, `maxp`).
#![tactic(auto)]

pub mod block_keyword;
pub mod fault;
pub mod instr;
mod instruction_length;
pub mod kinds;
pub mod laws;
pub mod limits;
pub mod machine;
mod nest;
pub mod program;
mod reading;
pub mod reason;
mod slot;
pub mod table;

pub use fault::CodeFault;
pub use instr::Instr;
pub use instruction_length::first_uncut;
pub use kinds::{Effect, Refinement, Written};
pub use limits::Limits;
pub use machine::{Body, Frame, Graphics};
pub use program::Program;
pub use reason::{Reason, ReasonClass};
pub use table::{effect, entry, keyword_of_code, name, refinement, written};
