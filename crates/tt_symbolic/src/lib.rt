//! What an instruction makes of a symbolic state.
#![tactic(auto)]

mod areas;
mod changes;
mod compute;
mod control;
pub mod kept;
mod plain;
mod push;
mod refined;
pub mod step;

pub use kept::{Kept, NOTHING_KEPT, keeps};
