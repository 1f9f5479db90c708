//! The check of a program by a walk of symbolic states.
#![tactic(auto)]

mod checking;
mod copying;
mod covering;
mod guide;
mod insight;
pub mod laws;
mod pool;
mod site;
mod splits;
mod start;
mod walk;

pub use checking::check;
pub use copying::{Split, copied, copy_into, lower, raise};
pub use covering::{covers, covers_both, covers_by, has_functions, listed_near};
pub use guide::{Guide, Move};
pub use insight::{Insight, KnownState, Question, RefusedState, SymbolOrigin};
pub use pool::Pool;
pub use site::{START, Site, too_many_steps};
pub use splits::{Decision, decision_of, wanted};
pub use start::{Start, start_state};
pub use walk::{Pending, Walk, is_at_end};
