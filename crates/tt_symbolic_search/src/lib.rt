//! The search of the symbolic check: it guides the walks of tt_symbolic_check, by which a program is
//! checked, and proposes the start states of glyph programs. Nobody has to trust it: what it chooses is
//! tested there, so that no contract says how it chooses.
//!
//! A font is judged by one `Search`, which keeps what was learnt from program to program:
//!
//! 1. `check` for the font program; likewise for the CVT program, which starts with the functions on
//!    which all ends of the font program agree.
//! 2. `starts_after` the ends of the CVT program: the starts of the glyph programs. Each end has to
//!    be covered by one of them. What they list is kept: no glyph program may write it.
//! 3. `check` for each glyph program. Where it refuses with `KeptEntry`, the program writes entries
//!    that the starts list; these are left out from then on, so that all glyph programs are taken up
//!    again from new starts.
//!
//! Who explains an answer calls `ask` before `check` and `take_insight` after it. What is answered is
//! the same whether it is asked or not.
#![tactic(auto)]

mod arrival;
mod blame;
mod blending;
mod boxes;
mod cell_names;
mod marks;
mod origin_notes;
mod origins;
mod run;
pub mod search;
mod signature;
mod starts;
mod stepping;
mod thresholds;
mod track;
mod waiting;
mod writes;

pub use search::{Effort, Search, USUAL_SEARCH};
pub use tt_symbolic_check::{Insight, KnownState, Question, RefusedState, SymbolOrigin};
