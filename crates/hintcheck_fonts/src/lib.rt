//! The verdict on a font by either profile or by both, and on one glyph program by itself: that by
//! symbolic states is made here.
#![tactic(auto)]

mod bare_request;
mod ends;
mod glyph_starts;
pub mod laws;
pub mod request;
pub mod symbolic_bare;
pub mod symbolic_check;
pub mod symbolic_verdict;

pub use bare_request::bare_by_both;
pub use hintcheck_programs::{
    AnswerFault, Budget, FontFault, Name, Place, Refused, Verdict, bare, bare_within, read_font,
    verdict, verdict_within,
};
pub use request::{Judged, Request, accepted_within, verdict_by, verdict_by_both};
pub use symbolic_bare::{bare_symbolic, bare_symbolic_within};
pub use symbolic_check::SymbolicCheck;
pub use symbolic_verdict::{verdict_symbolic, verdict_symbolic_by, verdict_symbolic_within};
