//! A font's hint programs one after another, whatever judges them, and the verdict on them by the
//! strict profile.
#![tactic(auto)]

pub mod bare_program;
pub mod finding;
pub mod font;
pub mod judge;
pub mod program;
pub mod programs;
pub mod report;

pub use bare_program::{bare, bare_within};
pub use font::{read_font, verdict, verdict_within};
pub use hintcheck_report::AnswerFault;
pub use report::{Name, Outcome, Place, Refused, Verdict};
pub use tt_family::Budget;
pub use tt_font::FontFault;
