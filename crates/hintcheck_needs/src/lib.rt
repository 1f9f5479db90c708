//! What a font's hint programs need of the numbers that bound them, as far as verdicts tell: the
//! least number with which a verdict refuses the same programs, at the same places for the same
//! reasons, as with 65,535, while all other numbers are 65,535.
#![tactic(auto)]

mod asked;
mod font_needs;
mod numbers;
mod search;
mod trial;

pub use asked::Asked;
pub use font_needs::{Need, needs_in};
pub use hintcheck_report::Bound;
