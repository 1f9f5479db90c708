//! Where and why a program is refused, as it is reported and printed; why there is no answer on a
//! font; and the numbers of a font that bound what its programs may use.
#![tactic(auto)]

mod answer_fault;
pub mod bound;
mod reason_number;
pub mod refused;

pub use answer_fault::AnswerFault;
pub use bound::Bound;
pub use reason_number::reason_of;
pub use refused::{Place, Refused, program_at};
pub use tt_setting::Name;
