//! Certificate files: the text of a font's certificate, written to and read from streams.
#![tactic(auto)]

mod contexts;
mod form;
mod header;
mod laws;
mod lists;
mod reading;
mod shared_cells;
mod stack_text;
mod states;
mod units;
mod writing;

pub use form::{Form, NEWEST_FORM};
pub use header::{read_end, read_form, read_header, write_header};
pub use laws::{no_section_begins_another, one_family_of_a_text, one_text_of_a_family};
pub use reading::{Decoder, decode};
pub use tt_family::{Builder, Certificate, CheckFault, check, check_full};
pub use tt_setting::{CertFault, Name, Spot};
pub use tt_stream::{Counted, Sink, Source};
pub use writing::{Encoder, encode};
