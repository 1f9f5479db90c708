//! The calls on a font's certificate: a font is checked by it, it is found and written, or written
//! again in the newest form, and a session takes the programs one by one.
#![tactic(auto)]

pub mod certificate;
pub mod certificate_upgrade;
pub mod font_check;
mod section_check;
mod sections;
pub mod session;

pub use certificate::{FindFontFault, find_font, find_font_within};
pub use certificate_upgrade::{UpgradeFault, upgrade};
pub use font_check::{CheckFontFault, check_font, check_font_within};
pub use hintcheck_programs::Outcome;
pub use session::Session;
