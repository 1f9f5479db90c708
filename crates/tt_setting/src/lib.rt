//! What both profiles say of a font's programs: their names, the settings in which they run and the
//! places in them, why one is refused, sorted maps of functions and of memory, and what ends work
//! without an answer.
#![tactic(auto)]

pub mod budget;
pub mod cert_fault;
pub mod exhausted;
pub mod failed;
pub mod name;
pub mod refusal;
pub mod setting;
pub mod sorted_map;
pub mod spot;
pub mod step_fault;
pub mod zone;

pub use budget::Budget;
pub use cert_fault::CertFault;
pub use exhausted::Exhausted;
pub use failed::{Failed, Register, Role};
pub use name::Name;
pub use refusal::Refusal;
pub use setting::{Kind, Point, Setting};
pub use sorted_map::{EntryValue, SortedMap};
pub use spot::Spot;
pub use step_fault::StepFault;
pub use zone::ZoneCell;
