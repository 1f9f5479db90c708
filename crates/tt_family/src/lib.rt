//! Families of abstract states by context and offset: their builder, the finished certificate, and
//! the check of it.
#![tactic(auto)]

pub mod builder;
pub mod certificate;
pub mod checker;
mod cursor;
mod finish;
pub mod joined;
mod landing;
pub mod listing;
mod meeting;
mod offset_list;
mod slot_index;
mod state_store;
pub mod states;

pub use builder::Builder;
pub use certificate::Certificate;
pub use checker::{check, check_full, check_listing, ends_well, is_short, one_good_filling};
pub use joined::Joined;
pub use landing::{Landing, landing_of};
pub use listing::{Listing, added_after};
pub use slot_index::PointKey;
pub use states::States;
pub use tt_setting::{Budget, Refusal, Refusal as CheckFault, Spot, StepFault, budget};
