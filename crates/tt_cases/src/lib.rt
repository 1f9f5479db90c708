//! What cases are made of: the notation of their files, how they are run, and the kinds of cases that
//! ask the parts of the checker, below its verdict on a font.
#![tactic(auto)]

mod blocks;
mod builders;
pub mod context;
mod families;
pub mod files;
mod fonts;
pub mod kinds;
mod lengths;
mod listed_states;
mod names;
mod orders;
mod places;
mod programs;
pub mod running;
mod sections;
mod stacks;
mod states;
mod steps;
mod symbolic;
pub mod words;
