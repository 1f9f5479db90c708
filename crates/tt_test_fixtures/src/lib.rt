//! What the cases and the tests of several crates share: fonts made in memory, families of states,
//! readers and writers that pass little at a time, or fail, and a heap that refuses growths.
#![tactic(auto)]

pub mod families;
pub mod fonts;
pub mod heap;
pub mod programs;
pub mod streams;
pub mod trials;
