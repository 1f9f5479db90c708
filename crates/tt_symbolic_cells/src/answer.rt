//! What is known of a number that an instruction computes.

use tt_symbolic_state::cell::{Cell, Range};

/// What is known of a number that an instruction computes.
#[derive(Clone, Copy)]
pub enum Answer {
    /// It is this cell's value.
    Exactly(Cell),
    /// It is a number of this range.
    Within(Range),
}
