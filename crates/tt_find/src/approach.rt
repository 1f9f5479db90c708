//! Where a state comes from when it comes to a point.

/// Where a state comes from when it comes to a point.
#[derive(Clone, Copy)]
pub(crate) enum Approach {
    /// From the instruction that ends there, in the same body and the same calls.
    JustBefore,
    /// In any other way: by a jump, a call, a return or the next turn of a call, past a skipped
    /// branch or a function's definition, or to where the program starts or ends.
    Elsewhere,
}
