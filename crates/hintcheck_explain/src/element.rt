//! The numbers that an instruction's tests read, by where they are kept.

use std::fmt;
use tt_setting::{Failed, Register};

/// Where a number is kept that a test of an instruction reads.
#[derive(Clone, Copy, PartialEq, Eq)]
pub(crate) enum Element {
    /// On the stack, above this many others.
    Stack(usize),
    /// In the graphics state.
    Register(Register),
    /// In the storage cell with this index.
    Storage(u16),
}

impl Element {
    /// Returns the number under this many others, on a stack of this depth.
    pub(crate) fn under(depth: usize, taken: usize) -> Option<Element> {
        Some(Element::Stack(depth.checked_sub(1)?.checked_sub(taken)?))
    }

    /// Returns where the number is kept that has to be known where this test fails, if that is why
    /// it fails. The stack has this depth.
    pub(crate) fn unknown(failed: Failed, depth: usize) -> Option<Element> {
        match failed {
            Failed::Unknown { under, .. } | Failed::MayBeOutside { under, .. } => {
                Element::under(depth, usize::try_from(under).ok()?)
            }
            Failed::UnknownIn(register) | Failed::MayBeOutsideIn { register, .. } => {
                Some(Element::Register(register))
            }
            _ => None,
        }
    }
}

impl fmt::Display for Element {
    fn fmt<W: fmt::Write>(&self, f: &mut fmt::Formatter<W>) -> fmt::Result {
        match *self {
            Element::Stack(_) => f.write_str("the number on the stack"),
            Element::Register(Register::Rp0) => f.write_str("the number in rp0"),
            Element::Register(Register::Rp1) => f.write_str("the number in rp1"),
            Element::Register(Register::Rp2) => f.write_str("the number in rp2"),
            Element::Register(Register::Loop) => f.write_str("the loop number"),
            Element::Storage(index) => write!(f, "the number in storage cell {index}"),
        }
    }
}
