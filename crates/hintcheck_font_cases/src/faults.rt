//! The faults of the library's calls, each with its number, as they are printed.

use anyhow::Result;
use hintcheck_certificates::UpgradeFault;
use hintcheck_fonts::{AnswerFault, FontFault};
use std::alloc::Global;
use std::fmt::Display;
use tt_abs::Exhausted;

/// A fault that has a number.
pub(crate) trait Fault: Display {
    /// Returns the number.
    fn number(&self) -> u8;
}

impl Fault for FontFault {
    fn number(&self) -> u8 {
        FontFault::number(self)
    }
}

impl Fault for AnswerFault {
    fn number(&self) -> u8 {
        match self {
            AnswerFault::Font(font) => font.number(),
            AnswerFault::Form(_) => 43,
            AnswerFault::Read => 44,
            AnswerFault::Write | AnswerFault::Print(_) => 45,
            AnswerFault::Exhausted(Exhausted::Memory) => 9,
            AnswerFault::Exhausted(Exhausted::Budget) => 46,
        }
    }
}

impl Fault for UpgradeFault {
    fn number(&self) -> u8 {
        match self {
            UpgradeFault::Form(_) => 43,
            UpgradeFault::Read => 44,
            UpgradeFault::Write => 45,
            UpgradeFault::OutOfMemory(_) => 9,
        }
    }
}

/// Returns the text of a fault, with its number.
pub(crate) fn fault_text<F: Fault>(alloc: Global, fault: &F) -> Result<String> {
    Ok(format!(in alloc; "fault {} {fault}", fault.number())?)
}
