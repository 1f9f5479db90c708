//! The texts of reasons as C takes them.

ghost use Rattle.std.specs.Prelude.{◌≡◌};
ghost use Rattle.tt_code.specs.Refusals.{reason_text};
ghost use Rattle.hintcheck_c.specs.ReasonTexts.{c_string};

use tt_code::Reason;

/// How many bytes a text has, with the zeros after it: at least one, which ends it.
pub(crate) const TEXT_SIZE: usize = 24;

/// Returns the text of a reason, and zeros after it.
pub(crate) fn c_string_of(reason: Reason) -> &'static [u8; TEXT_SIZE]
    ensures { result.now ≡ c_string (reason_text reason) }
{
    match reason {
        Reason::CannotCut => b"cannot cut\0\0\0\0\0\0\0\0\0\0\0\0\0\0",
        Reason::Structure => b"structure\0\0\0\0\0\0\0\0\0\0\0\0\0\0\0",
        Reason::ProgramTooLong => b"program too long\0\0\0\0\0\0\0\0",
        Reason::Opcode => b"opcode\0\0\0\0\0\0\0\0\0\0\0\0\0\0\0\0\0\0",
        Reason::InstructionDefinition => b"instruction definition\0\0",
        Reason::Recursion => b"recursion\0\0\0\0\0\0\0\0\0\0\0\0\0\0\0",
        Reason::Underflow => b"underflow\0\0\0\0\0\0\0\0\0\0\0\0\0\0\0",
        Reason::Overflow => b"overflow\0\0\0\0\0\0\0\0\0\0\0\0\0\0\0\0",
        Reason::UnknownOperand => b"unknown operand\0\0\0\0\0\0\0\0\0",
        Reason::Cvt => b"cvt\0\0\0\0\0\0\0\0\0\0\0\0\0\0\0\0\0\0\0\0\0",
        Reason::Storage => b"storage\0\0\0\0\0\0\0\0\0\0\0\0\0\0\0\0\0",
        Reason::Function => b"function\0\0\0\0\0\0\0\0\0\0\0\0\0\0\0\0",
        Reason::Point => b"point\0\0\0\0\0\0\0\0\0\0\0\0\0\0\0\0\0\0\0",
        Reason::Zone => b"zone\0\0\0\0\0\0\0\0\0\0\0\0\0\0\0\0\0\0\0\0",
        Reason::Contour => b"contour\0\0\0\0\0\0\0\0\0\0\0\0\0\0\0\0\0",
        Reason::Target => b"target\0\0\0\0\0\0\0\0\0\0\0\0\0\0\0\0\0\0",
        Reason::Count => b"count\0\0\0\0\0\0\0\0\0\0\0\0\0\0\0\0\0\0\0",
        Reason::Definition => b"definition\0\0\0\0\0\0\0\0\0\0\0\0\0\0",
        Reason::DepthMismatch => b"depth mismatch\0\0\0\0\0\0\0\0\0\0",
        Reason::TooManyContexts => b"too many contexts\0\0\0\0\0\0\0",
        Reason::NeverEnds => b"never ends\0\0\0\0\0\0\0\0\0\0\0\0\0\0",
        Reason::MissingPoint => b"missing point\0\0\0\0\0\0\0\0\0\0\0",
        Reason::NotCovered => b"not covered\0\0\0\0\0\0\0\0\0\0\0\0\0",
        Reason::TooManySteps => b"too many steps\0\0\0\0\0\0\0\0\0\0",
        Reason::KeptEntry => b"kept entry\0\0\0\0\0\0\0\0\0\0\0\0\0\0",
    }
}
