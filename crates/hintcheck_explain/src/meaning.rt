//! What a reason tells the font's maker: its class, and what to do.

use std::fmt;
use tt_code::{Reason, ReasonClass};
use tt_setting::Failed;

/// What to do about a number of which the symbolic profile knows a range that is too wide.
pub(crate) const ADVICE_ON_RANGE: &str = "where the program is right, bring the number into its \
    range before it is used: by MIN and MAX, or by comparisons with its bounds, on every way that \
    comes here.";

/// Returns the class of the reason for which a program is refused where this test fails. For
/// `Function` the case tells whether the function's number is out of range, which is a possible fault,
/// or the function isn't known to be defined.
pub(crate) fn class_of(failed: Failed) -> ReasonClass {
    match failed {
        Failed::NoFunction { .. } => ReasonClass::PossibleFault,
        _ => failed.reason().class(),
    }
}

/// Returns the class of a reason in words.
pub(crate) fn class_text(reason: Reason, class: ReasonClass) -> &'static str {
    match (class, reason) {
        (ReasonClass::PossibleFault, Reason::CannotCut | Reason::Structure) => {
            "a possible fault: the bytes can't be read as a program, so its runs aren't followed."
        }
        (ReasonClass::PossibleFault, Reason::ProgramTooLong) => {
            "a possible fault: the font promises that no glyph program has more bytes."
        }
        (ReasonClass::PossibleFault, _) => {
            "a possible fault: what is known here doesn't rule it out, so a run may reach it."
        }
        (ReasonClass::Undecided, _) => {
            "undecided, a limit of the analysis: no fault is shown, and the program may run \
            without one at every size."
        }
        (ReasonClass::LeftOut, _) => {
            "left out: the checker doesn't follow this by choice; the program may be safe."
        }
        (ReasonClass::Certificate, _) => "the certificate: it doesn't fit the program.",
    }
}

/// Returns what to do about what a program is made of, or where it leads.
fn advice_on_program(reason: Reason) -> &'static str {
    match reason {
        Reason::CannotCut => "give the instruction the bytes that it lacks, or remove it.",
        Reason::Structure => {
            "close each IF by EIF, each FDEF and IDEF by ENDF, with ELSE between IF and EIF, and \
            put no definition into another."
        }
        Reason::ProgramTooLong => "shorten the program, or raise maxSizeOfInstructions in maxp.",
        Reason::Opcode => "replace the byte by an instruction of the printed instruction set.",
        Reason::InstructionDefinition => "write what IDEF defines as a function.",
        Reason::Recursion => "write the repetition as LOOPCALL or by jumps.",
        Reason::Target => {
            "mend the distance: it is counted in bytes from the jump itself, and may not lead into \
            another function or into the data of a push."
        }
        Reason::Definition => "move the definition into the font program or the CVT program.",
        Reason::TooManyContexts => {
            "call with fewer turns of LOOPCALL inside one another, or write them as jumps."
        }
        Reason::NeverEnds => "mend the loop that isn't left, or the jump that leads back.",
        Reason::TooManySteps => "write the program with fewer ways through it, or shorter loops.",
        Reason::KeptEntry => {
            "write control values and storage in the CVT program, or at indexes that are known."
        }
        _ => "make the certificate anew.",
    }
}

/// Returns what to do about a number that is out of range or isn't known, or a stack of a wrong depth.
fn advice_on_number(reason: Reason) -> &'static str {
    match reason {
        Reason::Cvt => "use an index that the font's table cvt has, or add values to the table.",
        Reason::Storage => "use an index below maxStorage, or raise maxStorage in maxp.",
        Reason::Point => {
            "use the number of a point that the zone has. Look at the zone pointers and the \
            reference points here, and at maxTwilightPoints in maxp."
        }
        Reason::Zone => "use a zone that the font has, or set maxZones to 2 in maxp.",
        Reason::Contour => "use the number of a contour that the glyph has.",
        Reason::Count => "use a count that isn't negative, or an index of at least 1.",
        Reason::Underflow => {
            "push what the instruction takes on every way that comes here, or remove the \
            instruction."
        }
        Reason::Overflow => "raise maxStackElements in maxp, or keep fewer numbers on the stack.",
        Reason::DepthMismatch => {
            "let both ways leave equally many numbers: pop those that one leaves too many, or push \
            those that the other lacks, before the ways meet."
        }
        Reason::UnknownOperand => {
            "where the program is right, write it so that the number is known here: pushed as a \
            constant, and the same one on every way."
        }
        _ => advice_on_program(reason),
    }
}

/// Returns what to do about a reason of this class, at an instruction of this name.
pub(crate) fn advice_of(reason: Reason, class: ReasonClass, name: &str) -> &'static str {
    match (reason, class) {
        (Reason::Function, ReasonClass::PossibleFault) => {
            "use a number below maxFunctionDefs, or raise maxFunctionDefs in maxp."
        }
        (Reason::Function, _) => {
            "define the function in the font program or the CVT program, and on every way through \
            it: not only after an IF or a jump that depends on a measured number."
        }
        (Reason::DepthMismatch, _) if name == "CLEAR" => {
            "clear the stack on each way before the ways meet, as by ELSE and CLEAR before the EIF."
        }
        _ => advice_on_number(reason),
    }
}

/// Returns what to do first about a reason of the strict profile: the other profile may not have it.
pub(crate) fn advice_on_strict(reason: Reason) -> Option<&'static str> {
    match reason {
        Reason::UnknownOperand => Some(
            "ask again with --symbolic: that profile follows numbers that are measured, computed, \
            chosen or read back.",
        ),
        Reason::DepthMismatch => Some(
            "ask again with --symbolic: that profile follows ways that bring stacks of different \
            depths, each by itself.",
        ),
        Reason::TooManyContexts => Some(
            "ask again with --symbolic: that profile has no limit on lists of open calls.",
        ),
        _ => None,
    }
}

/// What to do about a refusal.
#[derive(Clone, Copy)]
pub(crate) struct Advice {
    /// What to do first, where there is something.
    pub first: Option<&'static str>,
    /// What to do otherwise.
    pub general: &'static str,
}

impl fmt::Display for Advice {
    fn fmt<W: fmt::Write>(&self, f: &mut fmt::Formatter<W>) -> fmt::Result {
        let general = self.general;
        match self.first {
            Some(first) => write!(f, "What to do: {first}\nOtherwise: {general}"),
            None => write!(f, "What to do: {general}"),
        }
    }
}
