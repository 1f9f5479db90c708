//! Reasons by their numbers.

ghost use Rattle.std.specs.Prelude.{◌≡◌, MatchOption};
ghost use Rattle.tt_code.specs.Refusals.{number_of};
ghost use Rattle.hintcheck_report.specs.ReasonNumbers.{IsReasonNumber};

use tt_code::Reason;

/// Returns the reason that has this number, if one has it.
pub fn reason_of(number: u32) -> Option<Reason>
    ensures { MatchOption result (IsReasonNumber number → ⊥) (λ reason. number_of reason ≡ number) }
{
    match number {
        20 => Some(Reason::CannotCut),
        21 => Some(Reason::Structure),
        22 => Some(Reason::ProgramTooLong),
        23 => Some(Reason::Opcode),
        24 => Some(Reason::InstructionDefinition),
        25 => Some(Reason::Recursion),
        26 => Some(Reason::Underflow),
        27 => Some(Reason::Overflow),
        28 => Some(Reason::UnknownOperand),
        29 => Some(Reason::Cvt),
        30 => Some(Reason::Storage),
        31 => Some(Reason::Function),
        32 => Some(Reason::Point),
        33 => Some(Reason::Zone),
        34 => Some(Reason::Contour),
        35 => Some(Reason::Target),
        36 => Some(Reason::Count),
        37 => Some(Reason::Definition),
        38 => Some(Reason::DepthMismatch),
        39 => Some(Reason::TooManyContexts),
        40 => Some(Reason::NeverEnds),
        41 => Some(Reason::MissingPoint),
        42 => Some(Reason::NotCovered),
        46 => Some(Reason::TooManySteps),
        47 => Some(Reason::KeptEntry),
        _ => None,
    }
}
