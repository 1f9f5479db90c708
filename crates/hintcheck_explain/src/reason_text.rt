//! A reason by itself, in words.

ghost use Rattle.std.specs.Prelude.{OnOk};
ghost use Rattle.tt_stream.specs.Streams.{CountsPrintFailure};
ghost use Rattle.hintcheck_explain.specs.Texts.{WritesFirst, reason_line};

use crate::meaning::{Advice, advice_of, advice_on_strict, class_text};
use tt_code::Reason;
use tt_stream::{PrintFailed, Sink};

/// Returns what a reason means of the bytes of a program, or of what it is made of.
fn meaning_of_program(reason: Reason) -> &'static str {
    match reason {
        Reason::CannotCut => {
            "an instruction passes the end of the program, so that the bytes can't be cut into \
            instructions."
        }
        Reason::Structure => {
            "IF, ELSE, EIF, FDEF, IDEF or ENDF isn't allowed where it is, or something is still open \
            at the program's end."
        }
        Reason::ProgramTooLong => "a glyph program has more bytes than maxSizeOfInstructions.",
        Reason::Opcode => {
            "the byte is the code of no instruction, or of one that isn't followed: GETVARIATION, \
            GETDATA, or one that an IDEF defines."
        }
        Reason::InstructionDefinition => "the program comes to an IDEF.",
        Reason::Recursion => "a call enters the body of a function that is running already.",
        Reason::Target => {
            "a jump leads to no instruction of the same function or program, nor to the program's \
            end."
        }
        Reason::Definition => "a glyph program comes to an FDEF.",
        Reason::NeverEnds => "no run of the font program, or of the CVT program, comes to its end.",
        Reason::TooManyContexts => "the program comes to more than 65,535 lists of open calls.",
        Reason::TooManySteps => "the search, or the check of what it found, came to its bound.",
        Reason::KeptEntry => {
            "a glyph program may write a control value or a storage cell with whose number glyph \
            programs are taken to start."
        }
        Reason::MissingPoint => "the certificate has no state at a place that needs one.",
        _ => "the certificate has a state that doesn't cover what comes to its place.",
    }
}

/// Returns what a reason means, the one of a refused instruction or program.
fn meaning_of(reason: Reason) -> &'static str {
    match reason {
        Reason::Underflow => "the stack has fewer elements than the instruction takes.",
        Reason::Overflow => "the stack is deeper than maxStackElements after the instruction.",
        Reason::UnknownOperand => {
            "a number that the instruction looks at isn't known: it was measured, stored or \
            computed, or depends on the way by which the program comes here."
        }
        Reason::Cvt => {
            "the index of a control value is negative, or not below the number of control values."
        }
        Reason::Storage => "the index of a storage cell is negative, or not below maxStorage.",
        Reason::Function => {
            "the number of a function is negative or not below maxFunctionDefs, or the function that \
            is called isn't known to be defined."
        }
        Reason::Point => {
            "the number of a point is negative, or not below the number of points of its zone."
        }
        Reason::Zone => "a zone is neither 0 nor 1, or it is 0 and maxZones is below 2.",
        Reason::Contour => {
            "the number of a contour is negative, or not below the number of contours."
        }
        Reason::Count => {
            "a count or the loop number is negative, or the index of a CINDEX or MINDEX is below 1."
        }
        Reason::DepthMismatch => "two ways come to one place with stacks of different depths.",
        _ => meaning_of_program(reason),
    }
}

/// Prints a reason with its number: what it means, its class, and what to do.
///
/// # Errors
/// `Write` exactly where a write failed.
pub fn explain_reason<O: Sink>(reason: Reason, out: &mut O) -> Result<(), PrintFailed>
    ensures begins { OnOk result
        (WritesFirst (reason_line reason) (O.contents out.old) (O.contents out.new)) }
    ensures failures { CountsPrintFailure result (O.failures out.old) (O.failures out.new) }
{
    let number = reason.number();
    let meaning = meaning_of(reason);
    let class = reason.class();
    let kind = class_text(reason, class);
    let advice = Advice {
        first: advice_on_strict(reason),
        general: advice_of(reason, class, ""),
    };
    writeln!(out, "{number} {reason}")?;
    writeln!(out, "What it means: {meaning}\nClass: {kind}\n{advice}")?;
    writeln!(out, "Examples are in docs/REASONS.md.")?;
    Ok(())
}
