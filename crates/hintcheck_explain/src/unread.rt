//! Explains a program that can't be cut or isn't structured.

ghost use Rattle.std.specs.Prelude.{◌++◌, codes, OnOk};
ghost use Rattle.tt_stream.specs.Streams.{CountsPrintFailure};
ghost use Rattle.hintcheck_explain.specs.Texts.{WritesFirst};
ghost use Rattle.hintcheck_report.specs.Places.{reported_at};
ghost use Rattle.hintcheck_report.specs.Texts.{refused_text};

use crate::asked::Asked;
use crate::excerpt::{Code, Excerpt};
use crate::instruction_text::{length_by_code, name_of};
use crate::meaning::{advice_of, class_text};
use hintcheck_report::Refused;
use std::fmt;
use tt_code::Reason;
use tt_setting::Spot;
use tt_stream::{PrintFailed, Sink};

/// Why the bytes aren't a program.
#[derive(Clone, Copy)]
struct UnreadText<'a> {
    /// The program's bytes from the place of the refusal on.
    rest: &'a [u8],
    reason: Reason,
}

impl fmt::Display for UnreadText<'_> {
    fn fmt<W: fmt::Write>(&self, f: &mut fmt::Formatter<W>) -> fmt::Result {
        let [code, ..] = self.rest else {
            return write!(
                f,
                "The program ends here, and an IF, FDEF or IDEF is still open."
            );
        };
        let name = name_of(*code);
        match self.reason {
            Reason::CannotCut => {
                let length = length_by_code(self.rest);
                let left = self.rest.len();
                write!(
                    f,
                    "{name} needs {length} bytes with its data, and the program has {left} \
                    from here on."
                )
            }
            _ => write!(f, "{name} isn't allowed here: {}", misplaced(name)),
        }
    }
}

/// Returns why the instruction of this name isn't allowed where it is.
fn misplaced(name: &str) -> &'static str {
    match name {
        "ELSE" => "no IF without an ELSE is open.",
        "EIF" => "no IF is open.",
        "ENDF" => "no FDEF or IDEF is open, or an IF in it is.",
        "FDEF" | "IDEF" => "a definition is open already, and definitions can't be nested.",
        _ => "what is open before it doesn't take it.",
    }
}

/// Explains a program that can't be cut (20) or isn't structured (21), refused at this offset of
/// its own bytes. The first line is the one with which the verdict refuses it.
///
/// # Errors
/// `Write` exactly where a write failed.
pub fn explain_unread<O: Sink>(
    asked: Asked,
    bytes: &[u8],
    offset: u32,
    reason: Reason,
    out: &mut O,
) -> Result<(), PrintFailed>
    ensures begins { OnOk result (WritesFirst
        (refused_text (reported_at asked.program Spot.Main offset reason) ++ codes "\n")
        (O.contents out.old) (O.contents out.new)) }
    ensures failures { CountsPrintFailure result (O.failures out.old) (O.failures out.new) }
{
    let refused = Refused::at(asked.program, Spot::Main, offset, reason);
    let rest = bytes.get(offset as usize..).unwrap_or(&[]);
    let why = UnreadText { rest, reason };
    let class = reason.class();
    let kind = class_text(reason, class);
    let advice = advice_of(reason, class, "");
    let listing = Excerpt::around(Code::Uncut(bytes), refused.place);
    writeln!(out, "{refused}")?;
    writeln!(out, "Why: {why}\nClass: {kind}\nWhat to do: {advice}")?;
    writeln!(out, "{listing}")?;
    Ok(())
}
