//! The subcommand `list`: the instructions of a program of a font file.

ghost use Rattle.std.specs.Prelude.{IfOk};
ghost use Rattle.hintcheck_words.specs.Requests.{list};
ghost use Rattle.hintcheck.specs.Representation.Answers.{IsAnswered};
ghost use Rattle.hintcheck.specs.Commands.{TellsFailure};

use super::faults::CommandFault;
use super::font_bytes::named_font;
use crate::instruction_list::list_program;
use hintcheck_words::ListOptions;
use std::rt::Files;
use tt_stream::Sink;

/// Lists the program that the word names, of the font in the file with this name, as is asked for, and
/// returns the exit status: 0 listed, 1 refused.
///
/// # Errors
/// Those of `named_font` and of `list_program`.
pub(super) fn list_of_file<R: Files + AllocGlobal, O: Sink>(
    rt: &R,
    name: &str,
    word: &str,
    options: ListOptions,
    out: &mut O,
) -> Result<u8, CommandFault>
    ensures answer { IfOk result (λ status. IsAnswered (list name.now word.now options) status
        (O.contents out.old) (O.contents out.new)) }
    ensures failures { TellsFailure result (O.failures out.old) (O.failures out.new) }
{
    let font = named_font(rt, name, options.faces, options.max_bytes)?;
    list_program(rt.alloc(), &font.bytes, word, options.detail, out)
}
