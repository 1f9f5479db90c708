//! How much an accepted program takes.

ghost use Rattle.tt_stream.specs.Streams.{CountsPrintFailure};

use crate::excerpt::Code;
use crate::explored_program::ExploredProgram;
use tt_code::Program;
use tt_family::Certificate;
use tt_stream::{PrintFailed, Sink};

/// Returns how many instructions a program has.
pub(crate) fn count_instructions(program: &Program<'_>) -> u32 {
    let code = Code::Cut(program);
    let mut count: u32 = 0;
    let mut offset = 0;
    for _ in 0..program.len() {
        let Some(next) = code.after(offset) else {
            break;
        };
        count = count.saturating_add(1);
        offset = next;
    }
    count
}

/// Returns how deep the stack is where it is deepest.
fn greatest_depth(certificate: &Certificate) -> usize {
    let mut states = certificate.states();
    let mut most = 0;
    for _ in 0..certificate.points() {
        let Some((_, _, state)) = states.take_first() else {
            break;
        };
        most = state.depth().max(most);
    }
    most
}

/// Prints how much an accepted program takes.
///
/// # Errors
/// `Write` exactly where a write failed.
pub(crate) fn tell_accepted<O: Sink>(
    subject: &ExploredProgram<'_>,
    out: &mut O,
) -> Result<(), PrintFailed>
    ensures failures { CountsPrintFailure result (O.failures out.old) (O.failures out.new) }
{
    let name = subject.name;
    let instructions = count_instructions(subject.setting.main);
    let depth = greatest_depth(subject.certificate);
    let most = subject.setting.limits.stack;
    let contexts = subject.certificate.contexts();
    let points = subject.certificate.points();
    writeln!(
        out,
        "accepted {name}\nInstructions: {instructions}\n\
        Greatest depth of the stack: {depth} of at most {most} (maxStackElements)\n\
        Contexts (lists of open calls, the empty one included): {contexts}\n\
        Program points (places in a context): {points}"
    )
}
