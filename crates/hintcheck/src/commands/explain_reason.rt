//! The subcommand `explain` with the number of a reason in the place of a font's name.

ghost use Rattle.std.specs.Prelude.{◌≡◌, IfOk, IfSome};
ghost use Rattle.std.specs.Fmt.{decimal};
ghost use Rattle.tt_code.specs.Refusals.{number_of};
ghost use Rattle.hintcheck.specs.Commands.{TellsFailure};

use super::ACCEPTED;
use super::faults::CommandFault;
use crate::instruction_list::read_decimal;
use hintcheck_explain::explain_reason;
use hintcheck_report::reason_of;
use tt_code::Reason;
use tt_stream::Sink;

/// Returns the reason whose number the word is, if it is that of one.
pub(super) fn reason_called(word: &str) -> Option<Reason>
    ensures { IfSome result (λ reason. word.now ≡ decimal (number_of reason)) }
{
    reason_of(read_decimal(word)?)
}

/// Prints what a reason means, and returns the exit status, 0.
pub(super) fn tell_reason<O: Sink>(reason: Reason, out: &mut O) -> Result<u8, CommandFault>
    ensures status { IfOk result (λ status. status ≡ 0) }
    ensures failures { TellsFailure result (O.failures out.old) (O.failures out.new) }
{
    explain_reason(reason, out)?;
    Ok(ACCEPTED)
}
