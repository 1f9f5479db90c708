//! The instructions of plain lines, which take, test, change and push.

ghost use Rattle.std.specs.Prelude.{◌≡◌, IfErr, Ok, OnOk, true};
ghost use Rattle.tt_setting.specs.Refusals.{ForFailed};
ghost use Rattle.tt_abs.specs.Moves.{IsRefusedFor};
ghost use Rattle.tt_abs.specs.States.{abstract_of};
ghost use Rattle.tt_abs.specs.Representation.Steps.{TellsOfLine, line_of, plain_at};
ghost use Rattle.tt_abs.specs.Representation.Stored.{is_of_one_kind, is_tested_line};

use crate::changes::{pushed_cells, update_all};
use crate::operands::{take_operands, test_uses};
use crate::push::push_cells;
use crate::state::State;
use tt_code::kinds::Row;
use tt_setting::{Setting, StepFault};

/// Carries out a plain line: its operands are taken and its reference points tested, and then it
/// changes or pushes. No line does both.
///
/// # Errors
/// `Refused` with the reason of the first test that fails; then the state stays as it is.
/// `OutOfMemory`; then the state's content is unspecified.
pub fn execute_plain(setting: &Setting<'_>, state: &mut State, line: &Row) -> Result<(), StepFault>
    requires tested { is_tested_line (line_of line.now) ≡ true }
    requires one_kind { is_of_one_kind (line_of line.now) ≡ true }
    ensures ok { OnOk result
        (plain_at setting.now state.old line.now ≡ Ok (abstract_of state.new)) }
    ensures refused { IfErr result (IsRefusedFor (plain_at setting.now state.old line.now)) }
    ensures told { IfErr result (λ e. ForFailed e (TellsOfLine setting.now state.old line.now)) }
{
    let count = take_operands(setting, &state.graphics, &state.stack, line.operands)?;
    test_uses(setting, &state.graphics, line.uses)?;
    // There are fewer than 2^16 storage cells, so an index that was tested has 16 bits.
    prove!(u32::from(setting.limits.storage) < 65536);
    if line.pushes.is_empty() {
        update_all(state, count, line.updates)?;
        state.stack.cut(count);
        return Ok(());
    }
    let pushed = pushed_cells(state.stack.allocator(), state, count, line.pushes)?;
    state.stack.cut(count);
    push_cells(&mut state.stack, pushed.as_slice())?;
    Ok(())
}
