//! The check of a program by a walk of symbolic states.

ghost use Rattle.std.specs.Prelude.{IfErr, IfOk};
ghost use Rattle.tt_setting.specs.Refusals.{IsOfNoBudget};
ghost use Rattle.tt_setting.specs.Settings.{setting_of};
ghost use Rattle.tt_symbolic_check.specs.Answers.{IsAnswerBySymbols};
ghost use Rattle.tt_symbolic_check.specs.Checked.{AreEnds, IsSafe, KeepsEntries};

use crate::guide::Guide;
use crate::pool::Pool;
use crate::start::Start;
use crate::walk::{begin, walk_on};
use std::alloc::Global;
use tt_setting::{Refusal, Setting};
use tt_symbolic::kept::Kept;
use tt_symbolic_state::state::State;

/// Checks a program that starts in one of these ways: it is walked from its starts on, as the guide
/// chooses, whom nobody has to trust. Returns the states at the main program's end. The program
/// writes none of the kept entries.
///
/// # Errors
/// `Refused` with the place of an instruction and its reason, where a run may fault or not enough is
/// known, where it may write a kept entry (`KeptEntry`), or where the guide gives up; with
/// `TooManySteps`, at the program's start, where the walk isn't done after so many moves.
/// `Exhausted`, if memory runs out.
#[tactic(auto, using(crate::specs::Answers::answered_by_symbols))]
pub fn check<G: Guide>(
    alloc: Global,
    pool: &mut Pool,
    setting: &Setting<'_>,
    kept: &Kept<'_>,
    starts: &[Start],
    guide: &mut G,
    moves: u64,
) -> Result<Vec<State>, Refusal>
    ensures safe { IfOk result (λ ends. IsSafe (setting_of setting.now) starts.now) }
    ensures kept { IfOk result (λ ends. KeepsEntries (setting_of setting.now) kept.now starts.now) }
    ensures ends { IfOk result (λ ends. AreEnds (setting_of setting.now) starts.now ends.items) }
    ensures answer { IfErr result (IsAnswerBySymbols setting.now) }
    ensures within { IfErr result IsOfNoBudget }
{
    let mut walk = begin(alloc, setting, kept, starts)?;
    walk_on(pool, setting, kept, &mut walk, guide, moves)?;
    Ok(walk.ends)
}
