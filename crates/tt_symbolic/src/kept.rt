//! Memory entries that a program may not write.

ghost use Rattle.std.specs.Prelude.{◌≡◌, OnOk, true, false};
ghost use Rattle.std.specs.List.{All};
ghost use Rattle.tt_setting.specs.Settings.{setting_of};
ghost use Rattle.tt_symbolic.specs.Representation.Areas.{IsOutside};
ghost use Rattle.tt_symbolic.specs.Representation.Keeping.{AreAllPairsNoneOf, ArePairsNoneOf, IsNoStore, IsNoneOf, IsPairNoneOf, IsSecondNoneOf, KeepsControls, KeepsStorage, StoresNothing};
ghost use Rattle.tt_symbolic.specs.Kept.{StepsKeep};
ghost use Rattle.tt_symbolic.specs.Steps.{StepsTo};

use crate::changes::index_bounds;
use crate::refined::pair_count;
use crate::step::{execute, innermost};
use tt_code::kinds::Update;
use tt_code::{Effect, Reason, Refinement, Written, entry, refinement, written};
use tt_setting::{Point, Setting, StepFault};
use tt_symbolic_cells::{cell_under, too_deep};
use tt_symbolic_state::cell::{Cell, Range};
use tt_symbolic_state::state::State;

/// The memory entries that a program may not write.
#[derive(Clone, Copy)]
pub struct Kept<'a> {
    /// Indexes of storage cells.
    pub storage: &'a [u16],
    /// Indexes of control values.
    pub controls: &'a [u16],
}

/// Nothing is kept.
pub const NOTHING_KEPT: Kept<'static> = Kept {
    storage: &[],
    controls: &[],
};

/// Whether no number is between the bounds.
fn is_none_between(numbers: &[u16], low: i64, high: i64) -> bool
    ensures { result ≡ true → All (λ i. IsOutside low high i) numbers.now }
{
    for number in numbers {
        let index = i64::from(*number);
        if low <= index && index <= high {
            return false;
        }
    }
    true
}

/// Whether the cell is never the index of one of the entries.
fn is_none_of(numbers: &[u16], ranges: &[Range], cell: Cell) -> bool
    ensures { result ≡ true → IsNoneOf numbers.now ranges.now cell }
{
    match index_bounds(cell, ranges) {
        Ok((low, high)) => is_none_between(numbers, low, high),
        Err(_) => false,
    }
}

/// Whether the changes leave the storage area as it is.
fn stores_nothing(updates: &[Update]) -> bool
    ensures { result ≡ true → StoresNothing updates.now }
{
    for update in updates {
        if is_store(*update) {
            return false;
        }
    }
    true
}

/// Whether the change stores a number.
fn is_store(update: Update) -> bool
    ensures { result ≡ false → IsNoStore update }
{
    match update {
        Update::Store(_, _) => true,
        _ => false,
    }
}

/// Whether the cell under the top is never the index of one of the entries.
fn is_second_none_of(numbers: &[u16], state: &State) -> bool
    ensures { result ≡ true → IsSecondNoneOf numbers.now state.now }
{
    let Ok(_) = cell_under(&state.stack, 0) else {
        return false;
    };
    match cell_under(&state.stack, 1) {
        Ok(place) => is_none_of(numbers, state.ranges.as_slice(), place),
        Err(_) => false,
    }
}

/// Whether the index of a pair under the top is never that of one of the entries.
fn is_pair_none_of(numbers: &[u16], state: &State, pair: u32) -> bool
    ensures { result ≡ true → IsPairNoneOf numbers.now pair state.now }
{
    let below = pair as usize;
    match cell_under(&state.stack, below + below + 1) {
        Ok(place) => is_none_of(numbers, state.ranges.as_slice(), place),
        Err(_) => false,
    }
}

/// Whether the indexes of the pairs under the top are never those of the entries.
fn are_pairs_none_of(numbers: &[u16], state: &State, count: u32) -> bool
    ensures { result ≡ true → ArePairsNoneOf numbers.now count state.now }
{
    for pair in 0..count {
        if !is_pair_none_of(numbers, state, pair) {
            return false;
        }
    }
    true
}

/// Whether the indexes of all pairs under the top are never those of the entries.
fn are_all_pairs_none_of(numbers: &[u16], state: &State) -> bool
    ensures { result ≡ true → AreAllPairsNoneOf numbers.now state.now }
{
    match pair_count(state) {
        Ok(count) => are_pairs_none_of(numbers, state, count),
        Err(_) => false,
    }
}

/// Whether an instruction of this code leaves these control values as they are.
fn keeps_controls(numbers: &[u16], state: &State, code: u8) -> bool
    ensures { result ≡ true → KeepsControls numbers.now code state.now }
{
    match refinement(code) {
        Refinement::WritesControl => is_second_none_of(numbers, state),
        Refinement::ChangesControl => is_second_none_of(numbers, state),
        Refinement::ChangesControls => are_all_pairs_none_of(numbers, state),
        Refinement::ReadsControl
        | Refinement::Greatest
        | Refinement::Least
        | Refinement::Product
        | Refinement::Quotient
        | Refinement::Floor
        | Refinement::Ceiling
        | Refinement::Ordinary => true,
    }
}

/// Whether an instruction of this code leaves these storage cells as they are.
fn keeps_storage(numbers: &[u16], state: &State, code: u8) -> bool
    ensures { result ≡ true → KeepsStorage numbers.now code state.now }
{
    if written(code) == Written::StorageCell {
        return is_second_none_of(numbers, state);
    }
    match entry(code) {
        Effect::Plain(line) => stores_nothing(line.updates),
        Effect::Push(_) => true,
        Effect::Stack(_) => true,
        Effect::Arithmetic(_) => true,
        Effect::Control(_) => true,
        Effect::NoEntry => true,
    }
}

/// Whether an instruction of this code writes none of the kept entries.
fn keeps_entries(kept: &Kept<'_>, state: &State, code: u8) -> bool
    ensures storage { result ≡ true → KeepsStorage kept.now.storage.now code state.now }
    ensures controls { result ≡ true → KeepsControls kept.now.controls.now code state.now }
{
    if !keeps_storage(kept.storage, state, code) {
        return false;
    }
    keeps_controls(kept.controls, state, code)
}

/// Whether the instruction where the state is writes none of the kept entries.
pub fn keeps(setting: &Setting<'_>, state: &State, kept: &Kept<'_>) -> bool
    ensures { result ≡ true → StepsKeep (setting_of setting.now) kept.now state.now }
{
    let frame = innermost(state);
    let point = Point {
        frames: frame.as_slice(),
        offset: state.offset,
    };
    match setting.instruction(&point) {
        Some(instr) => keeps_entries(kept, state, instr.code()),
        None => false,
    }
}

/// Carries out the instruction where the state is, if one of its body starts there and it writes
/// none of the kept entries. After a refusal the state's content is unspecified.
///
/// # Errors
/// `Refused` where a machine that the state shows may fault, or where not enough is known, with the
/// first test that fails, and then with `KeptEntry` where a kept entry may be written; `OutOfMemory`.
pub fn step_keeping(
    setting: &Setting<'_>,
    kept: &Kept<'_>,
    state: &mut State,
) -> Result<(), StepFault>
    ensures steps { OnOk result (StepsTo setting.now state.old state.new) }
    ensures keeps { OnOk result (StepsKeep (setting_of setting.now) kept.now state.old) }
{
    let frame = innermost(state);
    let point = Point {
        frames: frame.as_slice(),
        offset: state.offset,
    };
    let Some(instr) = setting.instruction(&point) else {
        return Err(StepFault::from(Reason::Target));
    };
    let writes_none = keeps_entries(kept, state, instr.code());
    execute(setting, &point, state, &instr)?;
    if state.stack.len() > usize::from(setting.limits.stack) {
        return Err(StepFault::from(too_deep(&state.stack)));
    }
    if writes_none {
        Ok(())
    } else {
        Err(StepFault::from(Reason::KeptEntry))
    }
}
