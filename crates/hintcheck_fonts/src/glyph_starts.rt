//! With what glyph programs start.

ghost use Rattle.std.specs.Prelude.{◌≡◌, ℕ, List, IfErr, IfOk, IfSome, OnOk, Some, slice_get, true};
ghost use Rattle.tt_setting.specs.Refusals.{IsOfNoBudget};
ghost use Rattle.tt_setting.specs.Settings.{setting_of};
ghost use Rattle.tt_symbolic.specs.Kept.{IsAmong};
ghost use Rattle.tt_symbolic_check.specs.Starts.{StartsAs};
ghost use Rattle.hintcheck_fonts.specs.Representation.SymbolicChecks.{IsRunnable};
ghost use Rattle.hintcheck_fonts.specs.SymbolicEnds.{IsFollowed, ListsAmong, StartGlyphs, StartsThen};
ghost use Rattle.hintcheck_fonts.specs.SymbolicRefusals.{IsSymbolicAnswer};
ghost use Rattle.tt_symbolic_state.specs.CvtMachine.{CvtMachine};
ghost use Rattle.tt_symbolic_state.specs.Shows.{IsShown};
ghost use Rattle.tt_symbolic_state.specs.declared.state.State.{State as AnyState};

use crate::ends::Ends;
use std::alloc::{AllocError, Global};
use tt_code::Reason;
use tt_family::is_short;
use tt_setting::{Refusal, Setting, SortedMap};
use tt_symbolic::Kept;
use tt_symbolic_check::{Start, has_functions};
use tt_symbolic_search::{Effort, Search};
use tt_symbolic_state::{Cell, State};

/// With what glyph programs start, and which memory entries none of them writes.
pub struct GlyphStarts {
    /// What is known of the memory and the functions, in each of these ways.
    pub starts: Vec<Start>,
    /// The indexes of the storage cells that one of the starts lists.
    pub storage: Vec<u16>,
    /// The indexes of the control values that one of the starts lists.
    pub controls: Vec<u16>,
}

// Written out, so that who holds starts proves in one step that its memory is given back.
impl Drop for GlyphStarts {
    fn drop(self) {
        let GlyphStarts {
            starts,
            storage,
            controls,
        } = self;
        drop(starts);
        drop(storage);
        drop(controls);
    }
}

/// Makes the start after an end, with these functions.
fn start_after(alloc: Global, end: &State, functions: &SortedMap<u32>) -> Result<Start, AllocError>
    ensures { IfOk result (λ start. (m n : CvtMachine) → IsShown end.now m.machine m.controls
        → StartsThen functions.now m n → StartsAs start n) }
{
    let mut start = Start::after(alloc, end)?;
    start.functions.copy_from(functions)?;
    Ok(start)
}

/// Whether one of the starts shows each machine with which a program starts after the end, with
/// these functions.
fn is_followed(
    alloc: Global,
    end: &State,
    functions: &SortedMap<u32>,
    starts: &[Start],
) -> Result<bool, AllocError>
    ensures { IfOk result (λ b. b ≡ true → IsFollowed functions.now starts.now end.now) }
{
    let after = start_after(alloc, end, functions)?;
    for start in starts {
        let covered = after.is_covered_by(alloc, start)?;
        if covered {
            return Ok(true);
        }
    }
    Ok(false)
}

/// Whether one of the starts follows each of the ends.
fn are_followed(
    alloc: Global,
    ends: &[State],
    functions: &SortedMap<u32>,
    starts: &[Start],
) -> Result<bool, AllocError>
    ensures { IfOk result (λ b. b ≡ true → (i : ℕ) (a : AnyState) → slice_get ends.now i ≡ Some a
        → IsFollowed functions.now starts.now a) }
{
    for end in ends {
        let followed = is_followed(alloc, end, functions, starts)?;
        if !followed {
            return Ok(false);
        }
    }
    Ok(true)
}

/// Puts the indexes of these entries to others.
fn put_indexes(indexes: &mut Vec<u16>, cells: &SortedMap<Cell>) -> Result<(), AllocError>
    ensures before { OnOk result ((i : ℕ) → IsAmong indexes.old.items i
        → IsAmong indexes.new.items i) }
    ensures listed { OnOk result (ListsAmong indexes.new.items cells.now) }
{
    for entry in cells.as_slice() {
        indexes.push(entry.0)?;
    }
    Ok(())
}

impl GlyphStarts {
    /// Makes the starts of glyph programs from those that are proposed: nothing, where an end of the
    /// CVT program isn't followed by one of them, or one of them has a function that isn't known
    /// there.
    ///
    /// # Errors
    /// If memory runs out.
    fn new(
        alloc: Global,
        ends: &Ends,
        proposed: Vec<Start>,
    ) -> Result<Option<GlyphStarts>, AllocError>
        ensures { IfOk result (λ made. IfSome made (StartGlyphs ends.now)) }
    {
        let followed = are_followed(
            alloc,
            ends.states.as_slice(),
            &ends.functions,
            proposed.as_slice(),
        )?;
        if !followed {
            return Ok(None);
        }
        let mut storage = Vec::new(alloc);
        let mut controls = Vec::new(alloc);
        for start in proposed.as_slice() {
            if !has_functions(&ends.functions, &start.functions) {
                return Ok(None);
            }
            put_indexes(&mut storage, &start.storage)?;
            put_indexes(&mut controls, &start.controls)?;
        }
        Ok(Some(GlyphStarts {
            starts: proposed,
            storage,
            controls,
        }))
    }

    /// Makes no start.
    pub fn none(alloc: Global) -> GlyphStarts {
        GlyphStarts {
            starts: Vec::new(alloc),
            storage: Vec::new(alloc),
            controls: Vec::new(alloc),
        }
    }

    /// Makes the start of which only the functions are known that all ends have.
    ///
    /// # Errors
    /// If memory runs out.
    pub fn unknown(alloc: Global, ends: &Ends) -> Result<GlyphStarts, AllocError>
        ensures { IfOk result (StartGlyphs ends.now) }
    {
        let mut start = Start::unknown(alloc);
        start.functions.copy_from(&ends.functions)?;
        let mut starts = Vec::new(alloc);
        starts.push(start)?;
        Ok(GlyphStarts {
            starts,
            storage: Vec::new(alloc),
            controls: Vec::new(alloc),
        })
    }

    /// Lends the entries that no glyph program may write.
    fn kept(&self) -> Kept<'_>
        ensures storage { result.storage.now ≡ self.now.storage.items }
        ensures controls { result.controls.now ≡ self.now.controls.items }
    {
        Kept {
            storage: self.storage.as_slice(),
            controls: self.controls.as_slice(),
        }
    }
}

/// Searches and checks a glyph program from these starts, so that it writes none of the entries that
/// one of them lists.
///
/// # Errors
/// `Refused` too where it is longer than the font allows; those of `Search::check`.
#[tactic(auto, using(crate::proofs::SymbolicAnswers::memory_answers, crate::proofs::SymbolicAnswers::symbols_answer))]
pub fn check_glyph(
    search: &mut Search,
    effort: Effort,
    setting: &Setting<'_>,
    starts: &GlyphStarts,
) -> Result<(), Refusal>
    ensures runnable { OnOk result (IsRunnable (setting_of setting.now) starts.now) }
    ensures answer { (functions : List (ℕ × ℕ))
        → IfErr result (IsSymbolicAnswer setting.now functions) }
    ensures within { IfErr result IsOfNoBudget }
{
    if !is_short(setting) {
        let most = u32::from(setting.limits.program_size);
        return Err(Refusal::in_main(most, Reason::ProgramTooLong));
    }
    let kept = starts.kept();
    search.check(setting, &kept, starts.starts.as_slice(), effort)?;
    Ok(())
}

/// Gives starts these functions.
///
/// # Errors
/// If memory runs out.
fn give_functions(starts: &mut [Start], functions: &SortedMap<u32>) -> Result<(), AllocError> {
    for start in starts {
        start.functions.copy_from(functions)?;
    }
    Ok(())
}

/// Makes the starts of glyph programs after the ends of the CVT program. Where the search proposes
/// none that follow each of them, nothing but functions is known.
///
/// # Errors
/// If memory runs out.
pub fn starts_after(
    alloc: Global,
    search: &mut Search,
    ends: &Ends,
) -> Result<GlyphStarts, AllocError>
    ensures { IfOk result (StartGlyphs ends.now) }
{
    let mut proposed = search.starts_after(ends.states.as_slice())?;
    give_functions(proposed.as_mut_slice(), &ends.functions)?;
    match GlyphStarts::new(alloc, ends, proposed)? {
        Some(starts) => Ok(starts),
        None => GlyphStarts::unknown(alloc, ends),
    }
}
