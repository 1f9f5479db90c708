//! The font program and the CVT program, and what is known at their ends.

ghost use Rattle.std.specs.Prelude.{IfErr, IfOk};
ghost use Rattle.tt_setting.specs.Entries.{Ascends};
ghost use Rattle.tt_setting.specs.Refusals.{IsOfNoBudget};
ghost use Rattle.tt_setting.specs.Settings.{setting_of};
ghost use Rattle.hintcheck_fonts.specs.Representation.SymbolicChecks.{IsEnded};
ghost use Rattle.hintcheck_fonts.specs.SymbolicEnds.{AreKnown, StartsKnowing};
ghost use Rattle.hintcheck_fonts.specs.SymbolicRefusals.{IsSymbolicAnswer};
ghost use Rattle.tt_symbolic_check.specs.Starts.{StartsAs};
ghost use Rattle.tt_symbolic_state.specs.CvtMachine.{CvtMachine};

use std::alloc::{AllocError, Global};
use tt_code::Reason;
use tt_setting::{Refusal, Setting, SortedMap};
use tt_symbolic::NOTHING_KEPT;
use tt_symbolic_check::Start;
use tt_symbolic_search::{Effort, Search};
use tt_symbolic_state::State;

/// What is known at the end of a font program or a CVT program.
pub struct Ends {
    /// States that show together each machine that comes to the end.
    pub states: Vec<State>,
    /// The functions that all of these have, with their bodies.
    pub functions: SortedMap<u32>,
}

// Written out, so that who holds ends proves in one step that its memory is given back.
impl Drop for Ends {
    fn drop(self) {
        let Ends { states, functions } = self;
        drop(states);
        drop(functions);
    }
}

impl Ends {
    /// What is known at the end of a program that never comes there.
    pub fn none(alloc: Global) -> Ends {
        Ends {
            states: Vec::new(alloc),
            functions: SortedMap::new(alloc),
        }
    }
}

/// Makes the start with these functions, and any memory.
///
/// # Errors
/// If memory runs out.
fn start_with(alloc: Global, functions: &[(u16, u32)]) -> Result<Start, AllocError>
    requires { Ascends functions.now }
    ensures { IfOk result (λ start. (m : CvtMachine) → StartsKnowing functions.now m
        → StartsAs start m) }
{
    let mut start = Start::unknown(alloc);
    start.functions.replace(functions)?;
    Ok(start)
}

/// States that functions are listed by ascending numbers, as is always so.
fn order_facts(functions: &SortedMap<u32>)
    ensures { Ascends functions.now }
{
    let _ = functions.as_slice();
}

/// Returns the functions that all of the states have.
///
/// # Errors
/// If memory runs out.
fn known_functions(alloc: Global, states: &[State]) -> Result<SortedMap<u32>, AllocError>
    ensures { IfOk result (λ functions. AreKnown functions states.now) }
{
    let Some(first) = states.first() else {
        return Ok(SortedMap::new(alloc));
    };
    let mut known = first.functions.copied(alloc)?;
    for state in states {
        order_facts(&known);
        known.keep(&state.functions);
    }
    Ok(known)
}

/// Searches and checks a font program or a CVT program, which starts with these functions and any
/// memory. Returns what is known where it ends.
///
/// # Errors
/// Those of `Search::check`; and `NeverEnds`, at the program's first byte, where no run
/// comes to the end.
#[tactic(auto, using(crate::proofs::SymbolicAnswers::memory_answers, crate::proofs::SymbolicAnswers::symbols_answer))]
pub fn check_to_end(
    alloc: Global,
    search: &mut Search,
    effort: Effort,
    setting: &Setting<'_>,
    functions: &[(u16, u32)],
) -> Result<Ends, Refusal>
    requires { Ascends functions.now }
    ensures ended { IfOk result (IsEnded (setting_of setting.now) functions.now) }
    ensures answer { IfErr result (IsSymbolicAnswer setting.now functions.now) }
    ensures within { IfErr result IsOfNoBudget }
{
    let starts = [start_with(alloc, functions)?];
    let states = search.check(setting, &NOTHING_KEPT, &starts, effort)?;
    if states.is_empty() {
        return Err(Refusal::in_main(0, Reason::NeverEnds));
    }
    let functions = known_functions(alloc, states.as_slice())?;
    Ok(Ends { states, functions })
}
