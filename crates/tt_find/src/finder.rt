//! The finder: from the start, the state at the smallest point that is new or has changed is
//! carried on, until none is left.

ghost use Rattle.std.specs.Prelude.{◌≡◌, None, [], ◌∷◌, IfErr, IfOk, IfSome, OnErr, OnOk, is_some, option_map};
ghost use Rattle.std.specs.Option.{option_copied};
ghost use Rattle.tt_setting.specs.Entries.{Ascends};
ghost use Rattle.tt_setting.specs.Refusals.{IsOfNoBudget};
ghost use Rattle.tt_setting.specs.Settings.{setting_of};
ghost use Rattle.tt_abs.specs.StateFlow.{FunctionsFit};
ghost use Rattle.tt_setting.specs.Budgets.{IsExceeded, Spends, TellsBudget};
ghost use Rattle.tt_setting.specs.declared.exhausted.Exhausted.{Exhausted as Ended};
ghost use Rattle.tt_find.specs.FoundSubjects.{AreCounted, HasLeastContexts, HasOnlyNeeded, IsJustifiedFor, IsLeastFor, TellsNoEnd, TellsNoneIsGood};
ghost use Rattle.tt_find.specs.Representation.BudgetStops.{StopTellsBudget};
ghost use Rattle.tt_find.specs.Representation.Solvers.{updates_of};
ghost use Rattle.tt_find.specs.Representation.SolverSubjects.{HasLawsFor, IsFoundFor, IsWholeFor, StopsFor};
ghost use Rattle.tt_find.specs.Finders.{HasFound, IsEmptySolver};

use crate::approach::Approach;
use crate::carry::{carry_on, store};
use crate::solver::Solver;
use crate::stop::Stop;
use crate::walk::Walk;
use std::alloc::Global;
use std::collections::BTreeSet;
use std::mem;
use tt_abs::laws::flow_laws;
use tt_code::Reason;
use tt_family::{Budget, Builder, Certificate, PointKey, ends_well, is_short};
use tt_setting::{Exhausted, Refusal, Setting};

/// How often the finder starts with the marks that it has found. After that it keeps states
/// everywhere.
const STARTS: u32 = 8;

/// A family that was found, and how many updates made its filling: a point's first state is one
/// update, and each change of it is one more. Where states aren't kept, each that comes counts: so
/// a finder that has found other families before may come to another count.
#[derive(Drop)]
pub struct Found {
    pub certificate: Certificate,
    pub updates: u64,
}

/// What a search with a state at each point came to.
pub struct Explored {
    /// The family that was found: all of it where there is no fault, otherwise what the search had
    /// found when it came to the fault, and no count of updates.
    pub found: Found,
    /// Why the program is refused, if it is.
    pub fault: Option<Refusal>,
}

// Written out, so that who holds what was explored proves in one step that its memory is given back.
impl Drop for Explored {
    fn drop(self) {
        let Explored { found, fault } = self;
        drop(found);
        drop(fault);
    }
}

impl Explored {
    /// Returns the fault to which the search came, if it came to one.
    pub fn into_fault(self) -> Option<Refusal>
        ensures { result ≡ self.fault }
    {
        let Explored { found, fault } = self;
        drop(found);
        fault
    }
}

/// At which points the solver keeps the states that come there.
#[derive(Clone, Copy)]
enum KeptStates {
    WhereWaysMeet,
    Everywhere,
}

/// Which of the states that a search has kept the family lists that it finds.
#[derive(Clone, Copy)]
pub enum ListedStates {
    /// All of them.
    Kept,
    /// Only those without which the family has no filling.
    Needed,
}

/// States that the laws of the program's flow hold, that its height is so small that 64 bits count
/// all changes of kept states, and that the programs are short enough.
fn law_facts(setting: &Setting<'_>)
    requires ascends { Ascends setting.now.start.now }
    requires fits { FunctionsFit (setting_of setting.now) setting.now.start.now }
    ensures { HasLawsFor setting.now }
{
    flow_laws();
    setting.range_facts();
    prove!(u32::from(setting.limits.functions) < 1 << 16);
    prove!(u32::from(setting.limits.storage) < 1 << 16);
}

/// Fills an empty solver, from the start on, until no point waits.
///
/// # Errors
/// As `carry_on`, from each point.
fn run_to_fixpoint(
    alloc: Global,
    solver: &mut Solver,
    setting: &Setting<'_>,
    budget: &mut Budget,
) -> Result<(), Stop>
    requires ascends { Ascends setting.now.start.now }
    requires laws { HasLawsFor setting.now }
    requires empty { IsEmptySolver solver.old }
    ensures whole { IfOk result (λ _. IsWholeFor setting.now solver.new) }
    ensures none { IfOk result (λ _. solver.new.worklist ≡ []) }
    ensures counted { IfOk result (λ _.
        AreCounted budget.old budget.new (updates_of solver.new)) }
    ensures stops { IfErr result (StopsFor setting.now solver.old.marks.everywhere) }
    ensures spends { Spends budget.old budget.new }
    ensures budget { StopTellsBudget budget.old budget.new result }
{
    let mut walk = Walk::start(alloc, setting.start)?;
    solver.builder.family_facts();
    if let Err(stop) = store(solver, &mut walk, 0, 0, Approach::Elsewhere) {
        return Err(stop);
    }
    while let Some((context, offset)) = solver.worklist.pop_first() {
        if let Err(stop) = carry_on(solver, &mut walk, setting, context, offset, budget) {
            return Err(stop);
        }
    }
    Ok(())
}

/// Fills a solver anew, with states kept everywhere.
///
/// # Errors
/// As `Finder::find`, but not for a program that is too long or never ends.
fn fill_everywhere(
    alloc: Global,
    solver: &mut Solver,
    setting: &Setting<'_>,
    budget: &mut Budget,
) -> Result<(), Refusal>
    requires ascends { Ascends setting.now.start.now }
    requires laws { HasLawsFor setting.now }
    ensures whole { IfOk result (λ _. IsWholeFor setting.now solver.new) }
    ensures none { IfOk result (λ _. solver.new.worklist ≡ []) }
    ensures counted { IfOk result (λ _.
        AreCounted budget.old budget.new (updates_of solver.new)) }
    ensures justified { IfErr result (IsJustifiedFor setting.now) }
    ensures spends { Spends budget.old budget.new }
    ensures budget { TellsBudget budget.old budget.new result }
{
    solver.clear();
    solver.marks.everywhere = true;
    match run_to_fixpoint(alloc, solver, setting, budget) {
        Ok(()) => Ok(()),
        Err(Stop::Fault(fault)) => Err(fault),
        Err(Stop::Restart) => unreachable!(),
    }
}

/// Fills a solver anew, with states kept at the points where ways were found to meet, until no two
/// ways meet elsewhere; after `STARTS` such starts, with states kept everywhere.
///
/// # Errors
/// As `Finder::find`, but not for a program that is too long or never ends.
fn restart_to_fixpoint(
    alloc: Global,
    solver: &mut Solver,
    setting: &Setting<'_>,
    budget: &mut Budget,
) -> Result<(), Refusal>
    requires ascends { Ascends setting.now.start.now }
    requires laws { HasLawsFor setting.now }
    ensures whole { IfOk result (λ _. IsWholeFor setting.now solver.new) }
    ensures none { IfOk result (λ _. solver.new.worklist ≡ []) }
    ensures counted { IfOk result (λ _.
        AreCounted budget.old budget.new (updates_of solver.new)) }
    ensures justified { IfErr result (IsJustifiedFor setting.now) }
    ensures spends { Spends budget.old budget.new }
    ensures budget { TellsBudget budget.old budget.new result }
{
    solver.marks.begin(setting)?;
    for _ in 0..STARTS {
        solver.clear();
        match run_to_fixpoint(alloc, solver, setting, budget) {
            Ok(()) => return Ok(()),
            Err(Stop::Fault(fault)) => return Err(fault),
            Err(Stop::Restart) => {}
        }
    }
    fill_everywhere(alloc, solver, setting, budget)
}

/// Fills a solver anew, with states kept everywhere or where ways meet.
///
/// # Errors
/// As `Finder::find`, but not for a program that is too long or never ends.
fn fill(
    alloc: Global,
    solver: &mut Solver,
    setting: &Setting<'_>,
    kept: KeptStates,
    budget: &mut Budget,
) -> Result<(), Refusal>
    requires ascends { Ascends setting.now.start.now }
    requires laws { HasLawsFor setting.now }
    ensures whole { IfOk result (λ _. IsWholeFor setting.now solver.new) }
    ensures none { IfOk result (λ _. solver.new.worklist ≡ []) }
    ensures counted { IfOk result (λ _.
        AreCounted budget.old budget.new (updates_of solver.new)) }
    ensures justified { IfErr result (IsJustifiedFor setting.now) }
    ensures spends { Spends budget.old budget.new }
    ensures budget { TellsBudget budget.old budget.new result }
{
    match kept {
        KeptStates::WhereWaysMeet => restart_to_fixpoint(alloc, solver, setting, budget),
        KeptStates::Everywhere => fill_everywhere(alloc, solver, setting, budget),
    }
}

/// Fills a solver with the least good family, and returns how many updates that took.
///
/// # Errors
/// As `Finder::find`.
fn find_fixpoint(
    alloc: Global,
    solver: &mut Solver,
    setting: &Setting<'_>,
    kept: KeptStates,
    budget: &mut Budget,
) -> Result<u64, Refusal>
    requires ascends { Ascends setting.now.start.now }
    requires fits { FunctionsFit (setting_of setting.now) setting.now.start.now }
    ensures laws { HasLawsFor setting.now }
    ensures found { IfOk result (IsFoundFor setting.now solver.new) }
    ensures counted { IfOk result (AreCounted budget.old budget.new) }
    ensures justified { IfErr result (IsJustifiedFor setting.now) }
    ensures spends { Spends budget.old budget.new }
    ensures budget { TellsBudget budget.old budget.new result }
{
    law_facts(setting);
    if !is_short(setting) {
        let most = u32::from(setting.limits.program_size);
        return Err(Refusal::in_main(most, Reason::ProgramTooLong));
    }
    if let Err(fault) = fill(alloc, solver, setting, kept, budget) {
        return Err(fault);
    }
    if !ends_well(setting, &solver.builder) {
        return Err(Refusal::in_main(0, Reason::NeverEnds));
    }
    match solver.changes.checked_add(solver.passes) {
        Some(updates) => Ok(updates),
        None => Err(Refusal::Exhausted(Exhausted::Memory)),
    }
}

/// Takes a builder, and empties it.
fn take_emptied(alloc: Global, builder: &mut Builder) -> Builder
    ensures contexts { result.contexts ≡ [] ∷ [] }
    ensures states { result.states ≡ [] }
{
    let mut taken = mem::replace(builder, Builder::new(alloc));
    taken.clear();
    taken
}

/// Takes the points out of the spare ones whose states a family leaves out that lists these.
fn take_left_out(
    alloc: Global,
    listed: ListedStates,
    spare: &mut BTreeSet<PointKey>,
) -> BTreeSet<PointKey>
    ensures kept { listed ≡ ListedStates.Kept → result.keys ≡ [] }
    ensures needed { listed ≡ ListedStates.Needed → result.keys ≡ spare.old.keys }
{
    match listed {
        ListedStates::Kept => BTreeSet::new(alloc),
        ListedStates::Needed => mem::replace(spare, BTreeSet::new(alloc)),
    }
}

/// A finder, whose memory one program after another uses. It keeps the family that its last search
/// found, which it lends, until the next search takes the memory.
pub struct Finder {
    solver: Solver,
    /// A builder in whose memory a family is made anew.
    memory: Builder,
    /// What the last search found, if it found a family.
    found: Option<Found>,
}

// Written out, so that who holds a finder proves in one step that its memory is given back.
impl Drop for Finder {
    fn drop(self) {
        let Finder {
            solver,
            memory,
            found,
        } = self;
        drop(solver);
        drop(memory);
        drop(found);
    }
}

impl Finder {
    /// Makes a finder, which has found nothing. It takes no memory.
    pub fn new(alloc: Global) -> Finder
        ensures empty { IsEmptySolver result.solver }
        ensures none { result.found ≡ None }
    {
        Finder {
            solver: Solver::new(alloc),
            memory: Builder::new(alloc),
            found: None,
        }
    }

    /// Lends the certificate of the family that the last search found, if it found one.
    pub fn certificate(&self) -> Option<&Certificate>
        ensures value { option_copied result
            ≡ option_map (λ found. found.certificate) self.now.found }
        ensures variant { is_some result ≡ is_some self.now.found }
    {
        match &self.found {
            Some(found) => Some(&found.certificate),
            None => None,
        }
    }

    /// Returns what the last search found, if it found a family.
    pub fn into_found(self) -> Option<Found>
        ensures { result ≡ self.found }
    {
        let Finder {
            solver,
            memory,
            found,
        } = self;
        drop(solver);
        drop(memory);
        found
    }

    /// Takes the memory of what the last search found for the next one.
    fn reuse_memory(&mut self)
        ensures { self.new.found ≡ None }
    {
        if let Some(found) = self.found.take() {
            self.solver.builder = found.certificate.into_builder();
        }
    }

    /// Finds the least family as `find` does, and makes at most as many points as the budget allows:
    /// one that lists these of its states. The finder keeps it in place of the one before. Returns how
    /// many updates made its filling.
    ///
    /// # Errors
    /// As `find`; then the finder keeps no family.
    pub fn find(
        &mut self,
        alloc: Global,
        setting: &Setting<'_>,
        listed: ListedStates,
        budget: &mut Budget,
    ) -> Result<u64, Refusal>
        requires ascends { Ascends setting.now.start.now }
        requires fits { FunctionsFit (setting_of setting.now) setting.now.start.now }
        ensures kept { IfOk result (HasFound self.new) }
        ensures filling { OnOk result (IfSome self.new.found (IsLeastFor setting.now)) }
        ensures contexts { OnOk result (IfSome self.new.found (HasLeastContexts setting.now)) }
        ensures needed { listed ≡ ListedStates.Needed
            → OnOk result (IfSome self.new.found (HasOnlyNeeded setting.now)) }
        ensures counted { IfOk result (AreCounted budget.old budget.new) }
        ensures none { OnErr result (self.new.found ≡ None) }
        ensures justified { IfErr result (IsJustifiedFor setting.now) }
        ensures none_good { IfErr result (TellsNoneIsGood setting.now) }
        ensures never_ends { TellsNoEnd setting.now result }
        ensures spends { Spends budget.old budget.new }
        ensures budget { TellsBudget budget.old budget.new result }
    {
        self.reuse_memory();
        let kept = KeptStates::WhereWaysMeet;
        let updates = match find_fixpoint(alloc, &mut self.solver, setting, kept, budget) {
            Ok(updates) => updates,
            Err(fault) => return Err(fault),
        };
        let builder = mem::replace(&mut self.solver.builder, Builder::new(alloc));
        let left_out = take_left_out(alloc, listed, &mut self.solver.spare);
        let memory = take_emptied(alloc, &mut self.memory);
        match builder.finish_without(&left_out, memory) {
            Ok((certificate, rest)) => {
                self.memory = rest;
                self.found = Some(Found {
                    certificate,
                    updates,
                });
                Ok(updates)
            }
            Err(_) => Err(Refusal::Exhausted(Exhausted::Memory)),
        }
    }
}

/// Returns the least family that is good for the program of this setting, without the states that a
/// filling adds. The smallest point that is new or has changed is taken first, by the number of its
/// context, which is the order in which contexts were entered, and by its offset within one; of two
/// ways the one to the smaller offset comes first.
///
/// # Errors
/// `Refused`, for a glyph program longer than maxSizeOfInstructions, at that offset; for a state
/// that an instruction refuses, with its reason, at that instruction; for two states of different
/// depths, where they meet; for more than 65,535 contexts, at the instruction that enters one more;
/// for a font program or a CVT program that never comes to its end, at its start. `Exhausted` by
/// memory.
pub fn find(alloc: Global, setting: &Setting<'_>) -> Result<Found, Refusal>
    requires ascends { Ascends setting.now.start.now }
    requires fits { FunctionsFit (setting_of setting.now) setting.now.start.now }
    ensures filling { IfOk result (IsLeastFor setting.now) }
    ensures contexts { IfOk result (HasLeastContexts setting.now) }
    ensures needed { IfOk result (HasOnlyNeeded setting.now) }
    ensures justified { IfErr result (IsJustifiedFor setting.now) }
    ensures none_good { IfErr result (TellsNoneIsGood setting.now) }
    ensures never_ends { TellsNoEnd setting.now result }
    ensures within { IfErr result IsOfNoBudget }
{
    let mut finder = Finder::new(alloc);
    match finder.find(
        alloc,
        setting,
        ListedStates::Needed,
        &mut Budget::unlimited(),
    ) {
        Ok(_) => Ok(finder.into_found().unwrap()),
        // No program has so many points.
        Err(fault) => Err(fault.without_budget()),
    }
}

/// Finds the least family as `find` does, with a state at each point that the search comes to, and
/// keeps what it has found where a fault ends the search: the fault's point has its state then,
/// unless the program is too long. At most as many points are made as the budget allows.
///
/// # Errors
/// What ended the search without an answer.
pub fn explore(
    alloc: Global,
    setting: &Setting<'_>,
    budget: &mut Budget,
) -> Result<Explored, Exhausted>
    requires ascends { Ascends setting.now.start.now }
    requires fits { FunctionsFit (setting_of setting.now) setting.now.start.now }
    ensures filling { IfOk result (λ explored. explored.fault ≡ None
        → IsLeastFor setting.now explored.found) }
    ensures contexts { IfOk result (λ explored. explored.fault ≡ None
        → HasLeastContexts setting.now explored.found) }
    ensures justified { IfOk result (λ explored. IfSome explored.fault
        (IsJustifiedFor setting.now)) }
    ensures none_good { IfOk result (λ explored. IfSome explored.fault
        (TellsNoneIsGood setting.now)) }
    ensures spends { Spends budget.old budget.new }
    ensures budget { IfErr result (λ by. by ≡ Ended.Budget → IsExceeded budget.new) }
{
    let mut solver = Solver::new(alloc);
    let kept = KeptStates::Everywhere;
    let outcome = find_fixpoint(alloc, &mut solver, setting, kept, budget);
    let builder = mem::replace(&mut solver.builder, Builder::new(alloc));
    let Ok(certificate) = builder.finish() else {
        return Err(Exhausted::Memory);
    };
    match outcome {
        Ok(updates) => Ok(Explored {
            found: Found {
                certificate,
                updates,
            },
            fault: None,
        }),
        Err(Refusal::Exhausted(by)) => Err(by),
        Err(fault) => Ok(Explored {
            found: Found {
                certificate,
                updates: 0,
            },
            fault: Some(fault),
        }),
    }
}
