//! How the state that is kept at a point is carried on, in place: until it comes to where states
//! are kept, or until it goes elsewhere.

ghost use Rattle.std.specs.Prelude.{◌≡◌, ◌<◌, ◌*◌, IfErr, IfOk, IfSome, IsTrue, OnOk, length};
ghost use Rattle.tt_setting.specs.Refusals.{IsOfNoBudget};
ghost use Rattle.tt_abs.specs.States.{state_order};
ghost use Rattle.tt_setting.specs.Budgets.{Counts, Spends, counted_from};
ghost use Rattle.tt_find.specs.Representation.BudgetStops.{IsStopOfNoBudget, StopTellsBudget};
ghost use Rattle.tt_find.specs.Representation.SolverSubjects.{EndsJustBefore, GoesOnFor, HasLawsFor, IsNextAfter, IsOnWayFor, IsPoppedFor, IsSteppedAt, IsWholeFor, LeadsAlong, LeadsOver, NamesRefusalAt, StopsFor};
ghost use Rattle.tt_find.specs.Representation.Solvers.{HasRisen, IsStored, IsWalk, KeepsEverywhere, MakesAtMost, StopsApart, TellsSource};

use crate::approach::Approach;
use crate::solver::Solver;
use crate::stop::Stop;
use crate::successor::resolve_successor;
use crate::walk::Walk;
use tt_abs::{Moves, Stepped, step_at};
use tt_family::{Budget, Builder, added_after};
use tt_setting::{Point, Refusal, Setting};

/// Returns where the state at an offset of the walk's context leads; the walk then holds what it
/// leads there. None at the main program's end.
///
/// # Errors
/// `Refused`, if the state is refused there; `Exhausted`.
fn step_state(
    builder: &Builder,
    walk: &mut Walk,
    setting: &Setting<'_>,
    offset: u32,
) -> Result<Option<Stepped>, Refusal>
    requires walk { IsWalk builder.now walk.old }
    requires in_range { state_order.InRange walk.old.state }
    ensures stepped { IfOk result (IsSteppedAt setting.now builder.now walk.old walk.new offset) }
    ensures walk { IfOk result (λ _. IsWalk builder.now walk.new) }
    ensures context { IfOk result (λ _. walk.new.context ≡ walk.old.context) }
    ensures refused { IfErr result (NamesRefusalAt setting.now builder.now walk.old offset) }
    ensures within { IfErr result IsOfNoBudget }
{
    let point = Point {
        frames: walk.frames.as_slice(),
        offset,
    };
    if setting.is_end(&point, offset) {
        return Ok(None);
    }
    walk.known = None;
    match step_at(setting, &point, &mut walk.state) {
        Ok(step) => Ok(Some(step)),
        Err(fault) => Err(builder.refused(walk.context, offset, fault)),
    }
}

/// Returns from where a state comes to an offset of a context: from the instruction just before it,
/// which ends at `after` in the context `here`, or from elsewhere.
fn approach_of(here: u32, context: u32, after: Option<u32>, next: u32) -> Approach
    ensures { TellsSource here context after next result }
{
    match after {
        Some(after) if after == next && context == here => Approach::JustBefore,
        _ => Approach::Elsewhere,
    }
}

/// Puts the walk's state at a point. From then on states are kept there.
///
/// # Errors
/// `Fault` with `Refused` for a state of another depth, at the point, or with `Exhausted`;
/// `Restart` where states went over that offset.
pub(crate) fn store(
    solver: &mut Solver,
    walk: &mut Walk,
    context: u32,
    offset: u32,
    source: Approach,
) -> Result<(), Stop>
    requires there { context < length solver.old.builder.contexts }
    requires in_range { state_order.InRange walk.old.state }
    requires room { solver.old.changes < 18446744073709551615 }
    requires walk { IsWalk solver.old.builder walk.old }
    ensures stored { IfOk result (λ _.
        IsStored solver.old solver.new context offset walk.old.state source) }
    ensures stops { IfErr result (StopsApart solver.old context offset walk.old.state) }
    ensures within { IfErr result IsStopOfNoBudget }
    ensures state { IfOk result (λ _. walk.new.state ≡ walk.old.state) }
    ensures context { IfOk result (λ _. walk.new.context ≡ walk.old.context) }
    ensures walk { IfOk result (λ _. IsWalk solver.new.builder walk.new) }
{
    let spot = solver.builder.spot(context);
    if !solver.marks.keep(spot, offset) {
        return Err(Stop::Restart);
    }
    let joined = match walk.put(solver, context, offset) {
        Ok(joined) => joined,
        Err(fault) => return Err(Stop::Fault(fault)),
    };
    if let Err(error) = solver.note(context, offset, source, joined) {
        return Err(Stop::from(error));
    }
    Ok(())
}

/// Whether the walk's state may pass this offset without being kept, if it comes from `source`.
fn goes_over(solver: &Solver, walk: &Walk, source: Approach, next: u32) -> bool
    ensures { IsTrue result → source ≡ Approach.JustBefore }
{
    match source {
        Approach::JustBefore => solver.may_pass(walk.context, walk.spot, next),
        Approach::Elsewhere => false,
    }
}

/// Leads the walk's state on to the offset just after the instruction that left it. Returns that
/// offset where the state passes it without being kept; otherwise the state is stored there.
///
/// # Errors
/// As `store`; `Fault` with `Exhausted` too where a pass can't be counted any more.
fn step_over(
    solver: &mut Solver,
    walk: &mut Walk,
    setting: &Setting<'_>,
    offset: u32,
    next: u32,
) -> Result<Option<u32>, Stop>
    requires laws { HasLawsFor setting.now }
    requires walk { IsWalk solver.old.builder walk.old }
    requires just { IsNextAfter setting.now solver.old.builder walk.old offset next }
    requires leading { LeadsOver setting.now solver.old walk.old offset next }
    ensures goes { IfOk result (GoesOnFor setting.now solver.new walk.new) }
    ensures further { IfOk result (λ onward. IfSome onward (λ at. offset < at)) }
    ensures risen { IfOk result (λ _. HasRisen solver.old solver.new) }
    ensures walk { IfOk result (λ _. IsWalk solver.new.builder walk.new) }
    ensures few { IfOk result (λ _. MakesAtMost 1 solver.old solver.new) }
    ensures stops { IfErr result (StopsFor setting.now solver.old.marks.everywhere) }
    ensures within { IfErr result IsStopOfNoBudget }
    ensures everywhere { IfOk result (λ _. KeepsEverywhere solver.old solver.new) }
{
    let context = walk.context;
    if solver.may_pass(context, walk.spot, next) {
        if let Err(error) = solver.pass(walk.spot, next) {
            return Err(Stop::from(error));
        }
        return Ok(Some(next));
    }
    if let Err(stop) = store(solver, walk, context, next, Approach::JustBefore) {
        return Err(stop);
    }
    Ok(None)
}

/// Leads the walk's state on to each place to which the ways of an instruction lead, one after the
/// other, and last to the one that it may pass without being kept. Returns that one's offset where
/// the state passes it.
///
/// # Errors
/// As `step_over`; `Fault` with `Refused` too for one context too many, at the instruction.
fn store_successors(
    solver: &mut Solver,
    walk: &mut Walk,
    setting: &Setting<'_>,
    offset: u32,
    after: Option<u32>,
    ways: Moves,
) -> Result<Option<u32>, Stop>
    requires laws { HasLawsFor setting.now }
    requires walk { IsWalk solver.old.builder walk.old }
    requires after { EndsJustBefore setting.now solver.old.builder walk.old offset after }
    requires leading { LeadsAlong setting.now solver.old walk.old offset ways }
    ensures goes { IfOk result (GoesOnFor setting.now solver.new walk.new) }
    ensures further { IfOk result (λ onward. IfSome onward (λ at. offset < at)) }
    ensures risen { IfOk result (λ _. HasRisen solver.old solver.new) }
    ensures walk { IfOk result (λ _. IsWalk solver.new.builder walk.new) }
    ensures few { IfOk result (λ _. MakesAtMost 2 solver.old solver.new) }
    ensures stops { IfErr result (StopsFor setting.now solver.old.marks.everywhere) }
    ensures within { IfErr result IsStopOfNoBudget }
    ensures everywhere { IfOk result (λ _. KeepsEverywhere solver.old solver.new) }
{
    let here = walk.context;
    let mut over = None;
    let mut index = 0;
    while let Some(way) = ways.get(index) {
        let (context, next) = match resolve_successor(&mut solver.builder, here, way) {
            Ok(place) => place,
            Err(fault) => {
                return Err(Stop::Fault(solver.builder.refused(here, offset, fault)));
            }
        };
        let source = approach_of(here, context, after, next);
        if over.is_none() && goes_over(solver, walk, source, next) {
            over = Some(next);
        } else if let Err(stop) = store(solver, walk, context, next, source) {
            return Err(stop);
        }
        index += 1;
    }
    match over {
        Some(next) => step_over(solver, walk, setting, offset, next),
        None => Ok(None),
    }
}

/// Carries the walk's state on at an offset of its context. Returns the next offset, if the state
/// goes on there in place.
///
/// # Errors
/// `Fault` with `Refused`, if the state is refused there, or enters one context too many; or for
/// two states of different depths, where they meet; or with `Exhausted`, also where the budget is
/// exceeded. `Restart` where a state is to be kept at an offset over which states went.
fn step_point(
    solver: &mut Solver,
    walk: &mut Walk,
    setting: &Setting<'_>,
    offset: u32,
    budget: &mut Budget,
) -> Result<Option<u32>, Stop>
    requires laws { HasLawsFor setting.now }
    requires walk { IsWalk solver.old.builder walk.old }
    requires way { IsOnWayFor setting.now solver.old walk.old offset }
    ensures goes { IfOk result (GoesOnFor setting.now solver.new walk.new) }
    ensures further { IfOk result (λ onward. IfSome onward (λ at. offset < at)) }
    ensures risen { IfOk result (λ _. HasRisen solver.old solver.new) }
    ensures walk { IfOk result (λ _. IsWalk solver.new.builder walk.new) }
    ensures few { IfOk result (λ _. MakesAtMost 2 solver.old solver.new) }
    ensures stops { IfErr result (StopsFor setting.now solver.old.marks.everywhere) }
    ensures everywhere { IfOk result (λ _. KeepsEverywhere solver.old solver.new) }
    ensures counted { OnOk result (Counts budget.old budget.new) }
    ensures spends { Spends budget.old budget.new }
    ensures budget { StopTellsBudget budget.old budget.new result }
{
    budget.spend()?;
    let step = match step_state(&solver.builder, walk, setting, offset) {
        Ok(Some(step)) => step,
        Ok(None) => return Ok(None),
        Err(fault) => return Err(Stop::Fault(fault)),
    };
    let point = Point {
        frames: walk.frames.as_slice(),
        offset,
    };
    let after = added_after(setting, &point, step.end);
    store_successors(solver, walk, setting, offset, after, step.moves)
}

/// Carries on the state at a point, in place as far as possible.
///
/// # Errors
/// As for each instruction on the way.
pub(crate) fn carry_on(
    solver: &mut Solver,
    walk: &mut Walk,
    setting: &Setting<'_>,
    context: u32,
    offset: u32,
    budget: &mut Budget,
) -> Result<(), Stop>
    requires laws { HasLawsFor setting.now }
    requires walk { IsWalk solver.old.builder walk.old }
    requires popped { IsPoppedFor setting.now solver.old context offset }
    ensures whole { IfOk result (λ _. IsWholeFor setting.now solver.new) }
    ensures risen { IfOk result (λ _. HasRisen solver.old solver.new) }
    ensures walk { IfOk result (λ _. IsWalk solver.new.builder walk.new) }
    ensures counted { IfOk result (λ _.
        MakesAtMost (2 * counted_from budget.old budget.new) solver.old solver.new) }
    ensures stops { IfErr result (StopsFor setting.now solver.old.marks.everywhere) }
    ensures everywhere { IfOk result (λ _. KeepsEverywhere solver.old solver.new) }
    ensures spends { Spends budget.old budget.new }
    ensures budget { StopTellsBudget budget.old budget.new result }
{
    walk.go_to(&solver.builder, context)?;
    if !walk.take(&solver.builder, context, offset)? {
        return Ok(());
    }
    let mut at = offset;
    while let Some(next) = step_point(solver, walk, setting, at, budget)? {
        at = next;
    }
    Ok(())
}
