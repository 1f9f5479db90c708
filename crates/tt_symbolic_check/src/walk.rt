//! The walk: what waits is carried on, a state at a time, as a guide chooses, until nothing waits.

ghost use Rattle.std.specs.Prelude.{◌≡◌, [], ℕ, IfErr, IfOk, IfSome, OnOk, None, Some, false, length, slice_get, ◌&&◌};
ghost use Rattle.tt_setting.specs.Refusals.{IsOfNoBudget};
ghost use Rattle.tt_symbolic_check.specs.Covering.{Covers};
ghost use Rattle.tt_symbolic_check.specs.Moves.{CoversAt, IsCoveredAt, IsCoveredByHead, IsFair};
ghost use Rattle.tt_symbolic_check.specs.Walking.{Begins, EndsAs, Finishes, IsMet, LeadsFrom, NothingPending, PutsEnd, PutsHead, PutsPending, ReachesFrom, TakesPending};

use crate::copying::{Split, lower, raise};
use crate::guide::{Guide, Move};
use crate::pool::Pool;
use crate::site::{START, Site, too_many_steps};
use crate::start::{Start, start_state};
use std::alloc::{AllocError, Global};
use tt_setting::{Point, Refusal, Setting, StepFault};
use tt_symbolic::kept::{Kept, step_keeping};
use tt_symbolic_state::state::State;

/// The place behind all that waits: what waits there is carried on next.
const NEXT: usize = usize::MAX;

/// A state that waits to be carried on.
#[derive(Drop)]
pub struct Pending {
    /// The state, in a box, so that no step moves it.
    pub state: Box<State>,
    /// Whether it may go no further where a head covers it: it has made a step since it was one.
    pub may_stop: bool,
}

/// What was done so far, and what is still to be done.
#[derive(Drop)]
pub struct Walk {
    /// The states at which others may stop: each is walked itself.
    pub heads: Vec<State>,
    /// What waits. The last is carried on next.
    pub pending: Vec<Pending>,
    /// The states at the main program's end.
    pub ends: Vec<State>,
}

/// Lets a state wait at a place, or behind all that waits.
fn put_pending(
    walk: &mut Walk,
    place: usize,
    state: Box<State>,
    may_stop: bool,
) -> Result<(), AllocError>
    ensures { OnOk result (PutsPending state may_stop walk.old walk.new) }
{
    let place = place.min(walk.pending.len());
    walk.pending.insert(place, Pending { state, may_stop })?;
    Ok(())
}

/// Takes what waits at a place.
fn take_pending(walk: &mut Walk, place: usize) -> Option<Pending>
    ensures some { IfSome result (TakesPending walk.old walk.new) }
    ensures found { IfSome result (λ p. slice_get walk.old.pending.items place ≡ Some p) }
    ensures none { result ≡ None → walk.new ≡ walk.old }
{
    if place >= walk.pending.len() {
        return None;
    }
    Some(walk.pending.remove(place))
}

/// Takes what is carried on next.
fn take_next(walk: &mut Walk) -> Option<Pending>
    ensures some { IfSome result (TakesPending walk.old walk.new) }
    ensures none { result ≡ None → NothingPending walk.old walk.new }
{
    walk.pending.pop()
}

/// Puts a state among the heads.
fn put_head(walk: &mut Walk, state: State) -> Result<(), AllocError>
    ensures { OnOk result (PutsHead state walk.old walk.new) }
{
    walk.heads.push(state)?;
    Ok(())
}

/// Puts a state among the ends.
fn put_end(walk: &mut Walk, state: State) -> Result<(), AllocError>
    ensures { OnOk result (PutsEnd state walk.old walk.new) }
{
    walk.ends.push(state)?;
    Ok(())
}

/// Whether the state is at the main program's end.
pub fn is_at_end(setting: &Setting<'_>, state: &State) -> bool
    ensures { EndsAs setting.now state.now result }
{
    match state.calls.as_slice() {
        [] => {
            let point = Point {
                frames: &[],
                offset: state.offset,
            };
            setting.is_end(&point, state.offset)
        }
        _ => false,
    }
}

/// Carries on the lower part of a state, and lets the upper one wait at a place.
fn split_up(
    pool: &mut Pool,
    walk: &mut Walk,
    entry: Pending,
    split: Split,
    place: usize,
) -> Result<(), AllocError>
    ensures { OnOk result (LeadsFrom walk.old walk.new entry.may_stop entry.state.value) }
{
    let Pending { state, may_stop } = entry;
    let mut low = pool.copied(&state)?;
    lower(&mut low, split);
    let mut high = state;
    raise(&mut high, split);
    put_pending(walk, place, high, may_stop)?;
    put_pending(walk, NEXT, low, may_stop)?;
    Ok(())
}

/// Carries a state on: to the ends, or by a step.
fn carry_on<G: Guide>(
    setting: &Setting<'_>,
    kept: &Kept<'_>,
    walk: &mut Walk,
    state: Box<State>,
    guide: &mut G,
) -> Result<(), StepFault>
    ensures { OnOk result
        (ReachesFrom setting.now kept.now walk.old walk.new false state.value) }
{
    if is_at_end(setting, &state) {
        put_end(walk, Box::into_inner(state))?;
        return Ok(());
    }
    let mut next = state;
    match step_keeping(setting, kept, &mut next) {
        Ok(()) => {
            guide.stepped(&next)?;
            put_pending(walk, NEXT, next, true)?;
            Ok(())
        }
        Err(fault) => {
            guide.refused(&next, &fault)?;
            Err(fault)
        }
    }
}

/// Lets a wider state wait at a place instead of the one that was taken, which it covers.
fn widen(
    pool: &mut Pool,
    walk: &mut Walk,
    entry: Pending,
    wider: Box<State>,
    place: usize,
) -> Result<(), AllocError>
    requires { Covers entry.state.value wider.value }
    ensures { OnOk result (LeadsFrom walk.old walk.new entry.may_stop entry.state.value) }
{
    pool.keep(entry.state)?;
    put_pending(walk, place, wider, entry.may_stop)
}

/// Whether both are so.
fn both(one: bool, other: bool) -> bool
    ensures { result ≡ (one && other) }
{
    one && other
}

/// Lets a state go no further, since the one that waits at a place covers it.
fn meet(pool: &mut Pool, walk: &mut Walk, entry: Pending, place: usize) -> Result<(), AllocError>
    requires { IsCoveredAt walk.old.pending.items place entry.state.value }
    ensures { OnOk result (LeadsFrom walk.old walk.new entry.may_stop entry.state.value) }
{
    let Some(other) = take_pending(walk, place) else {
        return put_pending(walk, NEXT, entry.state, entry.may_stop);
    };
    pool.keep(entry.state)?;
    put_pending(
        walk,
        place,
        other.state,
        both(entry.may_stop, other.may_stop),
    )
}

/// Lets a joined state wait instead of two, the one that was taken and the one that waits at a
/// place: it covers both.
fn join(
    pool: &mut Pool,
    walk: &mut Walk,
    entry: Pending,
    place: usize,
    joined: Box<State>,
) -> Result<(), AllocError>
    requires one { Covers entry.state.value joined.value }
    requires other { CoversAt walk.old.pending.items place joined.value }
    ensures { OnOk result (LeadsFrom walk.old walk.new entry.may_stop entry.state.value) }
{
    let Some(other) = take_pending(walk, place) else {
        return put_pending(walk, NEXT, entry.state, entry.may_stop);
    };
    pool.keep(entry.state)?;
    pool.keep(other.state)?;
    put_pending(walk, place, joined, both(entry.may_stop, other.may_stop))
}

/// Makes a head of a copy of a state, which is carried on: it stops at no head before its next step.
fn begin_head(pool: &mut Pool, walk: &mut Walk, entry: Pending) -> Result<(), AllocError>
    ensures { OnOk result (LeadsFrom walk.old walk.new entry.may_stop entry.state.value) }
{
    let head = pool.exact_copy(&entry.state)?;
    put_head(walk, head)?;
    put_pending(walk, NEXT, entry.state, false)?;
    Ok(())
}

/// Lets a state go no further, if it may stop, since the head of this number covers it.
fn stop(pool: &mut Pool, walk: &mut Walk, entry: Pending, place: usize) -> Result<(), AllocError>
    requires { IsCoveredByHead walk.old.heads.items place entry.state.value }
    ensures { OnOk result (LeadsFrom walk.old walk.new entry.may_stop entry.state.value) }
{
    match walk.heads.get(place) {
        Some(_) if entry.may_stop => {
            pool.keep(entry.state)?;
            Ok(())
        }
        _ => put_pending(walk, NEXT, entry.state, entry.may_stop),
    }
}

/// Does with a state what was chosen.
fn go_on<G: Guide>(
    pool: &mut Pool,
    setting: &Setting<'_>,
    kept: &Kept<'_>,
    walk: &mut Walk,
    entry: Pending,
    chosen: Move,
    guide: &mut G,
) -> Result<(), StepFault>
    requires { IsFair walk.old entry.state.value chosen }
    ensures { OnOk result
        (ReachesFrom setting.now kept.now walk.old walk.new entry.may_stop entry.state.value) }
{
    match chosen {
        Move::Go => carry_on(setting, kept, walk, entry.state, guide),
        Move::Split(split, place) => Ok(split_up(pool, walk, entry, split, place)?),
        Move::Wait(place) => Ok(put_pending(walk, place, entry.state, entry.may_stop)?),
        Move::Widen(wider, place) => Ok(widen(pool, walk, entry, wider, place)?),
        Move::Meet(place) => Ok(meet(pool, walk, entry, place)?),
        Move::Join(place, joined) => Ok(join(pool, walk, entry, place, joined)?),
        Move::Head => Ok(begin_head(pool, walk, entry)?),
        Move::Stop(place) => Ok(stop(pool, walk, entry, place)?),
    }
}

/// Makes the walk that has done nothing, and in which nothing waits.
fn fresh_walk(alloc: Global, setting: &Setting<'_>, kept: &Kept<'_>, starts: &[Start]) -> Walk
    ensures { Begins setting.now kept.now 0 starts.now result }
{
    Walk {
        heads: Vec::new(alloc),
        pending: Vec::new(alloc),
        ends: Vec::new(alloc),
    }
}

/// Lets each start wait: the last is carried on next.
///
/// # Errors
/// If memory runs out.
pub fn begin(
    alloc: Global,
    setting: &Setting<'_>,
    kept: &Kept<'_>,
    starts: &[Start],
) -> Result<Walk, AllocError>
    ensures { IfOk result (Begins setting.now kept.now (length starts.now) starts.now) }
{
    let mut walk = fresh_walk(alloc, setting, kept, starts);
    for i in 0..starts.len() {
        let start = start_state(alloc, &starts[i])?;
        let state = Box::new(alloc, start)?;
        put_pending(&mut walk, NEXT, state, true)?;
    }
    Ok(walk)
}

/// Carries on what waits, as the guide chooses, until nothing waits.
///
/// # Errors
/// `TooManySteps`, at the program's start, where something waits after so many moves; otherwise
/// where an instruction is refused and why, why the guide gives up, at the program's start, or that
/// memory ran out.
pub fn walk_on<G: Guide>(
    pool: &mut Pool,
    setting: &Setting<'_>,
    kept: &Kept<'_>,
    walk: &mut Walk,
    guide: &mut G,
    moves: u64,
) -> Result<(), Refusal>
    ensures finishes { OnOk result (Finishes setting.now kept.now walk.old walk.new) }
    ensures within { IfErr result IsOfNoBudget }
{
    for step in 0..moves {
        let Some(entry) = take_next(walk) else {
            return Ok(());
        };
        let site = Site::of(&entry.state);
        let chosen = match guide.choose(walk, &entry.state, pool) {
            Ok(chosen) => chosen,
            Err(fault) => return Err(START.refused(fault)),
        };
        if let Err(fault) = go_on(pool, setting, kept, walk, entry, chosen, guide) {
            return Err(site.refused(fault));
        }
    }
    Err(too_many_steps())
}
