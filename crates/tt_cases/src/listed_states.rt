//! A guide of walks that goes by listed states.

ghost use Rattle.std.specs.Prelude.{IfOk, IfSome};
ghost use Rattle.tt_symbolic_check.specs.Moves.{IsFair};

use std::alloc::{AllocError, Global};
use tt_abs::Setting;
use tt_setting::StepFault;
use tt_symbolic::step::code_at;
use tt_symbolic_check::{Guide, Move, Pool, Walk, covers_by, wanted};
use tt_symbolic_state::State;

/// Guides a walk: a state which a listed one covers is widened to that, which becomes a head; later
/// ones stop there.
#[derive(Drop)]
pub(crate) struct Listed<'a> {
    setting: &'a Setting<'a>,
    listed: &'a [State],
    /// How many numbers the range of a symbol may have that a comparison splits.
    widest: i64,
    /// Which listed states are heads, in the order of the heads.
    heads: Vec<usize>,
    /// Which listed state is looked at next.
    next: usize,
    /// The listed state to which the state was widened, until that is a head.
    widened: Option<usize>,
    /// How many waited when a state was to stop: as many where it couldn't.
    stopping: Option<usize>,
}

/// Lets a state stop at the head of this number, if that covers it.
fn stop_at(
    walk: &Walk,
    state: &State,
    number: usize,
    pool: &mut Pool,
) -> Result<Option<Move>, AllocError>
    ensures fair { IfOk result (λ chosen. IfSome chosen (IsFair walk.now state.now)) }
{
    let Some(head) = walk.heads.get(number) else {
        return Ok(None);
    };
    if covers_by(&mut pool.assigned, state, head)? {
        return Ok(Some(Move::Stop(number)));
    }
    Ok(None)
}

impl<'a> Listed<'a> {
    /// Makes the guide by these states.
    pub(crate) fn new(
        alloc: Global,
        setting: &'a Setting<'a>,
        listed: &'a [State],
        widest: i64,
    ) -> Listed<'a> {
        Listed {
            setting,
            listed,
            widest,
            heads: Vec::new(alloc),
            next: 0,
            widened: None,
            stopping: None,
        }
    }

    /// Lets a state stop at a listed state that covers it, or be widened to that.
    fn meet(
        &mut self,
        walk: &Walk,
        state: &State,
        place: usize,
        pool: &mut Pool,
    ) -> Result<Option<Move>, AllocError>
        ensures fair { IfOk result (λ chosen. IfSome chosen (IsFair walk.now state.now)) }
    {
        let Some(there) = self.listed.get(place) else {
            return Ok(None);
        };
        self.next = place.saturating_add(1);
        if let Some(number) = self.heads.iter().position(|head| *head == place) {
            self.stopping = Some(walk.pending.len());
            return stop_at(walk, state, number, pool);
        }
        let wider = pool.copied(there)?;
        if !covers_by(&mut pool.assigned, state, &wider)? {
            return Ok(None);
        }
        self.widened = Some(place);
        Ok(Some(Move::Widen(wider, usize::MAX)))
    }

    /// Returns the next listed state that covers a state.
    fn covering(&self, state: &State, pool: &mut Pool) -> Result<usize, AllocError> {
        for place in self.next..self.listed.len() {
            if covers_by(&mut pool.assigned, state, &self.listed[place])? {
                return Ok(place);
            }
        }
        Ok(self.listed.len())
    }

    /// Chooses what becomes of a state.
    fn chosen(&mut self, walk: &Walk, state: &State, pool: &mut Pool) -> Result<Move, AllocError>
        ensures fair { IfOk result (IsFair walk.now state.now) }
    {
        if let Some(place) = self.widened.take() {
            self.heads.push(place)?;
            return Ok(Move::Head);
        }
        if let Some(before) = self.stopping.take() {
            if walk.pending.len() != before {
                self.next = 0;
            }
        }
        let place = self.covering(state, pool)?;
        if let Some(chosen) = self.meet(walk, state, place, pool)? {
            return Ok(chosen);
        }
        let code = code_at(self.setting, state);
        match code.and_then(|code| wanted(code, state, self.widest)) {
            Some(split) => Ok(Move::Split(split, usize::MAX)),
            None => {
                self.next = 0;
                Ok(Move::Go)
            }
        }
    }
}

impl Guide for Listed<'_> {
    fn choose(&mut self, walk: &Walk, state: &State, pool: &mut Pool) -> Result<Move, StepFault> {
        Ok(self.chosen(walk, state, pool)?)
    }

    fn stepped(&mut self, state: &State) -> Result<(), AllocError> {
        let _ = state;
        Ok(())
    }

    fn refused(&mut self, state: &State, fault: &StepFault) -> Result<(), AllocError> {
        let _ = state;
        let _ = fault;
        Ok(())
    }
}
