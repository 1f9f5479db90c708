//! The finder's walk: what it keeps from one point to the next.

ghost use Rattle.std.specs.Prelude.{◌≡◌, ◌↔◌, ◌<◌, IfErr, IfOk, IsFalse, IsTrue, None, Some, length};
ghost use Rattle.tt_setting.specs.Entries.{Ascends};
ghost use Rattle.tt_setting.specs.Refusals.{IsOfNoBudget};
ghost use Rattle.tt_abs.specs.States.{start_of, state_order};
ghost use Rattle.tt_family.specs.Contents.{Contents, IsFamily, state_at};
ghost use Rattle.tt_family.specs.Joins.{TellsNewAt};
ghost use Rattle.tt_find.specs.Representation.Solvers.{IsPut, IsWalk, KeepsRest, NamesApart};

use crate::solver::Solver;
use std::alloc::{AllocError, Global};
use tt_abs::State;
use tt_code::Frame;
use tt_family::{Builder, Joined, PointKey};
use tt_setting::{Refusal, Spot};

/// Where the finder is: a context and its calls, the outermost first, and the state that is carried
/// on, always in the same memory.
pub(crate) struct Walk {
    pub context: u32,
    pub frames: Vec<Frame>,
    /// In which program the context is.
    pub spot: Spot,
    pub state: State,
    /// A point that is known to have this state, as its context's number and its offset.
    pub known: Option<PointKey>,
}

// Written out, so that who holds a walk proves in one step that its memory is given back.
impl Drop for Walk {
    fn drop(self) {
        let Walk {
            context: _,
            frames,
            spot: _,
            state,
            known,
        } = self;
        drop(frames);
        drop(state);
        drop(known);
    }
}

impl Walk {
    /// Makes a walk that begins in the empty context, with the state in which a program starts
    /// where these functions are known.
    ///
    /// # Errors
    /// If memory runs out.
    pub(crate) fn start(alloc: Global, functions: &[(u16, u32)]) -> Result<Walk, AllocError>
        requires { Ascends functions.now }
        ensures walk { IfOk result (λ walk.
            (contents : Contents) → IsFamily contents → IsWalk contents walk) }
        ensures state { IfOk result (λ walk. walk.state ≡ start_of functions.now) }
        ensures in_range { IfOk result (λ walk. state_order.InRange walk.state) }
    {
        Ok(Walk {
            context: 0,
            frames: Vec::new(alloc),
            spot: Spot::Main,
            state: State::start(alloc, functions)?,
            known: None,
        })
    }

    /// Goes to a context, unless the walk is there already.
    ///
    /// # Errors
    /// If memory runs out.
    pub(crate) fn go_to(&mut self, builder: &Builder, context: u32) -> Result<(), AllocError>
        requires walk { IsWalk builder.now self.old }
        requires there { context < length builder.now.contexts }
        ensures walk { IfOk result (λ _. IsWalk builder.now self.new) }
        ensures context { IfOk result (λ _. self.new.context ≡ context) }
    {
        if context != self.context {
            builder.read_frames(context, &mut self.frames)?;
            self.spot = builder.spot(context);
            self.context = context;
        }
        Ok(())
    }

    /// Makes the walk's state the one at a point, unless it is that one already, and returns
    /// whether there is one.
    ///
    /// # Errors
    /// If memory runs out.
    pub(crate) fn take(
        &mut self,
        builder: &Builder,
        context: u32,
        offset: u32,
    ) -> Result<bool, AllocError>
        requires { IsWalk builder.now self.old }
        ensures some { IfOk result (λ found. IsTrue found
            → state_at builder.now context offset ≡ Some self.new.state) }
        ensures none { IfOk result (λ found. IsFalse found
            → state_at builder.now context offset ≡ None) }
        ensures walk { IfOk result (λ _. IsWalk builder.now self.new) }
        ensures context { self.new.context ≡ self.old.context }
    {
        if self.is_at(context, offset) {
            return Ok(true);
        }
        let Some(state) = builder.state(context, offset) else {
            return Ok(false);
        };
        self.state.copy_from(state)?;
        self.known = Some((context, offset));
        Ok(true)
    }

    /// Whether the walk's state is known to be the one at this point.
    fn is_at(&self, context: u32, offset: u32) -> bool
        ensures { IsTrue result ↔ (self.now.known ≡ Some (context, offset)) }
    {
        match self.known {
            Some(known) => known == (context, offset),
            None => false,
        }
    }

    /// Puts the walk's state at a point, as `Solver::put` does. If there was no state, the point is
    /// then known to have this one, unless another point is.
    ///
    /// # Errors
    /// As `Solver::put`.
    pub(crate) fn put(
        &mut self,
        solver: &mut Solver,
        context: u32,
        offset: u32,
    ) -> Result<Joined, Refusal>
        requires there { context < length solver.old.builder.contexts }
        requires in_range { state_order.InRange self.old.state }
        requires room { solver.old.changes < 18446744073709551615 }
        requires walk { IsWalk solver.old.builder self.old }
        ensures put { IfOk result (λ _. IsPut solver.old solver.new context offset self.old.state) }
        ensures rest { IfOk result (λ _. KeepsRest solver.old solver.new) }
        ensures tells { IfOk result (TellsNewAt solver.old.builder context offset) }
        ensures apart { IfErr result (NamesApart solver.old.builder context offset self.old.state) }
        ensures within { IfErr result IsOfNoBudget }
        ensures state { self.new.state ≡ self.old.state }
        ensures context { self.new.context ≡ self.old.context }
        ensures walk { IfOk result (λ _. IsWalk solver.new.builder self.new) }
    {
        solver.builder.family_facts();
        let joined = match solver.put(context, offset, &self.state) {
            Ok(joined) => joined,
            Err(fault) => return Err(fault),
        };
        if self.known.is_none() {
            if let Joined::New = joined {
                self.known = Some((context, offset));
            }
        } else if self.is_at(context, offset) {
            self.known = None;
        }
        Ok(joined)
    }
}
