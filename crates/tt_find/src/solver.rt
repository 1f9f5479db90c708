//! The family so far, and what is still to be carried on.

ghost use Rattle.std.specs.Prelude.{◌≡◌, ◌≢◌, ◌<◌, IfOk, IfErr, IsTrue, OnOk, Option, Some, length};
ghost use Rattle.tt_setting.specs.Refusals.{IsOfNoBudget};
ghost use Rattle.tt_abs.specs.States.{state_order};
ghost use Rattle.tt_abs.specs.declared.state.State.{State as StateValue};
ghost use Rattle.tt_family.specs.Contents.{state_at};
ghost use Rattle.tt_family.specs.Joins.{TellsNew, TellsNewAt};
ghost use Rattle.tt_find.specs.Finders.{IsEmptySolver};
ghost use Rattle.tt_find.specs.Representation.Solvers.{IsPassed, IsPut, KeepsRest, NamesApart, SparesAt};
ghost use Rattle.tt_find.specs.Representation.OffsetMarks.{mark_of};

use crate::approach::Approach;
use crate::marks::{Mark, OffsetMarks};
use crate::worklist::Worklist;
use std::alloc::{AllocError, Global};
use std::collections::BTreeSet;
use tt_abs::State;
use tt_family::{Builder, Joined, PointKey};
use tt_setting::{Exhausted, Refusal, Spot};

/// The family so far. Its states are kept at the points where ways meet; those in between are made
/// again each time that a state is carried on there.
pub(crate) struct Solver {
    /// The states that are kept.
    pub builder: Builder,
    /// The points whose state is new or has changed, each as its context's number and its offset.
    pub worklist: Worklist,
    /// The points with kept states to which states came only from just before.
    pub spare: BTreeSet<PointKey>,
    /// At which offsets states are kept.
    pub marks: OffsetMarks,
    /// How often a kept state was new or changed.
    pub changes: u64,
    /// How often a state passed over a point without being kept.
    pub passes: u64,
}

// Written out, so that who holds a solver proves in one step that its memory is given back.
impl Drop for Solver {
    fn drop(self) {
        let Solver {
            builder,
            worklist,
            spare,
            marks,
            changes: _,
            passes: _,
        } = self;
        drop(builder);
        drop(worklist);
        drop(spare);
        drop(marks);
    }
}

impl Solver {
    /// Makes a solver without states.
    pub(crate) fn new(alloc: Global) -> Solver
        ensures { IsEmptySolver result }
    {
        Solver {
            builder: Builder::new(alloc),
            worklist: Worklist::new(alloc),
            spare: BTreeSet::new(alloc),
            marks: OffsetMarks::new(alloc),
            changes: 0,
            passes: 0,
        }
    }

    /// Removes all states and all contexts except for the empty one, and keeps their memory and the
    /// marks.
    pub(crate) fn clear(&mut self)
        ensures empty { IsEmptySolver self.new }
        ensures marks { self.new.marks ≡ self.old.marks }
    {
        self.builder.clear();
        self.worklist.clear();
        self.spare.clear();
        self.changes = 0;
        self.passes = 0;
    }

    /// Puts a state at a point, and returns what that makes of the one there. If that one is new or
    /// has changed, the point waits, and one change is counted.
    ///
    /// # Errors
    /// `Refused`, which names the point, if a state of another depth is there; `Exhausted`.
    pub(crate) fn put(
        &mut self,
        context: u32,
        offset: u32,
        state: &State,
    ) -> Result<Joined, Refusal>
        requires there { context < length self.old.builder.contexts }
        requires in_range { state_order.InRange state.now }
        requires room { self.old.changes < 18446744073709551615 }
        ensures put { IfOk result (λ _. IsPut self.old self.new context offset state.now) }
        ensures rest { IfOk result (λ _. KeepsRest self.old self.new) }
        ensures new { IfOk result (λ joined. joined ≡ Joined.New
            → state_at self.new.builder context offset ≡ Some state.now) }
        ensures tells { IfOk result (TellsNewAt self.old.builder context offset) }
        ensures apart { IfErr result (NamesApart self.old.builder context offset state.now) }
        ensures within { IfErr result IsOfNoBudget }
    {
        let joined = match self.builder.put_state(context, offset, state) {
            Ok(joined) => joined,
            Err(fault) => return Err(self.builder.refused(context, offset, fault)),
        };
        if !joined.is_change() {
            return Ok(joined);
        }
        if let Err(_) = self.worklist.insert((context, offset)) {
            return Err(Refusal::Exhausted(Exhausted::Memory));
        }
        self.changes += 1;
        Ok(joined)
    }

    /// Notes whether a point is spare, once a state came to it. A new point is spare if its state
    /// came from just before; once a state comes from elsewhere, the point no longer is.
    ///
    /// # Errors
    /// If memory runs out.
    pub(crate) fn note(
        &mut self,
        context: u32,
        offset: u32,
        source: Approach,
        joined: Joined,
    ) -> Result<(), AllocError>
        ensures spare { IfOk result (λ _. (was : Option StateValue) → TellsNew joined was
            → SparesAt self.old.spare.keys self.new.spare.keys (context, offset) was source) }
        ensures rest { IfOk result (λ _. self.new ≡ record self.old { spare = self.new.spare }) }
    {
        match source {
            Approach::Elsewhere => {
                self.spare.remove(&(context, offset));
            }
            Approach::JustBefore => {
                if let Joined::New = joined {
                    self.spare.insert((context, offset))?;
                }
            }
        }
        Ok(())
    }

    /// Whether a state may pass over this offset without being kept: states aren't kept there, and
    /// no point before it waits.
    pub(crate) fn may_pass(&self, context: u32, spot: Spot, offset: u32) -> bool
        ensures { IsTrue result → mark_of self.now.marks spot offset ≢ Mark.Kept }
    {
        match self.marks.at(spot, offset) {
            Mark::Kept => false,
            _ => !self.worklist.has_before((context, offset)),
        }
    }

    /// Counts a state that passes over an offset at which states aren't kept, and marks the offset
    /// as passed.
    ///
    /// # Errors
    /// If this can't be counted any more.
    pub(crate) fn pass(&mut self, spot: Spot, offset: u32) -> Result<(), AllocError>
        requires { mark_of self.old.marks spot offset ≢ Mark.Kept }
        ensures { OnOk result (IsPassed self.old self.new spot offset) }
    {
        self.passes = self.passes.checked_add(1).ok_or(AllocError)?;
        self.marks.pass(spot, offset);
        Ok(())
    }
}
