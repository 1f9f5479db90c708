//! States by context and offset, in slots that are reused.

ghost use Rattle.std.specs.Prelude.{◌≡◌, ℕ, ◌≤◌, None, Some, [], IfOk, IfErr, OnErr, OnOk, length, slice_get};
ghost use Rattle.std.specs.Option.{option_copied};
ghost use Rattle.std.specs.List.{All};
ghost use Rattle.std.specs.List.Sorted.{IsStrictlySortedBy};
ghost use Rattle.std.specs.Map.{keys_of};
ghost use Rattle.tt_abs.specs.declared.state.State.{State as StateValue};
ghost use Rattle.tt_setting.specs.Refusals.{IsOutOfMemory};
ghost use Rattle.tt_abs.specs.States.{state_order};
ghost use Rattle.tt_family.specs.Joins.{HasSameDepth, PutsListed, TellsNew, TellsOtherDepth};
ghost use Rattle.tt_family.specs.Places.{place_cmp, states_of};
ghost use Rattle.tt_family.specs.Puts.{ReweighsStates};
ghost use Rattle.tt_family.specs.Representation.StateSlots.{AgreesBelow};

use crate::joined::Joined;
use crate::slot_index::SlotIndex;
use crate::states::States;
use std::alloc::{AllocError, Global};
use std::marker::Model;
use tt_abs::{Order, State};
use tt_setting::{Failed, StepFault};

/// How many states are kept at most.
const MOST_STATES: u32 = 4_294_967_295;

/// States by context and offset, in slots that are reused.
pub(crate) struct StateStore {
    /// The slot of each point. The points have the first slots, one each.
    index: SlotIndex,
    /// The states in the slots. Those after the slots of the points are kept only for their memory.
    slots: Vec<State>,
}

// Written out, so that who holds states proves in one step that its memory is given back.
impl Drop for StateStore {
    fn drop(self) {
        let StateStore { index, slots } = self;
        drop(index);
        drop(slots);
    }
}

impl Model for StateStore {
    ghost use Rattle.std.specs.Prelude.{List, ℕ};
    ghost use Rattle.tt_abs.specs.declared.state.State.{State as StateValue};
    ghost use Rattle.tt_family.specs.Representation.StateSlots.{AreFirstSlots, states_in};

    ghost Value = { List ((ℕ × ℕ) × StateValue) };

    ghost view = { λ t. states_in t.slots.items t.index };

    ghost invariant = { λ t. AreFirstSlots t.slots.items t.index };
}

/// Makes an existing slot, or the next one, hold a copy of a state.
///
/// # Errors
/// If memory runs out; then what the slot holds is unspecified.
fn write_slot(slots: &mut Vec<State>, number: usize, state: &State) -> Result<(), AllocError>
    requires { number ≤ length slots.old.items }
    ensures filled { OnOk result (slice_get slots.new.items number ≡ Some state.now) }
    ensures below { AgreesBelow number slots.old.items slots.new.items }
    ensures long { length slots.old.items ≤ length slots.new.items }
{
    if number < slots.len() {
        let slot = &mut slots[number];
        return slot.copy_from(state);
    }
    let copy = state.copy()?;
    slots.push(copy)?;
    Ok(())
}

impl StateStore {
    /// Makes a store without states.
    pub(crate) fn new(alloc: Global) -> Self
        ensures { result ≡ [] }
    {
        StateStore {
            index: SlotIndex::new(alloc),
            slots: Vec::new(alloc),
        }
    }

    /// Returns how many states there are.
    pub(crate) fn len(&self) -> u32
        ensures { result ≡ length self.now }
    {
        self.index.len()
    }

    /// Returns the state at a point.
    pub(crate) fn get(&self, context: u32, offset: u32) -> Option<&State>
        ensures { option_copied result ≡ states_of self.now (context, offset) }
    {
        match self.index.get(context, offset) {
            Some(number) => Some(&self.slots[number as usize]),
            None => None,
        }
    }

    /// States that the states ascend by context and offset, as they always do.
    pub(crate) fn order_facts(&self)
        ensures { IsStrictlySortedBy place_cmp (keys_of self.now) }
    {
        self.index.len();
    }

    /// Returns the states with their contexts and offsets, by ascending context, and by ascending
    /// offset within one.
    pub(crate) fn iter(&self) -> States<'_>
        ensures rest { result ≡ self.now }
        ensures ascends { IsStrictlySortedBy place_cmp (keys_of self.now) }
        ensures found { All (λ e. states_of self.now e.0 ≡ Some e.1) self.now }
    {
        States {
            points: self.index.iter(),
            slots: self.slots.as_slice(),
        }
    }

    /// Puts a state at a point, by a join where the point has a state already, and returns what
    /// that makes of the state there.
    ///
    /// # Errors
    /// `Refused` with this state's depth, exactly if one of another depth is there; `OutOfMemory`.
    /// Then the states stay as they are.
    pub(crate) fn join(
        &mut self,
        context: u32,
        offset: u32,
        state: &State,
    ) -> Result<Joined, StepFault>
        requires mine { (s : StateValue) → states_of self.old (context, offset) ≡ Some s
            → state_order.InRange s }
        requires theirs { state_order.InRange state.now }
        ensures put { IfOk result (PutsListed self.old self.new (context, offset) state.now) }
        ensures new { IfOk result (λ joined.
            TellsNew joined (states_of self.old (context, offset))) }
        ensures sums { IfOk result (λ _. ReweighsStates self.old self.new (context, offset)) }
        ensures depth { IfErr result
            (TellsOtherDepth (states_of self.old (context, offset)) state.now) }
        ensures joined { IfOk result (λ _.
            HasSameDepth (states_of self.old (context, offset)) state.now) }
        ensures kept { OnErr result (self.new ≡ self.old) }
        ensures fits { OnOk result (length self.new ≤ 4294967295) }
    {
        if let Some(number) = self.index.get(context, offset) {
            let slot = &mut self.slots[number as usize];
            let Ok(changed) = slot.join(state) else {
                let depth = state.depth() as u32;
                return Err(StepFault::Refused(Failed::OtherDepth { depth }));
            };
            return Ok(Joined::of(changed));
        }
        self.add(context, offset, state)?;
        Ok(Joined::New)
    }

    /// Puts a copy of a state at a point that has none.
    ///
    /// # Errors
    /// `OutOfMemory`; then the states stay as they are.
    fn add(&mut self, context: u32, offset: u32, state: &State) -> Result<(), StepFault>
        requires { states_of self.old (context, offset) ≡ None }
        ensures put { OnOk result
            (PutsListed self.old self.new (context, offset) state.now Joined.New) }
        ensures sums { OnOk result (ReweighsStates self.old self.new (context, offset)) }
        ensures memory { IfErr result IsOutOfMemory }
        ensures kept { OnErr result (self.new ≡ self.old) }
        ensures fits { OnOk result (length self.new ≤ 4294967295) }
    {
        let number = self.index.len();
        if number >= MOST_STATES {
            return Err(StepFault::OutOfMemory(AllocError));
        }
        if let Err(_) = write_slot(&mut self.slots, number as usize, state) {
            return Err(StepFault::OutOfMemory(AllocError));
        }
        if let Err(_) = self.index.insert(context, offset, number) {
            return Err(StepFault::OutOfMemory(AllocError));
        }
        Ok(())
    }

    /// Removes all states, and keeps their memory.
    pub(crate) fn clear(&mut self)
        ensures { self.new ≡ [] }
    {
        self.index.clear();
    }
}
