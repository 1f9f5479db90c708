//! Contexts by number, and abstract states by context and offset.

ghost use Rattle.std.specs.Prelude.{◌≡◌, ◌⊎◌, ◌<◌, ◌≤◌, None, Some, [], ◌∷◌, ◌++◌, Err, IfErr, IfOk, IfSome, IsTrue, OnErr, OnOk, length, reverse};
ghost use Rattle.std.specs.List.{All};
ghost use Rattle.std.specs.List.Sorted.{IsStrictlySortedBy};
ghost use Rattle.std.specs.Map.{keys_of};
ghost use Rattle.tt_code.specs.declared.reason.Reason.TheVariants.{TooManyContexts};
ghost use Rattle.tt_setting.specs.declared.failed.Failed.TheVariants.{Only};
ghost use Rattle.tt_setting.specs.Entries.{Ascends};
ghost use Rattle.tt_abs.specs.States.{state_order};
ghost use Rattle.tt_family.specs.Joins.{HasSameDepth, PutsState, PutsStateAs, TellsNewAt, TellsOtherDepth};
ghost use Rattle.tt_family.specs.Places.{place_cmp, states_of};
ghost use Rattle.tt_family.specs.Puts.{Reweighs, family_state, place_of};
ghost use Rattle.tt_family.specs.Built.{AscendsByKey, key_cmp, key_of as key_of_entry};
ghost use Rattle.std.specs.BTreeMap.{IsOrdered, get};
ghost use Rattle.tt_family.specs.Representation.FileOrder.{IsFileOrder, children};
ghost use Rattle.tt_family.specs.Ascending.{IsFinished, IsContextAt};
ghost use Rattle.tt_family.specs.Ends.{AreDefinedAtEnd, AreDefinedWhereFilled, AreKnownAtEnd, FillingsKeepEnd};
ghost use Rattle.tt_family.specs.Contents.{AddsChild, HasChild, IsChild, IsFamily, IsFullWithout, family_of, frames_at, points_of, refusal_in, state_at};
ghost use Rattle.tt_setting.specs.Spots.{spot_of};

use crate::joined::Joined;
use crate::state_store::StateStore;
use crate::states::States;
use std::alloc::{AllocError, Global};
use std::collections::BTreeMap;
use std::marker::Model;
use tt_abs::State;
use tt_code::{Frame, Reason};
use tt_setting::{Failed, Refusal, Spot, StepFault};

/// How many contexts are kept at most, including the empty one.
const MOST_CONTEXTS: u32 = 65_535;

/// A family of states that grows. A context is a list of calls that haven't returned; contexts have
/// numbers in the order in which they were added, and the empty one is number 0. A point is a
/// context and an offset.
pub struct Builder {
    /// The contexts except for the empty one, each with its parent's number and its last frame.
    entries: Vec<(u32, Frame)>,
    /// The number of each context except for the empty one, by parent, call, body, turn and count.
    index: BTreeMap<ContextKey, u32>,
    /// The states by context and offset.
    states: StateStore,
}

// Written out, so that who holds a builder proves in one step that its memory is given back.
impl Drop for Builder {
    fn drop(self) {
        let Builder {
            entries,
            index,
            states,
        } = self;
        drop(entries);
        drop(index);
        drop(states);
    }
}

impl Model for Builder {
    ghost use Rattle.tt_family.specs.Contexts.{frames_of};
    ghost use Rattle.tt_family.specs.Contents.{Contents};
    ghost use Rattle.tt_family.specs.Built.{IsBuilt};

    ghost Value = { Contents };

    ghost view = { λ b. record { contexts = frames_of b.entries.items; states = b.states } };

    ghost invariant = { λ b. IsBuilt b.entries.items b.index b.states };
}

/// The parent, call, body, turn and count of a context, by which contexts ascend.
type ContextKey = (u32, u32, u32, u32, u32);

/// Returns the number that is listed with a key. Most keys that are looked up are greater than all
/// that are there: then nothing is searched.
fn number_of(index: &BTreeMap<ContextKey, u32>, key: ContextKey) -> Option<u32>
    ensures { result ≡ get key_cmp index.now key }
{
    if let Some((greatest, _)) = index.last_key_value() {
        if greatest.cmp(&key).is_lt() {
            return None;
        }
    }
    index.get(&key).copied()
}

/// Returns the key by which an entry's context is ordered.
fn key_of(entry: &(u32, Frame)) -> ContextKey
    ensures { result ≡ key_of_entry entry.now }
{
    let (parent, frame) = *entry;
    (parent, frame.call, frame.body, frame.turn, frame.count)
}

/// Whether each entry is above the one before.
fn ascends(entries: &[(u32, Frame)]) -> bool
    ensures { IsTrue result → AscendsByKey entries.now }
{
    for i in 1..entries.len() {
        if !key_of(&entries[i - 1]).cmp(&key_of(&entries[i])).is_lt() {
            return false;
        }
    }
    true
}

/// Appends the numbers of a context's children to `order`, in the order of the children's frames.
///
/// # Errors
/// If memory runs out.
fn push_children(
    index: &BTreeMap<ContextKey, u32>,
    parent: u32,
    order: &mut Vec<u32>,
) -> Result<(), AllocError>
    requires { parent < 65535 }
    ensures pushed { IfOk result (λ _.
        order.new.items ≡ order.old.items ++ children index.now.entries parent) }
    ensures ordered { IsOrdered key_cmp index.now }
{
    for (_, number) in index.range((parent, 0, 0, 0, 0)..(parent + 1, 0, 0, 0, 0)) {
        order.push(*number)?;
    }
    Ok(())
}

impl Builder {
    /// Makes a builder with only the empty context, and no state.
    pub fn new(alloc: Global) -> Self
        ensures contexts { result.contexts ≡ [] ∷ [] }
        ensures states { result.states ≡ [] }
        ensures family { IsFamily result }
    {
        Builder {
            entries: Vec::new(alloc),
            index: BTreeMap::new(alloc),
            states: StateStore::new(alloc),
        }
    }

    /// States that the contexts and the states are a family, as they always are.
    pub fn family_facts(&self)
        ensures { IsFamily self.now }
    {
        self.contexts();
    }

    /// States that the states ascend by context and offset, as they always do.
    pub fn order_facts(&self)
        ensures { IsStrictlySortedBy place_cmp (keys_of self.now.states) }
    {
        self.states.order_facts();
    }

    /// Returns how many contexts there are, including the empty one.
    pub fn contexts(&self) -> u32
        ensures value { result ≡ length self.now.contexts }
        ensures family { IsFamily self.now }
    {
        self.entries.len() as u32 + 1
    }

    /// Returns how many points have a state.
    pub fn points(&self) -> u32
        ensures value { result ≡ points_of self.now }
        ensures family { IsFamily self.now }
    {
        self.states.len()
    }

    /// Returns a context's parent and last frame: `None` for the empty context, and for a number
    /// that no context has.
    pub fn context(&self, number: u32) -> Option<(u32, Frame)>
        ensures none { result ≡ None → (number ≡ 0) ⊎ (length self.now.contexts ≤ number) }
        ensures some { IfSome result (IsContextAt self.now.contexts number) }
    {
        if number == 0 {
            return None;
        }
        match self.entries.get(number as usize - 1) {
            Some(entry) => Some(*entry),
            None => None,
        }
    }

    /// Returns in which program a context is.
    pub fn spot(&self, context: u32) -> Spot
        requires { context < length self.now.contexts }
        ensures { result ≡ spot_of (frames_at self.now.contexts context) }
    {
        self.family_facts();
        match self.context(context) {
            Some((_, frame)) => Spot::of_body(frame.body),
            None => Spot::Main,
        }
    }

    /// Returns the refusal of the instruction that is at an offset of a context.
    pub fn refused(&self, context: u32, offset: u32, fault: StepFault) -> Refusal
        requires { context < length self.now.contexts }
        ensures { result ≡ refusal_in self.now context offset fault }
    {
        fault.at(self.spot(context), offset)
    }

    /// Returns the number of the context that has the parent's frames and this one more: `None` if
    /// there is none.
    pub fn number(&self, parent: u32, frame: Frame) -> Option<u32>
        ensures none { parent < length self.now.contexts → result ≡ None
            → HasChild self.now.contexts parent frame → ⊥ }
        ensures some { IfSome result (IsChild self.now.contexts parent frame) }
    {
        let key = (parent, frame.call, frame.body, frame.turn, frame.count);
        number_of(&self.index, key)
    }

    /// Returns the number of the context that has the parent's frames and this one more, which is
    /// added if it isn't there.
    ///
    /// # Errors
    /// `Refused` with `TooManyContexts`, exactly if it isn't there and there are 65,535 contexts;
    /// `OutOfMemory`. Then the builder stays as it is.
    pub fn add_context(&mut self, parent: u32, frame: Frame) -> Result<u32, StepFault>
        requires { parent < length self.old.contexts }
        ensures added { IfOk result (AddsChild self.old.contexts self.new.contexts parent frame) }
        ensures states { self.new.states ≡ self.old.states }
        ensures full { IfErr result (IsFullWithout self.old.contexts
            (frame ∷ frames_at self.old.contexts parent)) }
        ensures room { (HasChild self.old.contexts parent frame → ⊥)
            → length self.old.contexts ≡ 65535
            → result ≡ Err (StepFault.Refused (Only TooManyContexts)) }
        ensures kept { OnErr result (self.new ≡ self.old) }
        ensures family { IsFamily self.new }
    {
        let key = (parent, frame.call, frame.body, frame.turn, frame.count);
        if let Some(number) = number_of(&self.index, key) {
            return Ok(number);
        }
        let count = self.entries.len() as u32 + 1;
        if count >= MOST_CONTEXTS {
            return Err(StepFault::Refused(Failed::Only(Reason::TooManyContexts)));
        }
        if let Err(_) = self.entries.reserve(1) {
            return Err(StepFault::OutOfMemory(AllocError));
        }
        if let Err(_) = self.index.insert(key, count) {
            return Err(StepFault::OutOfMemory(AllocError));
        }
        self.entries.push_reserved((parent, frame));
        Ok(count)
    }

    /// Returns a context's frames, the outermost first.
    ///
    /// # Errors
    /// If memory runs out.
    pub fn frames(&self, alloc: Global, number: u32) -> Result<Vec<Frame>, AllocError>
        requires { number < length self.now.contexts }
        ensures { IfOk result (λ frames.
            frames.items ≡ reverse (frames_at self.now.contexts number)) }
    {
        let mut frames = Vec::new(alloc);
        self.read_frames(number, &mut frames)?;
        Ok(frames)
    }

    /// Replaces what a list holds by a context's frames, the outermost first.
    ///
    /// # Errors
    /// If memory runs out; then the list may hold any of them.
    pub fn read_frames(&self, number: u32, frames: &mut Vec<Frame>) -> Result<(), AllocError>
        requires { number < length self.now.contexts }
        ensures { OnOk result (frames.new.items ≡ reverse (frames_at self.now.contexts number)) }
    {
        frames.clear();
        let mut at = number;
        while at > 0 {
            let entry = self.entries[at as usize - 1];
            frames.push(entry.1).map_err(AllocError::from)?;
            at = entry.0;
        }
        frames.reverse();
        Ok(())
    }

    /// Returns the state at a point.
    pub fn state(&self, context: u32, offset: u32) -> Option<&State>
        ensures none { result ≡ None → state_at self.now context offset ≡ None }
        ensures some { IfSome result (λ state. state_at self.now context offset ≡ Some state.now) }
        ensures at { context < length self.now.contexts
            → family_state self.now context offset ≡ state_at self.now context offset }
        ensures family { IsFamily self.now }
    {
        self.states.get(context, offset)
    }

    /// Returns the states with their contexts and offsets, by ascending context, and by ascending
    /// offset within one: each point that has a state comes once.
    pub fn states(&self) -> States<'_>
        ensures rest { result ≡ self.now.states }
        ensures ascends { IsStrictlySortedBy place_cmp (keys_of self.now.states) }
        ensures found { All (λ e. states_of self.now.states e.0 ≡ Some e.1) self.now.states }
        ensures family { IsFamily self.now }
    {
        self.states.iter()
    }

    /// Returns the functions that are known at the end of a program of this length, where no call
    /// is open: by ascending numbers, each with its body. `None` if the end has no state. Where the
    /// family is good for the program, or can be filled up to a good one, each run of the program
    /// that reaches its end has these functions there, with these bodies. A filling has the
    /// family's own state at the end.
    pub fn end_functions(&self, length: u32) -> Option<&[(u16, u32)]>
        ensures none { result ≡ None → family_of self.now ([], length) ≡ None }
        ensures some { IfSome result (λ functions.
            AreKnownAtEnd (family_of self.now) length functions.now) }
        ensures ascends { IfSome result (λ functions. Ascends functions.now) }
        ensures defined { IfSome result (λ functions.
            AreDefinedAtEnd (family_of self.now) length functions.now) }
        ensures filled { IfSome result (λ functions.
            AreDefinedWhereFilled (family_of self.now) length functions.now) }
        ensures fillings { FillingsKeepEnd (family_of self.now) length }
    {
        match self.state(0, length) {
            Some(state) => Some(state.functions()),
            None => None,
        }
    }

    /// Puts a state at a point, by a join where the point has a state already and by a copy
    /// otherwise, and returns whether the state there is new or has changed.
    ///
    /// # Errors
    /// `Refused` with this state's depth, exactly if one of another depth is there; `OutOfMemory`.
    /// Then the builder stays as it is.
    pub fn join_state(
        &mut self,
        context: u32,
        offset: u32,
        state: &State,
    ) -> Result<bool, StepFault>
        requires there { context < length self.old.contexts }
        requires theirs { state_order.InRange state.now }
        ensures put { IfOk result (PutsState self.old self.new context offset state.now) }
        ensures sums { IfOk result (λ _.
            Reweighs self.old self.new (place_of self.old context offset)) }
        ensures depth { IfErr result
            (TellsOtherDepth (family_state self.old context offset) state.now) }
        ensures joined { IfOk result (λ _.
            HasSameDepth (family_state self.old context offset) state.now) }
        ensures contexts { self.new.contexts ≡ self.old.contexts }
        ensures kept { OnErr result (self.new ≡ self.old) }
        ensures family { IsFamily self.new }
    {
        let joined = self.put_state(context, offset, state)?;
        Ok(joined.is_change())
    }

    /// Puts a state at a point as `join_state` does, and returns whether the state there is new,
    /// has changed or is the same.
    ///
    /// # Errors
    /// As `join_state`.
    pub fn put_state(
        &mut self,
        context: u32,
        offset: u32,
        state: &State,
    ) -> Result<Joined, StepFault>
        requires there { context < length self.old.contexts }
        requires theirs { state_order.InRange state.now }
        ensures put { IfOk result (PutsStateAs self.old self.new context offset state.now) }
        ensures new { IfOk result (TellsNewAt self.old context offset) }
        ensures sums { IfOk result (λ _.
            Reweighs self.old self.new (place_of self.old context offset)) }
        ensures depth { IfErr result
            (TellsOtherDepth (family_state self.old context offset) state.now) }
        ensures joined { IfOk result (λ _.
            HasSameDepth (family_state self.old context offset) state.now) }
        ensures contexts { self.new.contexts ≡ self.old.contexts }
        ensures kept { OnErr result (self.new ≡ self.old) }
        ensures family { IsFamily self.new }
    {
        self.states.join(context, offset, state)
    }

    /// Removes all states and all contexts except for the empty one, and keeps their memory, except
    /// for that of the maps by key and of the lists of offsets after the first ones.
    pub fn clear(&mut self)
        ensures contexts { self.new.contexts ≡ [] ∷ [] }
        ensures states { self.new.states ≡ [] }
        ensures family { IsFamily self.new }
    {
        self.entries.clear();
        self.index.clear();
        self.states.clear();
    }

    /// Whether the contexts ascend.
    pub(crate) fn is_ascending(&self) -> bool
        ensures { IsTrue result → IsFinished self.now }
    {
        ascends(self.entries.as_slice())
    }

    /// Returns the allocator.
    pub(crate) fn allocator(&self) -> Global {
        *self.entries.allocator()
    }

    /// Returns the numbers of the contexts in the order of the file: each after its parent's, by
    /// depth, and then by the order of the parents and of the frames.
    ///
    /// # Errors
    /// If memory runs out.
    pub(crate) fn file_order(&self) -> Result<Vec<u32>, AllocError>
        ensures { IfOk result (λ order. IsFileOrder self.now.contexts order.items) }
    {
        let mut order = Vec::new(self.allocator());
        order.push(0)?;
        for i in 0..self.contexts() as usize {
            let Some(parent) = order.get(i) else {
                break;
            };
            let parent = *parent;
            push_children(&self.index, parent, &mut order)?;
        }
        Ok(order)
    }
}
