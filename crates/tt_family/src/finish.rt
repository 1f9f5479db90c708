//! Certificates from builders: contexts get their numbers in order.

ghost use Rattle.std.specs.Prelude.{◌≡◌, ℕ, ◌+◌, ◌<◌, List, [], ◌∷◌, IfOk, IfErr, length, take};
ghost use Rattle.tt_code.specs.declared.machine.Frame.{Frame};
ghost use Rattle.tt_setting.specs.Refusals.{IsOutOfMemory};
ghost use Rattle.tt_family.specs.Contents.{IsFamily, family_of, points_of};
ghost use Rattle.tt_family.specs.Representation.FileOrder.{ArePlaces, IsFileOrder, in_order};
ghost use Rattle.tt_family.specs.Ascending.{AreMoved, IsFinished, SameContents, SameWithout, family_without};

use crate::builder::Builder;
use crate::certificate::Certificate;
use crate::slot_index::PointKey;
use std::alloc::AllocError;
use std::collections::BTreeSet;
use tt_setting::StepFault;

/// Returns the place of each context in the order.
fn places_in(old: &Builder, order: &[u32]) -> Result<Vec<u32>, AllocError>
    requires { IsFileOrder old.now.contexts order.now }
    ensures { IfOk result (λ places. ArePlaces old.now.contexts order.now places.items) }
{
    let mut places = vec![in old.allocator(); 0; old.contexts() as usize]?;
    for i in 0..order.len() {
        places[order[i] as usize] = i as u32;
    }
    Ok(places)
}

/// Adds the context at a place of the order to the new builder, which has those before it.
fn move_context(
    old: &Builder,
    order: &[u32],
    place: usize,
    places: &[u32],
    new: &mut Builder,
) -> Result<(), StepFault>
    requires order { IsFileOrder old.now.contexts order.now }
    requires place { (0 < place) × (place < length order.now) }
    requires places { ArePlaces old.now.contexts order.now places.now }
    requires before { new.old.contexts ≡ in_order old.now.contexts (take place order.now) }
    ensures moved { IfOk result (λ _.
        new.new.contexts ≡ in_order old.now.contexts (take (place + 1) order.now)) }
    ensures states { new.new.states ≡ new.old.states }
    ensures family { IsFamily new.new }
    ensures memory { IfErr result IsOutOfMemory }
{
    old.family_facts();
    let Some((parent, frame)) = old.context(order[place]) else {
        return Ok(());
    };
    new.add_context(places[parent as usize], frame)?;
    Ok(())
}

/// Adds the contexts to the new builder, which has the empty one, in this order.
fn move_contexts(
    old: &Builder,
    order: &[u32],
    places: &[u32],
    new: &mut Builder,
) -> Result<(), StepFault>
    requires order { IsFileOrder old.now.contexts order.now }
    requires places { ArePlaces old.now.contexts order.now places.now }
    requires before { new.old.contexts ≡ [] ∷ [] }
    requires family { IsFamily new.old }
    ensures moved { IfOk result (λ _. new.new.contexts ≡ in_order old.now.contexts order.now) }
    ensures states { new.new.states ≡ new.old.states }
    ensures family { IsFamily new.new }
    ensures memory { IfErr result IsOutOfMemory }
{
    old.family_facts();
    for place in 1..order.len() {
        move_context(old, order, place, places, new)?;
    }
    Ok(())
}

/// Puts copies of all states, except for those at the spare points, into the new builder, which has
/// the same contexts and no state.
fn move_states(
    old: &Builder,
    new: &mut Builder,
    numbers: &[u32],
    spare: &BTreeSet<PointKey>,
) -> Result<(), StepFault>
    requires family { IsFamily new.old }
    requires empty { new.old.states ≡ [] }
    requires moved { AreMoved old.now.contexts new.old.contexts numbers.now }
    ensures contexts { new.new.contexts ≡ new.old.contexts }
    ensures same { IfOk result (λ _. (point : List Frame × ℕ)
        → family_of new.new point ≡ family_without old.now spare.now.keys point) }
    ensures points { IfOk result (λ _. spare.now.keys ≡ []
        → points_of new.new ≡ points_of old.now) }
    ensures family { IsFamily new.new }
    ensures memory { IfErr result IsOutOfMemory }
{
    let mut states = old.states();
    while let Some((context, offset, state)) = states.take_first() {
        if !spare.contains(&(context, offset)) {
            new.join_state(numbers[context as usize], offset, state)?;
        }
    }
    Ok(())
}

/// Returns the same family with its contexts in the order of the file, without the states at the
/// spare points, in the memory of an empty builder.
fn reordered(
    old: &Builder,
    spare: &BTreeSet<PointKey>,
    empty: Builder,
) -> Result<Builder, AllocError>
    requires contexts { empty.contexts ≡ [] ∷ [] }
    requires states { empty.states ≡ [] }
    ensures same { IfOk result (λ new. SameWithout old.now new spare.now.keys) }
    ensures points { IfOk result (λ new. spare.now.keys ≡ [] → points_of new ≡ points_of old.now) }
    ensures finished { IfOk result (λ new. IsFinished new) }
{
    old.family_facts();
    let order = old.file_order()?;
    let places = places_in(old, order.as_slice())?;
    let mut new = empty;
    new.family_facts();
    if let Err(_) = move_contexts(old, order.as_slice(), places.as_slice(), &mut new) {
        return Err(AllocError);
    }
    if let Err(_) = move_states(old, &mut new, places.as_slice(), spare) {
        return Err(AllocError);
    }
    Ok(new)
}

impl Builder {
    /// Returns the certificate of this family: its contexts get new numbers where theirs aren't in
    /// order.
    ///
    /// # Errors
    /// If memory runs out: then the builder comes back as it was.
    pub fn finish(self) -> Result<Certificate, Builder>
        ensures same { IfOk result (λ certificate. SameContents self certificate) }
        ensures points { IfOk result (λ certificate. points_of certificate ≡ points_of self) }
        ensures finished { IfOk result (λ certificate. IsFinished certificate) }
        ensures kept { IfErr result (λ builder. builder ≡ self) }
    {
        let empty = Builder::new(self.allocator());
        match self.finish_in(empty) {
            Ok((certificate, _)) => Ok(certificate),
            Err(builder) => Err(builder),
        }
    }

    /// Returns the certificate of this family as `finish` does; where the family has to be made
    /// anew, it is made in the memory of an empty builder. Also returns an empty builder with the
    /// memory that isn't needed.
    ///
    /// # Errors
    /// If memory runs out: then this builder comes back as it was.
    pub fn finish_in(self, empty: Builder) -> Result<(Certificate, Builder), Builder>
        requires contexts { empty.contexts ≡ [] ∷ [] }
        requires states { empty.states ≡ [] }
        ensures same { IfOk result (λ made. SameContents self made.0) }
        ensures points { IfOk result (λ made. points_of made.0 ≡ points_of self) }
        ensures finished { IfOk result (λ made. IsFinished made.0) }
        ensures empty_contexts { IfOk result (λ made. made.1.contexts ≡ [] ∷ []) }
        ensures empty_states { IfOk result (λ made. made.1.states ≡ []) }
        ensures kept { IfErr result (λ builder. builder ≡ self) }
    {
        let none = BTreeSet::new(self.allocator());
        self.finish_without(&none, empty)
    }

    /// Returns the certificate of this family as `finish_in` does, without the states at the spare
    /// points, each a context's number and an offset.
    ///
    /// # Errors
    /// If memory runs out: then this builder comes back as it was.
    pub fn finish_without(
        self,
        spare: &BTreeSet<PointKey>,
        empty: Builder,
    ) -> Result<(Certificate, Builder), Builder>
        requires contexts { empty.contexts ≡ [] ∷ [] }
        requires states { empty.states ≡ [] }
        ensures same { IfOk result (λ made. SameWithout self made.0 spare.now.keys) }
        ensures points { IfOk result (λ made. spare.now.keys ≡ []
            → points_of made.0 ≡ points_of self) }
        ensures finished { IfOk result (λ made. IsFinished made.0) }
        ensures empty_contexts { IfOk result (λ made. made.1.contexts ≡ [] ∷ []) }
        ensures empty_states { IfOk result (λ made. made.1.states ≡ []) }
        ensures kept { IfErr result (λ builder. builder ≡ self) }
    {
        if spare.is_empty() && self.is_ascending() {
            return Ok((Certificate::of(self), empty));
        }
        let Ok(new) = reordered(&self, spare, empty) else {
            return Err(self);
        };
        let mut rest = self;
        rest.clear();
        Ok((Certificate::of(new), rest))
    }
}
