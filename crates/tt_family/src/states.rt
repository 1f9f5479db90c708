//! The states of a family, one after the other.

ghost use Rattle.std.specs.Prelude.{◌≡◌, ◌∷◌, None, [], IfSome};

use crate::slot_index::SlotIndexIter;
use std::marker::Model;
use tt_abs::State;

/// The states that are still to come, with their contexts and offsets.
#[derive(Drop)]
pub struct States<'a> {
    /// The slots of the points that are still to come.
    pub(crate) points: SlotIndexIter<'a>,
    /// The states in the slots.
    pub(crate) slots: &'a [State],
}

impl<'a> Model for States<'a> {
    ghost use Rattle.std.specs.Prelude.{List, ℕ};
    ghost use Rattle.tt_abs.specs.declared.state.State.{State as StateValue};
    ghost use Rattle.tt_family.specs.Representation.StateSlots.{AreSlots, states_in};

    ghost Value = { List ((ℕ × ℕ) × StateValue) };

    ghost view = { λ s. states_in s.slots.now s.points };

    ghost invariant = { λ s. AreSlots s.slots.now s.points };
}

impl<'a> States<'a> {
    /// Takes the first of the states that are still to come, with its context's number and its
    /// offset: `None` exactly where none is left, and from then on always.
    pub fn take_first(&mut self) -> Option<(u32, u32, &'a State)>
        ensures none { result ≡ None → self.old ≡ [] }
        ensures done { result ≡ None → self.new ≡ [] }
        ensures some { IfSome result (λ e. self.old ≡ ((e.0, e.1), e.2.now) ∷ self.new) }
    {
        let (point, number) = self.points.take_first()?;
        Some((point.0, point.1, &self.slots[number as usize]))
    }
}
