//! The points of one context that were inserted by ascending offset.

ghost use Rattle.std.specs.Prelude.{◌≡◌, ◌↔◌, ◌<◌, ◌≤◌, length, [], ◌∷◌, ◌++◌, IsTrue, MatchResult, OnOk, OnErr};
ghost use Rattle.tt_setting.specs.Entries.{Ascends, listed};
ghost use Rattle.tt_setting.specs.EntryLists.{IsAt, IsGap};
ghost use Rattle.tt_family.specs.Representation.SlotLists.{AreBelow};

use std::alloc::{AllocError, Global};
use std::marker::Model;

/// Offsets in ascending order, each with its slot.
#[derive(Drop)]
pub(crate) struct OffsetList {
    points: Vec<(u32, u32)>,
}

impl Model for OffsetList {
    ghost use Rattle.std.specs.Prelude.{List, ℕ};
    ghost use Rattle.tt_setting.specs.Entries.{Ascends};

    ghost Value = { List (ℕ × ℕ) };

    ghost view = { λ r. r.points.items };

    ghost invariant = { λ r. Ascends r.points.items };
}

/// Returns where an offset is, or, as the error, where it would be.
fn search(points: &[(u32, u32)], offset: u32) -> Result<usize, usize>
    requires { Ascends points.now }
    ensures place { MatchResult result (IsAt offset points.now) (IsGap offset points.now) }
    ensures bound { MatchResult result (λ i. i < length points.now) (λ i. i ≤ length points.now) }
{
    points.binary_search_by_key(&offset, |point| point.0)
}

/// Returns the slot that is listed with an offset.
fn slot_at(points: &[(u32, u32)], offset: u32) -> Option<u32>
    requires { Ascends points.now }
    ensures { result ≡ listed points.now offset }
{
    match search(points, offset) {
        Ok(at) => Some(points[at].1),
        Err(_) => None,
    }
}

impl OffsetList {
    /// Makes a list without offsets.
    pub(crate) fn new(alloc: Global) -> Self
        ensures { result ≡ [] }
    {
        OffsetList {
            points: Vec::new(alloc),
        }
    }

    /// Returns the offsets with their slots.
    pub(crate) fn as_slice(&self) -> &[(u32, u32)]
        ensures { result.now ≡ self.now }
    {
        self.points.as_slice()
    }

    /// Whether each offset of the list is smaller than this one.
    pub(crate) fn is_below(&self, offset: u32) -> bool
        ensures { IsTrue result ↔ AreBelow offset self.now }
    {
        match self.points.last() {
            Some(last) => last.0 < offset,
            None => true,
        }
    }

    /// Returns the slot of an offset.
    pub(crate) fn get(&self, offset: u32) -> Option<u32>
        ensures { result ≡ listed self.now offset }
    {
        match self.points.last() {
            Some(last) if last.0 == offset => Some(last.1),
            _ => slot_at(self.points.as_slice(), offset),
        }
    }

    /// Puts an offset after smaller ones.
    ///
    /// # Errors
    /// If memory runs out; then the list stays as it is.
    pub(crate) fn push(&mut self, offset: u32, slot: u32) -> Result<(), AllocError>
        requires { AreBelow offset self.old }
        ensures ok { OnOk result (self.new ≡ self.old ++ (offset, slot) ∷ []) }
        ensures err { OnErr result (self.new ≡ self.old) }
    {
        self.points.push((offset, slot))?;
        Ok(())
    }

    /// Removes all offsets, and keeps their memory.
    pub(crate) fn clear(&mut self)
        ensures { self.new ≡ [] }
    {
        self.points.clear();
    }
}
