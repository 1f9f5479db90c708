//! The points that wait: those whose states are still to be carried on.

ghost use Rattle.std.specs.Prelude.{◌≡◌, ◌∷◌, [], false, None, IfSome, OnErr, OnOk};
ghost use Rattle.std.specs.BTreeSet.{insert_key};
ghost use Rattle.tt_family.specs.Places.{has_point, place_cmp};

use std::alloc::{AllocError, Global};
use std::cmp::Ordering;
use std::collections::BTreeSet;
use std::marker::Model;
use tt_family::PointKey;

/// The points that wait, in their order, each as its context's number and its offset. The first is
/// kept apart, so that a single one takes no memory.
#[derive(Drop)]
pub(crate) struct Worklist {
    /// The first point, if there is one.
    next: Option<PointKey>,
    /// The others.
    rest: BTreeSet<PointKey>,
}

impl Model for Worklist {
    ghost use Rattle.std.specs.Prelude.{List, ℕ};
    ghost use Rattle.tt_find.specs.Representation.Worklist.{AreInOrder, waiting_of};

    ghost Value = { List (ℕ × ℕ) };

    ghost view = { λ m. waiting_of m.next m.rest };

    ghost invariant = { λ m. AreInOrder m.next m.rest };
}

impl Worklist {
    /// Makes an empty worklist.
    pub(crate) fn new(alloc: Global) -> Worklist
        ensures { result ≡ [] }
    {
        Worklist {
            next: None,
            rest: BTreeSet::new(alloc),
        }
    }

    /// Inserts a point at its place, unless it is there.
    ///
    /// # Errors
    /// If memory runs out; then the points stay as they are.
    pub(crate) fn insert(&mut self, point: PointKey) -> Result<(), AllocError>
        ensures ok { OnOk result (self.new ≡ insert_key place_cmp self.old point) }
        ensures err { OnErr result (self.new ≡ self.old) }
    {
        let Some(next) = self.next else {
            self.next = Some(point);
            return Ok(());
        };
        match point.cmp(&next) {
            Ordering::Less => {
                if let Err(_) = self.rest.insert(next) {
                    return Err(AllocError);
                }
                self.next = Some(point);
            }
            Ordering::Equal => {}
            Ordering::Greater => {
                if let Err(_) = self.rest.insert(point) {
                    return Err(AllocError);
                }
            }
        }
        Ok(())
    }

    /// Whether a point that comes before this one waits.
    pub(crate) fn has_before(&self, point: PointKey) -> bool {
        match self.next {
            Some(next) => next < point,
            None => false,
        }
    }

    /// Removes all points.
    pub(crate) fn clear(&mut self)
        ensures { self.new ≡ [] }
    {
        self.next = None;
        self.rest.clear();
    }

    /// Takes out the first point, if there is one.
    pub(crate) fn pop_first(&mut self) -> Option<PointKey>
        ensures none { result ≡ None → (self.old ≡ []) × (self.new ≡ []) }
        ensures some { IfSome result (λ point. self.old ≡ point ∷ self.new) }
        ensures apart { IfSome result (λ point. has_point self.new point ≡ false) }
    {
        match self.next {
            None => None,
            Some(point) => {
                self.next = self.rest.pop_first();
                Some(point)
            }
        }
    }
}
