//! The slots of points by context and offset.

ghost use Rattle.std.specs.Prelude.{◌≡◌, ℕ, ◌<◌, ◌≤◌, None, [], ◌∷◌, IfSome, OnOk, OnErr, length};
ghost use Rattle.std.specs.BTreeMap.{insert_entry};
ghost use Rattle.tt_family.specs.Places.{place_cmp, states_of};
ghost use Rattle.tt_family.specs.Representation.SlotLists.{AddsLists, AreEmptyFrom, AreSlotLists, comes_first, points_in, list_of, lists_points};

use crate::offset_list::OffsetList;
use std::alloc::{AllocError, Global};
use std::collections::BTreeMap;
use std::collections::btree_map::Iter;
use std::marker::Model;

/// How many lists keep their memory at most, when all points are removed.
const KEPT_LISTS: usize = 64;

/// What a stored state is found by: its context's number and its offset.
pub type PointKey = (u32, u32);

/// The slots of points by context and offset. Within a context the points are mostly inserted by
/// ascending offset: those are in a list, and the others in a tree.
pub(crate) struct SlotIndex {
    /// For each context the points that were inserted when it had only smaller offsets.
    lists: Vec<OffsetList>,
    /// How many lists may hold points. The lists after those are empty, and are kept only for their
    /// memory.
    used: usize,
    /// The points that were inserted when their context already had a greater offset.
    rest: BTreeMap<PointKey, u32>,
    /// How many points there are.
    count: u32,
}

// Written out, so that who holds an index proves in one step that its memory is given back.
impl Drop for SlotIndex {
    fn drop(self) {
        let SlotIndex {
            lists,
            used: _,
            rest,
            count: _,
        } = self;
        drop(lists);
        drop(rest);
    }
}

impl Model for SlotIndex {
    ghost use Rattle.std.specs.Prelude.{◌≡◌, List, ℕ, length};
    ghost use Rattle.tt_family.specs.Representation.SlotLists.{AreEmptyFrom, AreSlotLists, points_in};

    ghost Value = { List ((ℕ × ℕ) × ℕ) };

    ghost view = { λ p. points_in p.lists.items p.rest.entries };

    ghost invariant = { λ p. AreSlotLists p.lists.items p.rest.entries
        × (p.count ≡ length (points_in p.lists.items p.rest.entries))
        × AreEmptyFrom p.used p.lists.items };
}

/// Adds empty lists until there is one for a context.
///
/// # Errors
/// If memory runs out; then some of the lists may be there.
fn add_lists(lists: &mut Vec<OffsetList>, context: u32) -> Result<(), AllocError>
    requires { length lists.old.items ≤ 4294967296 }
    ensures enough { OnOk result (context < length lists.new.items) }
    ensures adds { AddsLists lists.old.items lists.new.items }
    ensures fits { length lists.new.items ≤ 4294967296 }
{
    let alloc = *lists.allocator();
    while lists.len() <= context as usize {
        lists.push(OffsetList::new(alloc))?;
    }
    Ok(())
}

/// Puts a new point at the end of its context's list, or in the tree.
///
/// # Errors
/// If memory runs out; then the points stay as they are.
fn put(
    lists: &mut Vec<OffsetList>,
    rest: &mut BTreeMap<PointKey, u32>,
    point: PointKey,
    slot: u32,
) -> Result<(), AllocError>
    requires places { AreSlotLists lists.old.items rest.old.entries }
    requires within { point.0 < length lists.old.items }
    requires absent { states_of (points_in lists.old.items rest.old.entries) point ≡ None }
    ensures places { AreSlotLists lists.new.items rest.new.entries }
    ensures ok { OnOk result (points_in lists.new.items rest.new.entries
        ≡ insert_entry place_cmp (points_in lists.old.items rest.old.entries) point slot) }
    ensures err { OnErr result
        (points_in lists.new.items rest.new.entries ≡ points_in lists.old.items rest.old.entries) }
    ensures unused { (used : ℕ) → point.0 < used
        → AreEmptyFrom used lists.old.items → AreEmptyFrom used lists.new.items }
{
    let list = &mut lists[point.0 as usize];
    if list.is_below(point.1) {
        return list.push(point.1, slot);
    }
    rest.insert(point, slot)?;
    Ok(())
}

/// Empties the first `used` lists, the others being empty, and keeps the memory of the first
/// `KEPT_LISTS` lists.
fn clear_lists(lists: &mut Vec<OffsetList>, used: usize)
    requires { AreEmptyFrom used lists.old.items }
    ensures empty { (c : ℕ) → list_of lists.new.items c ≡ [] }
    ensures fits { length lists.new.items ≤ 4294967296 }
{
    lists.truncate(KEPT_LISTS);
    for context in 0..used.min(lists.len()) {
        lists[context].clear();
    }
}

impl SlotIndex {
    /// Makes an index without points.
    pub(crate) fn new(alloc: Global) -> Self
        ensures { result ≡ [] }
    {
        SlotIndex {
            lists: Vec::new(alloc),
            used: 0,
            rest: BTreeMap::new(alloc),
            count: 0,
        }
    }

    /// Returns how many points there are.
    pub(crate) fn len(&self) -> u32
        ensures { result ≡ length self.now }
    {
        self.count
    }

    /// Returns the slot of a point.
    pub(crate) fn get(&self, context: u32, offset: u32) -> Option<u32>
        ensures { result ≡ states_of self.now (context, offset) }
    {
        let Some(list) = self.lists.get(context as usize) else {
            return None;
        };
        if list.is_below(offset) {
            return None;
        }
        match list.get(offset) {
            Some(slot) => Some(slot),
            None => self.rest.get(&(context, offset)).copied(),
        }
    }

    /// Returns the points that are there, with their slots, by ascending context, and by ascending
    /// offset within one.
    pub(crate) fn iter(&self) -> SlotIndexIter<'_>
        ensures { result ≡ self.now }
    {
        let mut lists = OffsetListsIter::new(&self.lists[..self.used]);
        let mut rest = self.rest.iter();
        SlotIndexIter {
            first: lists.take_first(),
            lists,
            other: next_in(&mut rest),
            rest,
        }
    }

    /// Puts a point that isn't there, with its slot.
    ///
    /// # Errors
    /// If memory runs out; then the points stay as they are.
    pub(crate) fn insert(&mut self, context: u32, offset: u32, slot: u32) -> Result<(), AllocError>
        requires absent { states_of self.old (context, offset) ≡ None }
        requires few { length self.old < 4294967295 }
        ensures ok { OnOk result
            (self.new ≡ insert_entry place_cmp self.old (context, offset) slot) }
        ensures err { OnErr result (self.new ≡ self.old) }
    {
        add_lists(&mut self.lists, context)?;
        self.used = self.used.max(context as usize + 1);
        put(&mut self.lists, &mut self.rest, (context, offset), slot)?;
        self.count += 1;
        Ok(())
    }

    /// Removes all points, and keeps the memory of the first lists.
    pub(crate) fn clear(&mut self)
        ensures { self.new ≡ [] }
    {
        clear_lists(&mut self.lists, self.used);
        self.used = 0;
        self.rest.clear();
        self.count = 0;
    }
}

/// The points of lists that are still to come.
#[derive(Drop)]
struct OffsetListsIter<'a> {
    /// The context whose points come next.
    context: u32,
    /// The offsets of its list that are still to come, with their slots.
    list: &'a [(u32, u32)],
    /// The lists of the next contexts.
    lists: &'a [OffsetList],
}

impl<'a> Model for OffsetListsIter<'a> {
    ghost use Rattle.std.specs.Prelude.{List, ℕ, suc, ◌+◌, ◌++◌, ◌<◌, length};
    ghost use Rattle.tt_family.specs.Representation.SlotLists.{list_points, lists_points};

    ghost Value = { List ((ℕ × ℕ) × ℕ) };

    ghost view = { λ r.
        list_points r.context r.list.now ++ lists_points (suc r.context) r.lists.now };

    ghost invariant = { λ r. r.context + length r.lists.now < 4294967296 };
}

impl<'a> OffsetListsIter<'a> {
    /// Returns all points of the lists, the first of which is that of context 0.
    fn new(lists: &'a [OffsetList]) -> Self
        requires { length lists.now ≤ 4294967296 }
        ensures { result ≡ lists_points 0 lists.now }
    {
        match lists {
            [first, lists @ ..] => OffsetListsIter {
                context: 0,
                list: first.as_slice(),
                lists,
            },
            [] => OffsetListsIter {
                context: 0,
                list: &[],
                lists,
            },
        }
    }

    /// Takes the first of the points that are still to come.
    fn take_first(&mut self) -> Option<(PointKey, u32)>
        ensures none { result ≡ None → self.old ≡ [] }
        ensures some { IfSome result (λ e. self.old ≡ e ∷ self.new) }
    {
        loop {
            if let [first, list @ ..] = self.list {
                self.list = list;
                return Some(((self.context, first.0), first.1));
            }
            let [list, lists @ ..] = self.lists else {
                return None;
            };
            self.list = list.as_slice();
            self.lists = lists;
            self.context += 1;
        }
    }
}

/// Takes the first of the points of a tree that are still to come.
fn next_in(rest: &mut Iter<'_, PointKey, u32>) -> Option<(PointKey, u32)>
    ensures none { result ≡ None → rest.old ≡ [] }
    ensures some { IfSome result (λ e. rest.old ≡ e ∷ rest.new) }
{
    let (point, slot) = rest.next()?;
    Some((*point, *slot))
}

/// Whether the first point of the tree comes before the first point of the lists.
fn is_first(other: Option<(PointKey, u32)>, first: Option<(PointKey, u32)>) -> bool
    ensures { result ≡ comes_first other first }
{
    match (other, first) {
        (None, _) => false,
        (Some(_), None) => true,
        (Some(other), Some(first)) => other.0 < first.0,
    }
}

/// The points that are still to come, with their slots.
#[derive(Drop)]
pub(crate) struct SlotIndexIter<'a> {
    /// The first point of the lists.
    first: Option<(PointKey, u32)>,
    /// The others of the lists.
    lists: OffsetListsIter<'a>,
    /// The first point of the tree.
    other: Option<(PointKey, u32)>,
    /// The others of the tree.
    rest: Iter<'a, PointKey, u32>,
}

impl<'a> Model for SlotIndexIter<'a> {
    ghost use Rattle.std.specs.Prelude.{List, ℕ};
    ghost use Rattle.tt_family.specs.Representation.SlotLists.{AreApart, merged, with_first};

    ghost Value = { List ((ℕ × ℕ) × ℕ) };

    ghost view = { λ p. merged (with_first p.first p.lists) (with_first p.other p.rest) };

    ghost invariant = { λ p. AreApart (with_first p.first p.lists) (with_first p.other p.rest) };
}

impl<'a> SlotIndexIter<'a> {
    /// Takes the first of the points that are still to come.
    pub(crate) fn take_first(&mut self) -> Option<(PointKey, u32)>
        ensures none { result ≡ None → (self.old ≡ []) × (self.new ≡ []) }
        ensures some { IfSome result (λ e. self.old ≡ e ∷ self.new) }
    {
        if is_first(self.other, self.first) {
            let point = self.other;
            self.other = next_in(&mut self.rest);
            return point;
        }
        let point = self.first?;
        self.first = self.lists.take_first();
        Some(point)
    }
}
