//! Sorted maps: entries in ascending order of their numbers, such as functions with their bodies
//! and storage cells with their numbers.

ghost use Rattle.std.specs.Prelude.{◌≡◌, ◌↔◌, ℕ, ◌<◌, ◌≤◌, List, [], true, IsTrue, IfOk, MatchResult, OnOk, OnErr, take, length};
ghost use Rattle.std.specs.Option.{IsSome};
ghost use Rattle.std.specs.Result.{IsOk};
ghost use Rattle.std.specs.List.{insert};
ghost use Rattle.tt_setting.specs.Entries.{Ascends, listed, with_entries, with_entry, without_entry};
ghost use Rattle.tt_setting.specs.EntryLists.{IsEquality, IsAt, IsGap, entries_from, begins_with_entry, common_entries};

use std::alloc::{AllocError, Global};
use std::marker::Model;

/// How many entries `put` lets a map have.
const MOST_ENTRIES: usize = 65_535;

/// A value of an entry: it is copied, and `==` tells equal values from others.
pub trait EntryValue: Copy + PartialEq {
    /// Which values are in the machine's range.
    ghost is_in_range: { Self → Type 0 };

    /// Whether the entries of two lists of one length are the same.
    fn are_same(mine: &[(u16, Self)], theirs: &[(u16, Self)]) -> bool
        requires { length mine.now ≡ length theirs.now }
        ensures { IsTrue result ↔ (mine.now ≡ theirs.now) };

    /// What `==` tells: whether two values are equal.
    ghost decides: { IsEquality Self.eq };
}

/// Whether functions with their bodies are the same, in two lists of one length. Compares bits
/// only, so that no entry costs a branch.
fn are_equal(mine: &[(u16, u32)], theirs: &[(u16, u32)]) -> bool
    requires { length mine.now ≡ length theirs.now }
    ensures { IsTrue result ↔ (mine.now ≡ theirs.now) }
{
    let mut difference = 0;
    for i in 0..mine.len() {
        difference |= u32::from(mine[i].0 ^ theirs[i].0) | (mine[i].1 ^ theirs[i].1);
    }
    difference == 0
}

impl EntryValue for u32 {
    ghost use Rattle.std.specs.Prelude.{ℕ, ⊤};
    ghost use Rattle.std.proofs.lemmas.Bool.Decides.{Decides-eqb};

    ghost is_in_range = { λ _. ⊤ };

    ghost decides = { Decides-eqb };

    fn are_same(mine: &[(u16, u32)], theirs: &[(u16, u32)]) -> bool {
        are_equal(mine, theirs)
    }
}

impl EntryValue for i32 {
    ghost use Rattle.tt_code.specs.States.{IsNumber};
    ghost use Rattle.std.proofs.lemmas.Bool.Decides.{Decides-int_eq};

    ghost is_in_range = { IsNumber };

    ghost decides = { Decides-int_eq };

    fn are_same(mine: &[(u16, i32)], theirs: &[(u16, i32)]) -> bool {
        mine == theirs
    }
}

/// Entries in ascending order of their numbers, at most one of each number.
#[derive(Drop)]
pub struct SortedMap<T> {
    /// The entries: a number and its value.
    entries: Vec<(u16, T)>,
}

impl<T> Model for SortedMap<T> {
    ghost use Rattle.std.specs.Prelude.{List, ℕ};
    ghost use Rattle.tt_setting.specs.Entries.{Ascends as IsAscending};

    ghost Value = { List (ℕ × T) };

    ghost view = { λ e. e.entries.items };

    ghost invariant = { λ e. IsAscending e.entries.items };
}

/// Returns the index at which a number is listed, or at which its entry would have to be put.
fn search<T>(entries: &[(u16, T)], number: u16) -> Result<usize, usize>
    requires { Ascends entries.now }
    ensures place { MatchResult result (IsAt number entries.now) (IsGap number entries.now) }
    ensures bound { MatchResult result (λ i. i < length entries.now) (λ i. i ≤ length entries.now) }
{
    entries.binary_search_by_key(&number, |entry| entry.0)
}

/// Returns the value that is listed with a number.
fn value_at<T: Copy>(entries: &[(u16, T)], number: u16) -> Option<T>
    requires { Ascends entries.now }
    ensures { result ≡ listed entries.now number }
{
    match search(entries, number) {
        Ok(at) => Some(entries[at].1),
        Err(_) => None,
    }
}

/// Puts an entry at an index, if there is room.
fn insert_entry<T: Drop>(
    entries: &mut Vec<(u16, T)>,
    at: usize,
    entry: (u16, T),
) -> Result<(), AllocError>
    requires { at ≤ length entries.old.items }
    ensures ok { OnOk result (entries.new.items ≡ insert entries.old.items at entry) }
    ensures err { OnErr result (entries.new.items ≡ entries.old.items) }
{
    if entries.len() >= MOST_ENTRIES {
        return Err(AllocError);
    }
    entries.insert(at, entry)?;
    Ok(())
}

/// Puts an entry where its number belongs, in place of the one of that number if there is one.
fn put_entry<T: Copy>(entries: &mut Vec<(u16, T)>, number: u16, value: T) -> Result<(), AllocError>
    requires { Ascends entries.old.items }
    ensures ok { OnOk result (entries.new.items ≡ with_entry number value entries.old.items) }
    ensures err { OnErr result (entries.new.items ≡ entries.old.items) }
    ensures replaced { IsSome (listed entries.old.items number) → IsOk result }
{
    match search(entries.as_slice(), number) {
        Ok(at) => {
            entries[at] = (number, value);
            Ok(())
        }
        Err(at) => insert_entry(entries, at, (number, value)),
    }
}

/// Whether the numbers ascend.
fn do_ascend<T>(entries: &[(u16, T)]) -> bool
    ensures { result ≡ true → Ascends entries.now }
{
    let mut least = 0;
    for entry in entries {
        let number = u32::from(entry.0);
        if number < least {
            return false;
        }
        least = number + 1;
    }
    true
}

/// Removes the entry of a number.
fn remove_entry<T: Copy>(entries: &mut Vec<(u16, T)>, number: u16)
    requires { Ascends entries.old.items }
    ensures { entries.new.items ≡ without_entry number entries.old.items }
{
    if let Ok(at) = search(entries.as_slice(), number) {
        entries.remove(at);
    }
}

/// Whether the first entry is this one.
pub fn begins_with<T: EntryValue>(entries: &[(u16, T)], entry: &(u16, T)) -> bool
    ensures { result ≡ begins_with_entry T.eq entry.now entries.now }
{
    match entries {
        [first, ..] => first.0 == entry.0 && first.1 == entry.1,
        [] => false,
    }
}

/// Returns the entries from a number on.
fn from_number<T>(entries: &[(u16, T)], number: u16) -> &[(u16, T)]
    ensures { result.now ≡ entries_from number entries.now }
{
    let mut rest = entries;
    while let [first, after @ ..] = rest {
        if first.0 >= number {
            break;
        }
        rest = after;
    }
    rest
}

/// Moves to the front the entries that the other list has too, and returns how many these are.
fn gather_common<T: EntryValue>(mine: &mut [(u16, T)], theirs: &[(u16, T)]) -> usize
    requires mine_ascend { Ascends mine.old }
    requires theirs_ascend { Ascends theirs.now }
    ensures bound { result ≤ length mine.new }
    ensures common { take result mine.new ≡ common_entries T.eq mine.old theirs.now }
{
    let mut rest = theirs;
    let mut kept = 0;
    for at in 0..mine.len() {
        let entry = mine[at];
        rest = from_number(rest, entry.0);
        if begins_with(rest, &entry) {
            mine[kept] = entry;
            kept += 1;
        }
    }
    kept
}

/// Keeps the entries that the other list has too.
fn keep_common<T: EntryValue>(mine: &mut Vec<(u16, T)>, theirs: &[(u16, T)])
    requires mine_ascend { Ascends mine.old.items }
    requires theirs_ascend { Ascends theirs.now }
    ensures { mine.new.items ≡ common_entries T.eq mine.old.items theirs.now }
{
    let kept = gather_common(mine.as_mut_slice(), theirs);
    mine.truncate(kept);
}

impl<T: Copy> SortedMap<T> {
    /// Makes the empty map. Takes no memory.
    pub fn new(alloc: Global) -> SortedMap<T>
        ensures { result ≡ [] }
    {
        SortedMap {
            entries: Vec::new(alloc),
        }
    }

    /// Makes a map of these entries.
    ///
    /// # Errors
    /// If memory runs out.
    pub fn from_slice(alloc: Global, entries: &[(u16, T)]) -> Result<SortedMap<T>, AllocError>
        requires { Ascends entries.now }
        ensures { IfOk result (λ made. made ≡ entries.now) }
    {
        Ok(SortedMap {
            entries: Vec::from_slice(alloc, entries)?,
        })
    }

    /// Makes a map of these entries, put one after the other: of several of one number the last
    /// stays.
    ///
    /// # Errors
    /// If memory runs out, or there are 65,536 numbers.
    pub fn from_entries(alloc: Global, entries: &[(u16, T)]) -> Result<SortedMap<T>, AllocError>
        ensures in_turn { IfOk result (λ made. made ≡ with_entries [] entries.now) }
        ensures ascending { Ascends entries.now → IfOk result (λ made. made ≡ entries.now) }
    {
        if do_ascend(entries) {
            return SortedMap::from_slice(alloc, entries);
        }
        let mut made = SortedMap::new(alloc);
        for entry in entries {
            made.put(entry.0, entry.1)?;
        }
        Ok(made)
    }

    /// Makes a map with the same entries.
    ///
    /// # Errors
    /// If memory runs out.
    pub fn copied(&self, alloc: Global) -> Result<SortedMap<T>, AllocError>
        ensures { IfOk result (λ copy. copy ≡ self.now) }
    {
        SortedMap::from_slice(alloc, self.entries.as_slice())
    }

    /// Becomes a map of these entries, in the memory that it has, where that is enough.
    ///
    /// # Errors
    /// If memory runs out; then the map's entries are unspecified.
    pub fn replace(&mut self, entries: &[(u16, T)]) -> Result<(), AllocError>
        requires { Ascends entries.now }
        ensures { OnOk result (self.new ≡ entries.now) }
    {
        self.entries.clear();
        // The usual case for storage cells: there are none.
        if entries.is_empty() {
            return Ok(());
        }
        self.entries.extend_from_slice(entries)
    }

    /// Becomes a map with the other's entries, in the memory that it has, where that is enough.
    ///
    /// # Errors
    /// If memory runs out; then the map's entries are unspecified.
    pub fn copy_from(&mut self, other: &SortedMap<T>) -> Result<(), AllocError>
        ensures { OnOk result (self.new ≡ other.now) }
    {
        self.replace(other.as_slice())
    }

    /// Removes all entries. Takes no memory.
    pub fn clear(&mut self)
        ensures { self.new ≡ [] }
    {
        self.entries.clear();
    }

    /// Returns the entries, in ascending order of their numbers.
    pub fn as_slice(&self) -> &[(u16, T)]
        ensures value { result.now ≡ self.now }
        ensures ascends { Ascends result.now }
    {
        self.entries.as_slice()
    }

    /// Returns the value that is listed with a number.
    pub fn get(&self, number: u16) -> Option<T>
        ensures { result ≡ listed self.now number }
    {
        value_at(self.entries.as_slice(), number)
    }

    /// Puts an entry where its number belongs, in place of the one of that number if there is one.
    ///
    /// # Errors
    /// If memory runs out, or there are 65,535 other entries; then the map stays as it is. An entry
    /// of a number that is listed is never refused.
    pub fn put(&mut self, number: u16, value: T) -> Result<(), AllocError>
        ensures ok { OnOk result (self.new ≡ with_entry number value self.old) }
        ensures err { OnErr result (self.new ≡ self.old) }
        ensures replaced { IsSome (listed self.old number) → IsOk result }
    {
        put_entry(&mut self.entries, number, value)
    }

    /// Removes the entry of a number. Takes no memory.
    pub fn remove(&mut self, number: u16)
        ensures { self.new ≡ without_entry number self.old }
    {
        remove_entry(&mut self.entries, number)
    }
}

impl<T: EntryValue> SortedMap<T> {
    /// Whether the entries are the same.
    pub fn is_same(&self, other: &SortedMap<T>) -> bool
        ensures { IsTrue result ↔ (self.now ≡ other.now) }
    {
        let mine = self.entries.as_slice();
        let theirs = other.entries.as_slice();
        mine.len() == theirs.len() && T::are_same(mine, theirs)
    }

    /// Keeps the entries that both have, with the same values. Takes no memory.
    pub fn keep(&mut self, other: &SortedMap<T>)
        ensures { self.new ≡ common_entries T.eq self.old other.now }
    {
        keep_common(&mut self.entries, other.entries.as_slice());
    }
}
