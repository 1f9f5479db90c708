//! The order of sorted maps: a map covers more than another if it has only some of that one's
//! entries.

ghost use Rattle.std.specs.Prelude.{◌≡◌, ◌↔◌, IsTrue};
ghost use Rattle.tt_setting.specs.Entries.{Ascends};
ghost use Rattle.tt_abs.specs.Orders.{IsLeastAbove};
ghost use Rattle.tt_abs.specs.EntryOrders.{EntriesBelow, EntriesInRange, after_entry, entry_order};

use crate::order::{DepthMismatch, Order};
use tt_setting::sorted_map::begins_with;
use tt_setting::{EntryValue, SortedMap};

/// Returns the entries after the first, if that is this one, and all of them otherwise.
fn rest_after<'a, T: EntryValue>(entries: &'a [(u16, T)], entry: &(u16, T)) -> &'a [(u16, T)]
    ensures { result.now ≡ after_entry T.eq entry.now entries.now }
{
    match entries {
        [_, rest @ ..] if begins_with(entries, entry) => rest,
        _ => entries,
    }
}

/// Whether the first list has all the entries of the second, found by one pass along both.
fn passes_all<T: EntryValue>(mine: &[(u16, T)], theirs: &[(u16, T)]) -> bool
    requires mine_ascend { Ascends mine.now }
    requires theirs_ascend { Ascends theirs.now }
    ensures { IsTrue result ↔ EntriesBelow mine.now theirs.now }
{
    let mut missing = theirs;
    for entry in mine {
        missing = rest_after(missing, entry);
    }
    missing.is_empty()
}

/// Whether the first list has all the entries of the second. Of two lists of one length this is so
/// exactly if they are the same.
fn lists_all<T: EntryValue>(mine: &[(u16, T)], theirs: &[(u16, T)]) -> bool
    requires mine_ascend { Ascends mine.now }
    requires theirs_ascend { Ascends theirs.now }
    ensures { IsTrue result ↔ EntriesBelow mine.now theirs.now }
{
    if mine.len() == theirs.len() {
        T::are_same(mine, theirs)
    } else {
        passes_all(mine, theirs)
    }
}

/// Keeps the entries that both maps have, with the same values. Takes no memory.
fn keep_common<T: EntryValue>(mine: &mut SortedMap<T>, theirs: &SortedMap<T>)
    requires { EntriesInRange T.is_in_range mine.old }
    ensures { IsLeastAbove (entry_order T.is_in_range) mine.old theirs.now mine.new }
{
    mine.keep(theirs);
}

impl<T: EntryValue> Order for SortedMap<T> {
    ghost use Rattle.tt_abs.specs.EntryOrders.{entry_order};
    ghost use Rattle.tt_abs.specs.EntryLaws.{entry_laws};

    ghost order = { entry_order T.is_in_range };

    ghost laws = { entry_laws T.is_in_range };

    fn below(&self, other: &SortedMap<T>) -> bool {
        lists_all(self.as_slice(), other.as_slice())
    }

    fn join(&mut self, other: &SortedMap<T>) -> Result<bool, DepthMismatch> {
        let changed = !other.below(self);
        if changed {
            keep_common(self, other);
        }
        Ok(changed)
    }
}
