//! Entries of memory maps that are no longer known.

ghost use Rattle.std.specs.Prelude.{◌≡◌, ℕ, false, is_some};
ghost use Rattle.std.specs.List.{All};
ghost use Rattle.tt_symbolic_state.specs.declared.cell.Cell.{Cell as AnyCell};
ghost use Rattle.tt_symbolic.specs.Representation.Areas.{Forgets, IsOutside, IsPartOf};

use tt_setting::SortedMap;
use tt_symbolic_state::cell::Cell;

/// How many entries `forget` removes one by one.
const MOST_REMOVED: u32 = 64;

/// Returns the number of the first entry between two bounds, if there is one.
fn first_between(entries: &[(u16, Cell)], low: i64, high: i64) -> Option<u16>
    ensures { is_some result ≡ false
        → All (λ (e : ℕ × AnyCell). IsOutside low high e.0) entries.now }
{
    for entry in entries {
        let number = i64::from(entry.0);
        if low <= number && number <= high {
            return Some(entry.0);
        }
    }
    None
}

/// Removes entries between the bounds, as long as they are few.
fn remove_between(entries: &mut SortedMap<Cell>, low: i64, high: i64)
    ensures { IsPartOf entries.new entries.old }
{
    for i in 0..MOST_REMOVED {
        match first_between(entries.as_slice(), low, high) {
            Some(number) => entries.remove(number),
            None => return,
        }
    }
}

/// Forgets the entries between two bounds. Where these are more than 64 it forgets all others too.
pub fn forget(entries: &mut SortedMap<Cell>, low: i64, high: i64)
    ensures { Forgets low high entries.old entries.new }
{
    remove_between(entries, low, high);
    if first_between(entries.as_slice(), low, high).is_some() {
        entries.clear();
    }
}
