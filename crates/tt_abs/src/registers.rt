//! Zone pointers and reference points: the zone in which a point is tested, and their numbers.

ghost use Rattle.std.specs.Prelude.{◌≡◌, ℤ};
ghost use Rattle.tt_code.specs.Settings.{Setting as AnySetting, zone_size};
ghost use Rattle.tt_setting.specs.Settings.{is_below_in};
ghost use Rattle.tt_abs.specs.Failures.{both_zones as zone_of_both, zone_within as zone_of_within};
ghost use Rattle.tt_abs.specs.Transfers.{is_point_in};
ghost use Rattle.tt_abs.specs.Registers.{pointer_numbered, reference_numbered};

use crate::cells::Cell;
use tt_code::Graphics;
use tt_code::kinds::{Pointer, Reference, Within};
use tt_setting::ZoneCell;

/// Returns the zone that both are, or either one where they differ.
fn both_zones(one: ZoneCell, other: ZoneCell) -> ZoneCell
    ensures { result ≡ zone_of_both one other }
{
    match (one, other) {
        (ZoneCell::Zero, ZoneCell::Zero) => ZoneCell::Zero,
        (ZoneCell::One, ZoneCell::One) => ZoneCell::One,
        _ => ZoneCell::Either,
    }
}

/// Returns the zone in which a point number is tested, or either one where it is tested in both.
pub(crate) fn zone_within(graphics: &Graphics<Cell, ZoneCell>, within: Within) -> ZoneCell
    ensures zone { result ≡ zone_of_within graphics.now within }
    ensures points { (s : AnySetting) (z : ℤ)
        → is_below_in (zone_size s) result z ≡ is_point_in s graphics.now within z }
{
    match within {
        Within::In(p) => graphics.pointer(p),
        Within::Both(p, q) => both_zones(graphics.pointer(p), graphics.pointer(q)),
        Within::GlyphAnd(p) => both_zones(ZoneCell::One, graphics.pointer(p)),
    }
}

/// Returns the reference point with a number: 0 for rp0, 1 for rp1, and any other for rp2.
pub fn reference_with_number(i: usize) -> Reference
    ensures { result ≡ reference_numbered i }
{
    match i {
        0 => Reference::Rp0,
        1 => Reference::Rp1,
        _ => Reference::Rp2,
    }
}

/// Returns the zone pointer with a number: 0 for zp0, 1 for zp1, and any other for zp2.
pub fn pointer_with_number(i: usize) -> Pointer
    ensures { result ≡ pointer_numbered i }
{
    match i {
        0 => Pointer::Zp0,
        1 => Pointer::Zp1,
        _ => Pointer::Zp2,
    }
}
