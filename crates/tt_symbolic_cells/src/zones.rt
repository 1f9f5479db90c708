//! Zones, and the numbers of points and contours in them.

ghost use Rattle.std.specs.Prelude.{◌≡◌, ℤ, true};
ghost use Rattle.tt_code.specs.Settings.{contours_in, zone_size};
ghost use Rattle.tt_code.specs.States.{is_below, pointer as pointer_of, reference as reference_of, with_pointer, with_reference};
ghost use Rattle.tt_code.specs.Operands.{is_point};
ghost use Rattle.tt_setting.specs.Settings.{setting_of};
ghost use Rattle.tt_symbolic_state.specs.Values.{Valuation, value};
ghost use Rattle.tt_symbolic_state.specs.Shows.{graphics_of, zone_number};

use tt_code::Graphics;
use tt_code::kinds::{Pointer, Reference, Within};
use tt_setting::{Setting, ZoneCell};
use tt_symbolic_state::cell::Cell;
use tt_symbolic_state::state::Zone;

/// Returns the cell of a reference point.
#[tactic(auto, using(crate::proofs::GraphicsOfCells::reference_value))]
pub fn reference(graphics: &Graphics<Cell, Zone>, reference: Reference) -> Cell
    ensures { (v : Valuation) → value v result
        ≡ reference_of reference (graphics_of v graphics.now) }
{
    graphics.reference(reference)
}

/// Returns the zone that a pointer names.
#[tactic(auto, using(crate::proofs::GraphicsOfCells::pointer_zone))]
pub fn pointer(graphics: &Graphics<Cell, Zone>, pointer: Pointer) -> Zone
    ensures { (v : Valuation) → zone_number result
        ≡ pointer_of pointer (graphics_of v graphics.now) }
{
    graphics.pointer(pointer)
}

/// Sets a reference point.
#[tactic(auto, using(crate::proofs::GraphicsOfCells::reference_set))]
pub fn set_reference(graphics: &mut Graphics<Cell, Zone>, reference: Reference, cell: Cell)
    ensures { (v : Valuation) → graphics_of v graphics.new
        ≡ with_reference reference (value v cell) (graphics_of v graphics.old) }
{
    graphics.set_reference(reference, cell);
}

/// Sets a zone pointer.
#[tactic(auto, using(crate::proofs::GraphicsOfCells::pointer_set))]
pub fn set_pointer(graphics: &mut Graphics<Cell, Zone>, pointer: Pointer, zone: Zone)
    ensures { (v : Valuation) → graphics_of v graphics.new
        ≡ with_pointer pointer (zone_number zone) (graphics_of v graphics.old) }
{
    graphics.set_pointer(pointer, zone);
}

/// Returns how many points the zone has.
pub fn points_in(setting: &Setting<'_>, zone: Zone) -> u32
    ensures { result ≡ zone_size (setting_of setting.now) (zone_number zone) }
{
    match zone {
        Zone::Zero => u32::from(setting.limits.twilight),
        Zone::One => setting.glyph_zone(),
    }
}

/// Returns how many contours the zone has.
pub fn contours(setting: &Setting<'_>, zone: Zone) -> u32
    ensures { result ≡ contours_in (setting_of setting.now) (zone_number zone) }
{
    match zone {
        Zone::Zero => 1,
        Zone::One => setting.glyph_contours(),
    }
}

/// Returns how many points there are in the smallest of the zones in which a point is tested.
pub fn points_within(setting: &Setting<'_>, graphics: &Graphics<Cell, Zone>, within: Within) -> u32
    ensures { (v : Valuation) (z : ℤ)
        → is_below z result
        ≡ is_point (setting_of setting.now) (graphics_of v graphics.now) within z }
{
    match within {
        Within::In(p) => points_in(setting, pointer(graphics, p)),
        Within::Both(p, q) => {
            let points = points_in(setting, pointer(graphics, p));
            points.min(points_in(setting, pointer(graphics, q)))
        }
        Within::GlyphAnd(p) => {
            let points = points_in(setting, Zone::One);
            points.min(points_in(setting, pointer(graphics, p)))
        }
    }
}

/// Returns what is known of a zone that is known.
pub fn cell_of(zone: Zone) -> ZoneCell {
    match zone {
        Zone::Zero => ZoneCell::Zero,
        Zone::One => ZoneCell::One,
    }
}

/// Returns the zone that both are, or either one where they differ.
fn both_zones(one: Zone, other: Zone) -> ZoneCell {
    if one == other {
        cell_of(one)
    } else {
        ZoneCell::Either
    }
}

/// Returns the zone in which a point is tested, or either one where it is tested in both.
pub fn zone_within(graphics: &Graphics<Cell, Zone>, within: Within) -> ZoneCell {
    match within {
        Within::In(p) => cell_of(pointer(graphics, p)),
        Within::Both(p, q) => both_zones(pointer(graphics, p), pointer(graphics, q)),
        Within::GlyphAnd(p) => both_zones(Zone::One, pointer(graphics, p)),
    }
}
