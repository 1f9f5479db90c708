//! The points and contours of a glyph's outline, as a sum over its components (OpenType
//! specification, `glyf`, "Composite glyph description").

ghost use Rattle.std.specs.Prelude.{◌≡◌, ◌+◌, ◌^◌, ◌<◌, ◌≤◌, length, min};
ghost use Rattle.tt_font.specs.Components.{components, glyphs_named};
ghost use Rattle.tt_font.specs.ComponentReads.{HasRoom, HasRead};
ghost use Rattle.tt_font.specs.Representation.OutlineSizes.{PointsAreCapped, ContoursAreCapped, AddsUp};

use crate::component::{ComponentReader, GLYPH_HEADER};
use crate::glyph::{is_composite, simple_contours, simple_points};

/// One more than the greatest number of points, and of contours, that a glyph may have (own).
const TOO_MANY: u32 = 65536;

/// The size of a glyph's outline, as far as it is known after some iterations.
#[derive(Clone, Copy, PartialEq, Eq)]
pub(crate) struct OutlineSize {
    /// Whether a chain of its components leads to a number that is no glyph's, or has more steps
    /// than there were iterations.
    pub(crate) unresolved: bool,
    /// How many points it has, where 65,536 stands for every greater number.
    pub(crate) points: u32,
    /// How many contours it has, counted likewise.
    pub(crate) contours: u32,
}

/// The sum over no glyphs.
const EMPTY: OutlineSize = OutlineSize {
    unresolved: false,
    points: 0,
    contours: 0,
};

/// The size of a glyph that the font doesn't have, and of a composite one before the first
/// iteration.
const UNRESOLVED: OutlineSize = OutlineSize {
    unresolved: true,
    points: 0,
    contours: 0,
};

/// Returns the sum of two numbers, but at most `TOO_MANY`.
fn capped(a: u32, b: u32) -> u32
    requires a_most { a ≤ 65536 }
    requires b_most { b ≤ 65536 }
    ensures { result ≡ min (a + b) 65536 }
{
    (a + b).min(TOO_MANY)
}

impl OutlineSize {
    ghost use Rattle.std.specs.Prelude.{◌≡◌, ◌+◌, ◌≤◌, ◌||◌, min, length, is_some, true};
    ghost use Rattle.tt_font.specs.Glyphs.{is_composite, program_of};
    ghost use Rattle.tt_font.specs.Outlines.{outline_of, own_points, own_contours};
    ghost use Rattle.tt_font.specs.Representation.OutlineSizes.{has_parts, size_at, size_refuses};

    /// Returns what a glyph's own bytes say of its size, before its components are known.
    pub(crate) fn own(glyph: &[u8]) -> OutlineSize
        requires { is_some (program_of glyph.now) ≡ true }
        ensures unresolved { result.unresolved ≡ has_parts (outline_of glyph.now) }
        ensures made { result.unresolved ≡ is_composite glyph.now }
        ensures points { result.points ≡ min (own_points (outline_of glyph.now)) 65536 }
        ensures contours { result.contours ≡ min (own_contours (outline_of glyph.now)) 65536 }
    {
        if is_composite(glyph) {
            return UNRESOLVED;
        }
        OutlineSize {
            unresolved: false,
            points: simple_points(glyph),
            contours: simple_contours(glyph),
        }
    }

    /// Returns the size of a glyph, by its number.
    pub(crate) fn of(sizes: &[OutlineSize], id: u16) -> OutlineSize
        ensures { result ≡ size_at sizes.now id }
    {
        sizes.get(usize::from(id)).copied().unwrap_or(UNRESOLVED)
    }

    /// Adds two sizes.
    fn plus(self, part: OutlineSize) -> OutlineSize
        requires points { self.points ≤ 65536 }
        requires part_points { part.points ≤ 65536 }
        requires contours { self.contours ≤ 65536 }
        requires part_contours { part.contours ≤ 65536 }
        ensures unresolved { result.unresolved ≡ (self.unresolved || part.unresolved) }
        ensures points { result.points ≡ min (self.points + part.points) 65536 }
        ensures contours { result.contours ≡ min (self.contours + part.contours) 65536 }
    {
        OutlineSize {
            unresolved: self.unresolved || part.unresolved,
            points: capped(self.points, part.points),
            contours: capped(self.contours, part.contours),
        }
    }

    /// Whether the size, after the last iteration, is a fault of its glyph.
    pub(crate) fn refuses(&self) -> bool
        ensures { result ≡ size_refuses self.now }
    {
        self.unresolved || self.points >= TOO_MANY || self.contours >= TOO_MANY
    }
}

/// Adds up the sizes of a glyph's components, as they were after the previous iteration.
pub(crate) fn add_up(
    sizes: &[OutlineSize],
    glyph: &[u8],
    reader: &mut ComponentReader,
) -> OutlineSize
    requires points { PointsAreCapped sizes.now }
    requires contours { ContoursAreCapped sizes.now }
    requires small { length glyph.now < 2 ^ 32 }
    requires room { HasRoom reader.old (length (components glyph.now)) }
    ensures sum { AddsUp sizes.now (glyphs_named (components glyph.now)) result }
    ensures counted { HasRead reader.old reader.new (length (components glyph.now)) }
{
    let mut sum = EMPTY;
    let mut place = GLYPH_HEADER;
    while let Some(component) = reader.read(glyph, place) {
        sum = sum.plus(OutlineSize::of(sizes, component.glyph));
        if !component.has_more() {
            return sum;
        }
        place = component.after;
    }
    sum
}
