//! Tests of the glyphs that the components of one glyph name (OpenType specification, `glyf`,
//! "Composite glyph description").

ghost use Rattle.std.specs.Prelude.{◌≡◌, ◌^◌, ◌<◌, length};
ghost use Rattle.std.specs.List.{list_all};
ghost use Rattle.tt_font.specs.Components.{components, glyphs_named};
ghost use Rattle.tt_font.specs.Outlines.{outline_of, parts};
ghost use Rattle.hintcheck_c.specs.Representation.Retained.{is_in};

use tt_font::{ComponentReader, GLYPH_HEADER, is_composite};

/// Whether a glyph is in a set, which has a bool for each glyph.
pub(crate) fn is_in(set: &[bool], id: u16) -> bool
    ensures { result ≡ is_in set.now id }
{
    set.get(usize::from(id)).copied().unwrap_or(false)
}

/// Whether all components of a composite glyph are in a set.
fn lists_only(glyph: &[u8], set: &[bool]) -> bool
    requires small { length glyph.now < 2 ^ 32 }
    ensures { result ≡ list_all (is_in set.now) (glyphs_named (components glyph.now)) }
{
    let mut reader = ComponentReader::new();
    let mut place = GLYPH_HEADER;
    while let Some(component) = reader.read(glyph, place) {
        if !is_in(set, component.glyph) {
            return false;
        }
        if !component.has_more() {
            return true;
        }
        place = component.after;
    }
    true
}

/// Whether all components of a glyph are in a set.
pub(crate) fn has_parts_in(glyph: &[u8], set: &[bool]) -> bool
    requires small { length glyph.now < 2 ^ 32 }
    ensures { result ≡ list_all (is_in set.now) (parts (outline_of glyph.now)) }
{
    !is_composite(glyph) || lists_only(glyph, set)
}
