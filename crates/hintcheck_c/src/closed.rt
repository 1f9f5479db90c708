//! Sets of glyphs that are closed over components.

ghost use Rattle.std.specs.Prelude.{◌≡◌, ◌↔◌, ◌&&◌, None, ℕ, ◌<◌, length, true, false};
ghost use Rattle.std.specs.List.{list_all};
ghost use Rattle.tt_font.specs.FileFaults.{font_fault};
ghost use Rattle.tt_font.specs.Files.{font_glyph_count, font_outlines};
ghost use Rattle.tt_font.specs.Outlines.{parts};
ghost use Rattle.tt_font.specs.PlacedGlyphs.{outlines_in};
ghost use Rattle.hintcheck_c.specs.Representation.Retained.{HasAllReached, TakesOut, is_in};

use crate::component::{has_parts_in, is_in};
use tt_font::GlyphTable;

/// How many steps a chain of components may have in a font that is read.
const STEPS: u32 = 16;

/// Whether a glyph and all its components are in a set.
fn has_whole(set: &[bool], glyphs: &GlyphTable, id: u16) -> bool
    requires { id < glyphs.now.count }
    ensures { result ≡ (is_in set.now id
        && list_all (is_in set.now) (parts (outlines_in glyphs.now id))) }
{
    is_in(set, id) && has_parts_in(glyphs.glyph(id), set)
}

/// Takes out of a set each glyph with a component that isn't in it, and returns whether there was
/// one.
fn take_out(set: &mut [bool], glyphs: &GlyphTable) -> bool
    requires { length set.old ≡ glyphs.now.count }
    ensures taken { TakesOut (outlines_in glyphs.now) set.old set.new }
    ensures none { result ≡ false → set.new ≡ set.old }
{
    let mut changed = false;
    for id in 0..glyphs.count() {
        let place = usize::from(id);
        let stays = has_whole(set, glyphs, id);
        changed |= set[place] != stays;
        set[place] = stays;
    }
    changed
}

/// Takes out of a set each glyph from which a chain of components leads to a glyph that isn't in it.
/// The set has a bool for each glyph of a font, which is read without a fault. Each glyph's
/// components are read at most 16 times.
pub(crate) fn retain_closed(bytes: &[u8], set: &mut [bool])
    requires font { font_fault bytes.now ≡ None }
    requires set { length set.old ≡ font_glyph_count bytes.now }
    ensures closed { (id : ℕ) → (is_in set.new id ≡ true)
        ↔ HasAllReached (font_outlines bytes.now) set.old id }
    ensures len { length set.new ≡ length set.old }
{
    let glyphs = GlyphTable::of(bytes);
    for _ in 0..STEPS {
        if !take_out(set, &glyphs) {
            return;
        }
    }
}
