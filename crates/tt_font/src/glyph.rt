//! The bytes of one glyph: its program, points and contours (OpenType specification, `glyf`).

ghost use Rattle.std.specs.Prelude.{◌≡◌, ◌+◌, ◌*◌, ◌^◌, ◌<◌, ◌≤◌, length, is_some, true, false};
ghost use Rattle.std.specs.Option.{option_map};
ghost use Rattle.tt_font.specs.Components.{components, last_of};
ghost use Rattle.tt_font.specs.ComponentReads.{HasRoom, HasRead};
ghost use Rattle.tt_font.specs.Glyphs.{is_composite, component_count, program_at, simple_program, composite_program, program_of, simple_points, simple_contours};

use crate::component::{ComponentReader, GLYPH_HEADER};
use crate::numbers::u16_at;

/// From this value on, numberOfContours (an int16, read here as a u16) is negative: a glyph with a
/// negative one is made of components.
const COMPOSITE: u16 = 0x8000;

/// Returns the instructions at an offset of a glyph, which begin with their length, if all their
/// bytes are there.
#[tactic(auto, unfolding(crate::specs::Glyphs::program_at))]
fn read_program(glyph: &[u8], place: usize) -> Option<&[u8]>
    requires { place < 2 ^ 33 }
    ensures { option_map (λ program. program.now) result ≡ program_at place glyph.now }
{
    if glyph.len() < place + 2 {
        return None;
    }
    let start = place + 2;
    let end = start + usize::from(u16_at(glyph, place));
    if glyph.len() < end {
        return None;
    }
    Some(&glyph[start..end])
}

/// Reads the program of a simple glyph, if its bytes are there.
fn read_simple_program(glyph: &[u8]) -> Option<&[u8]>
    requires { 10 ≤ length glyph.now }
    ensures { option_map (λ program. program.now) result ≡ simple_program glyph.now }
{
    // `numberOfContours`; `endPtsOfContours` has two bytes for each contour.
    let contours = usize::from(u16_at(glyph, 0));
    if contours == 0 && glyph.len() == GLYPH_HEADER {
        return Some(&[]);
    }
    read_program(glyph, GLYPH_HEADER + 2 * contours)
}

/// Reads the program of a composite glyph, if its bytes are there.
fn read_composite_program<'a>(glyph: &'a [u8], reader: &mut ComponentReader) -> Option<&'a [u8]>
    requires small { length glyph.now < 2 ^ 32 }
    requires room { HasRoom reader.old (length (components glyph.now)) }
    ensures program { option_map (λ program. program.now) result
        ≡ composite_program glyph.now (last_of (components glyph.now)) }
    ensures counted { HasRead reader.old reader.new (length (components glyph.now)) }
{
    let last = reader.read_last(glyph)?;
    if last.has_instructions() {
        read_program(glyph, last.after)
    } else {
        Some(&[])
    }
}

/// Whether a glyph is made of components.
pub fn is_composite(glyph: &[u8]) -> bool
    ensures { result ≡ is_composite glyph.now }
{
    glyph.len() >= GLYPH_HEADER && u16_at(glyph, 0) >= COMPOSITE
}

/// Reads the program of a glyph, if its bytes are there. A glyph without data has an empty program.
#[tactic(auto, unfolding(crate::specs::Glyphs::program_of, crate::specs::Glyphs::component_count))]
pub(crate) fn read_glyph_program<'a>(
    glyph: &'a [u8],
    reader: &mut ComponentReader,
) -> Option<&'a [u8]>
    requires small { length glyph.now < 2 ^ 32 }
    requires room { HasRoom reader.old (component_count glyph.now) }
    ensures program { option_map (λ program. program.now) result ≡ program_of glyph.now }
    ensures counted { HasRead reader.old reader.new (component_count glyph.now) }
{
    if is_composite(glyph) {
        read_composite_program(glyph, reader)
    } else if glyph.len() >= GLYPH_HEADER {
        read_simple_program(glyph)
    } else if glyph.is_empty() {
        Some(&[])
    } else {
        None
    }
}

/// Returns how many points a simple glyph has, whose bytes are all there.
#[tactic(auto, unfolding(crate::specs::Glyphs::simple_points))]
pub(crate) fn simple_points(glyph: &[u8]) -> u32
    requires simple { is_composite glyph.now ≡ false }
    requires whole { is_some (program_of glyph.now) ≡ true }
    ensures points { result ≡ simple_points glyph.now }
    ensures most { result ≤ 65536 }
{
    if glyph.len() < GLYPH_HEADER {
        return 0;
    }
    let contours = usize::from(u16_at(glyph, 0));
    if contours == 0 {
        return 0;
    }
    // The last entry of `endPtsOfContours` is the number of the last point.
    u32::from(u16_at(glyph, GLYPH_HEADER + 2 * (contours - 1))) + 1
}

/// Returns how many contours a simple glyph has.
#[tactic(auto, unfolding(crate::specs::Glyphs::simple_contours))]
pub(crate) fn simple_contours(glyph: &[u8]) -> u32
    ensures contours { result ≡ simple_contours glyph.now }
    ensures most { result ≤ 65536 }
{
    if glyph.len() < GLYPH_HEADER {
        return 0;
    }
    u32::from(u16_at(glyph, 0))
}
