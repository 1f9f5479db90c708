//! The sizes of all glyphs' outlines, summed over their components iteration by iteration (OpenType
//! specification, `glyf`, "Composite glyph description").

ghost use Rattle.std.specs.Prelude.{◌≡◌, [], ◌*◌, length, IfOk, IfErr, OnOk, IsTrue, ◌↔◌, alloc_error};
ghost use Rattle.tt_font.specs.Numbers.{first_below};
ghost use Rattle.tt_font.specs.ComponentReads.{HasRoom, HasRead, HasReadAtLeast, HasReadAtMost};
ghost use Rattle.tt_font.specs.Representation.CompositeLists.{AreAllComposites, AgreeOnSimple};
ghost use Rattle.tt_font.specs.Representation.OutlineSizes.{size_at, PointsAreCapped, ContoursAreCapped, NextSizes, SizesAfter, size_refuses, HasTotals};
ghost use Rattle.tt_font.specs.PlacedGlyphs.{glyphs_of, outlines_in};
ghost use Rattle.tt_font.specs.Representation.GlyphTables.{components_in, AreWhole, refused_in};
ghost use Rattle.tt_font.specs.Conditions.{TestsWithMemory};

use crate::component::ComponentReader;
use crate::fault::FontFault;
use crate::glyph_table::GlyphTable;
use crate::outline_size::{OutlineSize, add_up};
use std::alloc::Global;
use std::mem::swap;

/// How many steps a chain of components may have. (Own: `maxComponentDepth` isn't read.)
const STEPS: u32 = 16;

/// Makes the sizes before the first iteration, which are what each glyph's own bytes say, and
/// appends the numbers of the composite glyphs to `composites`.
///
/// # Errors
///
/// `OutOfMemory`.
fn first_sizes(
    alloc: Global,
    glyphs: &GlyphTable,
    composites: &mut Vec<u16>,
) -> Result<Vec<OutlineSize>, FontFault>
    requires whole { AreWhole glyphs.now }
    requires empty { composites.old.items ≡ [] }
    ensures sizes { IfOk result (λ sizes. SizesAfter glyphs.now 0 sizes.items) }
    ensures composites { OnOk result (AreAllComposites glyphs.now composites.new.items) }
    ensures memory { IfErr result (λ fault. fault ≡ FontFault.OutOfMemory alloc_error) }
{
    let mut sizes = Vec::with_capacity(alloc, usize::from(glyphs.count))?;
    for id in 0..glyphs.count {
        let size = OutlineSize::own(glyphs.glyph(id));
        if size.unresolved {
            composites.push(id)?;
        }
        sizes.push(size)?;
    }
    Ok(sizes)
}

/// Writes what the sizes are after one more iteration into `next`, which already has those of the
/// glyphs that aren't composite.
fn iterate(
    glyphs: &GlyphTable,
    composites: &[u16],
    sizes: &[OutlineSize],
    next: &mut [OutlineSize],
    reader: &mut ComponentReader,
)
    requires composites { AreAllComposites glyphs.now composites.now }
    requires simple { AgreeOnSimple (glyphs_of glyphs.now) glyphs.now.count sizes.now next.old }
    requires points { PointsAreCapped sizes.now }
    requires contours { ContoursAreCapped sizes.now }
    requires room { HasRoom reader.old (components_in glyphs.now) }
    ensures sizes { NextSizes (outlines_in glyphs.now) sizes.now glyphs.now.count next.new }
    ensures counted { HasRead reader.old reader.new (components_in glyphs.now) }
{
    for id in composites {
        next[usize::from(*id)] = add_up(sizes, glyphs.glyph(*id), reader);
    }
}

/// Returns the first glyph whose size is a fault.
fn first_refused(sizes: &[OutlineSize], count: u16) -> Option<u16>
    requires { length sizes.now ≡ count }
    ensures { result ≡ first_below (λ id. size_refuses (size_at sizes.now id)) count }
{
    for id in 0..count {
        if OutlineSize::of(sizes, id).refuses() {
            return Some(id);
        }
    }
    None
}

/// Whether two lists of sizes are the same.
fn is_same(a: &[OutlineSize], b: &[OutlineSize]) -> bool
    ensures { IsTrue result ↔ (a.now ≡ b.now) }
{
    a == b
}

/// Makes the sizes after the last iteration. Each iteration takes the sums over one more step of
/// the chains of components; where one changes nothing, those after it would change nothing either.
///
/// # Errors
///
/// `OutOfMemory`.
fn last_sizes(
    alloc: Global,
    glyphs: &GlyphTable,
    reader: &mut ComponentReader,
) -> Result<Vec<OutlineSize>, FontFault>
    requires whole { AreWhole glyphs.now }
    requires room { HasRoom reader.old (16 * components_in glyphs.now) }
    ensures sizes { IfOk result (λ sizes. SizesAfter glyphs.now 16 sizes.items) }
    ensures at_least { OnOk result (HasReadAtLeast reader.old reader.new 0) }
    ensures at_most { OnOk result (HasReadAtMost reader.old reader.new
        (16 * components_in glyphs.now)) }
    ensures memory { IfErr result (λ fault. fault ≡ FontFault.OutOfMemory alloc_error) }
{
    let mut composites = Vec::new(alloc);
    let mut sizes = first_sizes(alloc, glyphs, &mut composites)?;
    if composites.is_empty() {
        return Ok(sizes);
    }
    let mut next = Vec::from_slice(alloc, &sizes)?;
    for _ in 0..STEPS {
        iterate(glyphs, &composites, &sizes, &mut next, reader);
        if is_same(&next, &sizes) {
            return Ok(sizes);
        }
        swap(&mut sizes, &mut next);
    }
    Ok(sizes)
}

/// Returns the sizes of all glyphs' outlines.
///
/// # Errors
///
/// `Composite` with the first glyph whose size is a fault, or `OutOfMemory`.
pub(crate) fn outline_sizes(
    alloc: Global,
    glyphs: &GlyphTable,
    reader: &mut ComponentReader,
) -> Result<Vec<OutlineSize>, FontFault>
    requires whole { AreWhole glyphs.now }
    requires room { HasRoom reader.old (16 * components_in glyphs.now) }
    ensures fault { TestsWithMemory (refused_in glyphs.now) result }
    ensures sizes { IfOk result (λ sizes. HasTotals glyphs.now sizes.items) }
    ensures len { IfOk result (λ sizes. length sizes.items ≡ glyphs.now.count) }
    ensures at_least { OnOk result (HasReadAtLeast reader.old reader.new 0) }
    ensures at_most { OnOk result (HasReadAtMost reader.old reader.new
        (16 * components_in glyphs.now)) }
{
    let sizes = last_sizes(alloc, glyphs, reader)?;
    match first_refused(&sizes, glyphs.count) {
        Some(id) => Err(FontFault::Composite(id)),
        None => Ok(sizes),
    }
}
