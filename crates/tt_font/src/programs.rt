//! The programs of all glyphs (OpenType specification, `glyf`).

ghost use Rattle.std.specs.Prelude.{◌≡◌, length, IfOk, IfErr, OnOk, alloc_error};
ghost use Rattle.tt_font.specs.ComponentReads.{HasRoom, HasRead};
ghost use Rattle.tt_font.specs.Representation.OutlineSizes.{PointsFit, ContoursFit};
ghost use Rattle.tt_font.specs.Representation.GlyphTables.{components_in, truncated_in};
ghost use Rattle.tt_font.specs.Representation.GlyphParts.{AreAllPrograms, ArePutTogether};
ghost use Rattle.tt_font.specs.Conditions.{TestsWithMemory};

use crate::component::ComponentReader;
use crate::fault::FontFault;
use crate::glyph::read_glyph_program;
use crate::glyph_part::GlyphPart;
use crate::glyph_table::GlyphTable;
use crate::outline_size::OutlineSize;
use std::alloc::Global;

/// Reads the programs of all glyphs.
///
/// # Errors
///
/// `GlyphTruncated` with the first glyph whose bytes end too early, or `OutOfMemory`.
pub(crate) fn read_programs<'a>(
    alloc: Global,
    glyphs: &GlyphTable<'a>,
    reader: &mut ComponentReader,
) -> Result<Vec<&'a [u8]>, FontFault>
    requires room { HasRoom reader.old (components_in glyphs.now) }
    ensures fault { TestsWithMemory (truncated_in glyphs.now) result }
    ensures programs { IfOk result (λ programs. AreAllPrograms glyphs.now programs.items) }
    ensures counted { OnOk result (HasRead reader.old reader.new (components_in glyphs.now)) }
{
    let mut programs = Vec::with_capacity(alloc, usize::from(glyphs.count))?;
    for id in 0..glyphs.count {
        let Some(program) = read_glyph_program(glyphs.glyph(id), reader) else {
            return Err(FontFault::GlyphTruncated(id));
        };
        programs.push(program)?;
    }
    Ok(programs)
}

/// Makes the glyphs from their programs and the sizes of their outlines.
///
/// # Errors
///
/// `OutOfMemory`.
pub(crate) fn put_together<'a>(
    alloc: Global,
    programs: &[&'a [u8]],
    sizes: &[OutlineSize],
    count: u16,
) -> Result<Vec<GlyphPart<'a>>, FontFault>
    requires programs { length programs.now ≡ count }
    requires points { PointsFit sizes.now count }
    requires contours { ContoursFit sizes.now count }
    ensures glyphs { IfOk result (λ glyphs.
        ArePutTogether programs.now sizes.now count glyphs.items) }
    ensures memory { IfErr result (λ fault. fault ≡ FontFault.OutOfMemory alloc_error) }
{
    let mut glyphs = Vec::with_capacity(alloc, usize::from(count))?;
    for id in 0..count {
        let size = OutlineSize::of(sizes, id);
        glyphs.push(GlyphPart {
            points: size.points as u16,
            contours: size.contours as u16,
            program: programs[usize::from(id)],
        })?;
    }
    Ok(glyphs)
}
