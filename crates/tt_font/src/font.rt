//! A whole font file: its limits, its programs and its glyphs (OpenType specification, "Font
//! tables").

ghost use Rattle.std.specs.Prelude.{◌≡◌, ◌*◌, ◌<◌, ◌^◌, IfOk, OnOk, length};
ghost use Rattle.tt_font.specs.ComponentReads.{HasRoom, HasReadAtLeast, HasReadAtMost};
ghost use Rattle.tt_font.specs.Representation.GlyphTables.{components_in, fault_in};
ghost use Rattle.tt_font.specs.Representation.GlyphParts.{AreRead};
ghost use Rattle.tt_font.specs.Conditions.{TestsWithMemory};
ghost use Rattle.tt_font.specs.Ranges.{AreFewBytes};

use crate::component::ComponentReader;
use crate::fault::FontFault;
use crate::glyph_part::GlyphPart;
use crate::glyph_table::GlyphTable;
use crate::iteration::outline_sizes;
use crate::programs::{put_together, read_programs};
use crate::tables::Tables;
use std::alloc::{AllocError, Global};
use std::marker::Model;
use tt_code::Limits;

/// Reads the glyphs of a font.
///
/// # Errors
///
/// `GlyphTruncated` with the first glyph whose bytes end too early; otherwise `Composite` with the
/// first glyph whose components, points or contours are at fault; or `OutOfMemory`.
#[tactic(auto, unfolding(crate::specs::Conditions::glyphs_fault))]
fn read_glyphs<'a>(
    alloc: Global,
    glyphs: &GlyphTable<'a>,
    reader: &mut ComponentReader,
) -> Result<Vec<GlyphPart<'a>>, FontFault>
    requires room { HasRoom reader.old (17 * components_in glyphs.now) }
    ensures fault { TestsWithMemory (fault_in glyphs.now) result }
    ensures glyphs { IfOk result (λ parts. AreRead glyphs.now parts.items) }
    ensures at_least { OnOk result (HasReadAtLeast reader.old reader.new
        (components_in glyphs.now)) }
    ensures at_most { OnOk result (HasReadAtMost reader.old reader.new
        (17 * components_in glyphs.now)) }
{
    let programs = read_programs(alloc, glyphs, reader)?;
    let sizes = outline_sizes(alloc, glyphs, reader)?;
    put_together(alloc, &programs, &sizes, glyphs.count)
}

/// States that a program of fewer than 2^31 bytes is in its range, as is always so.
fn program_facts(program: &[u8])
    requires { length program.now < 2 ^ 31 }
    ensures { AreFewBytes program.now }
{
    let _ = program;
}

/// A font file, read: the limits of its programs, and its programs as slices of the file (OpenType
/// specification, "Font tables").

pub struct Font<'a> {
    /// What the font allows its programs.
    limits: Limits,
    /// How many control values the font has.
    cvt_count: u32,
    /// The font program, a slice of the file.
    fpgm: &'a [u8],
    /// The CVT program, a slice of the file.
    prep: &'a [u8],
    /// The glyphs, by their numbers.
    glyphs: Vec<GlyphPart<'a>>,
    /// How often a component was read, one that was read again counted again.
    component_reads: u64,
}

// Written out, so that who holds a font proves in one step that its memory is given back.
impl<'a> Drop for Font<'a> {
    fn drop(self) {
        let Font {
            limits: _,
            cvt_count: _,
            fpgm: _,
            prep: _,
            glyphs,
            component_reads: _,
        } = self;
        drop(glyphs);
    }
}

impl<'a> Model for Font<'a> {
    ghost use Rattle.tt_font.specs.Reading.{FontData};

    ghost Value = { FontData };

    ghost use Rattle.tt_font.specs.Representation.FontFields.{IsKept, font_data};

    ghost view = { font_data };

    ghost invariant = { IsKept };
}

impl<'a> Font<'a> {
    ghost use Rattle.std.specs.Prelude.{◌≡◌, ◌<◌, ◌^◌, None, IfErr, IfOk, length, slice_get};
    ghost use Rattle.std.specs.Option.{option_map};
    ghost use Rattle.tt_font.specs.Conditions.{IsOutOfMemory, TestsWithMemory};
    ghost use Rattle.tt_font.specs.FileFaults.{font_fault, tables_fault};
    ghost use Rattle.tt_font.specs.Ranges.{IsFontInRange};
    ghost use Rattle.tt_font.specs.Reading.{Reads, ReadsComponents, font_around, glyph_data};

    /// Reads the bytes of a font file. No glyph and no program is copied, and the memory that is
    /// taken grows with the number of glyphs only, once `loca` is known to have an entry for each.
    ///
    /// # Errors
    ///
    /// The first of these that holds, or `OutOfMemory`, which is returned only where none of the
    /// first five holds.
    /// 1. Fewer than 12 bytes (`DirectoryTruncated`), the version (`NotSfnt`), fewer bytes than the
    ///    records of the directory take (`DirectoryTruncated`).
    /// 2. `maxp` is missing, lies outside the file or has fewer than 4 bytes, isn't of version 1.0,
    ///    has fewer than 32 bytes.
    /// 3. `head` is missing, lies outside or has fewer than 54 bytes; then `loca` and then `glyf`
    ///    is missing or lies outside.
    /// 4. `cvt `, `fpgm` or `prep` is there and lies outside, or one of the programs is longer than
    ///    2,147,483,647 bytes.
    /// 5. The format of `loca` isn't 0 or 1 (entry 0), or an entry is missing, lies above the
    ///    length of `glyf` or below the entry before it (the first such entry).
    /// 6. A glyph's bytes end too early (the first such glyph).
    /// 7. From a glyph a chain of at most 16 components leads to a number that isn't below the
    ///    number of glyphs, or one of 17 starts, or the glyph has more than 65,535 points or
    ///    contours (the first such glyph).
    #[tactic(auto, unfolding(crate::specs::FileFaults::font_fault))]
    pub fn read(alloc: Global, bytes: &'a [u8]) -> Result<Font<'a>, FontFault>
        ensures fault { TestsWithMemory (font_fault bytes.now) result }
        ensures reads { IfOk result (λ font. Reads bytes.now font) }
        ensures components { IfOk result (λ font. ReadsComponents bytes.now font) }
        ensures memory { IfErr result (λ fault. IsOutOfMemory fault
            → tables_fault bytes.now ≡ None) }
    {
        let tables = Tables::read(bytes)?;
        let mut reader = ComponentReader::new();
        let glyphs = read_glyphs(alloc, &tables.glyphs, &mut reader)?;
        Ok(Font {
            limits: tables.limits,
            cvt_count: tables.cvt_count,
            fpgm: tables.fpgm,
            prep: tables.prep,
            glyphs,
            component_reads: reader.reads(),
        })
    }

    /// Makes the font of this glyph alone, whose font program and CVT program are empty.
    ///
    /// # Errors
    ///
    /// If memory runs out.
    pub fn around(
        alloc: Global,
        limits: Limits,
        cvt_count: u32,
        glyph: GlyphPart<'a>,
    ) -> Result<Font<'a>, AllocError>
        requires { length glyph.program.now < 2 ^ 31 }
        ensures { IfOk result (λ font. font
            ≡ font_around limits cvt_count (glyph_data glyph.entry)) }
    {
        prove!(u32::from(limits.stack) < 1 << 16);
        program_facts(glyph.program);
        let mut glyphs = Vec::new(alloc);
        glyphs.push(glyph)?;
        Ok(Font {
            limits,
            cvt_count,
            fpgm: &[],
            prep: &[],
            glyphs,
            component_reads: 0,
        })
    }

    /// States that each program of the font has fewer than 2^31 bytes, and that maxStackElements
    /// has 16 bits, as is always so.
    pub fn range_facts(&self)
        ensures { IsFontInRange self.now }
    {
        let _ = &self.limits;
    }

    /// Returns what the font allows its programs.
    pub fn limits(&self) -> Limits
        ensures { result ≡ self.now.limits }
    {
        self.limits
    }

    /// Returns how many control values the font has.
    pub fn cvt_count(&self) -> u32
        ensures { result ≡ self.now.cvt_count }
    {
        self.cvt_count
    }

    /// Gives the font other limits and another number of control values. All else stays as it was.
    pub fn set_limits(&mut self, limits: Limits, cvt_count: u32)
        ensures { self.new ≡ record self.old { limits = limits; cvt_count = cvt_count } }
    {
        self.limits = limits;
        self.cvt_count = cvt_count;
    }

    /// Returns how many glyphs the font has.
    pub fn glyph_count(&self) -> u16
        ensures { result ≡ length self.now.glyphs }
    {
        self.glyphs.len() as u16
    }

    /// Returns the font program, empty where the font has none.
    pub fn fpgm(&self) -> &'a [u8]
        ensures { result.now ≡ self.now.fpgm }
    {
        self.fpgm
    }

    /// Returns the CVT program, empty where the font has none.
    pub fn prep(&self) -> &'a [u8]
        ensures { result.now ≡ self.now.prep }
    {
        self.prep
    }

    /// Returns a glyph; None where the font has fewer glyphs.
    pub fn glyph(&self, id: u16) -> Option<GlyphPart<'a>>
        ensures { option_map glyph_data result ≡ slice_get self.now.glyphs id }
    {
        self.glyphs.get(usize::from(id)).copied()
    }

    /// Returns how many components were read while the font was read, one that was read again
    /// counted again: at least one for each that a glyph lists, and at most 17 for each.
    pub fn component_reads(&self) -> u64
        ensures { result ≡ self.now.component_reads }
    {
        self.component_reads
    }
}
