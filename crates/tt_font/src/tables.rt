//! The tables of a font file that are read (OpenType specification, "Font tables").

ghost use Rattle.std.specs.Prelude.{◌≡◌, ◌/◌, ◌<◌, ◌^◌, IfOk};
ghost use Rattle.tt_font.specs.declared.tag.Tag.TheVariants.{Fpgm, Glyf, Head, Loca, Prep};
ghost use Rattle.tt_font.specs.Locations.{loca_format};
ghost use Rattle.tt_font.specs.Directory.{table};
ghost use Rattle.tt_font.specs.Files.{font_limits, font_cvt_count, font_glyph_count};
ghost use Rattle.tt_font.specs.Conditions.{Tests};
ghost use Rattle.tt_font.specs.FileFaults.{tables_fault};

use crate::directory::Directory;
use crate::fault::FontFault;
use crate::glyph_table::GlyphTable;
use crate::maxp::read_maxp;
use crate::numbers::u16_at;
use crate::tag::Tag;
use tt_code::Limits;

/// The greatest length of a font program or a CVT program, in bytes (own).
const PROGRAM_MOST: u32 = 0x7FFF_FFFF;

/// What the tables of a font file hold, before its glyphs are read.
#[derive(Clone, Copy)]
pub(crate) struct Tables<'a> {
    /// What the font allows its programs.
    pub(crate) limits: Limits,
    /// How many control values the font has.
    pub(crate) cvt_count: u32,
    /// The font program, a slice of the file.
    pub(crate) fpgm: &'a [u8],
    /// The CVT program, a slice of the file.
    pub(crate) prep: &'a [u8],
    /// Where the glyphs are.
    pub(crate) glyphs: GlyphTable<'a>,
}

impl<'a> Tables<'a> {
    /// Reads the tables of a font file.
    ///
    /// # Errors
    ///
    /// The first fault in this order: of the directory, of the table `maxp`, of the other tables as
    /// they are read here, of the format of `loca`, of its entries.
    #[tactic(auto, unfolding(crate::specs::FileFaults::tables_fault))]
    pub(crate) fn read(bytes: &'a [u8]) -> Result<Tables<'a>, FontFault>
        ensures fault { Tests (tables_fault bytes.now) result }
        ensures limits { IfOk result (λ tables. tables.limits ≡ font_limits bytes.now) }
        ensures cvt_count { IfOk result (λ tables. tables.cvt_count ≡ font_cvt_count bytes.now) }
        ensures fpgm { IfOk result (λ tables. tables.fpgm.now ≡ table Fpgm bytes.now) }
        ensures prep { IfOk result (λ tables. tables.prep.now ≡ table Prep bytes.now) }
        ensures glyph_count { IfOk result (λ tables. tables.glyphs.count
            ≡ font_glyph_count bytes.now) }
        ensures few_glyphs { IfOk result (λ tables. tables.glyphs.count < 2 ^ 16) }
        ensures format { IfOk result (λ tables. tables.glyphs.format
            ≡ loca_format (table Head bytes.now)) }
        ensures loca { IfOk result (λ tables. tables.glyphs.loca.now ≡ table Loca bytes.now) }
        ensures glyf { IfOk result (λ tables. tables.glyphs.glyf.now ≡ table Glyf bytes.now) }
    {
        let directory = Directory::read(bytes)?;
        let maxp = directory.required(Tag::Maxp, 0)?;
        let limits = read_maxp(maxp)?;
        // The table `head` has 54 bytes.
        let head = directory.required(Tag::Head, 54)?;
        let loca = directory.required(Tag::Loca, 0)?;
        let glyf = directory.required(Tag::Glyf, 0)?;
        let cvt = directory.optional(Tag::Cvt, u32::MAX)?;
        let fpgm = directory.optional(Tag::Fpgm, PROGRAM_MOST)?;
        let prep = directory.optional(Tag::Prep, PROGRAM_MOST)?;
        // `indexToLocFormat` of `head`, and `numGlyphs` of `maxp`.
        let glyphs = GlyphTable::read(u16_at(head, 50), loca, glyf, u16_at(maxp, 4))?;
        Ok(Tables {
            limits,
            // Each control value has two bytes.
            cvt_count: (cvt.len() / 2) as u32,
            fpgm,
            prep,
            glyphs,
        })
    }
}
