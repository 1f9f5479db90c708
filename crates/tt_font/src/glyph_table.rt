//! The glyphs of a font by their numbers (OpenType specification, `loca` and `glyf`).

ghost use Rattle.std.specs.Prelude.{◌≡◌, ℕ, ◌+◌, ◌*◌, ◌^◌, ◌<◌, ◌≤◌, length, true};
ghost use Rattle.tt_font.specs.Locations.{entry_size, entry, entry_fits};

use crate::directory::table;
use crate::fault::FontFault;
use crate::numbers::{u16_at, u32_at};
use crate::tag::Tag;

/// Where the glyphs of a font are: each has the bytes of `glyf` from its entry of `loca` to the
/// next entry (OpenType specification, `loca`).
#[derive(Clone, Copy)]
pub struct GlyphTable<'a> {
    /// indexToLocFormat: 0 where the entries of `loca` are short, 1 where they are long.
    format: u16,
    /// The table `loca`.
    loca: &'a [u8],
    /// The table `glyf`.
    glyf: &'a [u8],
    /// How many glyphs there are.
    pub(crate) count: u16,
    ghost known: { format < 2 },
    ghost small: { length glyf.now < 2 ^ 32 },
    ghost placed: { (i : ℕ) → i ≤ count → entry_fits format loca.now glyf.now i ≡ true },
}

/// Returns the offset in `glyf` that an entry of `loca` names.
fn entry_at(format: u16, loca: &[u8], i: u32) -> u32
    requires format { format < 2 }
    requires there { entry_size format * (i + 1) ≤ length loca.now }
    ensures { result ≡ entry format loca.now i }
{
    if format == 0 {
        2 * u32::from(u16_at(loca, 2 * i as usize))
    } else {
        u32_at(loca, 4 * i as usize)
    }
}

/// Whether an entry of `loca` is there, and its offset is at most the length of `glyf` and at least
/// the offset of the entry before it.
fn entry_is_good(format: u16, loca: &[u8], glyf: &[u8], i: u32) -> bool
    requires { format < 2 }
    ensures { result ≡ entry_fits format loca.now glyf.now i }
{
    let size = if format == 0 { 2 } else { 4 };
    if loca.len() < size * (i as usize + 1) {
        return false;
    }
    let this = entry_at(format, loca, i);
    if this as usize > glyf.len() {
        return false;
    }
    i == 0 || entry_at(format, loca, i - 1) <= this
}

impl<'a> GlyphTable<'a> {
    ghost use Rattle.std.specs.Prelude.{◌≡◌, None, ◌+◌, ◌^◌, ◌<◌, ◌≤◌, length, IfOk};
    ghost use Rattle.tt_font.specs.FileFaults.{font_fault};
    ghost use Rattle.tt_font.specs.Files.{font_glyph_count, font_glyphs, font_outlines};
    ghost use Rattle.tt_font.specs.Locations.{entry};
    ghost use Rattle.tt_font.specs.PlacedGlyphs.{glyphs_of, outlines_in};
    ghost use Rattle.tt_font.specs.Conditions.{Tests, loca_fault};

    /// Reads the glyphs of the tables `loca` and `glyf`, in the format that `head` gives.
    ///
    /// # Errors
    ///
    /// `Loca` with 0 where the format isn't known, otherwise with the first entry that doesn't fit.
    pub(crate) fn read(
        format: u16,
        loca: &'a [u8],
        glyf: &'a [u8],
        count: u16,
    ) -> Result<GlyphTable<'a>, FontFault>
        requires { length glyf.now < 2 ^ 32 }
        ensures fault { Tests (loca_fault format loca.now glyf.now count) result }
        ensures format { IfOk result (λ table. table.format ≡ format) }
        ensures loca { IfOk result (λ table. table.loca.now ≡ loca.now) }
        ensures glyf { IfOk result (λ table. table.glyf.now ≡ glyf.now) }
        ensures count { IfOk result (λ table. table.count ≡ count) }
    {
        if format > 1 {
            return Err(FontFault::Loca(0));
        }
        for i in 0..u32::from(count) + 1 {
            if !entry_is_good(format, loca, glyf, i) {
                return Err(FontFault::Loca(i));
            }
        }
        Ok(GlyphTable {
            format,
            loca,
            glyf,
            count,
        })
    }

    /// Returns where the glyphs are of a font that is read without a fault.
    pub fn of(bytes: &'a [u8]) -> GlyphTable<'a>
        requires font { font_fault bytes.now ≡ None }
        ensures count { result.count ≡ font_glyph_count bytes.now }
        ensures glyphs { glyphs_of result ≡ font_glyphs bytes.now }
        ensures outlines { outlines_in result ≡ font_outlines bytes.now }
    {
        GlyphTable {
            // `indexToLocFormat` of `head`.
            format: u16_at(table(bytes, Tag::Head), 50),
            loca: table(bytes, Tag::Loca),
            glyf: table(bytes, Tag::Glyf),
            // `numGlyphs` of `maxp`.
            count: u16_at(table(bytes, Tag::Maxp), 4),
        }
    }

    /// Returns how many glyphs there are.
    pub fn count(&self) -> u16
        ensures { result ≡ self.now.count }
    {
        self.count
    }

    /// Returns the offsets in `glyf` at which a glyph's bytes begin and end.
    fn place(&self, id: u16) -> (usize, usize)
        requires { id < self.now.count }
        ensures start { result.0 ≡ entry self.now.format self.now.loca.now id }
        ensures end { result.1 ≡ entry self.now.format self.now.loca.now (id + 1) }
        ensures ordered { result.0 ≤ result.1 }
        ensures within { result.1 ≤ length self.now.glyf.now }
    {
        let start = entry_at(self.format, self.loca, u32::from(id));
        let end = entry_at(self.format, self.loca, u32::from(id) + 1);
        (start as usize, end as usize)
    }

    /// Returns the bytes of a glyph.
    #[tactic(auto, unfolding(crate::specs::Locations::glyph_bytes))]
    pub fn glyph(&self, id: u16) -> &'a [u8]
        requires { id < self.now.count }
        ensures bytes { result.now ≡ glyphs_of self.now id }
        ensures small { length result.now < 2 ^ 32 }
    {
        let (start, end) = self.place(id);
        &self.glyf[start..end]
    }
}
