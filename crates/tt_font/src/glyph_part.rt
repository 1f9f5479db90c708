//! What is kept of a glyph (OpenType specification, `glyf`).

/// A glyph of a font: how many points and contours it has, and its program.
#[derive(Clone, Copy)]
pub struct GlyphPart<'a> {
    /// How many points the glyph has: its own, or those of all its components, phantom points not
    /// counted.
    pub points: u16,
    /// How many contours the glyph has, counted likewise.
    pub contours: u16,
    /// The glyph's program, a slice of the file. It is empty where the glyph has none.
    pub program: &'a [u8],
}
