//! The table `post` and how it names glyphs (OpenType specification, `post`).

ghost use Rattle.std.specs.Prelude.{◌≡◌, ◌+◌, ◌*◌, ◌^◌, ◌<◌, ◌≤◌, length, nat_le};
ghost use Rattle.tt_font.specs.Numbers.{u16_at};
ghost use Rattle.tt_names.specs.Post.{format_of, glyph_count, post_of, strings_start};

use tt_font::{Tag, table, u16_at, u32_at};

/// How many bytes the header has.
const HEADER: usize = 32;

/// Where `numGlyphs` of version 2.0 ends: it has two bytes after the header.
const COUNTED: usize = HEADER + 2;

/// Version 1.0.
const VERSION_1: u32 = 0x0001_0000;

/// Version 2.0.
const VERSION_2: u32 = 0x0002_0000;

/// How a table `post` names glyphs.
#[derive(Clone, Copy, PartialEq, Eq)]
pub(crate) enum Format {
    /// It names none.
    Unnamed,
    /// They have the standard names, in their order.
    Standard,
    /// It lists an index of a name for each, and strings.
    Listed,
}

/// Returns the bytes of a font's table `post`; none where it has no such table, or its directory is
/// cut off.
#[tactic(auto, unfolding(crate::specs::Post::post_of))]
pub(crate) fn post_table(font: &[u8]) -> &[u8]
    ensures post { result.now ≡ post_of font.now }
    ensures small { length result.now < 2 ^ 32 }
{
    // The header of the directory has 12 bytes, and each of its `numTables` records 16.
    if font.len() < 12 || font.len() < 12 + 16 * usize::from(u16_at(font, 4)) {
        return &[];
    }
    table(font, Tag::Post)
}

/// Returns the offset at which the strings begin, after `glyphNameIndex`.
pub(crate) fn strings_start(post: &[u8]) -> usize
    requires { 34 ≤ length post.now }
    ensures start { result ≡ strings_start post.now }
    ensures most { result < 2 ^ 18 }
{
    COUNTED + 2 * usize::from(u16_at(post, HEADER))
}

/// Whether `numGlyphs` and all of `glyphNameIndex` are there.
fn has_indices(post: &[u8]) -> bool
    ensures { result ≡ nat_le (strings_start post.now) (length post.now) }
{
    post.len() >= COUNTED && post.len() >= strings_start(post)
}

/// Returns how a table names glyphs.
#[tactic(auto, unfolding(crate::specs::Post::format_of))]
pub(crate) fn format_of(post: &[u8]) -> Format
    ensures { result ≡ format_of post.now }
{
    if post.len() < HEADER {
        return Format::Unnamed;
    }
    let version = u32_at(post, 0);
    if version == VERSION_1 {
        Format::Standard
    } else if version == VERSION_2 && has_indices(post) {
        Format::Listed
    } else {
        Format::Unnamed
    }
}

/// Returns `numGlyphs`.
pub(crate) fn glyph_count(post: &[u8]) -> u16
    requires { format_of post.now ≡ Format.Listed }
    ensures { result ≡ glyph_count post.now }
{
    u16_at(post, HEADER)
}

/// Returns the index of a glyph's name.
pub(crate) fn index_of(post: &[u8], glyph: u16) -> u16
    requires format { format_of post.now ≡ Format.Listed }
    requires glyph { glyph < glyph_count post.now }
    ensures { result ≡ u16_at (34 + 2 * glyph) post.now }
{
    u16_at(post, COUNTED + 2 * usize::from(glyph))
}
