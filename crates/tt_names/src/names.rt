//! The names of a font's glyphs by their numbers, and glyphs by their names (OpenType specification,
//! `post`).

ghost use Rattle.std.specs.Prelude.{◌≡◌, ◌^◌, ◌<◌, length, option_map};
ghost use Rattle.std.specs.Char.{is_ascii_graphic};
ghost use Rattle.std.specs.List.{list_all};
ghost use Rattle.tt_names.specs.Names.{is_printable, printable};
ghost use Rattle.tt_names.specs.Post.{format_of};
ghost use Rattle.tt_names.specs.Representation.StringPlaces.{ListsAll, ListsPlaces};
ghost use Rattle.tt_names.specs.declared.post.Format.TheVariants.{Listed};

use crate::post::{Format, format_of, glyph_count, index_of, post_table};
use crate::standard::standard_name;
use crate::strings::{string_from, string_places};
use std::alloc::{AllocError, Global};

/// How many standard names there are: the index of the first string.
const STANDARD: u16 = 258;

/// The names of a font's glyphs.
#[derive(Drop)]
pub struct GlyphNames<'a> {
    /// The table `post`.
    post: &'a [u8],
    /// How the table names glyphs.
    format: Format,
    /// The offset in the table of each string, in order; none where it names glyphs otherwise.
    places: Vec<u32>,
    ghost small: { length post.now < 2 ^ 32 },
    ghost known: { format ≡ format_of post.now },
    ghost listed: { ListsPlaces post.now places.items },
    ghost all: { format ≡ Listed → ListsAll post.now places.items },
}

/// Whether all bytes of a text are printable.
fn are_graphic(text: &[u8]) -> bool
    ensures { result ≡ list_all is_ascii_graphic text.now }
{
    text.iter().all(|byte| byte.is_ascii_graphic())
}

/// Whether a text has at least one byte and all are printable.
fn is_printable(text: &[u8]) -> bool
    ensures { result ≡ is_printable text.now }
{
    !text.is_empty() && are_graphic(text)
}

/// Returns a text as a name, if it counts as one.
#[tactic(auto, unfolding(crate::specs::Names::printable))]
fn printable(text: &[u8]) -> Option<&str>
    ensures { option_map (λ name. name.now) result ≡ printable text.now }
{
    if is_printable(text) {
        str::from_utf8(text).ok()
    } else {
        None
    }
}

impl<'a> GlyphNames<'a> {
    ghost use Rattle.std.specs.Prelude.{◌≡◌, ◌≢◌, ℕ, ◌-◌, ◌<◌, ◌↔◌, IfNone, IfOk, IfSome, IsOk, IsTrue, Some, option_map};
    ghost use Rattle.tt_names.specs.Names.{IsFirstNamed, NamesNone, name_of_glyph};
    ghost use Rattle.tt_names.specs.Post.{format_of, glyph_count, post_of, string_at, string_place, text_in, text_of_index};
    ghost use Rattle.tt_names.specs.Representation.NameCounts.{count_in};
    ghost use Rattle.tt_names.specs.declared.post.Format.TheVariants.{Listed};

    /// Returns the names of the glyphs of a font, whatever its bytes are: there are none where the font
    /// has no table `post`, or one of another version than 1.0 and 2.0, or one that is cut off before
    /// its strings. Names of version 2.0 need memory for the offsets of their strings, at most 2 ^ 18
    /// bytes, and all others none.
    ///
    /// # Errors
    /// `AllocError` where memory ran out.
    pub fn of(alloc: Global, font: &'a [u8]) -> Result<GlyphNames<'a>, AllocError>
        ensures post { IfOk result (λ names. names.post.now ≡ post_of font.now) }
        ensures unlisted { format_of (post_of font.now) ≢ Listed → IsOk result }
    {
        let post = post_table(font);
        let format = format_of(post);
        let places = match format {
            Format::Unnamed => Vec::new(alloc),
            Format::Standard => Vec::new(alloc),
            Format::Listed => string_places(alloc, post)?,
        };
        Ok(GlyphNames {
            post,
            format,
            places,
        })
    }

    /// Returns the string of this number, if all its bytes are there.
    fn string(&self, number: u16) -> Option<&'a [u8]>
        requires format { self.now.format ≡ Listed }
        requires number { number < 65278 }
        ensures { option_map (λ text. text.now) result
            ≡ string_at self.now.post.now (string_place self.now.post.now number) }
    {
        let place = *self.places.get(usize::from(number))?;
        Some(string_from(self.post, place as usize))
    }

    /// Returns the text that an index stands for.
    fn text_of_index(&self, index: u16) -> Option<&'a [u8]>
        requires { self.now.format ≡ Listed }
        ensures { option_map (λ text. text.now) result ≡ text_of_index self.now.post.now index }
    {
        if index < STANDARD {
            standard_name(index).map(str::as_bytes)
        } else {
            self.string(index - STANDARD)
        }
    }

    /// Returns the text that the table lists for a glyph.
    fn listed(&self, glyph: u16) -> Option<&'a [u8]>
        requires { self.now.format ≡ Listed }
        ensures { option_map (λ text. text.now) result
            ≡ text_in Listed self.now.post.now glyph }
    {
        if glyph < glyph_count(self.post) {
            self.text_of_index(index_of(self.post, glyph))
        } else {
            None
        }
    }

    /// Returns the text that the table has as a glyph's name.
    fn text(&self, glyph: u16) -> Option<&'a [u8]>
        ensures { option_map (λ text. text.now) result
            ≡ text_in (format_of self.now.post.now) self.now.post.now glyph }
    {
        match self.format {
            Format::Unnamed => None,
            Format::Standard => standard_name(glyph).map(str::as_bytes),
            Format::Listed => self.listed(glyph),
        }
    }

    /// Returns a glyph's name, if it has one of at least one byte, all of which are printable: from
    /// 0x21 to 0x7E.
    #[tactic(auto, unfolding(crate::specs::Names::name_of_glyph))]
    pub fn name(&self, glyph: u16) -> Option<&'a str>
        ensures { option_map (λ name. name.now) result ≡ name_of_glyph self.now.post.now glyph }
    {
        match self.text(glyph) {
            Some(text) => printable(text),
            None => None,
        }
    }

    /// Whether a glyph has this name.
    fn is_named(&self, glyph: u16, name: &str) -> bool
        ensures { IsTrue result ↔ (name_of_glyph self.now.post.now glyph ≡ Some name.now) }
    {
        match self.name(glyph) {
            Some(other) => other == name,
            None => false,
        }
    }

    /// Returns how many glyphs the table names at most.
    fn count(&self) -> u16
        ensures { result ≡ count_in (format_of self.now.post.now) self.now.post.now }
    {
        match self.format {
            Format::Unnamed => 0,
            Format::Standard => STANDARD,
            Format::Listed => glyph_count(self.post),
        }
    }

    /// Returns the first glyph that has this name, as `name` gives it, if one has. It looks at the
    /// names of all glyphs before it.
    pub fn glyph_named(&self, name: &str) -> Option<u16>
        ensures first { IfSome result (IsFirstNamed self.now.post.now name.now) }
        ensures none { IfNone result (NamesNone self.now.post.now name.now) }
    {
        for glyph in 0..self.count() {
            if self.is_named(glyph, name) {
                return Some(glyph);
            }
        }
        None
    }
}
