//! The names that a font has for the glyphs of its programs.

ghost use Rattle.std.specs.Prelude.{◌≡◌, option_map};
ghost use Rattle.hintcheck.specs.KnownRefusals.{glyph_name};

use hintcheck_programs::report::Name;
use tt_names::GlyphNames;

/// Returns the name that the font has for the glyph of a program, if it has one that can be printed.
pub(crate) fn called<'a>(names: &GlyphNames<'a>, program: Name) -> Option<&'a str>
    ensures { option_map (λ name. name.now) result ≡ glyph_name names.now.post.now program }
{
    match program {
        Name::Font | Name::Cvt => None,
        Name::Glyph(id) => names.name(id),
    }
}
