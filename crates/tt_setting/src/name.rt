//! The names of a font's programs.

use std::fmt;

/// A program of a font.
#[derive(Clone, Copy, PartialEq, Eq)]
pub enum Name {
    /// The font program, `fpgm`.
    Font,
    /// The CVT program, `prep`.
    Cvt,
    /// The program of the glyph with this number.
    Glyph(u16),
}

impl fmt::Display for Name {
    ghost use Rattle.std.specs.Prelude.{Some};
    ghost use Rattle.tt_setting.specs.Names.{text_of};

    ghost output = { λ name. Some (text_of name) };

    fn fmt<W: fmt::Write>(&self, f: &mut fmt::Formatter<W>) -> fmt::Result {
        match self {
            Name::Font => f.write_str("f"),
            Name::Cvt => f.write_str("p"),
            Name::Glyph(id) => write!(f, "g{id}"),
        }
    }
}
