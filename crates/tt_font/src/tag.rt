//! The tags of the tables that are read (OpenType specification, "Table directory").

ghost use Rattle.std.specs.Prelude.{◌≡◌};
ghost use Rattle.tt_font.specs.Tags.{tag_bytes, tag_number};

use byteorder::{BigEndian, ByteOrder};
use std::error::Error;
use std::fmt;

/// The tables of a font file that are read (OpenType specification, "Table directory").
#[derive(Clone, Copy, Debug, PartialEq, Eq, Drop)]
pub enum Tag {
    /// The control values.
    Cvt,
    /// The font program.
    Fpgm,
    /// The glyphs.
    Glyf,
    /// The font header.
    Head,
    /// Where each glyph is.
    Loca,
    /// The maximum profile: what the programs may use.
    Maxp,
    /// The names of the glyphs, among others.
    Post,
    /// The CVT program.
    Prep,
}

impl Tag {
    /// Returns the four bytes of the tag in the directory.
    pub fn bytes(self) -> [u8; 4]
        ensures { result ≡ tag_bytes self }
    {
        match self {
            Tag::Cvt => *b"cvt ",
            Tag::Fpgm => *b"fpgm",
            Tag::Glyf => *b"glyf",
            Tag::Head => *b"head",
            Tag::Loca => *b"loca",
            Tag::Maxp => *b"maxp",
            Tag::Post => *b"post",
            Tag::Prep => *b"prep",
        }
    }

    /// Returns the four bytes as one number.
    pub(crate) fn number(self) -> u32
        ensures { result ≡ tag_number self }
    {
        BigEndian::read_u32(&self.bytes())
    }
}

impl fmt::Display for Tag {
    ghost use Rattle.std.specs.Prelude.{Some};
    ghost use Rattle.tt_font.specs.Tags.{tag_bytes};

    ghost output = { λ tag. Some (tag_bytes tag) };

    fn fmt<W: fmt::Write>(&self, f: &mut fmt::Formatter<W>) -> fmt::Result {
        f.write_str(match self {
            Tag::Cvt => "cvt ",
            Tag::Fpgm => "fpgm",
            Tag::Glyf => "glyf",
            Tag::Head => "head",
            Tag::Loca => "loca",
            Tag::Maxp => "maxp",
            Tag::Post => "post",
            Tag::Prep => "prep",
        })
    }
}

impl Error for Tag {}
