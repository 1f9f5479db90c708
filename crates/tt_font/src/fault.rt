//! Why there is no verdict on a font file (OpenType specification, "Table directory", `maxp`,
//! `loca` and `glyf`). The numbers and texts are this product's own.

ghost use Rattle.std.specs.Prelude.{◌≡◌};
ghost use Rattle.tt_font.specs.FaultNumbers.{fault_number};

use crate::tag::Tag;
use std::alloc::{AllocError, AllocFailed};
use std::error::Error;
use std::fmt;

/// Why the bytes of a file aren't a font whose programs can be checked.
#[derive(Clone, Copy, Debug, Drop)]
pub enum FontFault {
    /// The file doesn't begin with a version of TrueType outlines.
    NotSfnt,
    /// The file ends before its directory does.
    DirectoryTruncated,
    /// The directory has no record of the table.
    MissingTable(Tag),
    /// The table doesn't lie in the file, or is too short or too long.
    TableOutside(Tag),
    /// `maxp` isn't of version 1.0.
    MaxpVersion,
    /// An entry of `loca`, by its number, is missing, or its offset is above the length of `glyf`
    /// or below the offset of the entry before it; or, with number 0, the format of `loca` isn't
    /// known.
    Loca(u32),
    /// The bytes of the glyph of this number end too early.
    GlyphTruncated(u16),
    /// A chain of components from the glyph of this number leads to a number that is no glyph's, or
    /// has more than 16 steps; or the glyph has more than 65,535 points or contours.
    Composite(u16),
    /// Memory ran out.
    OutOfMemory(AllocError),
}

impl FontFault {
    /// Returns the number of the fault, from 1 to 9, which is printed before its text.
    pub fn number(&self) -> u8
        ensures { result ≡ fault_number self.now }
    {
        match self {
            FontFault::NotSfnt => 1,
            FontFault::DirectoryTruncated => 2,
            FontFault::MissingTable(_) => 3,
            FontFault::TableOutside(_) => 4,
            FontFault::MaxpVersion => 5,
            FontFault::Loca(_) => 6,
            FontFault::GlyphTruncated(_) => 7,
            FontFault::Composite(_) => 8,
            FontFault::OutOfMemory(_) => 9,
        }
    }
}

impl fmt::Display for FontFault {
    ghost use Rattle.std.specs.Prelude.{Some};
    ghost use Rattle.tt_font.specs.FaultTexts.{fault_text};

    ghost output = { λ fault. Some (fault_text fault) };

    fn fmt<W: fmt::Write>(&self, f: &mut fmt::Formatter<W>) -> fmt::Result {
        match self {
            FontFault::NotSfnt => write!(f, "not an sfnt file"),
            FontFault::DirectoryTruncated => write!(f, "directory truncated"),
            FontFault::MissingTable(tag) => write!(f, "missing table '{tag}'"),
            FontFault::TableOutside(tag) => write!(f, "table outside '{tag}'"),
            FontFault::MaxpVersion => write!(f, "maxp version"),
            FontFault::Loca(entry) => write!(f, "loca entry {entry}"),
            FontFault::GlyphTruncated(glyph) => write!(f, "glyph {glyph} truncated"),
            FontFault::Composite(glyph) => write!(f, "composite {glyph}"),
            FontFault::OutOfMemory(_) => write!(f, "out of memory"),
        }
    }
}

impl Error for FontFault {}

impl<T: Drop> From<AllocFailed<T>> for FontFault {
    ghost use Rattle.std.specs.Prelude.{◌≡◌, alloc_error};
    ghost use Rattle.tt_font.specs.declared.fault.FontFault.TheVariants.{OutOfMemory};

    ghost from_gives = { λ _ fault. fault ≡ OutOfMemory alloc_error };

    fn from(_error: AllocFailed<T>) -> FontFault {
        FontFault::OutOfMemory(AllocError)
    }
}

impl From<AllocError> for FontFault {
    ghost use Rattle.std.specs.Prelude.{◌≡◌};
    ghost use Rattle.tt_font.specs.declared.fault.FontFault.TheVariants.{OutOfMemory};

    ghost from_gives = { λ error fault. fault ≡ OutOfMemory error };

    fn from(error: AllocError) -> FontFault {
        FontFault::OutOfMemory(error)
    }
}
