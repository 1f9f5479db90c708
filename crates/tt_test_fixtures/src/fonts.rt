//! Font files that are made in memory.

use std::alloc::{AllocError, Global};
use std::num::TryFromIntError;
use thiserror::Error;

/// Why there is no font file.
#[derive(Debug, Drop, Error)]
pub enum NoFile {
    /// Memory ran out.
    #[error("out of memory")]
    OutOfMemory(#[from] AllocError),
    /// A number doesn't fit its field.
    #[error("too long a font")]
    TooLong(#[from] TryFromIntError),
}

/// A `maxp` table: 1 glyph, zones 2, 4 twilight points, 4 storage cells, 2 functions, a stack of 8,
/// glyph programs of 64 bytes.
pub const MAXP: [u8; 32] = [
    0, 1, 0, 0, 0, 1, 0, 4, 0, 1, 0, 0, 0, 0, 0, 2, 0, 4, 0, 4, 0, 2, 0, 0, 0, 8, 0, 64, 0, 0, 0, 0,
];

/// The same table as a word of hexadecimal digits.
pub const MAXP_WORD: &str = "0001000000010004000100000000000200040004000200000008004000000000";

/// A `head` table with long entries in `loca`.
const HEAD: [u8; 54] = [
    0, 0, 0, 0, 0, 0, 0, 0, 0, 0, 0, 0, 0, 0, 0, 0, 0, 0, 0, 0, 0, 0, 0, 0, 0, 0, 0, 0, 0, 0, 0, 0,
    0, 0, 0, 0, 0, 0, 0, 0, 0, 0, 0, 0, 0, 0, 0, 0, 0, 0, 0, 1, 0, 0,
];

/// The header of a glyph of one contour, and its end point 3.
const SQUARE: [u8; 12] = [0, 1, 0, 0, 0, 0, 0, 0, 0, 0, 0, 3];

/// The header of a composite glyph.
pub const MADE: [u8; 10] = [0xFF, 0xFF, 0, 0, 0, 0, 0, 0, 0, 0];

/// Adds a table's record to the directory.
fn push_record(file: &mut Vec<u8>, tag: &str, offset: usize, length: usize) -> Result<(), NoFile> {
    file.extend_from_slice(tag.as_bytes())?;
    file.extend_from_slice(&[0; 4])?;
    file.extend_from_slice(&u32::try_from(offset)?.to_be_bytes())?;
    file.extend_from_slice(&u32::try_from(length)?.to_be_bytes())?;
    Ok(())
}

/// Adds a table's bytes, and zeros up to a multiple of 4.
fn push_table(data: &mut Vec<u8>, bytes: &[u8]) -> Result<(), NoFile> {
    data.extend_from_slice(bytes)?;
    let padding = [0; 3];
    data.extend_from_slice(&padding[..(4 - data.len() % 4) % 4])?;
    Ok(())
}

/// Returns a font file with these tables, each beginning at a multiple of 4.
///
/// # Errors
/// `OutOfMemory`; `TooLong` where a number doesn't fit its field.
pub fn file_of(alloc: Global, tables: &[(&str, &[u8])]) -> Result<Vec<u8>, NoFile> {
    let [high, low] = u16::try_from(tables.len())?.to_be_bytes();
    let mut file = [0, 1, 0, 0, high, low, 0, 0, 0, 0, 0, 0].to_vec(alloc)?;
    let mut data: Vec<u8> = Vec::new(alloc);
    let start = tables.len().saturating_mul(16).saturating_add(12);
    for (tag, bytes) in tables {
        let offset = start.saturating_add(data.len());
        push_record(&mut file, tag, offset, bytes.len())?;
        push_table(&mut data, bytes)?;
    }
    file.extend_from_slice(data.as_slice())?;
    Ok(file)
}

/// The `glyf` and `loca` tables of some glyphs.
#[derive(Drop)]
pub struct Glyphs {
    glyf: Vec<u8>,
    loca: Vec<u8>,
    count: u16,
}

impl Glyphs {
    /// Returns the tables without a glyph.
    ///
    /// # Errors
    /// `OutOfMemory`.
    pub fn new(alloc: Global) -> Result<Glyphs, NoFile> {
        Ok(Glyphs {
            glyf: Vec::new(alloc),
            loca: [0; 4].to_vec(alloc)?,
            count: 0,
        })
    }

    /// Adds a glyph.
    ///
    /// # Errors
    /// `OutOfMemory`; `TooLong` where the glyphs have too many bytes for their field.
    pub fn push(&mut self, glyph: &[u8]) -> Result<(), NoFile> {
        self.glyf.extend_from_slice(glyph)?;
        let end = u32::try_from(self.glyf.len())?;
        self.loca.extend_from_slice(&end.to_be_bytes())?;
        self.count = self.count.saturating_add(1);
        Ok(())
    }

    /// Returns how many glyphs there are.
    pub fn count(&self) -> u16 {
        self.count
    }

    /// Returns a font with 10 control values, these glyphs, this `maxp` table, this font program
    /// and this CVT program.
    ///
    /// # Errors
    /// `OutOfMemory`; `TooLong` where a number doesn't fit its field.
    pub fn font_within<'a>(
        &'a self,
        alloc: Global,
        maxp: &'a [u8],
        fpgm: &'a [u8],
        prep: &'a [u8],
    ) -> Result<Vec<u8>, NoFile> {
        file_of(
            alloc,
            &[
                ("cvt ", &[0; 20]),
                ("fpgm", fpgm),
                ("glyf", self.glyf.as_slice()),
                ("head", &HEAD),
                ("loca", self.loca.as_slice()),
                ("maxp", maxp),
                ("prep", prep),
            ],
        )
    }
}

/// Returns a font with these glyphs, this font program and this CVT program.
///
/// # Errors
/// `OutOfMemory`; `TooLong` where a number doesn't fit its field.
pub fn font_of(
    alloc: Global,
    fpgm: &[u8],
    prep: &[u8],
    glyphs: &[&[u8]],
) -> Result<Vec<u8>, NoFile> {
    let mut tables = Glyphs::new(alloc)?;
    for glyph in glyphs {
        tables.push(glyph)?;
    }
    let mut maxp = MAXP;
    let [high, low] = tables.count.to_be_bytes();
    maxp[4] = high;
    maxp[5] = low;
    tables.font_within(alloc, &maxp, fpgm, prep)
}

/// Returns a glyph of 4 points with a program.
///
/// # Errors
/// `OutOfMemory`; `TooLong` where the program has too many bytes for their field.
pub fn square(alloc: Global, program: &[u8]) -> Result<Vec<u8>, NoFile> {
    let length = u16::try_from(program.len())?.to_be_bytes();
    let parts: [&[u8]; 3] = [&SQUARE, &length, program];
    Ok(parts.concat(alloc)?)
}
