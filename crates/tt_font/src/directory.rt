//! The directory of a font file, which says where its tables are (OpenType specification, "Table
//! directory").

ghost use Rattle.std.specs.Prelude.{◌≡◌, ◌==◌, ◌+◌, ◌*◌, ◌≤◌, ◌<◌, ◌^◌, take, drop, length, IfOk, IfSome};
ghost use Rattle.std.specs.Option.{option_map};
ghost use Rattle.tt_font.specs.Numbers.{u32_at};
ghost use Rattle.tt_font.specs.Directory.{record_count, first_record, extent, table};
ghost use Rattle.tt_font.specs.Conditions.{Tests, directory_fault, table_fault, optional_table_fault};

use crate::fault::FontFault;
use crate::numbers::{u16_at, u32_at};
use crate::tag::Tag;

/// The directory of a font file (OpenType specification, "Table directory").
#[derive(Clone, Copy)]
pub(crate) struct Directory<'a> {
    /// The whole file.
    pub(crate) bytes: &'a [u8],
    /// How many records the directory has.
    pub(crate) count: u16,
    ghost counted: { count ≡ record_count bytes.now },
    ghost whole: { 12 + 16 * count ≤ length bytes.now },
}

/// Where a table is in the file.
#[derive(Clone, Copy)]
pub(crate) struct Extent {
    /// The offset in the file at which the table begins, in bytes.
    offset: u32,
    /// The length of the table, in bytes.
    len: u32,
}

/// Returns the number of the first record that has this tag, among the first `count` ones.
fn find_record(bytes: &[u8], count: u16, tag: u32) -> Option<u16>
    requires { 12 + 16 * count ≤ length bytes.now }
    ensures first { result ≡ first_record tag bytes.now count }
    ensures below { IfSome result (λ i. i < count) }
{
    for i in 0..count {
        // The header of the directory has 12 bytes, and each record 16, beginning with `tableTag`.
        if u32_at(bytes, 12 + 16 * usize::from(i)) == tag {
            return Some(i);
        }
    }
    None
}

/// Returns at most `len` bytes from an offset on, as far as they are there.
fn part(bytes: &[u8], offset: u32, len: u32) -> &[u8]
    ensures part { result.now ≡ take len (drop offset bytes.now) }
    ensures small { length result.now < 2 ^ 32 }
{
    let rest = &bytes[bytes.len().min(offset as usize)..];
    &rest[..rest.len().min(len as usize)]
}

/// Returns the bytes of a table of a font file whose directory is whole, as those of any font that
/// is read are: the bytes that the first record with the table's tag names, as far as they are
/// there, and no bytes where there is no such record.
#[tactic(auto, unfolding(crate::specs::Directory::table))]
pub fn table(bytes: &[u8], tag: Tag) -> &[u8]
    requires { 12 + 16 * record_count bytes.now ≤ length bytes.now }
    ensures table { result.now ≡ table tag bytes.now }
    ensures small { length result.now < 2 ^ 32 }
{
    let directory = Directory {
        bytes,
        // `numTables`.
        count: u16_at(bytes, 4),
    };
    match directory.extent(tag) {
        Some(extent) => part(bytes, extent.offset, extent.len),
        None => &[],
    }
}

impl<'a> Directory<'a> {
    /// Reads the directory of a font file.
    ///
    /// # Errors
    ///
    /// `DirectoryTruncated` where fewer than 12 bytes are there, `NotSfnt` where the version isn't
    /// that of TrueType outlines, `DirectoryTruncated` where the file ends before its records do.
    #[tactic(auto, unfolding(crate::specs::Conditions::directory_fault))]
    pub(crate) fn read(bytes: &'a [u8]) -> Result<Directory<'a>, FontFault>
        ensures fault { Tests (directory_fault bytes.now) result }
        ensures file { IfOk result (λ directory. directory.bytes.now ≡ bytes.now) }
    {
        if bytes.len() < 12 {
            return Err(FontFault::DirectoryTruncated);
        }
        // `sfntVersion`: 0x10000 is 1.0, and 0x7472_7565 is `'true'`, as some of Apple's fonts have
        // it.
        let version = u32_at(bytes, 0);
        if version != 0x10000 && version != 0x7472_7565 {
            return Err(FontFault::NotSfnt);
        }
        // `numTables`.
        let count = u16_at(bytes, 4);
        if bytes.len() < 12 + 16 * usize::from(count) {
            return Err(FontFault::DirectoryTruncated);
        }
        Ok(Directory { bytes, count })
    }

    /// Returns where a table is in the file, as the first record with its tag says.
    #[tactic(auto, unfolding(crate::specs::Directory::extent))]
    fn extent(&self, tag: Tag) -> Option<Extent>
        ensures { option_map (λ e. record { offset = e.offset; len = e.len }) result
            ≡ extent tag self.now.bytes.now }
    {
        let i = find_record(self.bytes, self.count, tag.number())?;
        let place = 12 + 16 * usize::from(i);
        Some(Extent {
            // `offset` and `length` of the record, after `tableTag` and `checksum`.
            offset: u32_at(self.bytes, place + 8),
            len: u32_at(self.bytes, place + 12),
        })
    }

    /// Returns the bytes of a table that every font has, with at least `least` bytes.
    ///
    /// # Errors
    ///
    /// `MissingTable` where the directory has no record of it, `TableOutside` where it doesn't lie
    /// in the file or is too short.
    #[tactic(auto, unfolding(crate::specs::Conditions::table_fault))]
    pub(crate) fn required(&self, tag: Tag, least: u32) -> Result<&'a [u8], FontFault>
        ensures fault { Tests (table_fault tag least self.now.bytes.now) result }
        ensures table { IfOk result (λ bytes. bytes.now ≡ table tag self.now.bytes.now) }
        ensures long { IfOk result (λ bytes. least ≤ length bytes.now) }
        ensures fits { IfOk result (λ bytes. length bytes.now < 2 ^ 32) }
    {
        let Some(extent) = self.extent(tag) else {
            return Err(FontFault::MissingTable(tag));
        };
        let end = extent.offset as usize + extent.len as usize;
        if self.bytes.len() < end || extent.len < least {
            return Err(FontFault::TableOutside(tag));
        }
        Ok(&self.bytes[extent.offset as usize..end])
    }

    /// Returns the bytes of a table that a font may lack, with at most `most` bytes; no bytes where
    /// it is missing.
    ///
    /// # Errors
    ///
    /// `TableOutside` where it doesn't lie in the file or is too long.
    #[tactic(auto, unfolding(crate::specs::Conditions::optional_table_fault))]
    pub(crate) fn optional(&self, tag: Tag, most: u32) -> Result<&'a [u8], FontFault>
        ensures fault { Tests (optional_table_fault tag most self.now.bytes.now) result }
        ensures table { IfOk result (λ bytes. bytes.now ≡ table tag self.now.bytes.now) }
        ensures fits { IfOk result (λ bytes. length bytes.now < 2 ^ 32) }
    {
        let Some(extent) = self.extent(tag) else {
            return Ok(&[]);
        };
        let end = extent.offset as usize + extent.len as usize;
        if self.bytes.len() < end || extent.len > most {
            return Err(FontFault::TableOutside(tag));
        }
        Ok(&self.bytes[extent.offset as usize..end])
    }
}
