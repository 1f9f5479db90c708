//! The directory of a face, and the font file in which its offsets are moved (OpenType
//! specification, "Font Collections", "Table directory").

ghost use Rattle.std.specs.Prelude.{◌≡◌, ℕ, ◌+◌, ◌<◌, ◌≤◌, ◌^◌, ◌++◌, IfOk, None, OnOk, length};
ghost use Rattle.tt_font.specs.Numbers.{u32_at};
ghost use Rattle.tt_font.specs.Directory.{record_count, record_place};
ghost use Rattle.tt_collection.specs.CollectionFaults.{Tests, directory_fault, first_misfit, misfit_below};
ghost use Rattle.tt_collection.specs.Faces.{directory_length, moved_directory, moved_record, unpacked};

use crate::fault::CollectionFault;
use std::alloc::{AllocError, Global};
use tt_font::{u16_at, u32_at};

/// How many bytes the directory has before its records.
const BEFORE_RECORDS: usize = 12;

/// How many bytes a record has: `tableTag`, `checksum`, `offset` and `length`.
const RECORD: usize = 16;

/// The directory of a face, which lies in its collection, and whose offsets fit into 32 bits once
/// they are moved.
#[derive(Clone, Copy)]
pub(crate) struct FaceDirectory<'a> {
    /// The bytes of the collection from the directory on.
    pub(crate) bytes: &'a [u8],
    /// How many records the directory has.
    count: u16,
    ghost counted: { count ≡ record_count bytes.now },
    ghost whole: { record_place count ≤ length bytes.now },
    ghost movable: { first_misfit bytes.now ≡ None },
}

/// Returns the number of the first record, among the first `count`, whose offset leaves 32 bits
/// once it is raised by so many bytes.
fn misfit_below(bytes: &[u8], count: u16, shift: u32) -> Option<u16>
    requires { record_place count ≤ length bytes.now }
    ensures { result ≡ misfit_below shift bytes.now count }
{
    for i in 0..count {
        let offset = u32_at(bytes, BEFORE_RECORDS + RECORD * usize::from(i) + 8);
        if offset.checked_add(shift).is_none() {
            return Some(i);
        }
    }
    None
}

/// Adds a record to a file, with its offset raised by so many bytes.
///
/// # Errors
///
/// If memory runs out.
fn push_moved(file: &mut Vec<u8>, entry: &[u8], shift: u32) -> Result<(), AllocError>
    requires whole { 16 ≤ length entry.now }
    requires fits { u32_at 8 entry.now + shift < 2 ^ 32 }
    ensures { OnOk result (file.new.items ≡ file.old.items ++ moved_record shift entry.now) }
{
    // `tableTag` and `checksum`, `offset`, `length`.
    file.extend_from_slice(&entry[..8])?;
    file.extend_from_slice(&(u32_at(entry, 8) + shift).to_be_bytes())?;
    file.extend_from_slice(&entry[12..RECORD])
}

impl<'a> FaceDirectory<'a> {
    /// Reads the directory of the face of this number, with which these bytes begin.
    ///
    /// # Errors
    ///
    /// `DirectoryOutside` where the bytes end before the directory does, `OffsetTooLarge` where an
    /// offset leaves 32 bits once it is moved.
    #[tactic(auto, unfolding(crate::specs::CollectionFaults::directory_fault))]
    pub(crate) fn read(bytes: &'a [u8], number: u32) -> Result<FaceDirectory<'a>, CollectionFault>
        ensures fault { Tests (directory_fault number bytes.now) result }
        ensures directory { IfOk result (λ directory. directory.bytes.now ≡ bytes.now) }
    {
        if bytes.len() < BEFORE_RECORDS {
            return Err(CollectionFault::DirectoryOutside(number));
        }
        // `numTables`.
        let count = u16_at(bytes, 4);
        let len = BEFORE_RECORDS as u32 + RECORD as u32 * u32::from(count);
        if bytes.len() < len as usize {
            return Err(CollectionFault::DirectoryOutside(number));
        }
        match misfit_below(bytes, count, len) {
            Some(record) => Err(CollectionFault::OffsetTooLarge(number, record)),
            None => Ok(FaceDirectory { bytes, count }),
        }
    }

    /// Returns how many bytes the directory has.
    fn len(&self) -> u32
        ensures { result ≡ directory_length self.now.bytes.now }
    {
        BEFORE_RECORDS as u32 + RECORD as u32 * u32::from(self.count)
    }

    /// Returns the font file that the face is, where these are the bytes of the collection.
    ///
    /// # Errors
    ///
    /// If memory runs out.
    #[tactic(auto, unfolding(crate::specs::Faces::unpacked))]
    pub(crate) fn unpacked(&self, alloc: Global, collection: &[u8]) -> Result<Vec<u8>, AllocError>
        ensures { IfOk result (λ file. file.items
            ≡ unpacked self.now.bytes.now collection.now) }
    {
        let len = self.len();
        let mut file = Vec::with_capacity(alloc, len as usize + collection.len())?;
        file.extend_from_slice(&self.bytes[..BEFORE_RECORDS])?;
        for i in 0..self.count {
            let place = BEFORE_RECORDS + RECORD * usize::from(i);
            push_moved(&mut file, &self.bytes[place..], len)?;
        }
        file.extend_from_slice(collection)?;
        Ok(file)
    }
}
