//! The header of a font collection, and its faces by their numbers (OpenType specification, "Font
//! Collections").

ghost use Rattle.std.specs.Prelude.{◌≡◌, ◌<◌, ◌≤◌, IfErr, IfOk, None, length};
ghost use Rattle.tt_collection.specs.CollectionFaults.{IsOutOfMemory, Tests, TestsWithMemory, face_fault, header_fault};
ghost use Rattle.tt_collection.specs.Faces.{face_file};
ghost use Rattle.tt_collection.specs.Headers.{directory_of, directory_offset, face_count, header_length, is_collection};

use crate::directory::FaceDirectory;
use crate::fault::CollectionFault;
use std::alloc::Global;
use tt_font::u32_at;

/// The tag `ttcf`, with which a collection begins.
const TAG: u32 = 0x7474_6366;

/// Version 1.0.
const VERSION_1: u32 = 0x0001_0000;

/// Version 2.0.
const VERSION_2: u32 = 0x0002_0000;

/// How many bytes the header has before the offsets of the directories.
const BEFORE_OFFSETS: usize = 12;

/// How many bytes a header of version 2.0 has after these offsets, for its signature.
const AFTER_OFFSETS: usize = 12;

/// Whether a file is a font collection, by the tag `ttcf` with which it begins (OpenType
/// specification, "Font Collections"). It may have any version, and be cut off.
pub fn is_collection(bytes: &[u8]) -> bool
    ensures { result ≡ is_collection bytes.now }
{
    bytes.len() >= 4 && u32_at(bytes, 0) == TAG
}

/// Returns how many bytes a header takes.
fn header_length(bytes: &[u8]) -> usize
    requires { 12 ≤ length bytes.now }
    ensures { result ≡ header_length bytes.now }
{
    let offsets = BEFORE_OFFSETS + 4 * u32_at(bytes, 8) as usize;
    if u32_at(bytes, 4) == VERSION_2 {
        offsets + AFTER_OFFSETS
    } else {
        offsets
    }
}

/// A font collection, whose header was read. Its faces are numbered from 0.
#[derive(Clone, Copy)]
pub struct Collection<'a> {
    /// The whole file.
    pub bytes: &'a [u8],
    ghost whole: { header_length bytes.now ≤ length bytes.now },
    ghost some: { 0 < face_count bytes.now },
}

impl<'a> Collection<'a> {
    /// Reads the header of a font collection (OpenType specification, "Font Collections"), of
    /// version 1.0 or 2.0. The signature of version 2.0 isn't looked at, but its place has to be
    /// there. Takes no memory, and looks at the first 12 bytes only, however many faces there are.
    ///
    /// # Errors
    ///
    /// The first of these that holds: fewer than 12 bytes (`HeaderTruncated`), another tag than
    /// `ttcf` or another version (`NotCollection`), no face (`NoFace`), fewer bytes than the header
    /// takes (`HeaderTruncated`).
    #[tactic(auto, unfolding(crate::specs::CollectionFaults::header_fault))]
    pub fn read(bytes: &'a [u8]) -> Result<Collection<'a>, CollectionFault>
        ensures fault { Tests (header_fault bytes.now) result }
        ensures file { IfOk result (λ collection. collection.bytes.now ≡ bytes.now) }
    {
        if bytes.len() < BEFORE_OFFSETS {
            return Err(CollectionFault::HeaderTruncated);
        }
        // `majorVersion` and `minorVersion`.
        let version = u32_at(bytes, 4);
        if !is_collection(bytes) || (version != VERSION_1 && version != VERSION_2) {
            return Err(CollectionFault::NotCollection);
        }
        // `numFonts`.
        if u32_at(bytes, 8) == 0 {
            return Err(CollectionFault::NoFace);
        }
        if bytes.len() < header_length(bytes) {
            return Err(CollectionFault::HeaderTruncated);
        }
        Ok(Collection { bytes })
    }

    /// Returns how many faces there are: at least one.
    pub fn face_count(&self) -> u32
        ensures count { result ≡ face_count self.now.bytes.now }
        ensures some { 0 < result }
    {
        u32_at(self.bytes, 8)
    }

    /// Returns the offset in the file at which the directory of a face begins. Faces with one
    /// offset are one font file.
    fn directory_offset(&self, number: u32) -> u32
        requires { number < face_count self.now.bytes.now }
        ensures { result ≡ directory_offset number self.now.bytes.now }
    {
        u32_at(self.bytes, BEFORE_OFFSETS + 4 * number as usize)
    }

    /// Returns the font file that a face is: its directory, in which the offset of each table is
    /// raised by the directory's length, before the bytes of the whole collection. It takes as much
    /// memory as this file has bytes, none where there is another error.
    ///
    /// # Errors
    ///
    /// The first of these that holds, or `OutOfMemory`, which is returned only where none does: the
    /// collection has no face of this number (`MissingFace`), the face's directory doesn't lie in
    /// the file (`DirectoryOutside`), the offset of a table doesn't fit into 32 bits once it is
    /// raised (`OffsetTooLarge`).
    pub fn face(&self, alloc: Global, number: u32) -> Result<Vec<u8>, CollectionFault>
        ensures fault { TestsWithMemory (face_fault number self.now.bytes.now) result }
        ensures file { IfOk result (λ file. file.items ≡ face_file number self.now.bytes.now) }
        ensures memory { IfErr result (λ fault. IsOutOfMemory fault
            → face_fault number self.now.bytes.now ≡ None) }
    {
        let directory = self.directory(number)?;
        Ok(directory.unpacked(alloc, self.bytes)?)
    }

    /// Returns the directory of a face.
    ///
    /// # Errors
    ///
    /// As `face`, without `OutOfMemory`.
    #[tactic(auto, unfolding(crate::specs::CollectionFaults::face_fault))]
    fn directory(&self, number: u32) -> Result<FaceDirectory<'a>, CollectionFault>
        ensures fault { Tests (face_fault number self.now.bytes.now) result }
        ensures directory { IfOk result (λ directory. directory.bytes.now
            ≡ directory_of number self.now.bytes.now) }
    {
        let count = self.face_count();
        if number >= count {
            return Err(CollectionFault::MissingFace(number, count));
        }
        let start = self.bytes.len().min(self.directory_offset(number) as usize);
        FaceDirectory::read(&self.bytes[start..], number)
    }
}
