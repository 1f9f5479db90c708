//! The font file on which a call is asked: a face of a font collection, or the bytes as they are.

ghost use Rattle.std.specs.Prelude.{◌≡◌, IfOk};
ghost use Rattle.tt_collection.specs.CollectionFaults.{TestsWithMemory};
ghost use Rattle.hintcheck_c.specs.FontFiles.{bytes_in, file_fault, font_file};

use std::alloc::Global;
use tt_collection::{Collection, CollectionFault, is_collection};

/// A font file that is read.
#[derive(Drop)]
pub(crate) enum FontFile<'a> {
    /// The bytes that were handed in, which are no collection.
    Alone(&'a [u8]),
    /// A face that was unpacked from a collection.
    Face(Vec<u8>),
}

impl<'a> FontFile<'a> {
    /// Returns the face of this number, from 0, of the collection in these bytes. Bytes that are no
    /// collection are their only face, 0.
    ///
    /// # Errors
    /// Those of `Collection::read` and `Collection::face`; `MissingFace` where bytes that are no
    /// collection are asked for another face than 0.
    pub(crate) fn of(
        alloc: Global,
        bytes: &'a [u8],
        face: u32,
    ) -> Result<FontFile<'a>, CollectionFault>
        ensures fault { TestsWithMemory (file_fault face bytes.now) result }
        ensures file { IfOk result (λ file. bytes_in file ≡ font_file face bytes.now) }
    {
        if is_collection(bytes) {
            let collection = Collection::read(bytes)?;
            return Ok(FontFile::Face(collection.face(alloc, face)?));
        }
        if face == 0 {
            Ok(FontFile::Alone(bytes))
        } else {
            Err(CollectionFault::MissingFace(face, 1))
        }
    }

    /// Lends the bytes of the file.
    pub(crate) fn bytes(&self) -> &[u8]
        ensures { result.now ≡ bytes_in self.now }
    {
        match self {
            FontFile::Alone(bytes) => bytes,
            FontFile::Face(bytes) => bytes.as_slice(),
        }
    }
}
