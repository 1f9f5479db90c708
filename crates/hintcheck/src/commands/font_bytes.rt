//! The font that is asked for in a file: the file itself, or a face of the collection that it is
//! (OpenType specification, "Font Collections").

ghost use Rattle.std.specs.Prelude.{IfErr};
ghost use Rattle.hintcheck.specs.Commands.{IsNoWriteFault};
ghost use Rattle.hintcheck.specs.CommandFaults.{IsFaultOfFontFile};

use super::faults::{CommandFault, FileWord};
use super::files::file_bytes;
use hintcheck_words::Faces;
use std::alloc::Global;
use std::rt::Files;
use tt_collection::{Collection, CollectionFault, is_collection};

/// The font that is asked for in a file.
#[derive(Drop)]
pub(super) struct FontBytes {
    /// The bytes of the font file that it is.
    pub bytes: Vec<u8>,
    /// The number of the face, where the file is a collection.
    pub face: Option<u32>,
}

/// Returns the number of the face that is asked for in a collection.
///
/// # Errors
/// `ManyFaces` where none is named, and there are several.
fn face_number(collection: &Collection<'_>, faces: Faces) -> Result<u32, CommandFault>
    ensures unwritten { IfErr result IsNoWriteFault }
    ensures faults { IfErr result IsFaultOfFontFile }
{
    if let Faces::Numbered(number) = faces {
        return Ok(number);
    }
    match collection.face_count() {
        1 => Ok(0),
        count => Err(CommandFault::ManyFaces(count)),
    }
}

/// Returns a font file that is no collection: it is its own face 0.
///
/// # Errors
/// `Collection` where another face is named.
fn whole_file(bytes: Vec<u8>, faces: Faces) -> Result<FontBytes, CommandFault>
    ensures unwritten { IfErr result IsNoWriteFault }
    ensures faults { IfErr result IsFaultOfFontFile }
{
    match faces {
        Faces::Numbered(number) if number > 0 => Err(CommandFault::from(
            CollectionFault::MissingFace(number, 1),
        )),
        _ => Ok(FontBytes { bytes, face: None }),
    }
}

/// Returns the font that is asked for in a file with these bytes. Where no face of a collection is
/// named, it is the only one.
///
/// # Errors
/// `Collection` with the faults of `Collection::read` and `Collection::face`; `ManyFaces` where no face
/// is named, and there are several; `OutOfMemory`.
pub(super) fn font_in_file(
    alloc: Global,
    bytes: Vec<u8>,
    faces: Faces,
) -> Result<FontBytes, CommandFault>
    ensures unwritten { IfErr result IsNoWriteFault }
    ensures faults { IfErr result IsFaultOfFontFile }
{
    if !is_collection(&bytes) {
        return whole_file(bytes, faces);
    }
    let collection = Collection::read(&bytes)?;
    let number = face_number(&collection, faces)?;
    let font = collection.face(alloc, number)?;
    Ok(FontBytes {
        bytes: font,
        face: Some(number),
    })
}

/// Returns the font that is asked for in the file with this name, of which at most so many bytes are
/// read.
///
/// # Errors
/// `Unopened`, `TooLong` and `Read` where the file can't be opened or read; those of `font_in_file`.
pub(super) fn named_font<R: Files + AllocGlobal>(
    rt: &R,
    name: &str,
    faces: Faces,
    max_bytes: u64,
) -> Result<FontBytes, CommandFault>
    ensures unwritten { IfErr result IsNoWriteFault }
    ensures faults { IfErr result IsFaultOfFontFile }
{
    let bytes = file_bytes(rt, name, FileWord::Font, max_bytes)?;
    font_in_file(rt.alloc(), bytes, faces)
}
