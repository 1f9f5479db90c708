//! Laws of the font file that a face is (OpenType specification, "Font Collections"). The function
//! here does nothing: its contract is the laws.

ghost use Rattle.tt_collection.specs.Laws.{BeginsAsFace, HasTablesOfFace, PlacesTablesOfFace};

/// States what the font file of a face without a fault has of the face. It begins as the face's
/// directory does, with all of its records, before the collection's bytes. Each table is where the
/// directory in the collection has it, further on by the length of the directory, and has the bytes
/// that it has there.
pub fn faces_are_font_files()
    ensures directory { BeginsAsFace }
    ensures places { PlacesTablesOfFace }
    ensures tables { HasTablesOfFace }
{}
