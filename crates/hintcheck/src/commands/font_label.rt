//! What a font file is called where it is told of: by its name, and by the number of its face where it
//! is one of a collection.

ghost use Rattle.std.specs.Prelude.{◌≡◌, None};

use std::fmt;

/// What a font file is called: as text `uming.ttc#2`.
#[derive(Clone, Copy)]
pub(super) struct FontLabel<'a> {
    /// The name of the file.
    pub file: &'a str,
    /// The number of the face in the file, from 0, where this is a collection.
    pub face: Option<u32>,
}

impl fmt::Display for FontLabel<'_> {
    ghost use Rattle.std.specs.Prelude.{Some};
    ghost use Rattle.hintcheck.specs.FontLabels.{label_text};
    ghost use Rattle.hintcheck.specs.Representation.ScannedFiles.{label_of};

    ghost output = { λ label. Some (label_text (label_of label)) };

    fn fmt<W: fmt::Write>(&self, f: &mut fmt::Formatter<W>) -> fmt::Result {
        let file = self.file;
        match self.face {
            Some(number) => write!(f, "{file}#{number}"),
            None => write!(f, "{file}"),
        }
    }
}

impl<'a> FontLabel<'a> {
    /// Returns what a file with this name is called that is no collection.
    pub(super) fn of_file(file: &'a str) -> FontLabel<'a>
        ensures file { result.file.now ≡ file.entry.now }
        ensures face { result.face ≡ None }
    {
        FontLabel { file, face: None }
    }
}
