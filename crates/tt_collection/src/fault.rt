//! Why a collection or one of its faces can't be read (OpenType specification, "Font Collections").
//! The numbers and texts are this product's own.

ghost use Rattle.std.specs.Prelude.{◌≡◌};
ghost use Rattle.tt_collection.specs.FaultNumbers.{fault_number};

use std::alloc::AllocError;
use std::error::Error;
use std::fmt;

/// Why a file isn't read as a font collection, or one of its faces isn't unpacked.
#[derive(Clone, Copy, Debug, Drop)]
pub enum CollectionFault {
    /// The file doesn't begin with `ttcf` and the version 1.0 or 2.0.
    NotCollection,
    /// The file ends before its header does.
    HeaderTruncated,
    /// The header has no face.
    NoFace,
    /// The header has no face of this number, the first one: it has only so many, the second one.
    MissingFace(u32, u32),
    /// The directory of the face of this number doesn't lie in the file.
    DirectoryOutside(u32),
    /// In the directory of the face of this number, the first one, a table's offset leaves 32 bits
    /// once it is moved: that of the record of the second number, the first such record.
    OffsetTooLarge(u32, u16),
    /// Memory ran out.
    OutOfMemory(AllocError),
}

impl CollectionFault {
    /// Returns the number of the fault, from 9 to 15, which is printed before its text. No fault of
    /// a font file has one of them, except for 9, out of memory.
    pub fn number(&self) -> u8
        ensures { result ≡ fault_number self.now }
    {
        match self {
            CollectionFault::OutOfMemory(_) => 9,
            CollectionFault::NotCollection => 10,
            CollectionFault::HeaderTruncated => 11,
            CollectionFault::NoFace => 12,
            CollectionFault::MissingFace(_, _) => 13,
            CollectionFault::DirectoryOutside(_) => 14,
            CollectionFault::OffsetTooLarge(_, _) => 15,
        }
    }
}

impl fmt::Display for CollectionFault {
    ghost use Rattle.std.specs.Prelude.{Some};
    ghost use Rattle.tt_collection.specs.FaultTexts.{fault_text};

    ghost output = { λ fault. Some (fault_text fault) };

    fn fmt<W: fmt::Write>(&self, f: &mut fmt::Formatter<W>) -> fmt::Result {
        match self {
            CollectionFault::NotCollection => write!(f, "not a collection of version 1.0 or 2.0"),
            CollectionFault::HeaderTruncated => write!(f, "collection header truncated"),
            CollectionFault::NoFace => write!(f, "collection without a face"),
            CollectionFault::MissingFace(number, count) => {
                write!(f, "missing face {number} of {count}")
            }
            CollectionFault::DirectoryOutside(number) => {
                write!(f, "directory of face {number} outside")
            }
            CollectionFault::OffsetTooLarge(number, record) => {
                write!(f, "offset of record {record} of face {number} too large")
            }
            CollectionFault::OutOfMemory(_) => write!(f, "out of memory"),
        }
    }
}

impl Error for CollectionFault {}

impl From<AllocError> for CollectionFault {
    ghost use Rattle.std.specs.Prelude.{◌≡◌};
    ghost use Rattle.tt_collection.specs.declared.fault.CollectionFault.TheVariants.{OutOfMemory};

    ghost from_gives = { λ error fault. fault ≡ OutOfMemory error };

    fn from(error: AllocError) -> CollectionFault {
        CollectionFault::OutOfMemory(error)
    }
}
