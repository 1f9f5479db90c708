//! Why a command gives no answer.

ghost use Rattle.std.specs.Prelude.{◌≡◌, ◌≤◌};
ghost use Rattle.hintcheck.specs.Commands.{IsNoWriteFault, fault_of_word, status_of};

use crate::neighbours::Neighbours;
use hintcheck_certificates::certificate_upgrade::UpgradeFault;
use hintcheck_report::AnswerFault;
use hintcheck_words::{TaskFault, WordFault};
use std::alloc::AllocError;
use std::io::ErrorKind;
use std::{fmt, io};
use tt_abs::Exhausted;
use tt_collection::CollectionFault;
use tt_font::FontFault;
use tt_stream::{PrintFailed, ReadFault};

/// The exit status where the words or what they name can't be read, or the output can't be written.
const UNREADABLE: u8 = 2;

/// The exit status where memory or the budget ran out.
const UNFINISHED: u8 = 3;

/// Which word of a command names a file.
#[derive(Clone, Copy)]
pub enum FileWord {
    /// That of the font, the first one of several.
    Font,
    /// That of the certificate.
    Certificate,
    /// That of the old certificate.
    Old,
    /// That of the known refusals.
    Known,
    /// That of the list with this number, from 0, among those of a scan.
    List(usize),
}

/// What a file holds that is neither a font with TrueType outlines nor a collection, by its first four
/// bytes.
#[derive(Clone, Copy, PartialEq, Eq)]
pub enum Container {
    /// A font with CFF outlines, which have no hint programs of this kind.
    Cff,
    /// A font whose tables are compressed.
    Woff,
    /// A font that is compressed as a whole.
    Woff2,
    /// Another kind of file, which isn't told.
    Other,
}

impl Container {
    /// Returns what the file with these bytes holds, by those with which it begins (OpenType
    /// specification, "Organization of an OpenType Font"; WOFF 1.0 and 2.0, "WOFF header").
    fn of(bytes: &[u8]) -> Container {
        if bytes.starts_with(b"OTTO") {
            Container::Cff
        } else if bytes.starts_with(b"wOFF") {
            Container::Woff
        } else if bytes.starts_with(b"wOF2") {
            Container::Woff2
        } else {
            Container::Other
        }
    }

    /// Returns the text of what the file holds, which is empty where that isn't told.
    fn text(self) -> &'static str {
        match self {
            Container::Cff => "CFF outlines",
            Container::Woff => "WOFF",
            Container::Woff2 => "WOFF2",
            Container::Other => "",
        }
    }
}

impl fmt::Display for Container {
    fn fmt<W: fmt::Write>(&self, f: &mut fmt::Formatter<W>) -> fmt::Result {
        write!(f, "{}", self.text())
    }
}

/// Why a file can't be opened.
#[derive(Clone, Copy, PartialEq, Eq)]
pub enum Unopened {
    /// No file has the name.
    NotFound,
    /// The file may not be read.
    PermissionDenied,
    /// The name is a directory's.
    Directory,
    /// For another reason, which isn't told.
    Other,
}

impl Unopened {
    /// Returns why a file isn't opened of which the system tells this.
    pub(super) fn of(error: &io::Error) -> Unopened {
        match error.kind() {
            ErrorKind::NotFound => Unopened::NotFound,
            ErrorKind::PermissionDenied => Unopened::PermissionDenied,
            ErrorKind::IsADirectory => Unopened::Directory,
            _ => Unopened::Other,
        }
    }

    /// Returns the text of the reason, which is empty where that isn't told.
    fn text(self) -> &'static str {
        match self {
            Unopened::NotFound => "no such file",
            Unopened::PermissionDenied => "permission denied",
            Unopened::Directory => "a directory",
            Unopened::Other => "",
        }
    }
}

impl fmt::Display for Unopened {
    fn fmt<W: fmt::Write>(&self, f: &mut fmt::Formatter<W>) -> fmt::Result {
        write!(f, "{}", self.text())
    }
}

/// Why a command gives no answer. Its text is the line for the user, after `fault: `; what more helps
/// is in its note.
#[derive(Drop)]
pub enum CommandFault {
    /// The words aren't those of the command line. The text is clap's, and is printed alone.
    Usage(TaskFault),
    /// The word of the `maxp` table spells no bytes.
    MaxpWord,
    /// The word of the program spells no bytes.
    ProgramWord,
    /// The word of the program is the name of none of the font's programs.
    ProgramName,
    /// The word of the offset is none.
    NoOffset,
    /// No instruction of the program begins at the offset; what is around it.
    OffsetWord(Neighbours),
    /// The word for which programs a scan is to fail names no class of reasons.
    ClassWord,
    /// The file of known refusals of a scan is one of its fonts.
    ExpectedWord,
    /// A font of a scan has a line feed in its name, so that no line of a file of known refusals
    /// can name it.
    FontWord,
    /// A name is given for the font of a scan that has none or several.
    NameWord,
    /// The first line of the file of known refusals that names none: its number, counted from 1.
    KnownLine(u64),
    /// The font's file is to be its certificate's.
    CertificateWord,
    /// The old certificate's file is to be the new one's.
    NewWord,
    /// The first fault of the font's bytes, or of the `maxp` table of `bare`, or that memory ran
    /// out; and what the file holds instead of a font.
    Font(FontFault, Container),
    /// The fault of a font collection, or of one of its faces.
    Collection(CollectionFault),
    /// No face of a collection is named, and there are so many.
    ManyFaces(u32),
    /// The bytes are no certificate for the font, or, in an upgrade, for any font: the place of
    /// what is wrong.
    Form(u64),
    /// The certificate's file doesn't begin as a certificate does.
    NoCertificate,
    /// Memory ran out.
    OutOfMemory,
    /// More steps were to be made than may be.
    Budget,
    /// The file that this word names can't be opened.
    Unopened(FileWord, Unopened),
    /// The file that this word names has more bytes than may be read, which are so many.
    TooLong(FileWord, u64),
    /// A file can't be read.
    Read,
    /// The output can't be written.
    Write,
    /// A file can't be made or written.
    File,
    /// A `Display` failed, which none here does: each writes to a buffer in memory, where no write
    /// fails.
    Text,
}

impl fmt::Display for CommandFault {
    fn fmt<W: fmt::Write>(&self, f: &mut fmt::Formatter<W>) -> fmt::Result {
        match self {
            CommandFault::Usage(text) => write!(f, "{text}"),
            CommandFault::Font(font, _) => write!(f, "{} {font}", font.number()),
            CommandFault::Collection(collection) => {
                write!(f, "{} {collection}", collection.number())
            }
            CommandFault::ManyFaces(count) => write!(f, "16 collection of {count} faces"),
            CommandFault::Form(place) => write!(f, "43 certificate form at byte {place}"),
            fault => write!(f, "{}", fault.fixed_text()),
        }
    }
}

/// What helps the user with a fault, if there is something: the text after `note: `.
#[derive(Clone, Copy)]
pub(super) struct Note<'a>(&'a CommandFault);

impl fmt::Display for Note<'_> {
    fn fmt<W: fmt::Write>(&self, f: &mut fmt::Formatter<W>) -> fmt::Result {
        match self.0 {
            CommandFault::OffsetWord(told) => write!(f, "no instruction begins there{told}"),
            CommandFault::KnownLine(number) => {
                write!(f, "line {number} isn't a number, a program and a font")
            }
            CommandFault::ManyFaces(count) => {
                let last = count.saturating_sub(1);
                write!(f, "name one by --face, 0 to {last}")
            }
            CommandFault::TooLong(_, most) => write!(f, "more than {most} bytes (--max-bytes)"),
            fault => write!(f, "{}", fault.fixed_note()),
        }
    }
}

/// A fault with what helps in one line, as lines of a scan and objects have it.
#[derive(Clone, Copy)]
pub(super) struct WholeFault<'a>(pub &'a CommandFault);

impl fmt::Display for WholeFault<'_> {
    fn fmt<W: fmt::Write>(&self, f: &mut fmt::Formatter<W>) -> fmt::Result {
        let fault = self.0;
        match fault.note() {
            Some(note) => write!(f, "{fault}: {note}"),
            None => write!(f, "{fault}"),
        }
    }
}

impl From<PrintFailed> for CommandFault {
    ghost use Rattle.hintcheck.specs.Commands.{fault_of_print};

    ghost from_gives = { λ failed fault. fault ≡ fault_of_print failed };

    fn from(failed: PrintFailed) -> CommandFault {
        match failed {
            PrintFailed::Write => CommandFault::Write,
            PrintFailed::Format => CommandFault::Text,
        }
    }
}

impl From<ReadFault> for CommandFault {
    ghost use Rattle.hintcheck.specs.Commands.{fault_of_reading};

    ghost from_gives = { λ read fault. fault ≡ fault_of_reading read };

    fn from(read: ReadFault) -> CommandFault {
        match read {
            ReadFault::Read => CommandFault::Read,
            ReadFault::OutOfMemory(AllocError) => CommandFault::OutOfMemory,
        }
    }
}

impl From<AllocError> for CommandFault {
    ghost use Rattle.hintcheck.specs.declared.commands.faults.CommandFault.TheVariants.{OutOfMemory};

    ghost from_gives = { λ error fault. fault ≡ OutOfMemory };

    fn from(_error: AllocError) -> CommandFault {
        CommandFault::OutOfMemory
    }
}

impl From<CollectionFault> for CommandFault {
    ghost use Rattle.hintcheck.specs.declared.commands.faults.CommandFault.TheVariants.{Collection};

    ghost from_gives = { λ collection fault. fault ≡ Collection collection };

    fn from(collection: CollectionFault) -> CommandFault {
        CommandFault::Collection(collection)
    }
}

impl From<FontFault> for CommandFault {
    ghost use Rattle.hintcheck.specs.declared.commands.faults.CommandFault.TheVariants.{Font};
    ghost use Rattle.hintcheck.specs.declared.commands.faults.Container.TheVariants.{Other};

    ghost from_gives = { λ font fault. fault ≡ Font font Other };

    fn from(font: FontFault) -> CommandFault {
        CommandFault::Font(font, Container::Other)
    }
}

impl From<AnswerFault> for CommandFault {
    ghost use Rattle.hintcheck.specs.Commands.{fault_of_answer};

    ghost from_gives = { λ answer fault. fault ≡ fault_of_answer answer };

    fn from(fault: AnswerFault) -> CommandFault {
        match fault {
            AnswerFault::Font(font) => CommandFault::from(font),
            AnswerFault::Form(place) => CommandFault::Form(place),
            AnswerFault::Read => CommandFault::Read,
            AnswerFault::Write => CommandFault::File,
            AnswerFault::Print(failed) => CommandFault::from(failed),
            AnswerFault::Exhausted(by) => CommandFault::from(by),
        }
    }
}

impl From<Exhausted> for CommandFault {
    ghost use Rattle.hintcheck.specs.Commands.{fault_of_end};

    ghost from_gives = { λ by fault. fault ≡ fault_of_end by };

    fn from(exhausted: Exhausted) -> CommandFault {
        match exhausted {
            Exhausted::Memory => CommandFault::OutOfMemory,
            Exhausted::Budget => CommandFault::Budget,
        }
    }
}

impl From<UpgradeFault> for CommandFault {
    ghost use Rattle.hintcheck.specs.Commands.{fault_of_upgrade};

    ghost from_gives = { λ upgrade fault. fault ≡ fault_of_upgrade upgrade };

    fn from(fault: UpgradeFault) -> CommandFault {
        CommandFault::from(AnswerFault::from(fault))
    }
}

impl CommandFault {
    /// Returns the text of a fault that is told by its kind alone, and an empty one of another.
    fn fixed_text(&self) -> &'static str {
        match self {
            CommandFault::MaxpWord => "words: MAXP",
            CommandFault::ProgramWord | CommandFault::ProgramName => "words: PROGRAM",
            CommandFault::NoOffset | CommandFault::OffsetWord(_) => "words: OFFSET",
            CommandFault::ClassWord => "words: CLASS",
            CommandFault::ExpectedWord => "words: FILE",
            CommandFault::FontWord => "words: FONT",
            CommandFault::NameWord => "words: NAME",
            CommandFault::CertificateWord => "words: CERT",
            CommandFault::NewWord => "words: NEW",
            CommandFault::NoCertificate => "43 certificate form at byte 0",
            CommandFault::OutOfMemory => "9 out of memory",
            CommandFault::Budget => "46 budget",
            CommandFault::KnownLine(_)
            | CommandFault::Unopened(..)
            | CommandFault::TooLong(..)
            | CommandFault::Read => "44 read",
            CommandFault::Write | CommandFault::File => "45 write",
            CommandFault::Text => "text",
            CommandFault::Usage(_)
            | CommandFault::Font(..)
            | CommandFault::Collection(_)
            | CommandFault::ManyFaces(_)
            | CommandFault::Form(_) => "",
        }
    }

    /// Returns the text of a note without a number or an offset, and an empty one where the fault has
    /// no such note.
    fn fixed_note(&self) -> &'static str {
        match self {
            CommandFault::ProgramName => {
                "PROGRAM is f, p, g and the number of a glyph, or its name"
            }
            CommandFault::NoOffset => "OFFSET is a number, alone or after f: or p:",
            CommandFault::ClassWord => "CLASS is possible",
            CommandFault::ExpectedWord => "FILE is a font of the scan",
            CommandFault::FontWord => "a font has a line feed in its name",
            CommandFault::NameWord => "NAME is for one font",
            CommandFault::CertificateWord => "the font would be written over",
            CommandFault::NewWord => "the old certificate would be written over",
            CommandFault::Font(_, container) => container.text(),
            CommandFault::NoCertificate => "not a certificate",
            CommandFault::Unopened(_, why) => why.text(),
            _ => "",
        }
    }

    /// Returns the fault of the font in these bytes. Only of a file that isn't an sfnt file it is
    /// told what it holds.
    pub(crate) fn of_font(fault: FontFault, bytes: &[u8]) -> CommandFault
        ensures { (container : Container) × (result ≡ CommandFault.Font fault container) }
    {
        match fault {
            FontFault::NotSfnt => CommandFault::Font(fault, Container::of(bytes)),
            _ => CommandFault::Font(fault, Container::Other),
        }
    }

    /// Returns the fault of a word of hexadecimal digits: `bad` where the word spells no bytes.
    pub(crate) fn of_word(fault: WordFault, bad: CommandFault) -> CommandFault
        requires { IsNoWriteFault bad }
        ensures fault { result ≡ fault_of_word fault bad }
        ensures unwritten { IsNoWriteFault result }
    {
        match fault {
            WordFault::OutOfMemory => CommandFault::OutOfMemory,
            _ => bad,
        }
    }

    /// Whether the fault is of a kind that a font file has.
    pub(super) fn is_of_font_file(&self) -> bool {
        matches!(
            self,
            CommandFault::Font(..)
                | CommandFault::Collection(_)
                | CommandFault::ManyFaces(_)
                | CommandFault::Unopened(..)
                | CommandFault::TooLong(..)
                | CommandFault::Read
                | CommandFault::OutOfMemory
                | CommandFault::Budget
        )
    }

    /// Returns what helps the user with the fault, if there is something.
    pub(super) fn note(&self) -> Option<Note<'_>> {
        let has_note = match self {
            CommandFault::Font(_, container) => *container != Container::Other,
            CommandFault::Unopened(_, why) => *why != Unopened::Other,
            CommandFault::ProgramName
            | CommandFault::NoOffset
            | CommandFault::OffsetWord(_)
            | CommandFault::ClassWord
            | CommandFault::ExpectedWord
            | CommandFault::FontWord
            | CommandFault::NameWord
            | CommandFault::KnownLine(_)
            | CommandFault::CertificateWord
            | CommandFault::NewWord
            | CommandFault::ManyFaces(_)
            | CommandFault::NoCertificate
            | CommandFault::TooLong(..) => true,
            _ => false,
        };
        has_note.then_some(Note(self))
    }

    /// Returns which word names the file that the fault is of, if its note needs that.
    pub(super) fn file_word(&self) -> Option<FileWord> {
        match self {
            CommandFault::Unopened(word, _) | CommandFault::TooLong(word, _) => Some(*word),
            CommandFault::KnownLine(_) => Some(FileWord::Known),
            _ => None,
        }
    }

    /// Returns the exit status: 3 where memory or the budget ran out, and otherwise 2.
    pub fn status(&self) -> u8
        ensures status { result ≡ status_of self.now }
        ensures within { (2 ≤ result) × (result ≤ 3) }
    {
        match self {
            CommandFault::OutOfMemory
            | CommandFault::Budget
            | CommandFault::Collection(CollectionFault::OutOfMemory(_))
            | CommandFault::Font(FontFault::OutOfMemory(_), _) => { UNFINISHED },
            _ => UNREADABLE,
        }
    }
}
