//! What the words of a command line ask for: the tasks, with the options of each.

ghost use Rattle.std.specs.Prelude.{◌≡◌};
ghost use Rattle.hintcheck_words.specs.Requests.{max_steps_of};

mod command_line;
mod reading;

pub use reading::read_words;
use std::alloc::AllocError;
use thiserror::Error;

/// What is printed at `--version`, after the program's name: the version, and the kit by which it
/// is proved.
const VERSION: &str = "0.9.0 (rattle-kit-13f logic dac8208d650f15bf)";

/// By which profile of the analysis programs are checked, and how much that may take.
///
/// The limit is a number of steps. The symbolic profile makes one each time that it carries a state
/// over an instruction, and the strict one each time that it carries a state on from a place of a
/// program.
#[derive(Clone, Copy, Debug)]
pub enum Profile {
    /// The strict profile, which has no further premises and gives up values that are computed.
    Strict {
        /// How many steps it may make; None for as many as it takes.
        max_steps: Option<u64>,
    },
    /// The symbolic profile, which follows computed values and whose acceptances have premises.
    Symbolic {
        /// How many steps it may make; None for as many as are usual.
        max_steps: Option<u64>,
    },
    /// The strict profile and, where it doesn't accept the font, the symbolic one.
    Both {
        /// How many steps each of the two may make; None where the words name no number.
        max_steps: Option<u64>,
    },
}

impl Profile {
    /// Returns how many steps each profile may make; None where the words name no number.
    pub fn max_steps(self) -> Option<u64>
        ensures { result ≡ max_steps_of self }
    {
        match self {
            Profile::Strict { max_steps }
            | Profile::Symbolic { max_steps }
            | Profile::Both { max_steps } => max_steps,
        }
    }
}

/// For which refused programs a scan fails.
#[derive(Clone, Copy, Debug, PartialEq, Eq)]
pub enum FailOn {
    /// For each of them.
    Refused,
    /// For those whose reason is a possible fault.
    Possible,
}

/// The form in which answers are printed.
#[derive(Clone, Copy, Debug, PartialEq, Eq)]
pub enum Format {
    /// Lines of text; for a scan a line for each font.
    Lines,
    /// An object of JSON, in a line; for a scan one for each font.
    Json,
}

/// What is listed of an instruction.
#[derive(Clone, Copy, Debug, PartialEq, Eq)]
pub enum Detail {
    /// Its bytes and its name.
    Names,
    /// After these the numbers that it pushes, if it is one that pushes numbers of its own.
    Numbers,
}

/// What the words of a scan's fonts are.
#[derive(Clone, Copy, Debug, PartialEq, Eq)]
pub enum FontWords {
    /// The names of font files.
    Fonts,
    /// The names of files that list the names of font files, each ended by a line feed.
    Lines,
    /// The names of files that list the names of font files, each ended by a NUL.
    Nuls,
}

/// Which faces of a font collection are meant. A font file has one face.
#[derive(Clone, Copy, Debug, PartialEq, Eq)]
pub enum Faces {
    /// Each of them.
    All,
    /// The only one; where there are several, that is a fault.
    Only,
    /// The one of this number, from 0.
    Numbered(u32),
}

/// Of which of the numbers that bound programs a scan tells what a font needs.
#[derive(Clone, Copy, Debug, PartialEq, Eq)]
pub enum AskedNeeds {
    /// Of none.
    None,
    /// Of those for which programs of the font are refused.
    Refused,
    /// Of all seven.
    All,
}

/// How the font files of a scan are checked, and what is printed of them.
#[derive(Clone, Copy, Debug)]
pub struct ScanOptions {
    /// By which profile each font is checked.
    pub profile: Profile,
    /// For which refused programs the scan fails; None where the word for them names no class of
    /// reasons, so that there is no scan.
    pub fail_on: Option<FailOn>,
    /// The form in which the answers are printed.
    pub format: Format,
    /// Whether the causes of a font's refusals are told.
    pub has_causes: bool,
    /// Of which numbers it is told what a font needs of them.
    pub needs: AskedNeeds,
    /// What the words of its fonts are.
    pub words: FontWords,
    /// Which faces of a collection are checked.
    pub faces: Faces,
    /// How many bytes a file may have at most.
    pub max_bytes: u64,
    /// Whether nothing is printed of a font whose programs are all accepted.
    pub is_quiet: bool,
}

/// The names that the words give a scan, besides those of its fonts.
#[derive(Debug, Drop)]
pub struct ScanTexts {
    /// The name of the file that lists the known refusals; None where it is left out.
    pub expected: Option<String>,
    /// The name of the file to which the refusals are written; None where none is.
    pub written: Option<String>,
    /// The name by which a scan of one font tells it; None for the one by which it is read.
    pub name: Option<String>,
}

/// How the programs of a font file are checked for their verdict, and what is printed of it.
#[derive(Clone, Copy, Debug)]
pub struct VerdictOptions {
    /// By which profile they are checked.
    pub profile: Profile,
    /// Which face of a collection is checked.
    pub faces: Faces,
    /// How many bytes the file may have at most.
    pub max_bytes: u64,
    /// Whether the last line of the verdict alone is printed.
    pub is_quiet: bool,
}

/// How a program of a font file is explained.
#[derive(Clone, Copy, Debug)]
pub struct ExplainOptions {
    /// By which profile it is checked.
    pub profile: Profile,
    /// The form in which the explanation is printed: lines or an object of JSON.
    pub format: Format,
    /// Which face of a collection the program is of.
    pub faces: Faces,
    /// How many bytes the file may have at most.
    pub max_bytes: u64,
}

/// How the instructions of a program are listed.
#[derive(Clone, Copy, Debug)]
pub struct ListOptions {
    /// What is listed of each of them.
    pub detail: Detail,
    /// Which face of a collection the program is of.
    pub faces: Faces,
    /// How many bytes the file may have at most.
    pub max_bytes: u64,
}

/// How a font's certificate is found or checked.
#[derive(Clone, Copy, Debug)]
pub struct CertificateOptions {
    /// How many steps the strict profile may make; None for as many as it takes.
    pub max_steps: Option<u64>,
    /// Which face of a collection the certificate is of.
    pub faces: Faces,
    /// How many bytes a file may have at most.
    pub max_bytes: u64,
}

/// What the words ask for.
#[derive(Debug, Drop)]
pub enum Task {
    /// Checks one glyph program against the limits of a `maxp` table, both in hexadecimal digits.
    Bare {
        /// The word of the `maxp` table.
        maxp: String,
        /// How many entries the control value table has.
        cvt: u16,
        /// How many points the glyph has.
        points: u16,
        /// How many contours the glyph has.
        contours: u16,
        /// The word of the program; None where it is left out.
        program: Option<String>,
        /// By which profile it is checked.
        profile: Profile,
    },
    /// Checks all programs of a font file.
    Verdict {
        /// The name of the font file.
        font: String,
        /// How they are checked, and what is printed.
        options: VerdictOptions,
    },
    /// Checks all programs of each of several font files.
    Scan {
        /// The words of the fonts: their names, or those of files that list them.
        fonts: Vec<String>,
        /// How they are checked, and what is printed.
        options: ScanOptions,
        /// The other names that it is given.
        texts: ScanTexts,
    },
    /// Tells how one program of a font file is checked, or why programs of it are refused.
    Explain {
        /// The name of the font file.
        font: String,
        /// Which program it is; None where it is left out.
        program: Option<String>,
        /// The word of the place in it, or in a function that it calls; None where it is left out.
        /// Without a program it is of no use.
        place: Option<String>,
        /// How it is explained.
        options: ExplainOptions,
    },
    /// Writes the certificate of a font file to another file.
    Find {
        /// The name of the font file.
        font: String,
        /// The name of the certificate's file.
        certificate: String,
        /// How it is found.
        options: CertificateOptions,
    },
    /// Checks a font file by a certificate.
    Check {
        /// The name of the font file.
        font: String,
        /// The name of the certificate's file.
        certificate: String,
        /// How it is checked.
        options: CertificateOptions,
    },
    /// Lists the instructions of one program of a font file.
    List {
        /// The name of the font file.
        font: String,
        /// Which program it is.
        program: String,
        /// How they are listed.
        options: ListOptions,
    },
    /// Writes a certificate of any form to another file, in the newest form.
    Upgrade {
        /// The name of the old certificate's file.
        old: String,
        /// The name of the new certificate's file.
        new: String,
        /// How many bytes the old certificate's file may have at most.
        max_bytes: u64,
    },
}

/// Why words ask for nothing.
#[derive(Debug, Drop, Error)]
pub enum TaskFault {
    /// The words aren't those of the command line, or ask for help or for the version: clap's text
    /// for the user.
    #[error(transparent)]
    Words(clap::Error),
    /// Memory ran out.
    #[error("out of memory")]
    OutOfMemory(AllocError),
}

impl From<AllocError> for TaskFault {
    ghost use Rattle.hintcheck_words.specs.declared.words.TaskFault.TheVariants.{OutOfMemory};

    ghost from_gives = { λ error fault. fault ≡ OutOfMemory error };

    fn from(error: AllocError) -> TaskFault {
        TaskFault::OutOfMemory(error)
    }
}
