//! Checks the hint programs of TrueType fonts against the limits of their font: the calls on a font's
//! bytes, what a program says and why it is refused, and the command.
#![tactic(auto)]

mod asked_site;
mod causes;
mod commands;
mod explanation;
mod font_file;
mod glyph_names;
mod instruction_list;
mod neighbours;
mod pushed_numbers;
mod symbolic_explanation;

pub use commands::command;
pub use commands::faults::{CommandFault, Container, FileWord, Unopened};
pub use hintcheck_certificates::{
    CheckFontFault, FindFontFault, Outcome, Session, UpgradeFault, check_font, check_font_within,
    find_font, find_font_within, upgrade,
};
pub use hintcheck_explain::Site;
pub use hintcheck_fonts::{
    AnswerFault, Judged, Name, Place, Refused, Request, Verdict, bare, bare_by_both, bare_symbolic,
    bare_symbolic_within, bare_within, read_font, verdict, verdict_by, verdict_by_both,
    verdict_symbolic, verdict_symbolic_within, verdict_within,
};
pub use hintcheck_words::{
    AskedNeeds, CertificateOptions, Detail, ExplainOptions, Faces, FailOn, FontWords, Format,
    ListOptions, Profile, ScanOptions, ScanTexts, Task, TaskFault, VerdictOptions, WordFault,
    read_words, word_bytes,
};
pub use neighbours::{Neighbour, Neighbours};
pub use tt_collection::CollectionFault;
pub use tt_family::Budget;
pub use tt_font::{FontFault, Tag, read_maxp};
pub use tt_stream::{ReadFault, read_all};
