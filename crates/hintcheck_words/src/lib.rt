//! The words of the command line: what they ask for, and the bytes that a hexadecimal word spells.
#![tactic(auto)]

mod hex_words;
mod words;

pub use hex_words::{WordFault, word_bytes};
pub use words::{
    AskedNeeds, CertificateOptions, Detail, ExplainOptions, Faces, FailOn, FontWords, Format,
    ListOptions, Profile, ScanOptions, ScanTexts, Task, TaskFault, VerdictOptions, read_words,
};
