//! Cases of the command line: the task that words ask for, or why there is none, and hexadecimal
//! words.

use crate::commands::{spelled, spelled_all};
use anyhow::Result;
use hintcheck::{TaskFault, read_words, word_bytes};
use tt_cases::context::Context;
use tt_cases::words::Words;

/// `words WORDS`: the task that the words after the program's name ask for, or the kind of clap's
/// error.
pub(crate) fn task(context: &Context<'_>, words: &mut Words<'_>) -> Result<String> {
    let alloc = context.rt.alloc();
    let spellings = spelled_all(context, words)?;
    let texts: Vec<&str> = spellings.iter().map(|word| word.as_str()).collect(alloc)?;
    let text = match read_words(alloc, &texts) {
        Ok(task) => format!(in alloc; "{task:?}"),
        Err(TaskFault::Words(error)) => format!(in alloc; "{:?}", error.kind()),
        Err(TaskFault::OutOfMemory(_)) => String::from_str(alloc, "9"),
    };
    Ok(text?)
}

/// How many bytes are shown at most.
const MOST_SHOWN: usize = 100;

/// `hex WORD`: the bytes that the word spells, how many they are where they are many, or `bad`.
pub(crate) fn hex_word(context: &Context<'_>, words: &mut Words<'_>) -> Result<String> {
    let alloc = context.rt.alloc();
    let word = spelled(context, words.next()?)?;
    match word_bytes(alloc, &word) {
        Ok(bytes) if bytes.len() > MOST_SHOWN => Ok(format!(in alloc; "{} bytes", bytes.len())?),
        Ok(bytes) => Ok(format!(in alloc; "{:?}", bytes.as_slice())?),
        Err(_) => Ok(String::from_str(alloc, "bad")?),
    }
}
