//! The words of a line, and what they say: numbers, cells, stacks, bytes and places.

use anyhow::{Context as _, Result, anyhow, ensure};
use std::alloc::Global;
use std::collections::VecDeque;
use std::mem;
use std::str::FromStr;
use tt_abs::{Cell, ZoneCell};

/// How often a part of bytes or of a stack may be repeated.
const MOST_TIMES: usize = 100_000;

/// The words of a line that haven't been read.
#[derive(Drop)]
pub struct Words<'a> {
    words: VecDeque<&'a str>,
}

/// Returns what a word says after a name and `=`.
fn value_of<'a>(word: &'a str, name: &str) -> Option<&'a str> {
    word.strip_prefix(name)?.strip_prefix('=')
}

/// Returns a number in decimal digits.
pub fn number_of<T: FromStr>(word: &str) -> Result<T>
where
    T::Err: Drop,
{
    let number = word.parse().ok();
    number.context(format_args!("{word} isn't a number that fits"))
}

/// Returns a number, or an unknown one: `?`.
pub fn cell_of(word: &str) -> Result<Cell> {
    if word == "?" {
        return Ok(Cell::Unknown);
    }
    Ok(Cell::Known(number_of(word)?))
}

/// Returns a zone: `0`, `1`, or either, `?`.
pub fn zone_of(word: &str) -> Result<ZoneCell> {
    match word {
        "0" => Ok(ZoneCell::Zero),
        "1" => Ok(ZoneCell::One),
        "?" => Ok(ZoneCell::Either),
        _ => Err(anyhow!("{word} isn't a zone")),
    }
}

/// Returns a body: `3` in the font program, `p:3` in the CVT program.
pub fn body_of(word: &str) -> Result<u32> {
    match word.strip_prefix("p:") {
        Some(offset) => Ok(number_of::<u32>(offset)? | 1 << 31),
        None => number_of(word),
    }
}

/// Returns what is repeated in `PART*TIMES`, and how often.
fn repeated(word: &str) -> Result<(&str, usize)> {
    let (part, times) = word.split_once('*').unwrap_or((word, "1"));
    let times = number_of(times)?;
    ensure!(times <= MOST_TIMES, "{times} times is too often");
    Ok((part, times))
}

/// Adds as many numbers of 16 bits, from 0 up, as a word says, each followed by the bytes of these
/// digits.
fn push_numbered(bytes: &mut Vec<u8>, alloc: Global, digits: &str, times: &str) -> Result<()> {
    let part = hex::decode(alloc, digits)?;
    for number in 0..number_of::<u16>(times)? {
        bytes.extend_from_slice(&number.to_be_bytes())?;
        bytes.extend_from_slice(&part)?;
    }
    Ok(())
}

/// Adds the bytes of a part, as often as it says.
fn push_part(bytes: &mut Vec<u8>, alloc: Global, part: &str) -> Result<()> {
    if let Some((digits, times)) = part.split_once('^') {
        return push_numbered(bytes, alloc, digits, times);
    }
    let (digits, times) = repeated(part)?;
    let part = hex::decode(alloc, digits)?;
    for _ in 0..times {
        bytes.extend_from_slice(&part)?;
    }
    Ok(())
}

/// Returns the bytes of hexadecimal digits; of `B000.2060*16` those of `B000`, and 16 times `2060`;
/// of `07^3` three numbers from 0 up, with a 7 after each: `000007000107000207`; of `""` none.
pub fn bytes_of(alloc: Global, word: &str) -> Result<Vec<u8>> {
    let mut bytes = Vec::new(alloc);
    if word == "\"\"" {
        return Ok(bytes);
    }
    for part in word.split('.') {
        push_part(&mut bytes, alloc, part)?;
    }
    Ok(bytes)
}

/// Returns the two parts of a word that is divided once.
pub fn pair_of(word: &str, divider: char) -> Result<(&str, &str)> {
    word.split_once(divider)
        .context(format_args!("{word} has no {divider}"))
}

/// Adds a cell to a stack, as often as its word says.
fn push_cells(stack: &mut Vec<Cell>, word: &str) -> Result<()> {
    let (cell, times) = repeated(word)?;
    let cell = cell_of(cell)?;
    for _ in 0..times {
        stack.push(cell)?;
    }
    Ok(())
}

impl<'a> Words<'a> {
    /// Returns the words of two texts, one after the other.
    pub fn of(alloc: Global, first: &'a str, second: &'a str) -> Result<Words<'a>> {
        let texts = first.split_whitespace().chain(second.split_whitespace());
        Ok(Words {
            words: texts.collect(alloc)?,
        })
    }

    /// Returns the words of a list.
    pub(crate) fn listed(alloc: Global, list: &[&'a str]) -> Result<Words<'a>> {
        Ok(Words {
            words: list.iter().copied().collect(alloc)?,
        })
    }

    /// Whether all words have been read.
    pub fn is_empty(&self) -> bool {
        self.words.is_empty()
    }

    /// Returns how many words haven't been read.
    pub fn len(&self) -> usize {
        self.words.len()
    }

    /// Returns the next word, without taking it.
    pub fn first(&self) -> Option<&'a str> {
        self.words.front().copied()
    }

    /// Takes the next word.
    pub fn next(&mut self) -> Result<&'a str> {
        self.words.pop_front().context("a word is missing")
    }

    /// Takes the number that the next word says.
    pub fn next_number<T: FromStr>(&mut self) -> Result<T>
    where
        T::Err: Drop,
    {
        number_of(self.next()?)
    }

    /// Takes the bytes that the next word says.
    pub fn next_bytes(&mut self, alloc: Global) -> Result<Vec<u8>> {
        bytes_of(alloc, self.next()?)
    }

    /// Takes the next word if it is this one; whether it is.
    pub fn take_word(&mut self, word: &str) -> bool {
        self.first() == Some(word) && self.words.pop_front().is_some()
    }

    /// Takes all words that are left.
    pub fn rest(&mut self, alloc: Global) -> Result<Vec<&'a str>> {
        let words = mem::replace(&mut self.words, VecDeque::new(alloc));
        Ok(words.into_iter().collect(alloc)?)
    }

    /// Whether a name has a value.
    pub fn has(&self, name: &str) -> bool {
        self.words.iter().any(|word| value_of(word, name).is_some())
    }

    /// Takes the value of a name, wherever it stands.
    pub fn take(&mut self, name: &str) -> Option<&'a str> {
        let place = self
            .words
            .iter()
            .position(|word| value_of(word, name).is_some())?;
        let word = self.words.remove(place)?;
        value_of(word, name)
    }

    /// Takes the number that a name has, or the usual one.
    pub fn number<T: FromStr>(&mut self, name: &str, usual: T) -> Result<T>
    where
        T: Drop,
        T::Err: Drop,
    {
        match self.take(name) {
            Some(word) => number_of(word),
            None => Ok(usual),
        }
    }

    /// Takes the bytes that a name has, or none.
    pub fn bytes(&mut self, alloc: Global, name: &str) -> Result<Vec<u8>> {
        match self.take(name) {
            Some(word) => bytes_of(alloc, word),
            None => Ok(Vec::new(alloc)),
        }
    }

    /// Takes a stack, the bottom first: `[1 2 ?]`; in `[7*40]` a cell is repeated.
    pub fn stack(&mut self, alloc: Global) -> Result<Vec<Cell>> {
        let mut stack = Vec::new(alloc);
        let first = self.next()?.strip_prefix('[');
        let mut word = first.context("a stack is missing")?;
        for _ in 0..MOST_TIMES {
            if let Some(last) = word.strip_suffix(']') {
                if !last.is_empty() {
                    push_cells(&mut stack, last)?;
                }
                return Ok(stack);
            }
            push_cells(&mut stack, word)?;
            word = self.next()?;
        }
        Err(anyhow!("a stack without an end"))
    }
}
