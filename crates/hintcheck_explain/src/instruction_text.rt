//! Instructions as they are printed: the name, and what a push instruction pushes.

use crate::describing::write_more;
use std::fmt;
use tt_code::kinds::{Effect, Push};
use tt_code::{entry, name};

/// How many numbers of a push instruction are printed.
const SHOWN_NUMBERS: usize = 12;

/// Returns how many numbers the data of a push instruction spell.
pub(crate) fn count_of_data(push: Push, data: &[u8]) -> usize {
    match push {
        Push::CountedBytes | Push::Bytes(_) => data.len(),
        Push::CountedWords | Push::Words(_) => data.len() / 2,
    }
}

/// Returns the data of a push instruction, of the bytes after its code.
fn data_of(push: Push, rest: &[u8]) -> &[u8] {
    match push {
        Push::CountedBytes | Push::CountedWords => rest.get(1..).unwrap_or(&[]),
        Push::Bytes(_) | Push::Words(_) => rest,
    }
}

/// Returns the number at this index among those that the data of a push instruction spell.
fn number_of_data(push: Push, data: &[u8], index: usize) -> Option<i32> {
    match push {
        Push::CountedBytes | Push::Bytes(_) => Some(i32::from(*data.get(index)?)),
        Push::CountedWords | Push::Words(_) => match data.get(index.checked_mul(2)?..)? {
            [high, low, ..] => Some(i32::from(i16::from_be_bytes([*high, *low]))),
            _ => None,
        },
    }
}

/// Returns the name of the instruction with this code: `?` where the instruction set has none.
pub(crate) fn name_of(code: u8) -> &'static str {
    name(code).unwrap_or("?")
}

/// An instruction that is looked for: by its name, and where it pushes, by the one number that it pushes.
#[derive(Clone, Copy)]
pub(crate) enum Sought {
    /// An instruction with this name that is one byte.
    Plain(&'static str),
    /// A push instruction with this name that pushes this number alone.
    Push(&'static str, i32),
}

/// Returns the number that these bytes push, if they are a push instruction that pushes just one.
fn only_number(bytes: &[u8]) -> Option<i32> {
    let [code, rest @ ..] = bytes else {
        return None;
    };
    let Effect::Push(push) = entry(*code) else {
        return None;
    };
    let data = data_of(*push, rest);
    if count_of_data(*push, data) == 1 {
        number_of_data(*push, data, 0)
    } else {
        None
    }
}

/// Whether these bytes are the instruction that is looked for.
pub(crate) fn is_sought(bytes: &[u8], sought: Sought) -> bool {
    let code = bytes.first().copied().unwrap_or(0);
    match sought {
        Sought::Plain(called) => name_of(code) == called && bytes.len() == 1,
        Sought::Push(called, number) => {
            name_of(code) == called && only_number(bytes) == Some(number)
        }
    }
}

/// Writes the numbers that a push instruction pushes.
fn write_data<W: fmt::Write>(push: Push, data: &[u8], f: &mut fmt::Formatter<W>) -> fmt::Result {
    for index in 0..SHOWN_NUMBERS {
        let Some(number) = number_of_data(push, data, index) else {
            break;
        };
        write!(f, " {number}")?;
    }
    write_more(" ", count_of_data(push, data), SHOWN_NUMBERS, f)
}

/// An instruction by its bytes.
#[derive(Clone, Copy)]
pub(crate) struct InstructionText<'a>(pub &'a [u8]);

impl fmt::Display for InstructionText<'_> {
    fn fmt<W: fmt::Write>(&self, f: &mut fmt::Formatter<W>) -> fmt::Result {
        let [code, rest @ ..] = self.0 else {
            return Ok(());
        };
        match entry(*code) {
            Effect::NoEntry => write!(f, "? (code 0x{code:02x})"),
            Effect::Push(push) => {
                f.write_str(name_of(*code))?;
                write_data(*push, data_of(*push, rest), f)
            }
            _ => f.write_str(name_of(*code)),
        }
    }
}

/// Returns how many bytes the instruction has that the bytes begin with, by its code and its count.
pub(crate) fn length_by_code(bytes: &[u8]) -> usize {
    let [code, rest @ ..] = bytes else {
        return 1;
    };
    let count = usize::from(rest.first().copied().unwrap_or(0));
    match entry(*code) {
        Effect::Push(Push::CountedBytes) => 2 + count,
        Effect::Push(Push::CountedWords) => 2 + 2 * count,
        Effect::Push(Push::Bytes(data)) => 1 + usize::from(*data),
        Effect::Push(Push::Words(data)) => 1 + 2 * usize::from(*data),
        _ => 1,
    }
}
