//! The instructions that push data.

ghost use Rattle.std.specs.Prelude.{◌≡◌, OnOk, map, pos};
ghost use Rattle.tt_code.specs.Computing.{numbers_in, word_number, words};
ghost use Rattle.tt_symbolic_cells.specs.Stacking.{PutsNumbers};

use std::alloc::AllocError;
use tt_code::kinds::Push;
use tt_symbolic_state::cell::known;
use tt_symbolic_state::stack::Stack;

/// Returns the signed word of two bytes.
fn word_of(high: u8, low: u8) -> i32
    ensures { result ≡ word_number high low }
{
    let number = 256 * i32::from(high) + i32::from(low);
    if high < 128 { number } else { number - 65536 }
}

/// Puts bytes on top, one after the other.
fn push_bytes(stack: &mut Stack, bytes: &[u8]) -> Result<(), AllocError>
    ensures { OnOk result (PutsNumbers (map pos bytes.now) stack.old stack.new) }
{
    for byte in bytes {
        stack.push(known(i32::from(*byte)))?;
    }
    Ok(())
}

/// Puts words of two bytes on top, one after the other.
fn push_words(stack: &mut Stack, bytes: &[u8]) -> Result<(), AllocError>
    ensures { OnOk result (PutsNumbers (words bytes.now) stack.old stack.new) }
{
    let mut rest = bytes;
    while let [high, low, after @ ..] = rest {
        stack.push(known(word_of(*high, *low)))?;
        rest = after;
    }
    Ok(())
}

/// Puts the numbers on top that the data of a push instruction spell.
pub fn push_data(stack: &mut Stack, push: Push, bytes: &[u8]) -> Result<(), AllocError>
    ensures { OnOk result (PutsNumbers (numbers_in push bytes.now) stack.old stack.new) }
{
    match push {
        Push::CountedBytes => push_bytes(stack, bytes),
        Push::Bytes(_) => push_bytes(stack, bytes),
        Push::CountedWords => push_words(stack, bytes),
        Push::Words(_) => push_words(stack, bytes),
    }
}
