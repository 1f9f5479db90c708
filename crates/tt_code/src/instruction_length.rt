//! Where one instruction ends: at its code, or at the last of its data (Apple TrueType Reference
//! Manual, "Pushing data onto the interpreter stack").

ghost use Rattle.std.specs.Prelude.{◌≡◌, ◌≤◌, ◌<◌, ◌^◌, length, IfSome, IfNone};
ghost use Rattle.tt_code.specs.Cut.{CanBeCut, CannotBeCut, IsInstructionInFront, NoInstructionInFront, data_length};
ghost use Rattle.tt_code.specs.Entries.{view};

use crate::kinds::{Effect, Push};
use crate::table::entry;

/// Returns how many bytes follow the code of an instruction, a count byte included; None where the
/// count byte is missing.
fn data_length_of(effect: &Effect, rest: &[u8]) -> Option<u16>
    ensures value { result ≡ data_length (view effect.now) rest.now }
    ensures small { IfSome result (λ n. n ≤ 511) }
{
    match effect {
        Effect::Push(Push::CountedBytes) => Some(1 + u16::from(*rest.first()?)),
        Effect::Push(Push::CountedWords) => Some(1 + 2 * u16::from(*rest.first()?)),
        Effect::Push(Push::Bytes(n)) => Some(u16::from(*n)),
        Effect::Push(Push::Words(n)) => Some(2 * u16::from(*n)),
        _ => Some(0),
    }
}

/// Returns the length of the instruction at the front of the bytes; None where it passes their end,
/// or where there are no bytes.
pub fn front_length(bytes: &[u8]) -> Option<u16>
    ensures found { IfSome result (IsInstructionInFront bytes.now) }
    ensures none { IfNone result (NoInstructionInFront bytes.now) }
{
    let (code, rest) = bytes.split_first()?;
    let count = data_length_of(entry(*code), rest)?;
    if usize::from(count) <= rest.len() {
        Some(count + 1)
    } else {
        None
    }
}

/// Returns the offset of the instruction that passes the end of the bytes, if there is one.
pub fn first_uncut(bytes: &[u8]) -> Option<u32>
    requires { length bytes.now < 2 ^ 31 }
    ensures cut { IfNone result (CanBeCut bytes.now) }
    ensures uncut { IfSome result (CannotBeCut bytes.now) }
{
    let mut rest = bytes;
    while !rest.is_empty() {
        match front_length(rest) {
            None => return Some((bytes.len() - rest.len()) as u32),
            Some(n) => {
                let (_, after) = rest.split_at(usize::from(n));
                rest = after;
            }
        }
    }
    None
}
