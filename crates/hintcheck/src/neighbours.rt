//! The instructions around an offset of a program at which none begins.

ghost use Rattle.std.specs.Prelude.{◌<◌, ◌^◌, length};

use crate::asked_site::begins_instruction;
use std::fmt;
use tt_code::name;

/// An instruction of a program: where it begins, and its code.
#[derive(Clone, Copy)]
pub struct Neighbour {
    offset: u32,
    code: u8,
}

/// Returns the name of the code, `?` where it has none.
fn name_of(code: u8) -> &'static str {
    match name(code) {
        Some(name) => name,
        None => "?",
    }
}

impl fmt::Display for Neighbour {
    fn fmt<W: fmt::Write>(&self, f: &mut fmt::Formatter<W>) -> fmt::Result {
        let offset = self.offset;
        let name = name_of(self.code);
        write!(f, "{offset} {name}")
    }
}

/// What is around an offset of a program at which no instruction begins. Its text follows another
/// one.
#[derive(Clone, Copy)]
pub enum Neighbours {
    /// The last instruction before it, and the first one after it.
    Between(Neighbour, Neighbour),
    /// The program's last instruction, which begins before it.
    Behind(Neighbour),
    /// Nothing: the program has no instruction.
    Nowhere,
}

impl fmt::Display for Neighbours {
    fn fmt<W: fmt::Write>(&self, f: &mut fmt::Formatter<W>) -> fmt::Result {
        match self {
            Neighbours::Between(before, after) => write!(f, ": {before}, {after}"),
            Neighbours::Behind(before) => write!(f, ": {before}"),
            Neighbours::Nowhere => Ok(()),
        }
    }
}

/// Returns the instruction that begins at the offset, if one does.
fn neighbour_at(program: &[u8], offset: u32) -> Option<Neighbour>
    requires { length program.now < 2 ^ 31 }
{
    if !begins_instruction(program, offset) {
        return None;
    }
    let code = *program.get(offset as usize)?;
    Some(Neighbour { offset, code })
}

/// Returns the last instruction that begins before the offset, if one does.
fn last_before(program: &[u8], offset: u32) -> Option<Neighbour>
    requires { length program.now < 2 ^ 31 }
{
    let mut at = offset.min(program.len() as u32);
    while at > 0 {
        at -= 1;
        if let Some(found) = neighbour_at(program, at) {
            return Some(found);
        }
    }
    None
}

/// Returns the first instruction that begins after the offset, if one does.
fn first_after(program: &[u8], offset: u32) -> Option<Neighbour>
    requires { length program.now < 2 ^ 31 }
{
    let mut at = offset;
    while (at as usize) < program.len() {
        at += 1;
        if let Some(found) = neighbour_at(program, at) {
            return Some(found);
        }
    }
    None
}

/// Returns what is around the offset, at which no instruction of the program begins. An instruction
/// has at most 512 bytes, so that few offsets are looked at.
pub(crate) fn neighbours_of(program: &[u8], offset: u32) -> Neighbours
    requires { length program.now < 2 ^ 31 }
{
    let Some(before) = last_before(program, offset) else {
        return Neighbours::Nowhere;
    };
    match first_after(program, offset) {
        Some(after) => Neighbours::Between(before, after),
        None => Neighbours::Behind(before),
    }
}
