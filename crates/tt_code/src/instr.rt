//! One instruction of a program (Apple TrueType Reference Manual, "The TrueType instruction set").

ghost use Rattle.std.specs.Prelude.{◌≡◌, ℕ, List, Some, length};
ghost use Rattle.tt_code.specs.Cut.{code_of, data_of};
ghost use Rattle.tt_code.specs.Representation.Laid.{IsHeld};

use crate::kinds::{Effect, Push};
use crate::table::entry;
use std::marker::Model;

/// An instruction: its code, followed by the data of a push instruction. Contracts see its bytes.
#[derive(Drop)]
pub struct Instr<'a> {
    /// All bytes of the instruction.
    bytes: &'a [u8],
}

impl<'a> Model for Instr<'a> {
    ghost Value = { List ℕ };

    ghost view = { λ i. i.bytes.now };

    ghost invariant = { λ i. IsHeld i.bytes.now };
}

impl<'a> Instr<'a> {
    /// Makes the instruction of these bytes.
    pub(crate) fn new(bytes: &'a [u8]) -> Self
        requires { IsHeld bytes.now }
        ensures { result ≡ bytes.entry.now }
    {
        Instr { bytes }
    }

    /// Returns the instruction's code.
    pub fn code(&self) -> u8
        ensures { code_of self.now ≡ Some result }
    {
        match self.bytes {
            [] => unreachable!(),
            [code, ..] => *code,
        }
    }

    /// Returns how many bytes the instruction has.
    pub fn len(&self) -> u32
        ensures { result ≡ length self.now }
    {
        self.bytes.len() as u32
    }

    /// Returns all bytes of the instruction.
    pub fn bytes(&self) -> &'a [u8]
        ensures { result.now ≡ self.now }
    {
        self.bytes
    }

    /// Returns what a push instruction pushes, as bytes or words of two bytes; empty for every
    /// other instruction.
    pub fn data(&self) -> &'a [u8]
        ensures { result.now ≡ data_of self.now }
    {
        match self.bytes {
            [code, rest @ ..] => match entry(*code) {
                Effect::Push(Push::CountedBytes | Push::CountedWords) => &rest[1..],
                _ => rest,
            },
            [] => unreachable!(),
        }
    }
}
