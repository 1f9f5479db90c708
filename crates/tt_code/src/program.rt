//! Programs cut into their instructions, and their structure (Apple TrueType Reference Manual,
//! "Instructions", "Managing the flow of control", "Defining and using functions and
//! instructions").

ghost use Rattle.std.specs.Prelude.{◌≡◌, ℕ, ◌+◌, ◌^◌, ◌<◌, ◌≤◌, ◌⊎◌, List, length, Err, Some, IfOk, IfErr, IfSome, IfNone, option_map};
ghost use Rattle.std.specs.List.{AllByRecursion};
ghost use Rattle.tt_code.specs.Cut.{CanBeCut, CannotBeCut, Instruction, IsCut, instruction_at, size};
ghost use Rattle.tt_code.specs.Faults.{IsMemory, IsMisnested};
ghost use Rattle.tt_code.specs.Grammar.{GoesTo, HasFault, IsBodyAt, IsStructured, NoKeywordAt, NoInstructionAt, IsInstructionAt};
ghost use Rattle.tt_code.specs.Representation.Slots.{IsKept, IsReading, Opens, kept};
ghost use Rattle.tt_code.specs.Structure.{body_at as body_on_cut, leads};

use crate::block_keyword::BlockKeyword;
use crate::fault::CodeFault;
use crate::instr::Instr;
use crate::instruction_length::{first_uncut, front_length};
use crate::machine::Body;
use crate::reading::Reading;
use crate::slot::{Slot, start_at, target_of};
use crate::table::keyword_of_code;
use std::alloc::Global;
use std::marker::Model;

/// Returns how many bytes there are.
fn byte_count(bytes: &[u8]) -> u32
    requires { length bytes.now < 2 ^ 31 }
    ensures value { result ≡ length bytes.now }
    ensures bytes { AllByRecursion (λ b. b < 256) bytes.now }
{
    bytes.len() as u32
}

/// Reads the structure of a program that can be cut.
///
/// # Errors
/// `Structure` with the offset of the first instruction that isn't allowed where it is;
/// `OutOfMemory`.
fn read_all(alloc: Global, bytes: &[u8]) -> Result<Reading, CodeFault>
    requires small { length bytes.now < 2 ^ 31 }
    requires cut { CanBeCut bytes.now }
    ensures ok { IfOk result (λ r. (is : List Instruction) × IsCut bytes.now is × IsReading is r) }
    ensures err { IfErr result (λ e. IsMemory e ⊎ IsMisnested bytes.now e) }
{
    let mut reading = Reading::new(alloc, bytes.len()).map_err(CodeFault::OutOfMemory)?;
    let mut rest = bytes;
    while !rest.is_empty() {
        let Some(n) = front_length(rest) else {
            unreachable!()
        };
        let (instruction, after) = rest.split_at(usize::from(n));
        if !reading.read(instruction).map_err(CodeFault::OutOfMemory)? {
            return Err(CodeFault::Structure((bytes.len() - rest.len()) as u32));
        }
        rest = after;
    }
    Ok(reading)
}

/// A program: its bytes, where its instructions start, and their structure. Contracts see the list
/// of its instructions.
pub struct Program<'a> {
    /// The bytes of the program.
    bytes: &'a [u8],
    /// A slot for each byte.
    slots: Vec<Slot>,
}

// Written out, so that who holds a program proves in one step that its memory is given back.
impl<'a> Drop for Program<'a> {
    fn drop(self) {
        let Program { bytes: _, slots } = self;
        drop(slots);
    }
}

impl<'a> Model for Program<'a> {
    ghost Value = { List Instruction };

    ghost view = { λ p. kept p.slots.items p.bytes.now };

    ghost invariant = { λ p. IsKept p.slots.items p.bytes.now };
}

impl<'a> Program<'a> {
    /// Cuts a program of at most 2^31 - 1 bytes into its instructions and finds its structure
    /// (Apple TrueType Reference Manual, "Instructions", "Managing the flow of control", "Defining
    /// and using functions and instructions").
    ///
    /// # Errors
    /// `CannotCut` where an instruction passes the end, with the instruction's offset, whatever the
    /// structure is and however little memory there is; `Structure` with the offset of the first
    /// instruction that isn't allowed where it is, or with the program's length where something is
    /// left open; `OutOfMemory`.
    pub fn cut(alloc: Global, bytes: &'a [u8]) -> Result<Program<'a>, CodeFault>
        requires { length bytes.now < 2 ^ 31 }
        ensures ok { IfOk result (λ p. IsCut bytes.entry.now p) }
        ensures structured { IfOk result IsStructured }
        ensures refused { (offset : ℕ) → result ≡ Err (CodeFault.CannotCut offset) →
            CannotBeCut bytes.entry.now offset }
        ensures unstructured { (offset : ℕ) → result ≡ Err (CodeFault.Structure offset) →
            HasFault bytes.entry.now offset }
        ensures only { (is : List Instruction) → IsCut bytes.entry.now is → IsStructured is →
            IfErr result IsMemory }
        ensures memory { IfErr result (λ e. IsMemory e → CanBeCut bytes.entry.now) }
    {
        if let Some(offset) = first_uncut(bytes) {
            return Err(CodeFault::CannotCut(offset));
        }
        let reading = read_all(alloc, bytes)?;
        if !reading.stack.is_empty() {
            return Err(CodeFault::Structure(bytes.len() as u32));
        }
        Ok(Program {
            bytes,
            slots: reading.slots,
        })
    }

    /// Returns how many bytes the program has, at most 2^31 - 1.
    pub fn len(&self) -> u32
        ensures value { result ≡ size self.now }
        ensures small { result < 2 ^ 31 }
        ensures bytes { AllByRecursion (AllByRecursion (λ b. b < 256)) self.now }
    {
        byte_count(self.bytes)
    }

    /// Returns the instruction that starts at the offset, if one does.
    pub fn at(&self, offset: u32) -> Option<Instr<'a>>
        ensures value { result ≡ instruction_at self.now offset }
        ensures within { IfSome result (λ i. offset + length i ≤ size self.now) }
        ensures found { IfSome result (IsInstructionAt self.now offset) }
        ensures none { IfNone result (NoInstructionAt self.now offset) }
    {
        let (instruction, _) = self.found_at(offset)?;
        Some(instruction)
    }

    /// Returns the target that is kept for the instruction at the offset, if one with this keyword,
    /// which opens something, starts there.
    fn look_up(&self, opener: BlockKeyword, offset: u32) -> Option<u32>
        requires { Opens opener }
        ensures found { IfSome result (GoesTo opener self.now offset) }
        ensures only { (to : ℕ) → GoesTo opener self.now offset to → result ≡ Some to }
        ensures none { IfNone result (NoKeywordAt opener self.now offset) }
    {
        let target = target_of(&self.slots, offset)?;
        let instruction = self.at(offset)?;
        if keyword_of_code(instruction.code()) == opener {
            Some(target)
        } else {
            None
        }
    }

    /// Returns where the instruction at the offset leads, if one with this keyword, which opens
    /// something, starts there.
    fn goes(&self, opener: BlockKeyword, offset: u32) -> Option<u32>
        requires { Opens opener }
        ensures value { result ≡ leads opener self.now offset }
        ensures found { IfSome result (GoesTo opener self.now offset) }
        ensures only { (to : ℕ) → GoesTo opener self.now offset to → result ≡ Some to }
        ensures none { IfNone result (NoKeywordAt opener self.now offset) }
    {
        // The slots' invariant holds where they are read: the proof of `value` needs it here.
        let _slots = &self.slots;
        self.look_up(opener, offset)
    }

    /// Returns where the IF at the offset goes if it takes 0: to just after its ELSE, or without
    /// one just after its EIF (Apple TrueType Reference Manual, IF). None where no IF starts at the
    /// offset.
    pub fn after_if(&self, offset: u32) -> Option<u32>
        ensures value { result ≡ leads BlockKeyword.If self.now offset }
        ensures found { IfSome result (GoesTo BlockKeyword.If self.now offset) }
        ensures only { (to : ℕ) → GoesTo BlockKeyword.If self.now offset to → result ≡ Some to }
        ensures none { IfNone result (NoKeywordAt BlockKeyword.If self.now offset) }
    {
        self.goes(BlockKeyword::If, offset)
    }

    /// Returns where the ELSE at the offset goes when it is reached: to just after its EIF (Apple
    /// TrueType Reference Manual, ELSE). None where no ELSE starts at the offset.
    pub fn after_else(&self, offset: u32) -> Option<u32>
        ensures value { result ≡ leads BlockKeyword.Else self.now offset }
        ensures found { IfSome result (GoesTo BlockKeyword.Else self.now offset) }
        ensures only { (to : ℕ) → GoesTo BlockKeyword.Else self.now offset to → result ≡ Some to }
        ensures none { IfNone result (NoKeywordAt BlockKeyword.Else self.now offset) }
    {
        self.goes(BlockKeyword::Else, offset)
    }

    /// Returns where the FDEF at the offset goes: to just after its ENDF (Apple TrueType Reference
    /// Manual, FDEF). None where no FDEF starts at the offset.
    pub fn after_fdef(&self, offset: u32) -> Option<u32>
        ensures value { result ≡ leads BlockKeyword.Fdef self.now offset }
        ensures found { IfSome result (GoesTo BlockKeyword.Fdef self.now offset) }
        ensures only { (to : ℕ) → GoesTo BlockKeyword.Fdef self.now offset to → result ≡ Some to }
        ensures none { IfNone result (NoKeywordAt BlockKeyword.Fdef self.now offset) }
    {
        self.goes(BlockKeyword::Fdef, offset)
    }

    /// Returns the body of the instruction that starts at the offset, if one does.
    pub fn body_at(&self, offset: u32) -> Option<Body>
        ensures value { result ≡ body_on_cut self.now offset }
        ensures found { IfSome result (λ b.
            ((i : Instruction) × IsInstructionAt self.now offset i) × IsBodyAt self.now offset b) }
        ensures only { (i : Instruction) (b : Body) →
            IsInstructionAt self.now offset i → IsBodyAt self.now offset b → result ≡ Some b }
        ensures none { IfNone result (NoInstructionAt self.now offset) }
    {
        let (_, body) = self.found_at(offset)?;
        Some(body)
    }

    /// Returns the instruction that starts at the offset, with its body, if one does: what `at` and
    /// `body_at` return, by one look-up.
    pub fn found_at(&self, offset: u32) -> Option<(Instr<'a>, Body)>
        ensures instruction { option_map (λ found. found.0) result ≡
            instruction_at self.now offset }
        ensures body { option_map (λ found. found.1) result ≡ body_on_cut self.now offset }
        ensures within { IfSome result (λ found. offset + length found.0 ≤ size self.now) }
        ensures found { IfSome result (λ found.
            IsInstructionAt self.now offset found.0 × IsBodyAt self.now offset found.1) }
        ensures only { (i : Instruction) (b : Body) →
            IsInstructionAt self.now offset i → IsBodyAt self.now offset b → result ≡ Some (i, b) }
        ensures none { IfNone result (NoInstructionAt self.now offset) }
    {
        let (n, body) = start_at(&self.slots, offset)?;
        let start = offset as usize;
        let instruction = Instr::new(&self.bytes[start..start + usize::from(n)]);
        Some((instruction, body))
    }
}
