//! The one pass over a program's instructions that finds its structure (Apple TrueType Reference
//! Manual, "Managing the flow of control").

ghost use Rattle.std.specs.Prelude.{◌≡◌, List, [], ◌∷◌, ◌++◌, ◌+◌, ◌<◌, ◌≤◌, ◌^◌, length, Ok, true, false, IfOk};
ghost use Rattle.std.specs.Vec.{vec_capacity};
ghost use Rattle.tt_code.specs.Cut.{Instruction, IsInstruction};
ghost use Rattle.tt_code.specs.Grammar.{CanGoOn};

use crate::machine::Body;
use crate::nest::{Nesting, Open, apply_keyword, next_body};
use crate::slot::Slot;
use crate::table::keyword_of_code;
use std::alloc::{AllocError, Global};

/// What is kept while a program is read.
#[derive(Drop)]
pub struct Reading {
    /// What is open, the innermost last.
    pub stack: Vec<Open>,
    /// The body of the next instruction.
    pub body: Body,
    /// A slot for each byte so far.
    pub slots: Vec<Slot>,
}

impl Reading {
    ghost use Rattle.tt_code.specs.Representation.Slots.{IsReading};

    /// Makes the state before anything is read, with room for the slots of `size` bytes.
    ///
    /// # Errors
    /// If memory runs out.
    pub fn new(alloc: Global, size: usize) -> Result<Reading, AllocError>
        ensures start { IfOk result (IsReading []) }
        ensures room { IfOk result (λ r. size ≤ vec_capacity r.slots) }
    {
        Ok(Reading {
            stack: Vec::new(alloc),
            body: Body::Main,
            slots: Vec::with_capacity(alloc, size)?,
        })
    }

    /// Reads the next instruction, if it is allowed here, and returns whether it is. If it isn't,
    /// what is kept afterwards is unspecified.
    ///
    /// # Errors
    /// If memory runs out; then what is kept is unspecified.
    pub fn read(&mut self, instruction: &[u8]) -> Result<bool, AllocError>
        requires whole { IsInstruction instruction.now }
        requires short { length instruction.now < 2 ^ 16 }
        requires fits { length self.old.slots.items + length instruction.now < 2 ^ 31 }
        requires so_far { (p : List Instruction) × IsReading p self.old }
        ensures stands { result ≡ Ok true → (p : List Instruction) → IsReading p self.old →
            IsReading (p ++ instruction.now ∷ []) self.new }
        ensures refused { result ≡ Ok false → (p : List Instruction) → IsReading p self.old →
            CanGoOn (p ++ instruction.now ∷ []) → ⊥ }
    {
        let offset = self.slots.len() as u32;
        let end = offset + instruction.len() as u32;
        let keyword = keyword_of_code(instruction[0]);
        let slot = Slot::start(instruction.len() as u16, self.body);
        match apply_keyword(&mut self.stack, keyword, offset, self.body)? {
            Nesting::Refused => return Ok(false),
            Nesting::Passed => {}
            Nesting::Closed(opener) => self.slots[opener as usize].target = end,
        }
        self.body = next_body(self.body, keyword, offset);
        self.slots.push(slot)?;
        self.slots.resize(end as usize, Slot::inside())?;
        Ok(true)
    }
}
