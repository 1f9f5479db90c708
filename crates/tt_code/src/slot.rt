//! What is kept of each byte of a program: of an instruction that starts there, its length, body
//! and target (Apple TrueType Reference Manual, "Managing the flow of control", "Defining and using
//! functions and instructions").

ghost use Rattle.std.specs.Prelude.{◌≡◌, ◌<◌, Some, None, IfNone, IfSome, option_map, slice_index};
ghost use Rattle.tt_code.specs.Representation.Slots.{bodies, body_found, body_in, inside, lengths, target_found, target_in, targets};

use crate::machine::Body;

/// The kind of body that an instruction belongs to.
#[derive(Clone, Copy)]
pub enum BodyKind {
    /// The main program.
    Main,
    /// The body of a function.
    Function,
    /// What follows an IDEF.
    Instruction,
}

/// What is kept of one byte of a program.
#[derive(Clone, Copy)]
pub struct Slot {
    /// Where the instruction that starts here leads, if it opens something: to just after what ends
    /// that. Otherwise 0.
    pub target: u32,
    /// The offset of the first instruction of its body; 0 in the main program.
    pub first: u32,
    /// How many bytes the instruction has; 0 where none starts.
    pub length: u16,
    /// The kind of its body.
    pub kind: BodyKind,
}

const _: () = prove!(size_of::<Slot>() == 12);

impl Slot {
    /// Makes the slot of a byte inside an instruction.
    pub fn inside() -> Slot
        ensures { result ≡ inside }
    {
        Slot {
            target: 0,
            first: 0,
            length: 0,
            kind: BodyKind::Main,
        }
    }

    /// Makes the slot of the first byte of an instruction of this length, in a body.
    pub fn start(length: u16, body: Body) -> Slot
        requires { 0 < length }
        ensures length { result.length ≡ length }
        ensures body { body_in result ≡ Some body }
        ensures target { target_in result ≡ None }
    {
        let (kind, first) = match body {
            Body::Main => (BodyKind::Main, 0),
            Body::Function(first) => (BodyKind::Function, first),
            Body::Instruction(first) => (BodyKind::Instruction, first),
        };
        Slot {
            target: 0,
            first,
            length,
            kind,
        }
    }

    /// Returns the body of the instruction that starts here, if one does.
    pub fn body(self) -> Option<Body>
        ensures { result ≡ body_in self }
    {
        if self.length == 0 {
            return None;
        }
        Some(match self.kind {
            BodyKind::Main => Body::Main,
            BodyKind::Function => Body::Function(self.first),
            BodyKind::Instruction => Body::Instruction(self.first),
        })
    }

    /// Returns where the instruction leads, if it opens something.
    pub fn target(self) -> Option<u32>
        ensures { result ≡ target_in self }
    {
        if self.target == 0 {
            None
        } else {
            Some(self.target)
        }
    }
}

/// Returns how many bytes the instruction at the offset has, and its body, if one starts there.
pub fn start_at(slots: &[Slot], offset: u32) -> Option<(u16, Body)>
    ensures length { IfSome result (λ found.
        0 < found.0 × (found.0 ≡ slice_index (lengths slots.now) offset)) }
    ensures body { option_map (λ found. found.1) result ≡ body_found (bodies slots.now) offset }
    ensures none { IfNone result (slice_index (lengths slots.now) offset ≡ 0) }
{
    let slot = slots.get(offset as usize)?;
    let body = slot.body()?;
    Some((slot.length, body))
}

/// Returns where the instruction at the offset leads, if one starts there and opens something.
pub fn target_of(slots: &[Slot], offset: u32) -> Option<u32>
    ensures { result ≡ target_found (targets slots.now) offset }
{
    slots.get(offset as usize)?.target()
}
