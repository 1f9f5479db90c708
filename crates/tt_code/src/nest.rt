//! What is open at a place of a program (Apple TrueType Reference Manual, "Managing the flow of
//! control", "Defining and using functions and instructions").

ghost use Rattle.std.specs.Prelude.{◌≡◌, ◌<◌, ◌-◌, ◌^◌, IfOk, reverse};
ghost use Rattle.tt_code.specs.Representation.Pass.{Applies, body_of, body_after};

use crate::block_keyword::BlockKeyword;
use crate::machine::Body;
use std::alloc::AllocError;

/// What is open, with the offset of the instruction that opened it.
#[derive(Clone, Copy)]
pub enum Open {
    /// An IF without an ELSE so far.
    InIf(u32),
    /// An ELSE.
    InElse(u32),
    /// The definition of a function.
    InFunction(u32),
    /// The definition of an instruction.
    InInstruction(u32),
}

/// What an instruction does to the things that are open.
#[derive(Clone, Copy)]
pub enum Nesting {
    /// It isn't allowed here.
    Refused,
    /// It closes nothing.
    Passed,
    /// It ends what the instruction at this offset opened.
    Closed(u32),
}

/// Applies the keyword of an instruction, which is at an offset and in a body, to what is open, the
/// innermost last. Returns what the instruction does there; where it isn't allowed, what is open
/// afterwards is unspecified.
///
/// # Errors
/// If memory runs out; then what is open is unspecified.
pub fn apply_keyword(
    stack: &mut Vec<Open>,
    keyword: BlockKeyword,
    offset: u32,
    body: Body,
) -> Result<Nesting, AllocError>
    requires { body ≡ body_of (reverse stack.old.items) }
    ensures { IfOk result (λ t.
        Applies t keyword offset (reverse stack.old.items) (reverse stack.new.items)) }
{
    match keyword {
        BlockKeyword::Other => Ok(Nesting::Passed),
        BlockKeyword::If => {
            stack.push(Open::InIf(offset))?;
            Ok(Nesting::Passed)
        }
        BlockKeyword::Else => match stack.pop() {
            Some(Open::InIf(at)) => {
                stack.push(Open::InElse(offset))?;
                Ok(Nesting::Closed(at))
            }
            _ => Ok(Nesting::Refused),
        },
        BlockKeyword::Eif => match stack.pop() {
            Some(Open::InIf(at) | Open::InElse(at)) => Ok(Nesting::Closed(at)),
            _ => Ok(Nesting::Refused),
        },
        BlockKeyword::Fdef => match body {
            Body::Main => {
                stack.push(Open::InFunction(offset))?;
                Ok(Nesting::Passed)
            }
            _ => Ok(Nesting::Refused),
        },
        BlockKeyword::Idef => match body {
            Body::Main => {
                stack.push(Open::InInstruction(offset))?;
                Ok(Nesting::Passed)
            }
            _ => Ok(Nesting::Refused),
        },
        BlockKeyword::Endf => match stack.pop() {
            Some(Open::InFunction(at) | Open::InInstruction(at)) => Ok(Nesting::Closed(at)),
            _ => Ok(Nesting::Refused),
        },
    }
}

/// Returns the body after an instruction at an offset.
pub fn next_body(body: Body, keyword: BlockKeyword, offset: u32) -> Body
    requires { offset < 2 ^ 32 - 1 }
    ensures { result ≡ body_after body keyword offset }
{
    match keyword {
        BlockKeyword::Fdef => Body::Function(offset + 1),
        BlockKeyword::Idef => Body::Instruction(offset + 1),
        BlockKeyword::Endf => Body::Main,
        _ => body,
    }
}
