//! Cases of programs: whether their bytes can be cut, and what starts at an offset.

use crate::context::Context;
use crate::words::Words;
use anyhow::{Result, ensure};
use std::alloc::Global;
use tt_code::{Body, CodeFault, Program};

/// How many bytes a program may have.
const MOST_BYTES: usize = 1_000_000;

/// Cuts a program.
pub(crate) fn cut(alloc: Global, bytes: &[u8]) -> Result<Program<'_>> {
    ensure!(bytes.len() <= MOST_BYTES, "a program that is too long");
    Ok(Program::cut(alloc, bytes)?)
}

/// The bytes of a font program, of a CVT program and of a glyph program.
pub(crate) struct Bytes {
    pub(crate) font: Vec<u8>,
    pub(crate) prep: Vec<u8>,
    pub(crate) glyph: Vec<u8>,
}

// Written out, so that who holds bytes proves in one step that its memory is given back.
impl Drop for Bytes {
    fn drop(self) {
        let Bytes { font, prep, glyph } = self;
        drop(font);
        drop(prep);
        drop(glyph);
    }
}

/// Takes the bytes that the words give after `f=`, `p=` and `g=`.
pub(crate) fn bytes_given(alloc: Global, words: &mut Words<'_>) -> Result<Bytes> {
    Ok(Bytes {
        font: words.bytes(alloc, "f")?,
        prep: words.bytes(alloc, "p")?,
        glyph: words.bytes(alloc, "g")?,
    })
}

/// A font program, a CVT program and a glyph program.
pub(crate) struct Programs<'a> {
    pub(crate) font: Program<'a>,
    pub(crate) prep: Program<'a>,
    pub(crate) glyph: Program<'a>,
}

// Written out, so that who holds programs proves in one step that its memory is given back.
impl<'a> Drop for Programs<'a> {
    fn drop(self) {
        let Programs { font, prep, glyph } = self;
        drop(font);
        drop(prep);
        drop(glyph);
    }
}

/// Cuts a font program, a CVT program and a glyph program.
pub(crate) fn cut_all<'a>(
    alloc: Global,
    font: &'a [u8],
    prep: &'a [u8],
    glyph: &'a [u8],
) -> Result<Programs<'a>> {
    Ok(Programs {
        font: cut(alloc, font)?,
        prep: cut(alloc, prep)?,
        glyph: cut(alloc, glyph)?,
    })
}

/// `cut PROGRAM`: whether it can be cut.
pub(crate) fn cut_text(context: &Context<'_>, words: &mut Words<'_>) -> Result<String> {
    let alloc = context.rt.alloc();
    let bytes = words.next_bytes(alloc)?;
    ensure!(bytes.len() <= MOST_BYTES, "a program that is too long");
    let text = match Program::cut(alloc, &bytes) {
        Ok(_) => String::from_str(alloc, "good"),
        Err(CodeFault::CannotCut(offset)) => format!(in alloc; "20 at {offset}"),
        Err(CodeFault::Structure(offset)) => format!(in alloc; "21 at {offset}"),
        Err(CodeFault::OutOfMemory(_)) => String::from_str(alloc, "9"),
    };
    Ok(text?)
}

/// Adds the targets of an instruction, each after its name.
fn show_targets(text: &mut String, program: &Program<'_>, offset: u32) -> Result<()> {
    for (name, target) in [
        ("if", program.after_if(offset)),
        ("else", program.after_else(offset)),
        ("fdef", program.after_fdef(offset)),
    ] {
        if let Some(target) = target {
            write!(text, ", {name} {target}")?;
        }
    }
    Ok(())
}

/// Adds the body that an instruction belongs to.
fn show_body(text: &mut String, body: Option<Body>) -> Result<()> {
    let shown = match body {
        Some(Body::Main) => write!(text, ", main"),
        Some(Body::Function(start)) => write!(text, ", function {start}"),
        Some(Body::Instruction(start)) => write!(text, ", instruction {start}"),
        None => write!(text, ", no body"),
    };
    Ok(shown?)
}

/// Ensures that the instruction and the body found together at an offset are those found there one
/// by one.
fn ensure_found(program: &Program<'_>, offset: u32) -> Result<()> {
    let (found, body) = match program.found_at(offset) {
        Some((instruction, body)) => (Some(instruction.len()), Some(body)),
        None => (None, None),
    };
    let length = program.at(offset).map(|instruction| instruction.len());
    ensure!(found == length, "found_at tells another length");
    ensure!(
        body == program.body_at(offset),
        "found_at tells another body"
    );
    Ok(())
}

/// Adds what a program has at an offset.
fn show_at(text: &mut String, program: &Program<'_>, offset: u32) -> Result<()> {
    let shown = match program.at(offset) {
        Some(instruction) => write!(text, "{} of {}", instruction.len(), program.len()),
        None => write!(text, "none of {}", program.len()),
    };
    shown?;
    show_targets(text, program, offset)?;
    show_body(text, program.body_at(offset))?;
    ensure_found(program, offset)
}

/// `at OFFSET PROGRAM`: how long the instruction there is, where control goes from it, and to which
/// body it belongs.
pub(crate) fn at(context: &Context<'_>, words: &mut Words<'_>) -> Result<String> {
    let alloc = context.rt.alloc();
    let offset = words.next_number()?;
    let bytes = words.next_bytes(alloc)?;
    let program = cut(alloc, &bytes)?;
    let mut text = String::new(alloc);
    show_at(&mut text, &program, offset)?;
    Ok(text)
}
