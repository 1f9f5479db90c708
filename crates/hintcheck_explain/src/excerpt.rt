//! The instructions around a place.

use crate::explored_program::code_of;
use crate::instruction_text::{InstructionText, length_by_code};
use hintcheck_report::Place;
use std::fmt;
use tt_code::Program;
use tt_setting::{Name, Setting};
use tt_symbolic_check::Site;

/// How many instructions are listed.
const LISTED: usize = 8;

/// The bytes of a program whose instructions are listed.
#[derive(Clone, Copy)]
pub(crate) enum Code<'a> {
    /// A program that was cut.
    Cut(&'a Program<'a>),
    /// Bytes that perhaps can't be cut: an instruction that passes their end is listed up to it.
    Uncut(&'a [u8]),
}

impl<'a> Code<'a> {
    /// Returns the bytes of the instruction at an offset.
    fn at(&self, offset: u32) -> Option<&'a [u8]> {
        match *self {
            Code::Cut(program) => Some(program.at(offset)?.bytes()),
            Code::Uncut(bytes) => {
                let rest = bytes.get(offset as usize..)?;
                let length = length_by_code(rest).min(rest.len());
                (length > 0).then_some(rest.get(..length)?)
            }
        }
    }

    /// Returns the offset after the instruction at an offset.
    pub(crate) fn after(&self, offset: u32) -> Option<u32> {
        let bytes = self.at(offset)?;
        offset.checked_add(u32::try_from(bytes.len()).ok()?)
    }
}

/// Returns the offset of the instruction with which a list around an offset begins: four before,
/// if there are that many.
fn start_around(code: Code<'_>, offset: u32) -> u32 {
    // The offsets of the last four instructions, the last one first.
    let mut recent = [0; 4];
    let mut at = 0;
    for _ in 0..offset {
        if at >= offset {
            break;
        }
        let [one, two, three, _] = recent;
        recent = [at, one, two, three];
        match code.after(at) {
            Some(next) => at = next,
            None => break,
        }
    }
    let [_, _, _, fourth] = recent;
    fourth
}

/// The instructions around a place of a program, which is marked.
#[derive(Clone, Copy)]
pub(crate) struct Excerpt<'a> {
    code: Code<'a>,
    place: Place,
}

impl<'a> Excerpt<'a> {
    /// Makes the list of the instructions around a site, seen from the program of this name.
    pub(crate) fn at(program: Name, setting: &Setting<'a>, site: Site) -> Excerpt<'a> {
        let code = Code::Cut(code_of(setting, site.spot));
        Excerpt::around(code, Place::at(program, site.spot, site.offset))
    }

    /// Makes the list of the instructions around a place.
    pub(crate) fn around(code: Code<'a>, place: Place) -> Excerpt<'a> {
        Excerpt { code, place }
    }
}

impl fmt::Display for Excerpt<'_> {
    fn fmt<W: fmt::Write>(&self, f: &mut fmt::Formatter<W>) -> fmt::Result {
        let Place { program, offset } = self.place;
        f.write_str("Instructions around it:")?;
        let mut at = start_around(self.code, offset);
        for _ in 0..LISTED {
            let mark = if at == offset { '>' } else { ' ' };
            let Some(bytes) = self.code.at(at) else {
                if at == offset {
                    write!(f, "\n  {mark} {program}:{at} the program's end")?;
                }
                break;
            };
            write!(f, "\n  {mark} {program}:{at} {}", InstructionText(bytes))?;
            match self.code.after(at) {
                Some(next) => at = next,
                None => break,
            }
        }
        Ok(())
    }
}
