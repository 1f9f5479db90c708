//! The causes for which programs of a font are refused, in lines or as a member of an object.

use super::json_objects::{Shown, json_text};
use super::scan_lines::text_of_class;
use crate::causes::{Cause, causes_of};
use crate::glyph_names::called;
use hintcheck_programs::report::{Name, Place, Refused};
use serde::Serialize;
use std::alloc::{AllocError, Global};
use std::fmt;
use tt_names::GlyphNames;

/// How many of a cause's programs its line names at most.
const NAMED: usize = 5;

/// Where the programs of a cause are refused, of which one is refused at this place.
#[derive(Clone, Copy)]
struct SharedPlace(Place);

impl fmt::Display for SharedPlace {
    fn fmt<W: fmt::Write>(&self, f: &mut fmt::Formatter<W>) -> fmt::Result {
        match self.0.program {
            Name::Font | Name::Cvt => write!(f, "{}", self.0),
            Name::Glyph(_) => f.write_str("in glyph programs"),
        }
    }
}

/// A program, with the name that the font has for its glyph, if it has one.
#[derive(Clone, Copy)]
pub(super) struct Called<'a> {
    program: Name,
    glyph: Option<&'a str>,
}

impl<'a> Called<'a> {
    /// Returns the program with the name that the font has for its glyph.
    pub(super) fn of(names: &GlyphNames<'a>, program: Name) -> Called<'a> {
        Called {
            program,
            glyph: called(names, program),
        }
    }
}

impl fmt::Display for Called<'_> {
    fn fmt<W: fmt::Write>(&self, f: &mut fmt::Formatter<W>) -> fmt::Result {
        let program = self.program;
        match self.glyph {
            Some(name) => write!(f, "{program} ({name})"),
            None => write!(f, "{program}"),
        }
    }
}

/// The programs with commas between them, and with the names that the font has for their glyphs.
#[derive(Clone, Copy)]
struct Programs<'a> {
    names: &'a GlyphNames<'a>,
    programs: &'a [Name],
}

impl fmt::Display for Programs<'_> {
    fn fmt<W: fmt::Write>(&self, f: &mut fmt::Formatter<W>) -> fmt::Result {
        let mut comma = "";
        for &program in self.programs {
            write!(f, "{comma}{}", Called::of(self.names, program))?;
            comma = ", ";
        }
        Ok(())
    }
}

/// Returns the line of a cause.
fn cause_line(alloc: Global, names: &GlyphNames<'_>, cause: &Cause) -> Result<String, AllocError> {
    let programs = cause.programs.as_slice();
    let count = programs.len();
    let word = if count == 1 { "program" } else { "programs" };
    let place = SharedPlace(cause.first.place);
    let reason = cause.first.reason;
    let number = reason.number();
    let class = text_of_class(reason);
    let named = Programs {
        names,
        programs: &programs[..count.min(NAMED)],
    };
    let more = if NAMED < count { ", ..." } else { "" };
    format!(in alloc; "  {count} {word}: {place}: {number} {reason} ({class}): {named}{more}\n")
}

/// Returns the lines of the causes for which programs of the font in these bytes are refused, with
/// the names that the font has for their glyphs.
///
/// # Errors
/// If memory runs out.
pub(super) fn causes_text(
    alloc: Global,
    font: &[u8],
    causes: &[Cause],
) -> Result<String, AllocError> {
    let names = GlyphNames::of(alloc, font)?;
    let mut text = String::new(alloc);
    for cause in causes {
        let line = cause_line(alloc, &names, cause)?;
        text.push_str(&line)?;
    }
    Ok(text)
}

/// A cause, as an object tells it.
#[derive(Drop, Serialize)]
struct CauseObject<'a> {
    /// How many programs are refused for it.
    programs: usize,
    /// The program that holds the place, where it is the font program or the CVT program.
    #[serde(skip_serializing_if = "Option::is_none")]
    place: Option<Shown<Name>>,
    /// The place's offset in that program.
    #[serde(skip_serializing_if = "Option::is_none")]
    offset: Option<u32>,
    /// The reason's number.
    reason: u8,
    class: &'a str,
    /// The first of the programs, at most five.
    first: Vec<Shown<Name>>,
}

/// Returns the object of a cause.
fn cause_object(alloc: Global, cause: &Cause) -> Result<CauseObject<'static>, AllocError> {
    let Place { program, offset } = cause.first.place;
    let is_shared = !matches!(program, Name::Glyph(_));
    let mut first = Vec::new(alloc);
    for name in cause.programs.iter().take(NAMED) {
        first.push(Shown(*name))?;
    }
    Ok(CauseObject {
        programs: cause.programs.len(),
        place: is_shared.then_some(Shown(program)),
        offset: is_shared.then_some(offset),
        reason: cause.first.reason.number(),
        class: text_of_class(cause.first.reason),
        first,
    })
}

/// Returns the member of an object that tells the causes for which these programs are refused, with a
/// comma before it.
///
/// # Errors
/// If memory runs out.
pub(super) fn causes_member(alloc: Global, refused: &[Refused]) -> Result<String, AllocError> {
    let causes = causes_of(alloc, refused)?;
    let mut objects = Vec::new(alloc);
    for cause in &causes {
        objects.push(cause_object(alloc, cause)?)?;
    }
    let text = json_text(alloc, &objects)?;
    format!(in alloc; ",\"causes\":{text}")
}
