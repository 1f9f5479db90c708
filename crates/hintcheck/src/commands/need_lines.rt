//! What a font needs of the numbers that bound its programs, in a line or as members of an object.

use super::json_objects::json_text;
use hintcheck_fonts::Request;
use hintcheck_needs::{Asked, Need, needs_in};
use hintcheck_words::AskedNeeds;
use serde::Serialize;
use std::alloc::{AllocError, Global};
use std::fmt;
use tt_family::Budget;

/// A need as a line tells it: as `maxStorage 12 of 10`, or as `maxStorage 8 to 12 of 10` where the
/// search for the least number came to an end before.
#[derive(Clone, Copy)]
struct Told<'a>(&'a Need);

impl fmt::Display for Told<'_> {
    fn fmt<W: fmt::Write>(&self, f: &mut fmt::Formatter<W>) -> fmt::Result {
        let Need {
            bound,
            least,
            enough,
            declared,
        } = self.0;
        let name = bound.name();
        if least == enough {
            write!(f, "{name} {least} of {declared}")
        } else {
            write!(f, "{name} {least} to {enough} of {declared}")
        }
    }
}

/// The line of needs: as `needs maxStorage 12 of 10`, or that there is none.
#[derive(Clone, Copy)]
struct NeedsLine<'a>(&'a [Need]);

impl fmt::Display for NeedsLine<'_> {
    fn fmt<W: fmt::Write>(&self, f: &mut fmt::Formatter<W>) -> fmt::Result {
        if self.0.is_empty() {
            return f.write_str("  needs no other number\n");
        }
        let mut before = "  needs ";
        for need in self.0 {
            write!(f, "{before}{}", Told(need))?;
            before = ", ";
        }
        f.write_str("\n")
    }
}

/// A need, as an object tells it.
#[derive(Drop, Serialize)]
struct NeedObject {
    name: &'static str,
    least: u16,
    enough: u16,
    declared: u32,
}

/// Returns which needs of the font in these bytes are asked for, if some are. A search by symbols makes
/// at most ten times the steps of the first verdict; the strict profile's aren't limited.
///
/// # Errors
/// If memory runs out.
fn needs_of(
    alloc: Global,
    font: &[u8],
    by: Request,
    needs: AskedNeeds,
) -> Result<Option<Vec<Need>>, AllocError> {
    let asked = match needs {
        AskedNeeds::None => return Ok(None),
        AskedNeeds::Refused => Asked::Refused,
        AskedNeeds::All => Asked::All,
    };
    // The font was read before, and the budget is never exceeded.
    match needs_in(alloc, font, by, asked, &mut Budget::unlimited()) {
        Ok(needs) => Ok(Some(needs)),
        Err(_) => Err(AllocError),
    }
}

/// Returns the line that tells what the font in these bytes needs by this profile, if that is asked for:
/// of the numbers for which one of its programs is refused, or of all.
///
/// # Errors
/// If memory runs out.
pub(super) fn needs_text(
    alloc: Global,
    font: &[u8],
    by: Request,
    needs: AskedNeeds,
) -> Result<String, AllocError> {
    match needs_of(alloc, font, by, needs)? {
        Some(needs) => format!(in alloc; "{}", NeedsLine(&needs)),
        None => Ok(String::new(alloc)),
    }
}

/// Returns the member of an object that tells the needs that are asked for, with a comma before it;
/// nothing where none are.
///
/// # Errors
/// If memory runs out.
pub(super) fn needs_member(
    alloc: Global,
    font: &[u8],
    by: Request,
    needs: AskedNeeds,
) -> Result<String, AllocError> {
    let Some(needs) = needs_of(alloc, font, by, needs)? else {
        return Ok(String::new(alloc));
    };
    let mut objects = Vec::new(alloc);
    for need in &needs {
        objects.push(NeedObject {
            name: need.bound.name(),
            least: need.least,
            enough: need.enough,
            declared: need.declared,
        })?;
    }
    let text = json_text(alloc, &objects)?;
    format!(in alloc; ",\"needs\":{text}")
}
