//! A refused program, and the place of the refusal.

ghost use Rattle.std.specs.Prelude.{◌≡◌};
ghost use Rattle.hintcheck_report.specs.Places.{place_at, program_at as program_at_spot, reported_at};

use std::fmt;
use tt_code::Reason;
use tt_setting::{Name, Spot};

/// An offset in a program.
#[derive(Clone, Copy, PartialEq, Eq)]
pub struct Place {
    /// The program in which the offset is: for a function's instruction the one in which its body
    /// is.
    pub program: Name,
    pub offset: u32,
}

impl fmt::Display for Place {
    ghost use Rattle.std.specs.Prelude.{Some};
    ghost use Rattle.hintcheck_report.specs.Texts.{place_text};

    ghost output = { λ place. Some (place_text place) };

    fn fmt<W: fmt::Write>(&self, f: &mut fmt::Formatter<W>) -> fmt::Result {
        write!(f, "{}:{}", self.program, self.offset)
    }
}

impl Place {
    /// Returns the place of an offset in this spot, seen from the program of this name.
    pub fn at(program: Name, spot: Spot, offset: u32) -> Self
        ensures { result ≡ place_at program spot offset }
    {
        Place {
            program: program_at(program, spot),
            offset,
        }
    }
}

/// Returns which program holds a place of this spot, seen from the program of this name.
pub fn program_at(name: Name, spot: Spot) -> Name
    ensures { result ≡ program_at_spot name spot }
{
    match spot {
        Spot::Main => name,
        Spot::Font => Name::Font,
        Spot::Prep => Name::Cvt,
    }
}

/// A program that is refused, with where and why.
#[derive(Clone, Copy)]
pub struct Refused {
    pub program: Name,
    pub place: Place,
    pub reason: Reason,
}

impl Refused {
    /// Returns what is reported of the program of this name that is refused at this offset in this
    /// spot.
    pub fn at(program: Name, spot: Spot, offset: u32, reason: Reason) -> Self
        ensures { result ≡ reported_at program spot offset reason }
    {
        Refused {
            program,
            place: Place::at(program, spot, offset),
            reason,
        }
    }
}

impl fmt::Display for Refused {
    ghost use Rattle.std.specs.Prelude.{Some};
    ghost use Rattle.hintcheck_report.specs.Texts.{refused_text};

    ghost output = { λ refused. Some (refused_text refused) };

    fn fmt<W: fmt::Write>(&self, f: &mut fmt::Formatter<W>) -> fmt::Result {
        write!(
            f,
            "refused {} at {}: {} {}",
            self.program,
            self.place,
            self.reason.number(),
            self.reason
        )
    }
}
