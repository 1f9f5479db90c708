//! A refused program in numbers.

ghost use Rattle.std.specs.Prelude.{◌≡◌, length, min};
ghost use Rattle.hintcheck_c.specs.Refusals.{class_number as number_of_class, listed_in, numbers_of, program_number as number_of_program};

use hintcheck_fonts::{Name, Refused};
use tt_code::ReasonClass;

/// The number of a font program, after those of all glyphs.
const FONT_PROGRAM: u32 = 65_536;

/// The number of a CVT program.
const CVT_PROGRAM: u32 = 65_537;

/// A refused program, with where and why. A program is a number: a glyph's, or 65,536 for the font
/// program, or 65,537 for the CVT program.
#[repr(C)]
#[derive(Clone, Copy)]
pub struct HintcheckRefusal {
    /// The program that is refused.
    pub program: u32,
    /// The program in which the place is: for a function's instruction the one that defines the
    /// function.
    pub place: u32,
    /// The offset of the place in that program, in bytes.
    pub offset: u32,
    /// The reason's number, 20 to 42, 46 or 47.
    pub reason: u32,
    /// What the reason tells: 0 a possible fault, 1 nothing decided, 2 left out by choice, 3 the
    /// certificate doesn't fit.
    pub reason_class: u32,
}

/// Returns the number of a program.
fn program_number(name: Name) -> u32
    ensures { result ≡ number_of_program name }
{
    match name {
        Name::Font => FONT_PROGRAM,
        Name::Cvt => CVT_PROGRAM,
        Name::Glyph(id) => u32::from(id),
    }
}

/// Returns the number of a class of reasons.
fn class_number(class: ReasonClass) -> u32
    ensures { result ≡ number_of_class class }
{
    match class {
        ReasonClass::PossibleFault => 0,
        ReasonClass::Undecided => 1,
        ReasonClass::LeftOut => 2,
        ReasonClass::Certificate => 3,
    }
}

/// Returns a refused program in numbers.
fn in_numbers(refused: &Refused) -> HintcheckRefusal
    ensures { result ≡ numbers_of refused.now }
{
    HintcheckRefusal {
        program: program_number(refused.program),
        place: program_number(refused.place.program),
        offset: refused.place.offset,
        reason: u32::from(refused.reason.number()),
        reason_class: class_number(refused.reason.class()),
    }
}

/// Lists the first refused programs, as many as there is room for, and returns how many.
pub(crate) fn list_refused(refused: &[Refused], room: &mut [HintcheckRefusal]) -> usize
    ensures listed { room.new ≡ listed_in refused.now room.old }
    ensures count { result ≡ min (length refused.now) (length room.old) }
{
    let count = refused.len().min(room.len());
    for place in 0..count {
        room[place] = in_numbers(&refused[place]);
    }
    count
}
