//! What is noted of the origins of symbols, where a refusal is to be explained.

use crate::origins::OriginNumber;
use std::alloc::{AllocError, Global};
use std::collections::HashMap;
use tt_setting::Spot;
use tt_symbolic_check::Site;
use tt_symbolic_state::State;

/// The first number of an instruction that made symbols.
pub(crate) const FIRST_MAKER: OriginNumber = 1 << 31;

/// An offset of a body.
#[derive(Clone, Copy, PartialEq, Eq, Hash)]
pub(crate) struct Point {
    /// The name of the body; none is the main program.
    pub body: Option<u32>,
    /// The offset.
    pub offset: u32,
}

impl Point {
    /// Returns where a state is.
    pub(crate) fn of(state: &State) -> Point {
        Point {
            body: state.calls.last().map(|call| call.body),
            offset: state.offset,
        }
    }

    /// Returns its place.
    pub(crate) fn place(self) -> Site {
        Site {
            spot: match self.body {
                Some(body) => Spot::of_body(body),
                None => Spot::Main,
            },
            offset: self.offset,
        }
    }
}

/// A merge of two numbers.
#[derive(Clone, Copy)]
pub(crate) struct Meeting {
    /// Where it was.
    pub at: Point,
    /// The one number, if it was known.
    pub first: Option<i32>,
    /// The other number, if it was known.
    pub second: Option<i32>,
}

/// What is noted of origins.
pub(crate) struct Notes {
    /// The instructions that made symbols, by their numbers from `FIRST_MAKER` on.
    makers: Vec<Point>,
    /// Their numbers.
    numbers: HashMap<Point, OriginNumber>,
    /// The first merge of each origin that names one.
    meetings: HashMap<OriginNumber, Meeting>,
}

// Written out, so that who holds notes proves in one step that their memory is given back.
impl Drop for Notes {
    fn drop(self) {
        let Notes {
            makers,
            numbers,
            meetings,
        } = self;
        drop(makers);
        drop(numbers);
        drop(meetings);
    }
}

impl Notes {
    /// Makes no notes.
    pub(crate) fn new(alloc: Global) -> Notes {
        Notes {
            makers: Vec::new(alloc),
            numbers: HashMap::new(alloc),
            meetings: HashMap::new(alloc),
        }
    }

    /// Returns the number of the instruction at a point, which it gets where it has none.
    pub(crate) fn maker(&mut self, at: Point) -> Result<OriginNumber, AllocError> {
        if let Some(number) = self.numbers.get(&at) {
            return Ok(*number);
        }
        let index = u32::try_from(self.makers.len()).map_err(|_| AllocError)?;
        let number = FIRST_MAKER.checked_add(index).ok_or(AllocError)?;
        self.makers.push(at)?;
        self.numbers.insert(at, number)?;
        Ok(number)
    }

    /// Returns where the instruction of this number is, if it is that of one.
    pub(crate) fn made_at(&self, number: OriginNumber) -> Option<Point> {
        let index = number.checked_sub(FIRST_MAKER)?;
        self.makers.get(index as usize).copied()
    }

    /// Notes the merge of an origin, if none is noted yet.
    pub(crate) fn note_meeting(
        &mut self,
        origin: OriginNumber,
        meeting: Meeting,
    ) -> Result<(), AllocError> {
        if !self.meetings.contains_key(&origin) {
            self.meetings.insert(origin, meeting)?;
        }
        Ok(())
    }

    /// Returns the merge of an origin, if one is noted.
    pub(crate) fn meeting(&self, origin: OriginNumber) -> Option<Meeting> {
        self.meetings.get(&origin).copied()
    }
}
