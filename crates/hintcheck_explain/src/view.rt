//! What is known at a place, by either profile.

use crate::element::Element;
use tt_abs::{Cell as StrictCell, State};
use tt_code::kinds::{Pointer, Reference};
use tt_setting::{Register, ZoneCell};
use tt_symbolic_state::cell::{Cell, Range, bounds, known, number, symbol};
use tt_symbolic_state::state::{State as SymbolicState, Zone};

/// How many numbers the machine has, less 1: nothing is known of one whose range is as wide.
const ALL_NUMBERS: i64 = (1 << 32) - 1;

/// The number of a symbol that has no range: nothing is known of its cell.
const UNKNOWN: u32 = u32::MAX;

/// Returns the cell of a number that a state of the strict profile knows.
fn strict_cell(state: &State, element: Element) -> Option<Cell> {
    let cell = match element {
        Element::Stack(place) => state.cell(place)?,
        Element::Register(Register::Rp0) => state.reference_point(Reference::Rp0),
        Element::Register(Register::Rp1) => state.reference_point(Reference::Rp1),
        Element::Register(Register::Rp2) => state.reference_point(Reference::Rp2),
        Element::Register(Register::Loop) => state.loop_cell(),
        Element::Storage(index) => state.storage(index),
    };
    match cell {
        StrictCell::Known(number) => Some(known(number)),
        StrictCell::Unknown => None,
    }
}

/// Returns the cell of a symbolic state in which a number is kept, if it has one.
fn symbolic_cell(state: &SymbolicState, element: Element) -> Option<Cell> {
    match element {
        Element::Stack(place) => state.stack.as_slice().get(place).copied(),
        Element::Register(Register::Rp0) => Some(state.graphics.rp0),
        Element::Register(Register::Rp1) => Some(state.graphics.rp1),
        Element::Register(Register::Rp2) => Some(state.graphics.rp2),
        Element::Register(Register::Loop) => Some(state.graphics.loop_number),
        Element::Storage(index) => state.storage.get(index),
    }
}

/// Returns the least and the greatest number that a cell may be, where anything is known of it.
pub(crate) fn range_of(cell: Cell, ranges: &[Range]) -> Option<(i64, i64)> {
    let (low, high) = bounds(cell, ranges)?;
    (high.saturating_sub(low) < ALL_NUMBERS).then_some((low, high))
}

/// The entries of a memory area that are known.
#[derive(Clone, Copy)]
pub(crate) enum Entries<'a> {
    Numbers(&'a [(u16, i32)]),
    Cells(&'a [(u16, Cell)]),
}

impl Entries<'_> {
    /// Returns how many there are.
    pub(crate) fn len(self) -> usize {
        match self {
            Entries::Numbers(entries) => entries.len(),
            Entries::Cells(entries) => entries.len(),
        }
    }

    /// Returns an entry by its place among them: its index and its cell.
    pub(crate) fn get(self, place: usize) -> Option<(u16, Cell)> {
        match self {
            Entries::Numbers(entries) => {
                let (index, number) = entries.get(place)?;
                Some((*index, known(*number)))
            }
            Entries::Cells(entries) => entries.get(place).copied(),
        }
    }
}

/// What is known at a place: a state of the strict profile, or one of the symbolic profile.
#[derive(Clone, Copy)]
pub(crate) enum View<'a> {
    Strict(&'a State),
    Symbolic(&'a SymbolicState),
}

impl<'a> View<'a> {
    /// Returns how many numbers are on the stack.
    pub(crate) fn depth(self) -> usize {
        match self {
            View::Strict(state) => state.depth(),
            View::Symbolic(state) => state.stack.len(),
        }
    }

    /// Returns the ranges of the symbols that cells have.
    fn ranges(self) -> &'a [Range] {
        match self {
            View::Strict(_) => &[],
            View::Symbolic(state) => state.ranges.as_slice(),
        }
    }

    /// Returns the cell of a number.
    pub(crate) fn cell(self, element: Element) -> Cell {
        let cell = match self {
            View::Strict(state) => strict_cell(state, element),
            View::Symbolic(state) => symbolic_cell(state, element),
        };
        cell.unwrap_or(symbol(UNKNOWN))
    }

    /// Returns the least and the greatest number that a number may be that isn't known, where anything
    /// is known of it.
    pub(crate) fn range(self, element: Element) -> Option<(i64, i64)> {
        match self.number(element) {
            Some(_) => None,
            None => range_of(self.cell(element), self.ranges()),
        }
    }

    /// Returns a number, if it is known.
    pub(crate) fn number(self, element: Element) -> Option<i32> {
        number(self.cell(element), self.ranges())
    }

    /// Returns the number on the stack under this many others, if it is known.
    pub(crate) fn number_under(self, taken: usize) -> Option<i32> {
        self.number(Element::under(self.depth(), taken)?)
    }

    /// Returns the zone that a pointer names.
    pub(crate) fn zone(self, pointer: Pointer) -> ZoneCell {
        match self {
            View::Strict(state) => state.zone_pointer(pointer),
            View::Symbolic(state) => match state.graphics.pointer(pointer) {
                Zone::Zero => ZoneCell::Zero,
                Zone::One => ZoneCell::One,
            },
        }
    }

    /// Returns the functions that are known, each with its body.
    pub(crate) fn functions(self) -> &'a [(u16, u32)] {
        match self {
            View::Strict(state) => state.functions(),
            View::Symbolic(state) => state.functions.as_slice(),
        }
    }

    /// Returns the storage cells that are known.
    pub(crate) fn stored(self) -> Entries<'a> {
        match self {
            View::Strict(state) => Entries::Numbers(state.stored()),
            View::Symbolic(state) => Entries::Cells(state.storage.as_slice()),
        }
    }
}
