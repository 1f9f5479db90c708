//! What is told of a test that may fail on cells: what is known of the number that it reads.

use tt_code::Reason;
use tt_setting::{Failed, Register, Role, ZoneCell};
use tt_symbolic_state::cell::{Cell, FULL, Range, bounds, number};
use tt_symbolic_state::stack::Stack;

/// What is told where too little is known for an instruction, and no single number is to blame.
pub const UNDECIDED: Failed = Failed::Only(Reason::UnknownOperand);

/// What an index that is taken from the stack names.
#[derive(Clone, Copy)]
pub enum Named {
    /// A point of the zone.
    Point(ZoneCell),
    /// A contour of the zone.
    Contour(ZoneCell),
    /// A control value.
    ControlValue,
    /// A storage cell.
    StorageCell,
}

impl Named {
    /// Returns what the instruction takes the index as.
    fn role(self) -> Role {
        match self {
            Named::Point(_) => Role::Point,
            Named::Contour(_) => Role::Contour,
            Named::ControlValue => Role::ControlValue,
            Named::StorageCell => Role::StorageCell,
        }
    }

    /// Returns the zone in which the index is tested; either one where it isn't tested in a zone.
    fn zone(self) -> ZoneCell {
        match self {
            Named::Point(zone) | Named::Contour(zone) => zone,
            Named::ControlValue | Named::StorageCell => ZoneCell::Either,
        }
    }

    /// Returns the test that fails where nothing has this number.
    fn missing(self, number: i32) -> Failed {
        match self {
            Named::Point(zone) => Failed::NoPoint { zone, number },
            Named::Contour(zone) => Failed::NoContour { zone, number },
            Named::ControlValue => Failed::NoControlValue { index: number },
            Named::StorageCell => Failed::NoStorageCell { index: number },
        }
    }
}

/// Returns how many elements a stack has, as it is told.
fn told(count: usize) -> u32 {
    u32::try_from(count).unwrap_or(u32::MAX)
}

/// Returns the test that fails where a stack has no further element, after this many were taken from
/// it.
pub fn too_few(stack: &Stack, taken: usize) -> Failed {
    Failed::TooFew {
        depth: told(stack.len().saturating_add(taken)),
    }
}

/// Returns the test that fails where a stack is too deep.
pub fn too_deep(stack: &Stack) -> Failed {
    Failed::TooDeep {
        depth: told(stack.len()),
    }
}

/// Returns the test that fails where the element under this many others isn't known.
pub fn unknown(role: Role, under: usize) -> Failed {
    Failed::Unknown {
        role,
        under: told(under),
    }
}

/// Whether the cell isn't any number of the machine.
fn has_range(ranges: &[Range], cell: Cell) -> bool {
    let width = i64::from(FULL.high).saturating_sub(i64::from(FULL.low));
    match bounds(cell, ranges) {
        Some((low, high)) => high.saturating_sub(low) < width,
        None => false,
    }
}

/// Returns the test that fails where an index under this many others isn't known, and some of the
/// numbers that it may be name nothing.
pub fn unknown_index(ranges: &[Range], cell: Cell, named: Named, under: usize) -> Failed {
    if number(cell, ranges).is_some() {
        return UNDECIDED;
    }
    let role = named.role();
    if !has_range(ranges, cell) {
        return unknown(role, under);
    }
    Failed::MayBeOutside {
        role,
        zone: named.zone(),
        under: told(under),
    }
}

/// Returns the test that fails where an index under this many others may name nothing.
pub fn failed_index(ranges: &[Range], cell: Cell, named: Named, under: usize) -> Failed {
    match number(cell, ranges) {
        Some(number) => named.missing(number),
        None => unknown_index(ranges, cell, named, under),
    }
}

/// Returns the test that fails where the zone may have no point with a reference point's number.
pub fn failed_use(ranges: &[Range], cell: Cell, register: Register, zone: ZoneCell) -> Failed {
    match number(cell, ranges) {
        Some(number) => Failed::NoReferencePoint {
            register,
            zone,
            number,
        },
        None if has_range(ranges, cell) => Failed::MayBeOutsideIn { register, zone },
        None => Failed::UnknownIn(register),
    }
}
