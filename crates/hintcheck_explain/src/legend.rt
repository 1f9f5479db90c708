//! The cells of a symbolic state as they are printed: a number, `?`, `3..7`, or `(2x + 4)` with a
//! symbol whose range is told once.

use crate::knowledge::SHOWN_CELLS;
use crate::view::range_of;
use std::alloc::{AllocError, Global};
use std::fmt;
use tt_setting::SortedMap;
use tt_symbolic_state::cell::{Cell, Range, number, symbol};
use tt_symbolic_state::state::State;

/// The names of the first symbols.
const NAMES: [&str; 6] = ["x", "y", "z", "u", "v", "w"];

/// Adds those of memory entries that are printed to the cells.
fn add_entries(cells: &mut Vec<Cell>, entries: &SortedMap<Cell>) -> Result<(), AllocError> {
    for entry in entries.as_slice().iter().take(SHOWN_CELLS) {
        cells.push(entry.1)?;
    }
    Ok(())
}

/// Adds the cells of a state that are printed, in their order.
fn add_shown(cells: &mut Vec<Cell>, state: &State) -> Result<(), AllocError> {
    for call in state.calls.as_slice() {
        cells.push(call.left)?;
    }
    for cell in state.stack.as_slice().iter().rev().take(SHOWN_CELLS) {
        cells.push(*cell)?;
    }
    let graphics = &state.graphics;
    let numbers = [
        graphics.rp0,
        graphics.rp1,
        graphics.rp2,
        graphics.loop_number,
    ];
    for cell in numbers {
        cells.push(cell)?;
    }
    add_entries(cells, &state.storage)?;
    add_entries(cells, &state.controls)
}

/// Whether a cell's symbol is to be named: another cell has it too, or the cell is a multiple of it.
fn is_named(cells: &[Cell], cell: Cell) -> bool {
    let mut uses: usize = 0;
    for other in cells {
        if other.factor != 0 && other.symbol == cell.symbol {
            uses = uses.saturating_add(1);
        }
    }
    cell.factor != 0 && (cell.factor.unsigned_abs() != 1 || uses > 1)
}

/// The symbols of a state that are named where its cells are printed.
#[derive(Drop)]
pub(crate) struct Legend<'a> {
    /// The ranges of all symbols.
    ranges: &'a [Range],
    /// The symbols that are named, in the order of their names.
    named: Vec<u32>,
}

impl<'a> Legend<'a> {
    /// Makes a legend that names none of the symbols with these ranges.
    pub(crate) fn new(alloc: Global, ranges: &'a [Range]) -> Legend<'a> {
        Legend {
            ranges,
            named: Vec::new(alloc),
        }
    }

    /// Names the symbols of a state that are to be named where its cells are printed.
    ///
    /// # Errors
    /// If memory runs out.
    pub(crate) fn add(&mut self, alloc: Global, state: &State) -> Result<(), AllocError> {
        let mut cells = Vec::new(alloc);
        add_shown(&mut cells, state)?;
        self.add_named(cells.as_slice())
    }

    /// Adds the symbols of these cells that are to be named.
    fn add_named(&mut self, cells: &[Cell]) -> Result<(), AllocError> {
        for cell in cells {
            let is_known = number(*cell, self.ranges).is_some();
            if !is_known && is_named(cells, *cell) && !self.named.contains(&cell.symbol) {
                self.named.push(cell.symbol)?;
            }
        }
        Ok(())
    }

    /// Returns the text of a cell.
    pub(crate) fn text(&self, cell: Cell) -> CellText<'_> {
        CellText {
            cell,
            place: self.named.iter().position(|named| *named == cell.symbol),
            ranges: self.ranges,
        }
    }
}

/// The range of each symbol that is named, in a line of its own if there is one.
impl fmt::Display for Legend<'_> {
    fn fmt<W: fmt::Write>(&self, f: &mut fmt::Formatter<W>) -> fmt::Result {
        let mut before = "\nwhere ";
        for (place, named) in self.named.as_slice().iter().enumerate() {
            let name = Multiple { factor: 1, place };
            write!(f, "{before}{name} is ")?;
            write_range(symbol(*named), self.ranges, "any number", f)?;
            before = ", ";
        }
        Ok(())
    }
}

/// A multiple of a symbol, by the symbol's place among those that are named.
#[derive(Clone, Copy)]
struct Multiple {
    factor: i32,
    place: usize,
}

impl fmt::Display for Multiple {
    fn fmt<W: fmt::Write>(&self, f: &mut fmt::Formatter<W>) -> fmt::Result {
        match self.factor {
            1 => {}
            -1 => f.write_str("-")?,
            factor => write!(f, "{factor}")?,
        }
        match NAMES.get(self.place) {
            Some(name) => f.write_str(name),
            None => write!(f, "x{}", self.place),
        }
    }
}

/// Writes what a cell may be, from the least to the greatest number; this text where nothing is known
/// of it.
fn write_range<W: fmt::Write>(
    cell: Cell,
    ranges: &[Range],
    unknown: &str,
    f: &mut fmt::Formatter<W>,
) -> fmt::Result {
    match range_of(cell, ranges) {
        Some((low, high)) => write!(f, "{low}..{high}"),
        None => f.write_str(unknown),
    }
}

/// A cell as it is printed.
#[derive(Clone, Copy)]
pub(crate) struct CellText<'a> {
    cell: Cell,
    /// The place of its symbol among those that are named, if it is one of them.
    place: Option<usize>,
    ranges: &'a [Range],
}

impl fmt::Display for CellText<'_> {
    fn fmt<W: fmt::Write>(&self, f: &mut fmt::Formatter<W>) -> fmt::Result {
        if let Some(number) = number(self.cell, self.ranges) {
            return write!(f, "{number}");
        }
        let Some(place) = self.place else {
            return write_range(self.cell, self.ranges, "?", f);
        };
        let Cell { factor, offset, .. } = self.cell;
        let multiple = Multiple { factor, place };
        match offset {
            0 => write!(f, "{multiple}"),
            1.. => write!(f, "({multiple} + {offset})"),
            _ => write!(f, "({multiple} - {})", offset.unsigned_abs()),
        }
    }
}
