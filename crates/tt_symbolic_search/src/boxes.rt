//! States in which each cell has a symbol of its own, as heads of loops are, and states without the
//! symbols that no cell has.

use crate::origins::{OriginNumber, origin_in};
use crate::track::Track;
use std::alloc::{AllocError, Global};
use std::mem;
use tt_setting::SortedMap;
use tt_symbolic_state::State;
use tt_symbolic_state::cell::{Cell, Range, simplified};
use tt_symbolic_state::stack::Stack;

/// How many numbers the range of a storage cell has of which nothing is known, less 1.
const STORAGE_WIDTH: i64 = (1 << 32) - 1;

/// How many numbers the range of a control value may have that isn't worth to be listed.
const CONTROL_WIDTH: i64 = 1 << 24;

/// The symbols of a state.
#[derive(Drop)]
pub(crate) struct Symbols {
    /// Their ranges.
    pub ranges: Vec<Range>,
    /// Their origins.
    pub origins: Vec<OriginNumber>,
}

impl Symbols {
    /// Makes no symbols.
    pub(crate) fn new(alloc: Global) -> Symbols {
        Symbols {
            ranges: Vec::new(alloc),
            origins: Vec::new(alloc),
        }
    }

    /// Takes the symbols out of a track, which is left without any.
    pub(crate) fn take(alloc: Global, track: &mut Track) -> Symbols {
        Symbols {
            ranges: mem::replace(&mut track.state.ranges, Vec::new(alloc)),
            origins: mem::replace(&mut track.history.origins, Vec::new(alloc)),
        }
    }

    /// Gives a track these symbols.
    pub(crate) fn put(self, track: &mut Track) {
        let Symbols { ranges, origins } = self;
        track.state.ranges = ranges;
        track.history.origins = origins;
    }

    /// Makes a copy.
    pub(crate) fn copied(&self, alloc: Global) -> Result<Symbols, AllocError> {
        Ok(Symbols {
            ranges: Vec::from_slice(alloc, self.ranges.as_slice())?,
            origins: Vec::from_slice(alloc, self.origins.as_slice())?,
        })
    }

    /// Gives the symbol of this number another range and another origin.
    pub(crate) fn set(&mut self, place: usize, range: Range, origin: OriginNumber) {
        if let Some(old) = self.ranges.get_mut(place) {
            *old = range;
        }
        if let Some(old) = self.origins.get_mut(place) {
            *old = origin;
        }
    }

    /// Adds a symbol, and returns its number.
    pub(crate) fn add(&mut self, range: Range, origin: OriginNumber) -> Result<u32, AllocError> {
        let number = u32::try_from(self.ranges.len()).map_err(|_| AllocError)?;
        self.ranges.push(range)?;
        self.origins.push(origin)?;
        Ok(number)
    }

    /// Returns the origin of a cell's symbol.
    pub(crate) fn origin(&self, cell: Cell) -> OriginNumber {
        origin_in(self.origins.as_slice(), cell)
    }

    /// Returns the range of a cell's symbol, if it has one.
    pub(crate) fn range(&self, cell: Cell) -> Option<Range> {
        if cell.factor == 0 {
            return None;
        }
        self.ranges.get(cell.symbol as usize).copied()
    }
}

/// Whether cells that have a symbol in common are to have one in common still.
#[derive(Clone, Copy, PartialEq, Eq)]
pub(crate) enum Sharing {
    /// They are.
    Kept,
    /// Each gets a symbol of its own.
    Dropped,
}

/// New symbols in place of old ones.
#[derive(Drop)]
struct Renaming {
    alloc: Global,
    old: Symbols,
    new: Symbols,
    sharing: Sharing,
    /// The new number of each old symbol that has one, where sharing is kept.
    numbers: Vec<Option<u32>>,
}

impl Renaming {
    /// Returns the cell with a new symbol.
    fn cell(&mut self, cell: Cell) -> Result<Cell, AllocError> {
        let cell = simplified(cell, self.old.ranges.as_slice());
        let Some(range) = self.old.range(cell) else {
            return Ok(cell);
        };
        let place = cell.symbol as usize;
        if let Some(Some(symbol)) = self.numbers.get(place) {
            return Ok(Cell {
                symbol: *symbol,
                ..cell
            });
        }
        let symbol = self.new.add(range, self.old.origin(cell))?;
        if let Some(number) = self.numbers.get_mut(place) {
            *number = Some(symbol);
        }
        Ok(Cell { symbol, ..cell })
    }

    /// Renames the symbols of what is left of the calls.
    fn calls(&mut self, track: &mut Track) -> Result<(), AllocError> {
        for call in track.state.calls.iter_mut() {
            call.left = self.cell(call.left)?;
        }
        Ok(())
    }

    /// Renames the symbols of the graphics state.
    fn graphics(&mut self, track: &mut Track) -> Result<(), AllocError> {
        let graphics = &mut track.state.graphics;
        graphics.rp0 = self.cell(graphics.rp0)?;
        graphics.rp1 = self.cell(graphics.rp1)?;
        graphics.rp2 = self.cell(graphics.rp2)?;
        graphics.loop_number = self.cell(graphics.loop_number)?;
        Ok(())
    }

    /// Renames the symbols of the stack.
    fn stack(&mut self, track: &mut Track) -> Result<(), AllocError> {
        let empty = Stack::new(self.alloc);
        let mut cells = mem::replace(&mut track.state.stack, empty).into_cells();
        self.elements(cells.as_mut_slice())?;
        track.state.stack = Stack::from_cells(cells);
        Ok(())
    }

    /// Renames the symbols of elements of the stack.
    fn elements(&mut self, cells: &mut [Cell]) -> Result<(), AllocError> {
        for cell in cells {
            *cell = self.cell(*cell)?;
        }
        Ok(())
    }

    /// Renames the symbols of the entries of a memory area. Entries of which nothing is known any
    /// more are no longer listed, where sharing is dropped.
    fn entries(&mut self, track: &mut Track, area: Area) -> Result<(), AllocError> {
        let entries = area.of_mut(&mut track.state);
        let mut symbolic = Vec::from_slice(self.alloc, entries.as_slice())?;
        symbolic.retain(|entry| entry.1.factor != 0);
        for entry in symbolic.as_slice() {
            self.entry(entries, area, *entry)?;
        }
        Ok(())
    }

    /// Renames the symbol of an entry, or leaves the entry out.
    fn entry(
        &mut self,
        entries: &mut SortedMap<Cell>,
        area: Area,
        entry: (u16, Cell),
    ) -> Result<(), AllocError> {
        let (number, cell) = entry;
        if self.sharing == Sharing::Dropped && is_wide(self.old.range(cell), area.width()) {
            entries.remove(number);
            return Ok(());
        }
        let cell = self.cell(cell)?;
        entries.put(number, cell)
    }

    /// Renames all symbols of a state.
    fn cells(&mut self, track: &mut Track) -> Result<(), AllocError> {
        self.calls(track)?;
        self.graphics(track)?;
        self.stack(track)?;
        self.entries(track, Area::Storage)?;
        self.entries(track, Area::Controls)
    }
}

/// Whether a range has more numbers than a width.
pub(crate) fn is_wide(range: Option<Range>, width: i64) -> bool {
    match range {
        Some(range) => i64::from(range.high).saturating_sub(i64::from(range.low)) >= width,
        None => false,
    }
}

/// A memory area.
#[derive(Clone, Copy, PartialEq, Eq)]
pub(crate) enum Area {
    /// The storage area.
    Storage,
    /// The control values.
    Controls,
}

impl Area {
    /// Returns how many numbers the range of an entry has of which too little is known, less 1.
    pub(crate) fn width(self) -> i64 {
        match self {
            Area::Storage => STORAGE_WIDTH,
            Area::Controls => CONTROL_WIDTH,
        }
    }

    /// Returns the entries that a state lists.
    pub(crate) fn of(self, state: &State) -> &SortedMap<Cell> {
        match self {
            Area::Storage => &state.storage,
            Area::Controls => &state.controls,
        }
    }

    /// Returns them, to be changed.
    pub(crate) fn of_mut(self, state: &mut State) -> &mut SortedMap<Cell> {
        match self {
            Area::Storage => &mut state.storage,
            Area::Controls => &mut state.controls,
        }
    }
}

/// Gives the cells of a track's state new symbols, and leaves out those that no cell has.
pub(crate) fn rename(alloc: Global, track: &mut Track, sharing: Sharing) -> Result<(), AllocError> {
    let old = Symbols::take(alloc, track);
    let numbers = match sharing {
        Sharing::Kept => vec![in alloc; None; old.ranges.len()]?,
        Sharing::Dropped => Vec::new(alloc),
    };
    let mut renaming = Renaming {
        alloc,
        old,
        new: Symbols::new(alloc),
        sharing,
        numbers,
    };
    renaming.cells(track)?;
    let Renaming { new, .. } = renaming;
    new.put(track);
    Ok(())
}
