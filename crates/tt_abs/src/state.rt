//! Abstract states: what is known of a hint machine's state.

use crate::cells::Cell;
use crate::graphics::{is_same_graphics, joined_graphics};
use crate::order::{DepthMismatch, Order};
use crate::registers::{pointer_with_number, reference_with_number};
use crate::stack::Stack;
use std::alloc::{AllocError, Global};
use tt_code::Graphics;
use tt_code::kinds::{Pointer, Reference};
use tt_setting::{SortedMap, ZoneCell};

/// What is known of a machine's state, except for where it is and its calls.
pub struct State {
    /// What is known of the stack.
    pub(crate) stack: Stack,
    /// What is known of the graphics state.
    pub(crate) graphics: Graphics<Cell, ZoneCell>,
    /// The functions that are known, each with its body.
    pub(crate) functions: SortedMap<u32>,
    /// The storage cells that are known, each with its number.
    pub(crate) storage: SortedMap<i32>,
}

// Written out, so that who holds a state proves in one step that its memory is given back.
impl Drop for State {
    fn drop(self) {
        let State {
            stack,
            graphics: _,
            functions,
            storage,
        } = self;
        drop(stack);
        drop(functions);
        drop(storage);
    }
}

/// The graphics state with which every program starts.
const DEFAULT: Graphics<Cell, ZoneCell> = Graphics {
    rp0: Cell::Known(0),
    rp1: Cell::Known(0),
    rp2: Cell::Known(0),
    zp0: ZoneCell::One,
    zp1: ZoneCell::One,
    zp2: ZoneCell::One,
    loop_number: Cell::Known(1),
};

impl State {
    ghost use Rattle.std.specs.Prelude.{◌≡◌, ◌<◌, ◌≤◌, ◌+◌, ◌^◌, ◌∷◌, ◌↔◌, length, reverse, slice_get, IsTrue, IfOk, OnOk, OnErr, [], drop};
    ghost use Rattle.tt_code.specs.States.{pointer, reference, with_pointer, with_reference};
    ghost use Rattle.tt_setting.specs.Entries.{Ascends, with_entries, with_entry};
    ghost use Rattle.tt_abs.specs.StorageCells.{storage_of, with_cell};
    ghost use Rattle.tt_abs.specs.Registers.{pointer_numbered, reference_numbered};
    ghost use Rattle.tt_abs.specs.Stacks.{ShareBottom};
    ghost use Rattle.tt_abs.specs.States.{KeepsRange, start_of, state_order};
    ghost use Rattle.tt_abs.specs.Transfers.{cells_on};

    /// Makes the state in which a program starts: an empty stack, the default graphics state, and
    /// these functions, each with its body, defined one after the other: of several of one number
    /// the last stays. Nothing is known of the storage area.
    ///
    /// # Errors
    /// If memory runs out, or there are 65,536 functions.
    pub fn start(alloc: Global, functions: &[(u16, u32)]) -> Result<State, AllocError>
        ensures in_turn { IfOk result
            (λ state. state ≡ start_of (with_entries [] functions.now)) }
        ensures ascending { Ascends functions.now
            → IfOk result (λ state. state ≡ start_of functions.now) }
        ensures in_range { IfOk result (λ state. state_order.InRange state) }
    {
        Ok(State {
            stack: Stack::new(alloc),
            graphics: DEFAULT,
            functions: SortedMap::from_entries(alloc, functions)?,
            storage: SortedMap::new(alloc),
        })
    }

    /// Makes a copy of the state.
    ///
    /// # Errors
    /// If memory runs out.
    pub fn copy(&self) -> Result<State, AllocError>
        ensures { IfOk result (λ copy. copy ≡ self.now) }
    {
        let alloc = self.stack.allocator();
        Ok(State {
            stack: self.stack.copied()?,
            graphics: self.graphics,
            functions: self.functions.copied(alloc)?,
            storage: self.storage.copied(alloc)?,
        })
    }

    /// Becomes the same as another state, in the memory that it has, where that is enough.
    ///
    /// # Errors
    /// If memory runs out; then the state's content is unspecified.
    pub fn copy_from(&mut self, other: &State) -> Result<(), AllocError>
        ensures { OnOk result (self.new ≡ other.now) }
    {
        self.stack.copy_from(&other.stack)?;
        self.graphics = other.graphics;
        self.functions.copy_from(&other.functions)?;
        self.storage.copy_from(&other.storage)
    }

    /// Whether the other is the same state. Takes no memory.
    pub fn is_same(&self, other: &State) -> bool
        ensures { IsTrue result ↔ (self.now ≡ other.now) }
    {
        self.stack.is_same(&other.stack)
            && is_same_graphics(&self.graphics, &other.graphics)
            && self.functions.is_same(&other.functions)
            && self.storage.is_same(&other.storage)
    }

    /// Whether the same functions are known in the other state, with the same bodies. Takes no
    /// memory.
    pub fn has_same_functions(&self, other: &State) -> bool
        ensures { IsTrue result ↔ (self.now.functions ≡ other.now.functions) }
    {
        self.functions.is_same(&other.functions)
    }

    /// Whether both states' stacks have `count` cells at the bottom, and the same ones. Takes no
    /// memory.
    pub fn shares_bottom(&self, other: &State, count: usize) -> bool
        ensures { IsTrue result ↔ ShareBottom self.now.stack other.now.stack count }
    {
        self.stack.shares_bottom(&other.stack, count)
    }

    /// Returns how many cells the stack has.
    pub fn depth(&self) -> usize
        ensures value { result ≡ length self.now.stack }
        ensures small { result < 2 ^ 31 }
    {
        self.stack.len()
    }

    /// Returns the cell of the stack at a position from the bottom: 0 is the bottom.
    pub fn cell(&self, place: usize) -> Option<Cell>
        ensures { result ≡ slice_get (reverse self.now.stack) place }
    {
        self.stack.above(place)
    }

    /// Returns what is known of the reference point with number `i`, which is below 3.
    pub fn rp(&self, i: usize) -> Cell
        requires { i < 3 }
        ensures { result ≡ reference (reference_numbered i) self.now.graphics }
    {
        self.reference_point(reference_with_number(i))
    }

    /// Returns what is known of a reference point.
    pub fn reference_point(&self, which: Reference) -> Cell
        ensures { result ≡ reference which self.now.graphics }
    {
        self.graphics.reference(which)
    }

    /// Returns what is known of the zone pointer with number `i`, which is below 3.
    pub fn zone(&self, i: usize) -> ZoneCell
        requires { i < 3 }
        ensures { result ≡ pointer (pointer_numbered i) self.now.graphics }
    {
        self.zone_pointer(pointer_with_number(i))
    }

    /// Returns what is known of a zone pointer.
    pub fn zone_pointer(&self, which: Pointer) -> ZoneCell
        ensures { result ≡ pointer which self.now.graphics }
    {
        self.graphics.pointer(which)
    }

    /// Returns what is known of the loop number.
    pub fn loop_cell(&self) -> Cell
        ensures { result ≡ self.now.graphics.loop_number }
    {
        self.graphics.loop_number
    }

    /// Returns the functions that are known, in ascending order of their numbers, each with its
    /// body.
    pub fn functions(&self) -> &[(u16, u32)]
        ensures value { result.now ≡ self.now.functions }
        ensures ascends { Ascends result.now }
    {
        self.functions.as_slice()
    }

    /// Returns the storage cells that are known, in ascending order of their indexes, each with its
    /// number.
    pub fn stored(&self) -> &[(u16, i32)]
        ensures { result.now ≡ self.now.storage }
    {
        self.storage.as_slice()
    }

    /// States that the lists of a state are in ascending order of their numbers, as they always
    /// are.
    pub(crate) fn order_facts(&self)
        ensures functions { Ascends self.now.functions }
        ensures storage { Ascends self.now.storage }
    {
        let _functions = self.functions.as_slice();
        let _storage = self.storage.as_slice();
    }

    /// Returns what is known of a storage cell.
    pub fn storage(&self, index: u16) -> Cell
        ensures { result ≡ storage_of self.now.storage index }
    {
        match self.storage.get(index) {
            Some(number) => Cell::Known(number),
            None => Cell::Unknown,
        }
    }

    /// Puts a cell on the stack. The stack must have fewer than 65,535 cells.
    ///
    /// # Errors
    /// If memory runs out; then the state stays as it is.
    pub fn push(&mut self, cell: Cell) -> Result<(), AllocError>
        requires { length self.old.stack < 65535 }
        ensures ok { OnOk result (self.new ≡ record self.old { stack = cell ∷ self.old.stack }) }
        ensures err { OnErr result (self.new ≡ self.old) }
        ensures in_range { KeepsRange self.old self.new }
    {
        self.stack.push(cell)
    }

    /// Puts cells on the stack, one after the other. It must then have at most 65,535 cells.
    ///
    /// # Errors
    /// If memory runs out; then the state's content is unspecified.
    pub fn push_cells(&mut self, cells: &[Cell]) -> Result<(), AllocError>
        requires { length self.old.stack + length cells.now ≤ 65535 }
        ensures pushed { OnOk result
            (self.new ≡ record self.old { stack = cells_on cells.now self.old.stack }) }
        ensures in_range { OnOk result (KeepsRange self.old self.new) }
    {
        self.stack.push_cells(cells)
    }

    /// Removes `count` cells from the top of the stack, or all of them if there are fewer.
    pub fn cut_stack(&mut self, count: usize)
        ensures value { self.new ≡ record self.old { stack = drop count self.old.stack } }
        ensures in_range { KeepsRange self.old self.new }
    {
        self.stack.cut(count);
    }

    /// Sets what is known of the reference point with number `i`, which is below 3.
    pub fn set_rp(&mut self, i: usize, cell: Cell)
        requires { i < 3 }
        ensures value { self.new ≡ record self.old
            { graphics = with_reference (reference_numbered i) cell self.old.graphics } }
        ensures in_range { KeepsRange self.old self.new }
    {
        self.set_reference_point(reference_with_number(i), cell);
    }

    /// Sets what is known of a reference point.
    pub fn set_reference_point(&mut self, which: Reference, cell: Cell)
        ensures value { self.new
            ≡ record self.old { graphics = with_reference which cell self.old.graphics } }
        ensures in_range { KeepsRange self.old self.new }
    {
        self.graphics.set_reference(which, cell);
    }

    /// Sets what is known of the zone pointer with number `i`, which is below 3.
    pub fn set_zone(&mut self, i: usize, zone: ZoneCell)
        requires { i < 3 }
        ensures value { self.new ≡ record self.old
            { graphics = with_pointer (pointer_numbered i) zone self.old.graphics } }
        ensures in_range { KeepsRange self.old self.new }
    {
        self.set_zone_pointer(pointer_with_number(i), zone);
    }

    /// Sets what is known of a zone pointer.
    pub fn set_zone_pointer(&mut self, which: Pointer, zone: ZoneCell)
        ensures value { self.new
            ≡ record self.old { graphics = with_pointer which zone self.old.graphics } }
        ensures in_range { KeepsRange self.old self.new }
    {
        self.graphics.set_pointer(which, zone);
    }

    /// Sets what is known of the loop number.
    pub fn set_loop(&mut self, cell: Cell)
        ensures value { self.new
            ≡ record self.old { graphics = record self.old.graphics { loop_number = cell } } }
        ensures in_range { KeepsRange self.old self.new }
    {
        self.graphics.loop_number = cell;
    }

    /// Makes a function known by its number, with its body, in place of any other one of that
    /// number.
    ///
    /// # Errors
    /// If memory runs out, or there are 65,535 other functions; then the state stays as it is.
    pub fn define(&mut self, number: u16, body: u32) -> Result<(), AllocError>
        ensures ok { OnOk result (self.new
            ≡ record self.old { functions = with_entry number body self.old.functions }) }
        ensures err { OnErr result (self.new ≡ self.old) }
        ensures in_range { KeepsRange self.old self.new }
    {
        self.functions.put(number, body)
    }

    /// Makes exactly these functions known, in ascending order of their numbers, each with its
    /// body, in the memory that the state has for functions, where that is enough.
    ///
    /// # Errors
    /// If memory runs out; then the functions that are known are unspecified.
    pub fn set_functions(&mut self, functions: &[(u16, u32)]) -> Result<(), AllocError>
        requires { Ascends functions.now }
        ensures value { OnOk result (self.new ≡ record self.old { functions = functions.now }) }
        ensures in_range { OnOk result (KeepsRange self.old self.new) }
    {
        self.functions.replace(functions)
    }

    /// Sets what is known of a storage cell.
    ///
    /// # Errors
    /// If memory runs out, or 65,535 other cells are known; then the state stays as it is.
    pub fn set_storage(&mut self, index: u16, cell: Cell) -> Result<(), AllocError>
        ensures ok { OnOk result (self.new
            ≡ record self.old { storage = with_cell index cell self.old.storage }) }
        ensures err { OnErr result (self.new ≡ self.old) }
        ensures in_range { KeepsRange self.old self.new }
    {
        match cell {
            Cell::Known(number) => self.storage.put(index, number),
            Cell::Unknown => {
                self.storage.remove(index);
                Ok(())
            }
        }
    }

    /// Makes all storage cells unknown. Takes no memory.
    pub fn forget_storage(&mut self)
        ensures value { self.new ≡ record self.old { storage = [] } }
        ensures in_range { KeepsRange self.old self.new }
    {
        self.storage.clear();
    }
}

impl Order for State {
    ghost use Rattle.tt_abs.specs.States.{state_order, state_laws};

    ghost order = { state_order };

    fn below(&self, other: &State) -> bool {
        self.stack.below(&other.stack)
            && self.graphics.below(&other.graphics)
            && self.functions.below(&other.functions)
            && self.storage.below(&other.storage)
    }

    fn join(&mut self, other: &State) -> Result<bool, DepthMismatch> {
        if self.stack.len() != other.stack.len() {
            return Err(DepthMismatch);
        }
        if other.below(self) {
            return Ok(false);
        }
        self.stack.raise(&other.stack);
        self.graphics = joined_graphics(&self.graphics, &other.graphics);
        self.functions.join(&other.functions)?;
        self.storage.join(&other.storage)?;
        Ok(true)
    }

    ghost laws = { state_laws };
}
