//! What is known of a number, and of a zone pointer.

ghost use Rattle.std.specs.Prelude.{◌≡◌, ◌↔◌, IsTrue};
ghost use Rattle.tt_abs.specs.Orders.{IsLeastAbove};
ghost use Rattle.tt_abs.specs.CellOrders.{cell_order, zone_order};

use crate::order::{DepthMismatch, Order};
use std::alloc::Global;
use std::default::MadeWith;
use tt_setting::ZoneCell;

/// What is known of a number: the number itself, or nothing.
#[derive(Clone, Copy, PartialEq, Eq)]
pub enum Cell {
    /// This number.
    Known(i32),
    /// Any number of the machine.
    Unknown,
}

impl MadeWith<Global> for Cell {
    fn made_with(_alloc: Global) -> Cell {
        Cell::Unknown
    }
}

impl Cell {
    /// Whether the two are the same.
    pub(crate) fn is_same(self, other: Cell) -> bool
        ensures { IsTrue result ↔ (self ≡ other) }
    {
        self == other
    }

    /// Returns the least cell above both: what they have in common.
    pub fn joined(self, other: Cell) -> Cell
        ensures { IsLeastAbove cell_order self other result }
    {
        if self == other { self } else { Cell::Unknown }
    }
}

impl Order for Cell {
    ghost use Rattle.tt_abs.specs.CellOrders.{cell_order};
    ghost use Rattle.tt_abs.specs.CellLaws.{cell_laws};

    ghost order = { cell_order };

    fn below(&self, other: &Cell) -> bool {
        match *other {
            Cell::Known(_) => *self == *other,
            Cell::Unknown => true,
        }
    }

    fn join(&mut self, other: &Cell) -> Result<bool, DepthMismatch> {
        let changed = !other.below(self);
        if changed {
            *self = Cell::Unknown;
        }
        Ok(changed)
    }

    ghost laws = { cell_laws };
}

/// Returns the least zone cell above both.
pub fn joined_zones(one: ZoneCell, other: ZoneCell) -> ZoneCell
    ensures { IsLeastAbove zone_order one other result }
{
    if one == other { one } else { ZoneCell::Either }
}

impl Order for ZoneCell {
    ghost use Rattle.tt_abs.specs.CellOrders.{zone_order};
    ghost use Rattle.tt_abs.specs.CellLaws.{zone_laws};

    ghost order = { zone_order };

    fn below(&self, other: &ZoneCell) -> bool {
        (*self == *other) | (*other == ZoneCell::Either)
    }

    fn join(&mut self, other: &ZoneCell) -> Result<bool, DepthMismatch> {
        let changed = !other.below(self);
        if changed {
            *self = ZoneCell::Either;
        }
        Ok(changed)
    }

    ghost laws = { zone_laws };
}
