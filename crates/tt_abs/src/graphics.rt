//! The graphics state of cells.

ghost use Rattle.std.specs.Prelude.{◌≡◌, ◌↔◌, IsTrue};
ghost use Rattle.tt_abs.specs.Orders.{IsLeastAbove};
ghost use Rattle.tt_abs.specs.GraphicsOrders.{graphics_order};

use crate::cells::{Cell, joined_zones};
use crate::order::{DepthMismatch, Order};
use tt_code::Graphics;
use tt_setting::ZoneCell;

/// Whether the two graphics states are the same, part by part.
pub fn is_same_graphics(mine: &Graphics<Cell, ZoneCell>, theirs: &Graphics<Cell, ZoneCell>) -> bool
    ensures { IsTrue result ↔ (mine.now ≡ theirs.now) }
{
    mine.rp0.is_same(theirs.rp0)
        && mine.rp1.is_same(theirs.rp1)
        && mine.rp2.is_same(theirs.rp2)
        && mine.zp0.is_same(theirs.zp0)
        && mine.zp1.is_same(theirs.zp1)
        && mine.zp2.is_same(theirs.zp2)
        && mine.loop_number.is_same(theirs.loop_number)
}

/// Returns the least graphics state above both, part by part.
pub fn joined_graphics(
    mine: &Graphics<Cell, ZoneCell>,
    theirs: &Graphics<Cell, ZoneCell>,
) -> Graphics<Cell, ZoneCell>
    ensures { IsLeastAbove graphics_order mine.now theirs.now result }
{
    Graphics {
        rp0: mine.rp0.joined(theirs.rp0),
        rp1: mine.rp1.joined(theirs.rp1),
        rp2: mine.rp2.joined(theirs.rp2),
        zp0: joined_zones(mine.zp0, theirs.zp0),
        zp1: joined_zones(mine.zp1, theirs.zp1),
        zp2: joined_zones(mine.zp2, theirs.zp2),
        loop_number: mine.loop_number.joined(theirs.loop_number),
    }
}

impl Order for Graphics<Cell, ZoneCell> {
    ghost use Rattle.tt_abs.specs.GraphicsOrders.{graphics_order, graphics_laws};

    ghost order = { graphics_order };

    fn below(&self, other: &Graphics<Cell, ZoneCell>) -> bool {
        self.rp0.below(&other.rp0)
            && self.rp1.below(&other.rp1)
            && self.rp2.below(&other.rp2)
            && self.zp0.below(&other.zp0)
            && self.zp1.below(&other.zp1)
            && self.zp2.below(&other.zp2)
            && self.loop_number.below(&other.loop_number)
    }

    fn join(&mut self, other: &Graphics<Cell, ZoneCell>) -> Result<bool, DepthMismatch> {
        let changed = !other.below(self);
        *self = joined_graphics(self, other);
        Ok(changed)
    }

    ghost laws = { graphics_laws };
}
