//! Taking operands. `taken` is how many cells are taken from the top already; a function that takes
//! more returns how many are taken then.

ghost use Rattle.std.specs.Prelude.{◌≡◌, ◌+◌, ℤ, IfOk, OnOk, drop, Ok, true};
ghost use Rattle.tt_code.specs.Operands.{count_of, is_point, is_zone, pair, pairs, take_one, take_operand, take_operands as take_all, test_uses as test_all, tested, times};
ghost use Rattle.tt_code.specs.declared.reason.Reason.{Reason as AnyReason};
ghost use Rattle.tt_code.specs.States.{is_below};
ghost use Rattle.tt_setting.specs.Settings.{setting_of};
ghost use Rattle.tt_symbolic_state.specs.Values.{Fits, Valuation, value};
ghost use Rattle.tt_symbolic_state.specs.Shows.{graphics_of, values};
ghost use Rattle.tt_symbolic_cells.specs.Taking.{Leaves, Takes, below_bound};

use crate::failures::{Named, failed_index, failed_use, too_few, unknown};
use crate::zones::{cell_of, contours, pointer, points_in, points_within, reference, zone_within};
use tt_code::Graphics;
use tt_code::kinds::{Operand, Use, Within};
use tt_setting::{Failed, Register, Role, Setting};
use tt_symbolic_state::cell::{Cell, Range, bounds, number};
use tt_symbolic_state::stack::Stack;
use tt_symbolic_state::state::Zone;

/// Whether the cell is always an index below the bound.
pub fn is_index(ranges: &[Range], cell: Cell, bound: u32) -> bool
    ensures { result ≡ true → (v : Valuation) → Fits ranges.now v
        → is_below (value v cell) bound ≡ true }
{
    match bounds(cell, ranges) {
        Some((low, high)) => low >= 0 && high < i64::from(bound),
        None => false,
    }
}

/// Takes an index below the bound.
fn take_below(
    ranges: &[Range],
    stack: &Stack,
    taken: usize,
    bound: u32,
    named: Named,
) -> Result<usize, Failed>
    ensures { IfOk result (λ n. (v : Valuation) → Fits ranges.now v → (r : AnyReason)
        → Takes (below_bound bound r) (values v stack.now) taken n) }
{
    match stack.under(taken) {
        Some(cell) => {
            if is_index(ranges, cell, bound) {
                Ok(taken + 1)
            } else {
                Err(failed_index(ranges, cell, named, taken))
            }
        }
        None => Err(too_few(stack, 0)),
    }
}

/// Takes any cell.
fn take_any(stack: &Stack, taken: usize) -> Result<usize, Failed>
    ensures { IfOk result (λ n. (v : Valuation) → Takes take_one (values v stack.now) taken n) }
{
    match stack.under(taken) {
        Some(_) => Ok(taken + 1),
        None => Err(too_few(stack, 0)),
    }
}

/// Takes a zone that the font has.
fn take_zone(
    setting: &Setting<'_>,
    ranges: &[Range],
    stack: &Stack,
    taken: usize,
) -> Result<usize, Failed>
    ensures { IfOk result (λ n. (v : Valuation) → Fits ranges.now v → (r : AnyReason)
        → Takes (tested (is_zone (setting_of setting.now)) r) (values v stack.now) taken n) }
{
    match stack.under(taken) {
        Some(cell) => match number(cell, ranges) {
            Some(zone) => {
                if setting.is_zone(zone) {
                    Ok(taken + 1)
                } else {
                    Err(Failed::NoZone { number: zone })
                }
            }
            None => Err(unknown(Role::Zone, taken)),
        },
        None => Err(too_few(stack, 0)),
    }
}

/// Returns the count that the cell is, which is under this many others.
fn count(ranges: &[Range], cell: Cell, under: usize) -> Result<u32, Failed>
    ensures { IfOk result (λ n. (v : Valuation) → Fits ranges.now v
        → count_of (value v cell) ≡ Ok n) }
{
    match number(cell, ranges) {
        Some(number) => match u32::try_from(number) {
            Ok(n) => Ok(n),
            Err(_) => Err(Failed::NegativeCount { count: number }),
        },
        None => Err(unknown(Role::Count, under)),
    }
}

/// Returns the count that the loop number is.
fn loop_count(ranges: &[Range], cell: Cell) -> Result<u32, Failed>
    ensures { IfOk result (λ n. (v : Valuation) → Fits ranges.now v
        → count_of (value v cell) ≡ Ok n) }
{
    match number(cell, ranges) {
        Some(number) => match u32::try_from(number) {
            Ok(n) => Ok(n),
            Err(_) => Err(Failed::NegativeLoop { count: number }),
        },
        None => Err(Failed::UnknownIn(Register::Loop)),
    }
}

/// Takes `count` indexes below the bound.
fn take_many(
    ranges: &[Range],
    stack: &Stack,
    taken: usize,
    bound: u32,
    count: u32,
    named: Named,
) -> Result<usize, Failed>
    ensures { IfOk result (λ n. (v : Valuation) → Fits ranges.now v → (r : AnyReason)
        → Takes (times count (below_bound bound r)) (values v stack.now) taken n) }
{
    let mut after = taken;
    for i in 0..count {
        after = take_below(ranges, stack, after, bound, named)?;
    }
    Ok(after)
}

/// Takes an index below the bound and any cell.
fn take_pair(
    ranges: &[Range],
    stack: &Stack,
    taken: usize,
    bound: u32,
    named: Named,
) -> Result<usize, Failed>
    ensures { IfOk result (λ n. (v : Valuation) → Fits ranges.now v → (r : AnyReason)
        → Takes (pair (below_bound bound r)) (values v stack.now) taken n) }
{
    let after = take_below(ranges, stack, taken, bound, named)?;
    let end = take_any(stack, after)?;
    Ok(end)
}

/// Takes `count` pairs of an index below the bound and any cell.
fn take_many_pairs(
    ranges: &[Range],
    stack: &Stack,
    taken: usize,
    bound: u32,
    count: u32,
    named: Named,
) -> Result<usize, Failed>
    ensures { IfOk result (λ n. (v : Valuation) → Fits ranges.now v → (r : AnyReason)
        → Takes (times count (pair (below_bound bound r))) (values v stack.now) taken n) }
{
    let mut after = taken;
    for i in 0..count {
        after = take_pair(ranges, stack, after, bound, named)?;
    }
    Ok(after)
}

/// Takes a count, and as many pairs.
fn take_pairs(
    ranges: &[Range],
    stack: &Stack,
    taken: usize,
    bound: u32,
    named: Named,
) -> Result<usize, Failed>
    ensures { IfOk result (λ n. (v : Valuation) → Fits ranges.now v → (r : AnyReason)
        → Takes (pairs count_of (below_bound bound r)) (values v stack.now) taken n) }
{
    match stack.under(taken) {
        Some(cell) => {
            let n = count(ranges, cell, taken)?;
            let end = take_many_pairs(ranges, stack, taken + 1, bound, n, named)?;
            Ok(end)
        }
        None => Err(too_few(stack, 0)),
    }
}

/// Returns how many points there are where a point is tested, and what it names.
fn points(setting: &Setting<'_>, graphics: &Graphics<Cell, Zone>, within: Within) -> (u32, Named)
    ensures { (v : Valuation) (z : ℤ) → is_below z result.0
        ≡ is_point (setting_of setting.now) (graphics_of v graphics.now) within z }
{
    let named = Named::Point(zone_within(graphics, within));
    (points_within(setting, graphics, within), named)
}

/// Takes what an operand describes.
fn take(
    setting: &Setting<'_>,
    graphics: &Graphics<Cell, Zone>,
    ranges: &[Range],
    stack: &Stack,
    taken: usize,
    operand: Operand,
) -> Result<usize, Failed>
    ensures { IfOk result (λ n. (v : Valuation) → Fits ranges.now v
        → Takes (take_operand (setting_of setting.now) (graphics_of v graphics.now) operand)
        (values v stack.now) taken n) }
{
    match operand {
        Operand::Number => take_any(stack, taken),
        Operand::Point(within) => {
            let (bound, named) = points(setting, graphics, within);
            take_below(ranges, stack, taken, bound, named)
        }
        Operand::Cvt => take_below(ranges, stack, taken, setting.cvt, Named::ControlValue),
        Operand::Storage => {
            let bound = u32::from(setting.limits.storage);
            take_below(ranges, stack, taken, bound, Named::StorageCell)
        }
        Operand::Zone => take_zone(setting, ranges, stack, taken),
        Operand::Contour => {
            let bound = contours(setting, graphics.zp2);
            let named = Named::Contour(cell_of(graphics.zp2));
            take_below(ranges, stack, taken, bound, named)
        }
        Operand::LoopPoints(within) => {
            let n = loop_count(ranges, graphics.loop_number)?;
            let (bound, named) = points(setting, graphics, within);
            take_many(ranges, stack, taken, bound, n, named)
        }
        Operand::PointPairs(within) => {
            let (bound, named) = points(setting, graphics, within);
            take_pairs(ranges, stack, taken, bound, named)
        }
        Operand::CvtPairs => take_pairs(ranges, stack, taken, setting.cvt, Named::ControlValue),
    }
}

/// Takes the operands, one after the other, and returns how many cells were taken.
///
/// # Errors
/// The first test that may fail.
pub fn take_operands(
    setting: &Setting<'_>,
    graphics: &Graphics<Cell, Zone>,
    ranges: &[Range],
    stack: &Stack,
    operands: &[Operand],
) -> Result<usize, Failed>
    ensures { IfOk result (λ n. (v : Valuation) → Fits ranges.now v
        → Leaves (take_all (setting_of setting.now) (graphics_of v graphics.now) operands.now
        (values v stack.now)) (drop n (values v stack.now))) }
{
    let mut taken = 0;
    for operand in operands {
        taken = take(setting, graphics, ranges, stack, taken, *operand)?;
    }
    Ok(taken)
}

/// Tests the reference points that are used.
///
/// # Errors
/// The first test that may fail: `NoReferencePoint`, where the reference point is known and no point;
/// `MayBeOutsideIn` or `UnknownIn`, where it may be none.
pub fn test_uses(
    setting: &Setting<'_>,
    graphics: &Graphics<Cell, Zone>,
    ranges: &[Range],
    uses: &[Use],
) -> Result<(), Failed>
    ensures { OnOk result ((v : Valuation) → Fits ranges.now v
        → test_all (setting_of setting.now) (graphics_of v graphics.now) uses.now ≡ Ok tt) }
{
    for used in uses {
        let cell = reference(graphics, used.reference);
        let zone = pointer(graphics, used.pointer);
        if !is_index(ranges, cell, points_in(setting, zone)) {
            let register = Register::of(used.reference);
            return Err(failed_use(ranges, cell, register, cell_of(zone)));
        }
    }
    Ok(())
}
