//! Taking operands. `taken` is how many cells are taken from the top already; a function that takes
//! more returns how many are taken then, or the first test that fails.

ghost use Rattle.std.specs.Prelude.{◌≡◌, ◌+◌, Err, IfErr, IfOk, Ok, OnOk, length};
ghost use Rattle.tt_code.specs.Operands.{pair, take_one, times};
ghost use Rattle.tt_code.specs.declared.kinds.Operand.TheVariants as operands;
ghost use Rattle.tt_abs.specs.declared.cells.Cell.TheVariants.{Known, Unknown};
ghost use Rattle.tt_setting.specs.declared.failed.Failed.TheVariants as failed;
ghost use Rattle.tt_setting.specs.declared.failed.Role.TheVariants as roles;
ghost use Rattle.tt_abs.specs.Failures.{IsRoleInLine};
ghost use Rattle.tt_setting.specs.Refusals.{reason_of};
ghost use Rattle.tt_setting.specs.Settings.{setting_of};
ghost use Rattle.tt_abs.specs.Representation.Taken.{IsCountUnder, IsNumberUnder, IsRole, IsRoleFrom, IsTakingRefused, NoCountUnder, NoNumberUnder, TakesFrom, TakesTo, FailsUse, PassesUse, TellsOfGraphics, TellsOfGraphicsIn, TellsOfOperands, TellsOfStack, TellsOfStackAs, TellsOfStackIn, cvt_pairs, loop_points, one_contour, one_cvt, one_operand, one_point, one_storage, one_zone, point_pairs};
ghost use Rattle.tt_abs.specs.Transfers.{known, known_count, take_cells, test_cell_uses};

use crate::cells::Cell;
use crate::registers::zone_within;
use crate::stack::Stack;
use tt_code::Graphics;
use tt_code::kinds::{Operand, Use, Within};
use tt_setting::setting::is_index;
use tt_setting::{Failed, Register, Role, Setting, ZoneCell};

/// Returns the failed test of a stack that has too few cells.
pub fn too_few(stack: &Stack) -> Failed
    ensures { result ≡ failed.TooFew (length stack.now) }
{
    let depth = stack.len() as u32;
    Failed::TooFew { depth }
}

/// Returns the number of a cell that is under this many others, and is taken as this.
///
/// # Errors
/// `Unknown` where it isn't known.
pub fn number(cell: Cell, role: Role, under: u32) -> Result<i32, Failed>
    ensures ok { IfOk result (λ z. cell ≡ Known z) }
    ensures refused { IfErr result (λ f. known cell ≡ Err (reason_of f)) }
    ensures unknown { IfErr result (λ f. cell ≡ Unknown) }
    ensures told { IfErr result (λ f. f ≡ failed.Unknown role under) }
{
    match cell {
        Cell::Known(z) => Ok(z),
        Cell::Unknown => Err(Failed::Unknown { role, under }),
    }
}

/// Returns the number under the `taken` cells, and how many cells are taken with it.
///
/// # Errors
/// `TooFew` where there is none, `Unknown` where it isn't known.
fn next_number(stack: &Stack, taken: usize, role: Role) -> Result<(i32, usize), Failed>
    ensures ok { IfOk result (IsNumberUnder stack.now taken) }
    ensures refused { IfErr result (NoNumberUnder stack.now taken) }
    ensures told { IfErr result (TellsOfStackAs (IsRole role taken) stack.now) }
{
    match stack.under(taken) {
        Some(cell) => {
            let z = number(cell, role, taken as u32)?;
            Ok((z, taken + 1))
        }
        None => Err(too_few(stack)),
    }
}

/// Takes a CVT index.
fn take_cvt(setting: &Setting<'_>, stack: &Stack, taken: usize) -> Result<usize, Failed>
    ensures ok { IfOk result (TakesFrom stack.now taken (one_cvt setting.now)) }
    ensures refused { IfErr result (IsTakingRefused stack.now taken (one_cvt setting.now)) }
    ensures one { IfOk result (λ n. n ≡ taken + 1) }
    ensures told { IfErr result
        (TellsOfStackIn setting.now stack.now (IsRoleFrom taken operands.Cvt)) }
{
    let (index, after) = next_number(stack, taken, Role::ControlValue)?;
    if is_index(index, setting.cvt) {
        Ok(after)
    } else {
        Err(Failed::NoControlValue { index })
    }
}

/// Takes an index into the storage area.
fn take_storage(setting: &Setting<'_>, stack: &Stack, taken: usize) -> Result<usize, Failed>
    ensures ok { IfOk result (TakesFrom stack.now taken (one_storage setting.now)) }
    ensures refused { IfErr result (IsTakingRefused stack.now taken (one_storage setting.now)) }
    ensures told { IfErr result
        (TellsOfStackIn setting.now stack.now (IsRoleFrom taken operands.Storage)) }
{
    let (index, after) = next_number(stack, taken, Role::StorageCell)?;
    if is_index(index, u32::from(setting.limits.storage)) {
        Ok(after)
    } else {
        Err(Failed::NoStorageCell { index })
    }
}

/// Takes a zone that the font has.
fn take_zone(setting: &Setting<'_>, stack: &Stack, taken: usize) -> Result<usize, Failed>
    ensures ok { IfOk result (TakesFrom stack.now taken (one_zone setting.now)) }
    ensures refused { IfErr result (IsTakingRefused stack.now taken (one_zone setting.now)) }
    ensures told { IfErr result
        (TellsOfStackIn setting.now stack.now (IsRoleFrom taken operands.Zone)) }
{
    let (number, after) = next_number(stack, taken, Role::Zone)?;
    if setting.is_zone(number) {
        Ok(after)
    } else {
        Err(Failed::NoZone { number })
    }
}

/// Takes a contour of the zone of zp2.
fn take_contour(
    setting: &Setting<'_>,
    graphics: &Graphics<Cell, ZoneCell>,
    stack: &Stack,
    taken: usize,
) -> Result<usize, Failed>
    ensures ok { IfOk result (TakesFrom stack.now taken
        (one_contour setting.now graphics.now.zp2)) }
    ensures refused { IfErr result (IsTakingRefused stack.now taken
        (one_contour setting.now graphics.now.zp2)) }
    ensures told { IfErr result
        (TellsOfOperands setting.now graphics.now stack.now (IsRoleFrom taken operands.Contour)) }
{
    let (number, after) = next_number(stack, taken, Role::Contour)?;
    let zone = graphics.zp2;
    if setting.is_contour(zone, number) {
        Ok(after)
    } else {
        Err(Failed::NoContour { zone, number })
    }
}

/// Takes a point that is in each zone in which it is tested.
fn take_point(
    setting: &Setting<'_>,
    graphics: &Graphics<Cell, ZoneCell>,
    stack: &Stack,
    taken: usize,
    within: Within,
) -> Result<usize, Failed>
    ensures ok { IfOk result (TakesFrom stack.now taken
        (one_point setting.now graphics.now within)) }
    ensures refused { IfErr result (IsTakingRefused stack.now taken
        (one_point setting.now graphics.now within)) }
    ensures one { IfOk result (λ n. n ≡ taken + 1) }
    ensures told { IfErr result
        (TellsOfOperands setting.now graphics.now stack.now
        (IsRoleFrom taken (operands.Point within))) }
{
    let (number, after) = next_number(stack, taken, Role::Point)?;
    let zone = zone_within(graphics, within);
    if setting.is_in(zone, number) {
        Ok(after)
    } else {
        Err(Failed::NoPoint { zone, number })
    }
}

/// Takes any cell.
fn take_any(stack: &Stack, taken: usize) -> Result<usize, Failed>
    ensures ok { IfOk result (TakesFrom stack.now taken take_one) }
    ensures refused { IfErr result (IsTakingRefused stack.now taken take_one) }
    ensures one { IfOk result (λ n. n ≡ taken + 1) }
    ensures told { IfErr result (TellsOfStack stack.now) }
{
    match stack.under(taken) {
        Some(_) => Ok(taken + 1),
        None => Err(too_few(stack)),
    }
}

/// Takes `count` points.
fn take_points(
    setting: &Setting<'_>,
    graphics: &Graphics<Cell, ZoneCell>,
    stack: &Stack,
    taken: usize,
    within: Within,
    count: u32,
) -> Result<usize, Failed>
    ensures ok { IfOk result (TakesFrom stack.now taken
        (times count (one_point setting.now graphics.now within))) }
    ensures refused { IfErr result (IsTakingRefused stack.now taken
        (times count (one_point setting.now graphics.now within))) }
    ensures told { IfErr result
        (TellsOfOperands setting.now graphics.now stack.now
        (IsRoleFrom taken (operands.LoopPoints within))) }
{
    let mut after = taken;
    for i in 0..count {
        after = take_point(setting, graphics, stack, after, within)?;
    }
    Ok(after)
}

/// Returns the loop number as a count.
fn loop_count(graphics: &Graphics<Cell, ZoneCell>) -> Result<u32, Failed>
    ensures ok { IfOk result (λ n. known_count graphics.now.loop_number ≡ Ok n) }
    ensures refused { IfErr result
        (λ f. known_count graphics.now.loop_number ≡ Err (reason_of f)) }
    ensures told { IfErr result (TellsOfGraphics graphics.now) }
{
    match graphics.loop_number {
        Cell::Known(count) => match u32::try_from(count) {
            Ok(n) => Ok(n),
            Err(_) => Err(Failed::NegativeLoop { count }),
        },
        Cell::Unknown => Err(Failed::UnknownIn(Register::Loop)),
    }
}

/// Takes as many points as the loop number says, which is tested before the first one.
fn take_loop_points(
    setting: &Setting<'_>,
    graphics: &Graphics<Cell, ZoneCell>,
    stack: &Stack,
    taken: usize,
    within: Within,
) -> Result<usize, Failed>
    ensures ok { IfOk result (TakesFrom stack.now taken
        (loop_points setting.now graphics.now within)) }
    ensures refused { IfErr result (IsTakingRefused stack.now taken
        (loop_points setting.now graphics.now within)) }
    ensures told { IfErr result
        (TellsOfOperands setting.now graphics.now stack.now
        (IsRoleFrom taken (operands.LoopPoints within))) }
{
    let n = loop_count(graphics)?;
    take_points(setting, graphics, stack, taken, within, n)
}

/// Takes a point and any cell.
fn take_point_pair(
    setting: &Setting<'_>,
    graphics: &Graphics<Cell, ZoneCell>,
    stack: &Stack,
    taken: usize,
    within: Within,
) -> Result<usize, Failed>
    ensures ok { IfOk result (TakesFrom stack.now taken
        (pair (one_point setting.now graphics.now within))) }
    ensures refused { IfErr result (IsTakingRefused stack.now taken
        (pair (one_point setting.now graphics.now within))) }
    ensures two { IfOk result (λ n. n ≡ taken + 2) }
    ensures told { IfErr result
        (TellsOfOperands setting.now graphics.now stack.now
        (IsRoleFrom taken (operands.Point within))) }
{
    let after = take_point(setting, graphics, stack, taken, within)?;
    take_any(stack, after)
}

/// Takes a CVT index and any cell.
fn take_cvt_pair(setting: &Setting<'_>, stack: &Stack, taken: usize) -> Result<usize, Failed>
    ensures ok { IfOk result (TakesFrom stack.now taken (pair (one_cvt setting.now))) }
    ensures refused { IfErr result (IsTakingRefused stack.now taken (pair (one_cvt setting.now))) }
    ensures two { IfOk result (λ n. n ≡ taken + 2) }
    ensures told { IfErr result
        (TellsOfStackIn setting.now stack.now (IsRoleFrom taken operands.Cvt)) }
{
    let after = take_cvt(setting, stack, taken)?;
    take_any(stack, after)
}

/// Returns the count under the `taken` cells, and how many cells are taken with it.
fn next_count(stack: &Stack, taken: usize) -> Result<(u32, usize), Failed>
    ensures ok { IfOk result (IsCountUnder stack.now taken) }
    ensures refused { IfErr result (NoCountUnder stack.now taken) }
    ensures told { IfErr result (TellsOfStackAs (IsRole roles.Count taken) stack.now) }
{
    match stack.under(taken) {
        Some(Cell::Known(count)) => match u32::try_from(count) {
            Ok(n) => Ok((n, taken + 1)),
            Err(_) => Err(Failed::NegativeCount { count }),
        },
        Some(Cell::Unknown) => {
            let under = taken as u32;
            Err(Failed::Unknown {
                role: Role::Count,
                under,
            })
        }
        None => Err(too_few(stack)),
    }
}

/// Takes a count, and as many pairs of a point and any cell.
fn take_point_pairs(
    setting: &Setting<'_>,
    graphics: &Graphics<Cell, ZoneCell>,
    stack: &Stack,
    taken: usize,
    within: Within,
) -> Result<usize, Failed>
    ensures ok { IfOk result (TakesFrom stack.now taken
        (point_pairs setting.now graphics.now within)) }
    ensures refused { IfErr result (IsTakingRefused stack.now taken
        (point_pairs setting.now graphics.now within)) }
    ensures told { IfErr result
        (TellsOfOperands setting.now graphics.now stack.now
        (IsRoleFrom taken (operands.PointPairs within))) }
{
    let (n, mut after) = next_count(stack, taken)?;
    for i in 0..n {
        after = take_point_pair(setting, graphics, stack, after, within)?;
    }
    Ok(after)
}

/// Takes a count, and as many pairs of a CVT index and any cell.
fn take_cvt_pairs(setting: &Setting<'_>, stack: &Stack, taken: usize) -> Result<usize, Failed>
    ensures ok { IfOk result (TakesFrom stack.now taken (cvt_pairs setting.now)) }
    ensures refused { IfErr result (IsTakingRefused stack.now taken (cvt_pairs setting.now)) }
    ensures told { IfErr result
        (TellsOfStackIn setting.now stack.now (IsRoleFrom taken operands.CvtPairs)) }
{
    let (n, mut after) = next_count(stack, taken)?;
    for i in 0..n {
        after = take_cvt_pair(setting, stack, after)?;
    }
    Ok(after)
}

/// Takes what an operand describes.
fn take_operand(
    setting: &Setting<'_>,
    graphics: &Graphics<Cell, ZoneCell>,
    stack: &Stack,
    taken: usize,
    operand: Operand,
) -> Result<usize, Failed>
    ensures ok { IfOk result (TakesFrom stack.now taken
        (one_operand setting.now graphics.now operand)) }
    ensures refused { IfErr result (IsTakingRefused stack.now taken
        (one_operand setting.now graphics.now operand)) }
    ensures told { IfErr result
        (TellsOfOperands setting.now graphics.now stack.now (IsRoleFrom taken operand)) }
{
    match operand {
        Operand::Number => take_any(stack, taken),
        Operand::Point(within) => take_point(setting, graphics, stack, taken, within),
        Operand::Cvt => take_cvt(setting, stack, taken),
        Operand::Storage => take_storage(setting, stack, taken),
        Operand::Zone => take_zone(setting, stack, taken),
        Operand::Contour => take_contour(setting, graphics, stack, taken),
        Operand::LoopPoints(within) => take_loop_points(setting, graphics, stack, taken, within),
        Operand::PointPairs(within) => take_point_pairs(setting, graphics, stack, taken, within),
        Operand::CvtPairs => take_cvt_pairs(setting, stack, taken),
    }
}

/// Takes the operands of a line, from the top on, and returns how many cells they are.
///
/// # Errors
/// The first test that fails.
pub fn take_operands(
    setting: &Setting<'_>,
    graphics: &Graphics<Cell, ZoneCell>,
    stack: &Stack,
    operands: &[Operand],
) -> Result<usize, Failed>
    ensures ok { IfOk result (λ n. TakesTo stack.now n
        (take_cells (setting_of setting.now) graphics.now operands.now stack.now)) }
    ensures refused { IfErr result (λ f.
        take_cells (setting_of setting.now) graphics.now operands.now stack.now
        ≡ Err (reason_of f)) }
    ensures told { IfErr result
        (TellsOfOperands setting.now graphics.now stack.now
        (IsRoleInLine (setting_of setting.now) graphics.now stack.now operands.now)) }
{
    let mut taken = 0;
    for operand in operands {
        taken = take_operand(setting, graphics, stack, taken, *operand)?;
    }
    Ok(taken)
}

/// Tests a reference point that is used as a point of a pointer's zone.
fn test_use(
    setting: &Setting<'_>,
    graphics: &Graphics<Cell, ZoneCell>,
    used: Use,
) -> Result<(), Failed>
    ensures ok { OnOk result (PassesUse setting.now graphics.now used) }
    ensures refused { IfErr result (FailsUse setting.now graphics.now used) }
    ensures told { IfErr result (TellsOfGraphicsIn setting.now graphics.now) }
{
    let register = Register::of(used.reference);
    let zone = graphics.pointer(used.pointer);
    match graphics.reference(used.reference) {
        Cell::Known(number) => {
            if setting.is_in(zone, number) {
                Ok(())
            } else {
                Err(Failed::NoReferencePoint {
                    register,
                    zone,
                    number,
                })
            }
        }
        Cell::Unknown => Err(Failed::UnknownIn(register)),
    }
}

/// Tests the reference points that a line uses.
///
/// # Errors
/// The first test that fails: `UnknownIn` where a reference point's number isn't known,
/// `NoReferencePoint` where its zone may have no point of this number.
pub fn test_uses(
    setting: &Setting<'_>,
    graphics: &Graphics<Cell, ZoneCell>,
    uses: &[Use],
) -> Result<(), Failed>
    ensures ok { OnOk result
        (test_cell_uses (setting_of setting.now) graphics.now uses.now ≡ Ok tt) }
    ensures refused { IfErr result (λ f.
        test_cell_uses (setting_of setting.now) graphics.now uses.now ≡ Err (reason_of f)) }
    ensures told { IfErr result (TellsOfGraphicsIn setting.now graphics.now) }
{
    for used in uses {
        test_use(setting, graphics, *used)?;
    }
    Ok(())
}
