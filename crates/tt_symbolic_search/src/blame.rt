//! Which merges are to blame for a refusal.

use crate::cell_names::CellName;
use crate::origins::{OriginNumber, Origins, Wanted};
use crate::stepping::Before;
use crate::track::Seen;
use std::alloc::{AllocError, Global};
use tt_code::kinds::{Control, Operand, Row, StackOp};
use tt_code::{Effect, Reason};
use tt_symbolic_state::cell::{Cell, number};

/// Returns the last elements of those that were taken, the top first.
fn push_taken(list: &mut Vec<Cell>, before: &Before, count: usize) -> Result<(), AllocError> {
    for cell in before.taken.as_slice().iter().rev().take(count) {
        list.push(*cell)?;
    }
    Ok(())
}

/// Whether a line takes as many elements as a count says, which may be the loop number.
fn is_counted(line: &Row) -> bool {
    matches!(
        line.operands.last(),
        Some(Operand::LoopPoints(_) | Operand::PointPairs(_) | Operand::CvtPairs)
    )
}

/// Lists what a line looks at.
fn push_operands(list: &mut Vec<Cell>, before: &Before, line: &Row) -> Result<(), AllocError> {
    if is_counted(line) {
        list.push(before.graphics.loop_number)?;
        push_taken(list, before, usize::MAX)?;
    } else {
        push_taken(list, before, line.operands.len().max(2))?;
    }
    for used in line.uses {
        list.push(before.graphics.reference(used.reference))?;
    }
    Ok(())
}

/// Lists the cells that the instruction looked at, the first ones first.
fn looked_at(alloc: Global, before: &Before) -> Result<Vec<Cell>, AllocError> {
    let mut list = Vec::new(alloc);
    match before.effect {
        Effect::Plain(line) => push_operands(&mut list, before, line)?,
        Effect::Control(Control::EndFunction) => {
            if let Some(left) = before.left {
                list.push(left)?;
            }
        }
        Effect::Control(_) | Effect::Stack(_) | Effect::Arithmetic(_) => push_taken(
            &mut list, before, 2,
        )?,
        Effect::Push(_) | Effect::NoEntry => {}
    }
    Ok(list)
}

/// Whether a refusal for this reason comes from the numbers that the instruction looked at, and not
/// only from the way to it.
fn is_direct(before: &Before, reason: Reason) -> bool {
    if reason != Reason::Underflow && reason != Reason::Overflow {
        return true;
    }
    match before.effect {
        Effect::Plain(line) => is_counted(line),
        Effect::Stack(StackOp::CopyIndexed | StackOp::MoveIndexed) => true,
        _ => false,
    }
}

/// Lists where the unknown ones of these cells come from.
fn push_unknown(
    list: &mut Vec<OriginNumber>,
    track: Seen<'_>,
    cells: &[Cell],
) -> Result<(), AllocError> {
    for cell in cells {
        if number(*cell, track.state.ranges.as_slice()).is_none() {
            list.push(track.origin(*cell))?;
        }
    }
    Ok(())
}

/// Lists where the symbols come from that were split, the latest first.
fn push_splits(list: &mut Vec<OriginNumber>, splits: &[OriginNumber]) -> Result<(), AllocError> {
    for origin in splits.iter().rev() {
        list.push(*origin)?;
    }
    Ok(())
}

/// Lists where what a refusal may come from comes from: the unknown cells that the instruction looked
/// at, the first ones first, and then the symbols that were split, the latest first.
fn suspects(
    alloc: Global,
    track: Seen<'_>,
    before: &Before,
    reason: Reason,
) -> Result<Vec<OriginNumber>, AllocError> {
    let mut list = Vec::new(alloc);
    if is_direct(before, reason) {
        let cells = looked_at(alloc, before)?;
        push_unknown(&mut list, track, cells.as_slice())?;
    }
    push_splits(&mut list, track.history.splits.as_slice())?;
    Ok(list)
}

/// Returns the nearest cells from whose merges one of the suspects comes.
fn nearest_of(
    alloc: Global,
    origins: &Origins,
    suspects: &[OriginNumber],
    wanted: Wanted,
    apart: &[CellName],
) -> Result<Vec<CellName>, AllocError> {
    for origin in suspects {
        let found = origins.nearest(alloc, *origin, wanted, apart)?;
        if !found.is_empty() {
            return Ok(found);
        }
    }
    Ok(Vec::new(alloc))
}

/// Returns the nearest cells from whose merges one of the suspects comes: those that lost a number, if
/// there are such.
fn nearest_culprits(
    alloc: Global,
    origins: &Origins,
    suspects: &[OriginNumber],
    apart: &[CellName],
) -> Result<Vec<CellName>, AllocError> {
    let lost = nearest_of(alloc, origins, suspects, Wanted::LostNumbers, apart)?;
    if !lost.is_empty() {
        return Ok(lost);
    }
    nearest_of(alloc, origins, suspects, Wanted::Any, apart)
}

/// Returns cells whose numbers are to be kept apart, after a refusal in a step; none, where no merge
/// is to blame.
pub(crate) fn culprits(
    alloc: Global,
    origins: &Origins,
    track: Seen<'_>,
    before: &Before,
    reason: Reason,
    apart: &[CellName],
) -> Result<Vec<CellName>, AllocError> {
    let suspects = suspects(alloc, track, before, reason)?;
    nearest_culprits(alloc, origins, suspects.as_slice(), apart)
}
