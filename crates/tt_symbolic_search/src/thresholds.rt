//! The numbers to which the ends of ranges are widened that rise again and again: the limits of the
//! font and powers of 2.

use std::alloc::{AllocError, Global};
use tt_setting::{Kind, Setting};

/// The thresholds of all fonts.
const USUAL: [i64; 18] = [
    LEAST, -1, 0, 1, 2, 4, 8, 16, 32, 63, 64, 128, 255, 256, 1024, 4096, 65535, GREATEST,
];

/// The least number of the machine.
pub(crate) const LEAST: i64 = -(1 << 31);

/// The greatest number of the machine.
pub(crate) const GREATEST: i64 = (1 << 31) - 1;

/// How often an end has risen before it is widened: from its fourth rise on.
const FIRST_WIDENED: u32 = 3;

/// How often an end has risen before at most where it is widened to a threshold only: from the
/// twelfth rise on, it is widened as far as it can be.
const LAST_MEASURED: u32 = 10;

/// Puts a count and the number just below it in a list.
fn push_count(list: &mut Vec<i64>, count: i64) -> Result<(), AllocError> {
    list.extend_from_slice(&[count.saturating_sub(1), count])
}

/// Returns the counts that a font's limits and its control values give.
fn counts(setting: &Setting<'_>) -> [i64; 5] {
    let limits = &setting.limits;
    [
        i64::from(limits.storage),
        i64::from(limits.functions),
        i64::from(limits.twilight),
        i64::from(limits.stack),
        i64::from(setting.cvt),
    ]
}

/// Puts the thresholds of so many points in a list.
fn push_points(list: &mut Vec<i64>, points: i64) -> Result<(), AllocError> {
    push_count(list, points.saturating_add(4))?;
    list.push(points)?;
    Ok(())
}

/// Puts the thresholds that a program's setting gives in a list.
fn push_own(list: &mut Vec<i64>, setting: &Setting<'_>) -> Result<(), AllocError> {
    for count in &counts(setting) {
        push_count(list, *count)?;
    }
    match setting.kind {
        Kind::Glyph { points, .. } => push_points(list, i64::from(points)),
        Kind::Font | Kind::Cvt => Ok(()),
    }
}

/// Makes the thresholds of a program.
pub(crate) fn thresholds(alloc: Global, setting: &Setting<'_>) -> Result<Vec<i64>, AllocError> {
    let mut list = Vec::from_slice(alloc, &USUAL)?;
    push_own(&mut list, setting)?;
    Ok(list)
}

/// Returns the low end of the range of two that had this low end and has risen so many times before,
/// where the other one begins at a number: widened, where that is lower.
pub(crate) fn widened_low(thresholds: &[i64], old: i64, new: i64, rises: u32) -> i64 {
    if new >= old || rises < FIRST_WIDENED {
        return old.min(new);
    }
    if rises > LAST_MEASURED {
        return LEAST;
    }
    let below = thresholds.iter().copied().filter(|number| *number <= new);
    below.max().unwrap_or(LEAST)
}

/// Returns the high end likewise.
pub(crate) fn widened_high(thresholds: &[i64], old: i64, new: i64, rises: u32) -> i64 {
    if new <= old || rises < FIRST_WIDENED {
        return old.max(new);
    }
    if rises > LAST_MEASURED {
        return GREATEST;
    }
    let above = thresholds.iter().copied().filter(|number| *number >= new);
    above.min().unwrap_or(GREATEST)
}
