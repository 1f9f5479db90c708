//! Whether a fault is certain where a place is reached, or only may be.

use crate::describing::bound_in;
use crate::meaning::{class_of, class_text};
use crate::scene::Scene;
use tt_code::{Reason, ReasonClass};
use tt_setting::{Failed, Role, Setting, ZoneCell};

/// What is told of a fault that is certain where a run comes to the place.
const CERTAIN: &str = "a possible fault: certain where a run comes here with what is told below. \
    Whether one does isn't shown.";

/// The same where no number that an operand may be is in range.
const ALL_OUTSIDE: &str =
    "undecided, but certain where a run comes here with what is told below: no \
    number that it may be is in range. Whether one does isn't shown.";

/// Whether an index is out of range in a zone; where it may be either zone, in both.
fn is_outside(setting: &Setting<'_>, role: Role, zone: ZoneCell, number: i32) -> bool {
    let is_in = |known: ZoneCell| match role {
        Role::Contour => setting.is_contour(known, number),
        _ => setting.is_in(known, number),
    };
    match zone {
        ZoneCell::Either => !is_in(ZoneCell::Zero) && !is_in(ZoneCell::One),
        known => !is_in(known),
    }
}

/// Whether no number of the range of an index is one that the instruction can take, if this test fails
/// since it may be out of range.
fn is_all_outside(scene: &Scene<'_>, failed: Failed) -> bool {
    let (role, zone) = match failed {
        Failed::MayBeOutside { role, zone, .. } => (role, zone),
        Failed::MayBeOutsideIn { zone, .. } => (Role::Point, zone),
        _ => return false,
    };
    match scene.range(failed) {
        Some((low, high)) => high < 0 || low >= i64::from(bound_in(scene.setting, role, zone)),
        None => false,
    }
}

/// Whether each run that comes to a place with what is known there fails this test, since all that the
/// test reads is known.
fn is_certain(setting: &Setting<'_>, failed: Failed) -> bool {
    match failed {
        Failed::NoPoint { zone, number } | Failed::NoReferencePoint { zone, number, .. } => {
            is_outside(setting, Role::Point, zone, number)
        }
        Failed::NoContour { zone, number } => is_outside(setting, Role::Contour, zone, number),
        Failed::TooFew { .. }
        | Failed::NoElement { .. }
        | Failed::TooDeep { .. }
        | Failed::NoControlValue { .. }
        | Failed::NoStorageCell { .. }
        | Failed::NoZone { .. }
        | Failed::NegativeCount { .. }
        | Failed::NegativeLoop { .. }
        | Failed::LowIndex { .. }
        | Failed::NoTarget { .. }
        | Failed::NoFunction { .. }
        | Failed::Only(Reason::Definition) => true,
        _ => false,
    }
}

/// Whether each run that comes to a place with what is known there is sure to fail this test.
pub(crate) fn is_certain_at(scene: &Scene<'_>, failed: Failed) -> bool {
    let is_fault = class_of(failed) == ReasonClass::PossibleFault;
    (is_fault && is_certain(scene.setting, failed)) || is_all_outside(scene, failed)
}

/// Returns in words the class of the refusal where this test fails, and whether the fault is certain
/// where a run comes there.
pub(crate) fn class_at(scene: &Scene<'_>, failed: Failed) -> &'static str {
    let class = class_of(failed);
    if class == ReasonClass::PossibleFault && is_certain(scene.setting, failed) {
        return CERTAIN;
    }
    if is_all_outside(scene, failed) {
        return ALL_OUTSIDE;
    }
    class_text(failed.reason(), class)
}
