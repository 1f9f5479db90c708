//! What a refusal tells in numbers: the operand with which a test fails, and the calls that lead to the
//! place.

use crate::certainty::is_certain_at;
use crate::describing::{bound_in, out_of_range};
use crate::knowledge::{Calls, zone_name};
use crate::scene::Scene;
use hintcheck_report::Place;
use std::alloc::{AllocError, Global};
use tt_setting::setting::body_offset;
use tt_setting::{Failed, Name, Register, Role, Spot, ZoneCell};

/// A number with which an instruction fails a test.
#[derive(Clone, Copy)]
pub struct Operand {
    /// What the instruction takes it as, in a word or two, as `point`.
    pub kind: &'static str,
    /// The least and the greatest number that it may be, the same twice where it is known; None where
    /// nothing is known of it.
    pub range: Option<(i64, i64)>,
    /// The zone, of a point or a contour.
    pub zone: Option<&'static str>,
    /// How many there are of what it numbers: it has to be below that. Of a depth of the stack,
    /// maxStackElements.
    pub count: Option<u32>,
}

/// A call that is open at a place.
#[derive(Clone, Copy)]
pub struct OpenedCall {
    /// Where it is called.
    pub at: Place,
    /// The number of the function, where a function is known to have the body.
    pub function: Option<u16>,
    /// Where the function's body begins.
    pub body: Place,
}

/// What a refusal tells in numbers.
#[derive(Drop)]
pub struct Details {
    /// Whether a run that comes to the place with what is known there is sure to fail.
    pub is_certain: bool,
    /// The number with which the test fails, if it is one.
    pub operand: Option<Operand>,
    /// The calls that are open at the place, the outermost first.
    pub calls: Vec<OpenedCall>,
}

impl Details {
    /// Returns what is told where nothing is known at the place.
    pub fn none(alloc: Global) -> Details {
        Details {
            is_certain: false,
            operand: None,
            calls: Vec::new(alloc),
        }
    }

    /// Returns what is told of a program of this name in a scene where this test fails, with these
    /// calls.
    ///
    /// # Errors
    /// If memory runs out.
    pub(crate) fn of(
        alloc: Global,
        program: Name,
        scene: &Scene<'_>,
        failed: Failed,
        calls: Calls<'_>,
    ) -> Result<Details, AllocError> {
        Ok(Details {
            is_certain: is_certain_at(scene, failed),
            operand: operand_of(scene, failed),
            calls: opened_calls(alloc, program, scene, calls)?,
        })
    }
}

/// Returns what a number is taken as, in a word or two.
fn kind_of(role: Role) -> &'static str {
    match role {
        Role::Point => "point",
        Role::ControlValue => "control value",
        Role::StorageCell => "storage cell",
        Role::Zone => "zone",
        Role::Contour => "contour",
        Role::Count => "count",
        Role::StackIndex => "stack index",
        Role::Distance => "jump",
        Role::Function => "function",
        Role::Turns => "turns",
    }
}

/// Returns the zone of what a number is taken as, if it is in a zone.
fn zone_of(role: Role, zone: ZoneCell) -> Option<&'static str> {
    matches!(role, Role::Point | Role::Contour).then_some(zone_name(zone))
}

/// Returns how many there are of what a number is taken as, if it numbers something.
fn count_of(scene: &Scene<'_>, role: Role, zone: ZoneCell) -> Option<u32> {
    match role {
        Role::Point | Role::ControlValue | Role::StorageCell | Role::Contour | Role::Function =>
            Some(bound_in(scene.setting, role, zone)),
        Role::Zone => Some(u32::from(scene.setting.limits.zones)),
        Role::Count | Role::StackIndex | Role::Distance | Role::Turns => None,
    }
}

/// Returns an operand that is taken as this in a zone.
fn operand_as(scene: &Scene<'_>, role: Role, zone: ZoneCell, range: Option<(i64, i64)>) -> Operand {
    Operand {
        kind: kind_of(role),
        range,
        zone: zone_of(role, zone),
        count: count_of(scene, role, zone),
    }
}

/// Returns the depth of the stack with which this test fails, if it is one.
fn depth_of(failed: Failed) -> Option<u32> {
    match failed {
        Failed::TooFew { depth } => Some(depth),
        Failed::TooDeep { depth } => Some(depth),
        Failed::OtherDepth { depth } => Some(depth),
        _ => None,
    }
}

/// Returns the number by which a way, an index of the stack or the loop number fails a test, with the
/// word for it, if that is what fails.
fn number_of_way(failed: Failed) -> Option<(&'static str, i32)> {
    match failed {
        Failed::NoElement { index } => Some(("stack index", index)),
        Failed::NegativeLoop { count } => Some(("loop", count)),
        Failed::NoTarget { by } => Some(("jump", by)),
        Failed::Undefined { number } => Some(("function", number)),
        Failed::Running { number } => Some(("function", number)),
        _ => None,
    }
}

/// Returns the depth, or the number by which a way fails a test, with the word for it, if it is one.
fn plain_number(failed: Failed) -> Option<(&'static str, i64)> {
    if let Some(depth) = depth_of(failed) {
        return Some(("depth", i64::from(depth)));
    }
    let (kind, number) = number_of_way(failed)?;
    Some((kind, i64::from(number)))
}

/// Returns how many there are of what such a number tells.
fn count_of_way(scene: &Scene<'_>, failed: Failed) -> Option<u32> {
    let limits = scene.setting.limits;
    match failed {
        Failed::TooDeep { .. } => Some(u32::from(limits.stack)),
        Failed::Undefined { .. } => Some(u32::from(limits.functions)),
        Failed::NoElement { .. } => u32::try_from(scene.view.depth()).ok(),
        _ => None,
    }
}

/// Returns the number with which this test fails since it isn't known, or not well enough.
fn unknown_operand(scene: &Scene<'_>, failed: Failed) -> Option<Operand> {
    let (role, zone) = match failed {
        Failed::Unknown { role, .. } => (role, ZoneCell::Either),
        Failed::MayBeOutside { role, zone, .. } => (role, zone),
        Failed::MayBeOutsideIn { zone, .. } => (Role::Point, zone),
        Failed::UnknownIn(Register::Loop) => (Role::Count, ZoneCell::Either),
        Failed::UnknownIn(_) => (Role::Point, ZoneCell::Either),
        _ => return None,
    };
    Some(operand_as(scene, role, zone, scene.range(failed)))
}

/// Returns the number with which this test fails, if it is one.
fn operand_of(scene: &Scene<'_>, failed: Failed) -> Option<Operand> {
    if let Some((number, role, zone)) = out_of_range(failed) {
        let known = i64::from(number);
        return Some(operand_as(scene, role, zone, Some((known, known))));
    }
    if let Some((kind, number)) = plain_number(failed) {
        return Some(Operand {
            kind,
            range: Some((number, number)),
            zone: None,
            count: count_of_way(scene, failed),
        });
    }
    unknown_operand(scene, failed)
}

/// Returns where the call is that comes in this place among the open ones, the outermost first, and the
/// body that it enters.
fn call_at(calls: Calls<'_>, place: usize) -> Option<(u32, u32)> {
    match calls {
        Calls::Strict(frames) => {
            let frame = frames.get(place)?;
            Some((frame.call, frame.body))
        }
        Calls::Symbolic(open) => {
            let call = open.get(place)?;
            Some((call.call, call.body))
        }
    }
}

/// Returns the open calls of a program of this name.
fn opened_calls(
    alloc: Global,
    program: Name,
    scene: &Scene<'_>,
    calls: Calls<'_>,
) -> Result<Vec<OpenedCall>, AllocError> {
    let functions = scene.view.functions();
    let mut opened = Vec::new(alloc);
    let mut caller = Spot::Main;
    for place in 0..calls.len() {
        let Some((call, body)) = call_at(calls, place) else {
            break;
        };
        let spot = Spot::of_body(body);
        let function = functions.iter().find(|function| function.1 == body);
        opened.push(OpenedCall {
            at: Place::at(program, caller, call),
            function: function.map(|function| function.0),
            body: Place::at(program, spot, body_offset(body)),
        })?;
        caller = spot;
    }
    Ok(opened)
}
