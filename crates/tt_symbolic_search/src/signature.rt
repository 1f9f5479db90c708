//! Signatures: states of one signature are merged, others are kept apart.

use crate::cell_names::{CellName, Part};
use crate::track::Seen;
use tt_symbolic_state::State;
use tt_symbolic_state::cell::{Cell, bounds};
use tt_symbolic_state::state::Zone;

/// An odd number without a pattern, by which hashes are multiplied.
const MULTIPLIER: u64 = 0x517c_c1b7_2722_0a95;

/// How many numbers the range of a cell may have that is told from other ranges.
const NARROW: i64 = 64;

/// In place of a cell of which too little is known.
const UNKNOWN: i64 = 1 << 40;

/// Returns a hash of a number after others.
pub(crate) fn mix(hash: u64, number: i64) -> u64 {
    let bits = u64::from_ne_bytes(number.to_ne_bytes());
    (hash.rotate_left(5) ^ bits).wrapping_mul(MULTIPLIER)
}

/// Returns a hash of what is known of a cell after others.
fn mix_cell(hash: u64, state: &State, cell: Option<Cell>) -> u64 {
    let Some(cell) = cell else {
        return mix(hash, UNKNOWN);
    };
    match bounds(cell, state.ranges.as_slice()) {
        Some((low, high)) if high.saturating_sub(low) < NARROW => mix(mix(hash, low), high),
        _ => mix(hash, UNKNOWN),
    }
}

/// Returns the number of a zone.
fn zone_number(zone: Zone) -> i64 {
    match zone {
        Zone::Zero => 0,
        Zone::One => 1,
    }
}

/// Returns a hash of the zone pointers after others.
fn mix_zones(hash: u64, state: &State) -> u64 {
    let graphics = &state.graphics;
    let first = mix(hash, zone_number(graphics.zp0));
    let second = mix(first, zone_number(graphics.zp1));
    mix(second, zone_number(graphics.zp2))
}

/// Returns a hash of where a state is, and of the turns that are known to be left, after others.
fn mix_calls(hash: u64, state: &State) -> u64 {
    let mut hash = hash;
    for call in state.calls.as_slice() {
        hash = mix(mix(hash, i64::from(call.body)), i64::from(call.call));
        if call.left.factor == 0 {
            hash = mix(hash, i64::from(call.left.offset));
        }
    }
    hash
}

/// Returns a hash of functions after others.
fn mix_functions(hash: u64, functions: &[(u16, u32)]) -> u64 {
    let mut hash = hash;
    for (number, body) in functions {
        hash = mix(mix(hash, i64::from(*number)), i64::from(*body));
    }
    hash
}

/// Returns the height below which the elements of the stack are the main program's own.
fn main_height(track: Seen<'_>) -> usize {
    let mut height = track.state.stack.len();
    for level in 1..track.history.levels.len() {
        height = height.min(track.history.levels[level].base as usize);
    }
    height
}

/// Returns a hash of the known numbers of the elements of the stack that are the main program's
/// own, after others.
fn mix_main_elements(hash: u64, track: Seen<'_>) -> u64 {
    let height = main_height(track);
    if let Some(noted) = track.history.noted_hash(height) {
        return mix(hash, i64::from_ne_bytes(noted.to_ne_bytes()));
    }
    let mut own = 0;
    for cell in track.state.stack.as_slice().iter().take(height) {
        if cell.factor == 0 {
            own = mix(own, i64::from(cell.offset));
        }
    }
    mix(hash, i64::from_ne_bytes(own.to_ne_bytes()))
}

/// Returns a hash of an element that a body has put on the stack, at each of its levels, after
/// others.
fn mix_element(hash: u64, track: Seen<'_>, body: Option<u32>, place: u32) -> u64 {
    let mut hash = hash;
    let cells = track.state.stack.as_slice();
    for level in 1..track.history.levels.len() {
        if track.body_at(level) != body {
            continue;
        }
        let end = match track.history.levels.get(level.saturating_add(1)) {
            Some(next) => next.base as usize,
            None => cells.len(),
        };
        let height = (track.history.levels[level].base as usize).saturating_add(place as usize);
        if height < end {
            hash = mix_cell(hash, track.state, cells.get(height).copied());
        }
    }
    hash
}

/// Returns a hash of a cell that is kept apart, after others.
fn mix_apart(hash: u64, track: Seen<'_>, name: CellName) -> u64 {
    if let Part::Stack(place) = name.part {
        return mix_element(hash, track, name.body, place);
    }
    if name.body != track.body() {
        return hash;
    }
    let state = track.state;
    let cell = match name.part {
        Part::Rp0 => Some(state.graphics.rp0),
        Part::Rp1 => Some(state.graphics.rp1),
        Part::Rp2 => Some(state.graphics.rp2),
        Part::Loop => Some(state.graphics.loop_number),
        Part::Storage(number) => state.storage.get(number),
        Part::Control(number) => state.controls.get(number),
        Part::Left | Part::Stack(_) => None,
    };
    mix_cell(hash, state, cell)
}

/// Returns a hash of where a state is, of functions that it knows, and of what is kept apart: only
/// states of the same are merged.
pub(crate) fn signature(track: Seen<'_>, functions: &[(u16, u32)], apart: &[CellName]) -> u64 {
    let state = track.state;
    let depth = i64::try_from(state.stack.len()).unwrap_or(0);
    let here = mix(mix(0, i64::from(state.offset)), depth);
    let place = mix_functions(mix_zones(mix_calls(here, state), state), functions);
    let mut hash = mix_main_elements(place, track);
    for name in apart {
        hash = mix_apart(hash, track, *name);
    }
    hash
}
