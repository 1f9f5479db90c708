//! The starts of glyph programs: what all ends of the CVT program show, without the entries that glyph
//! programs write.

use crate::blending::{Manner, Merges, blend};
use crate::boxes::{Sharing, rename};
use crate::cell_names::CellName;
use crate::signature::signature;
use crate::track::{History, Track};
use crate::writes::Writes;
use std::alloc::{AllocError, Global};
use tt_setting::SortedMap;
use tt_symbolic_check::{Start, covers, start_state};
use tt_symbolic_state::State;
use tt_symbolic_state::cell::Cell;

/// How many starts are kept apart at most.
const MOST_STARTS: usize = 8;

/// How starts are merged: each cell gets a symbol of its own.
const BOXES: Manner = Manner {
    sharing: Sharing::Dropped,
    rises: 0,
};

/// Leaves out the entries with these indexes.
fn leave_out(entries: &mut SortedMap<Cell>, indexes: &[u16]) {
    for index in indexes {
        entries.remove(*index);
    }
}

/// Makes the state in which glyph programs start after an end, without the entries that they write.
fn state_after(alloc: Global, end: &State, writes: &Writes) -> Result<State, AllocError> {
    let mut start = Start::after(alloc, end)?;
    leave_out(&mut start.storage, writes.storage.as_slice());
    leave_out(&mut start.controls, writes.controls.as_slice());
    start_state(alloc, &start)
}

/// A start, with its signature.
#[derive(Drop)]
struct Proposed {
    track: Track,
    signature: u64,
}

/// Whether a start is covered already.
fn is_covered(alloc: Global, starts: &[Proposed], state: &State) -> Result<bool, AllocError> {
    for other in starts {
        let covered = covers(alloc, state, &other.track.state)?;
        if covered {
            return Ok(true);
        }
    }
    Ok(false)
}

/// Returns the place of a start with which one of this signature is to be merged.
fn like(starts: &[Proposed], signature: u64) -> Option<usize> {
    if starts.len() >= MOST_STARTS {
        return Some(0);
    }
    starts.iter().position(|other| other.signature == signature)
}

/// Merges a start with another one.
fn merge(
    alloc: Global,
    merges: &mut Merges,
    other: &mut Track,
    track: Track,
) -> Result<(), AllocError> {
    let mut track = track;
    blend(alloc, merges, other.seen(), &mut track, BOXES)?;
    *other = track;
    Ok(())
}

/// Adds a start to the others.
fn push(alloc: Global, starts: &mut Vec<Proposed>, start: Proposed) -> Result<(), AllocError> {
    let mut start = start;
    rename(alloc, &mut start.track, Sharing::Dropped)?;
    starts.push(start)?;
    Ok(())
}

/// Adds a start, or merges it with another one.
fn add(
    alloc: Global,
    merges: &mut Merges,
    starts: &mut Vec<Proposed>,
    start: Proposed,
) -> Result<(), AllocError> {
    let place = like(starts.as_slice(), start.signature);
    match place.and_then(|place| starts.get_mut(place)) {
        Some(other) => merge(alloc, merges, &mut other.track, start.track),
        None => push(alloc, starts, start),
    }
}

/// Adds the start that follows an end in this state.
fn add_state(
    alloc: Global,
    merges: &mut Merges,
    starts: &mut Vec<Proposed>,
    state: Box<State>,
    apart: &[CellName],
) -> Result<(), AllocError> {
    let history = History::boxed_start(alloc, state.ranges.len())?;
    let track = Track { state, history };
    let signature = signature(track.seen(), &[], apart);
    add(alloc, merges, starts, Proposed { track, signature })
}

/// Makes a state in which glyph programs start after an end, in memory of its own.
fn boxed_state_after(
    alloc: Global,
    end: &State,
    writes: &Writes,
) -> Result<Box<State>, AllocError> {
    let state = state_after(alloc, end, writes)?;
    Ok(Box::new(alloc, state)?)
}

/// Lists what is known in each start.
fn listed(alloc: Global, starts: &[Proposed]) -> Result<Vec<Start>, AllocError> {
    let mut list = Vec::new(alloc);
    for start in starts {
        list.push(Start::after(alloc, &start.track.state)?)?;
    }
    Ok(list)
}

/// Makes the starts of glyph programs after the ends of the CVT program. Ends are merged whatever
/// functions they know: which of these the starts have is for the caller to say.
pub(crate) fn starts_after(
    alloc: Global,
    merges: &mut Merges,
    ends: &[State],
    writes: &Writes,
    apart: &[CellName],
) -> Result<Vec<Start>, AllocError> {
    let mut starts = Vec::new(alloc);
    for end in ends {
        let state = boxed_state_after(alloc, end, writes)?;
        let covered = is_covered(alloc, starts.as_slice(), &state)?;
        if !covered {
            add_state(alloc, merges, &mut starts, state, apart)?;
        }
    }
    listed(alloc, starts.as_slice())
}
