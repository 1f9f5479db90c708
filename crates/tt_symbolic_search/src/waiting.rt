//! What the search knows beside the states that wait in a walk, in the order of their places in the
//! program: the least place is the last, and is carried on next.

use crate::track::{History, Seen, weight};
use std::alloc::{AllocError, Global};
use std::cmp::Ordering;
use std::mem;
use tt_symbolic_check::{Start, Walk};
use tt_symbolic_state::State;

/// How many histories are kept at most whose memory is used again.
const MOST_SPARE: usize = 32;

/// For what a state waits.
#[derive(Clone, Copy, PartialEq, Eq)]
pub(crate) enum Purpose {
    /// It is a start, or a part of a split state: it is joined with no other.
    Part,
    /// To be joined with others of this signature that come there.
    Meeting(u64),
    /// To become the head of this signature, which has risen so often.
    Head(u64, u32),
}

impl Purpose {
    /// Returns its signature, by which those are ordered that wait at one place: parts have none, and
    /// are carried on first.
    pub(crate) fn key(self) -> u64 {
        match self {
            Purpose::Part => 0,
            Purpose::Meeting(signature) | Purpose::Head(signature, _) => signature,
        }
    }
}

/// What is known beside a state that waits.
#[derive(Drop)]
pub(crate) struct Waiter {
    pub purpose: Purpose,
    /// How many cells the state has.
    cells: usize,
    pub history: Box<History>,
}

/// What is known beside the states that wait, in the order of `walk.pending`.
#[derive(Drop)]
pub(crate) struct Waiting<'m> {
    alloc: Global,
    list: Vec<Waiter>,
    /// How many cells the states have.
    pub cells: usize,
    /// Histories that are no longer needed, whose memory is used again.
    histories: &'m mut Vec<Box<History>>,
}

impl<'m> Waiting<'m> {
    /// Makes the list of no states, which uses the memory of these histories.
    fn new(alloc: Global, histories: &'m mut Vec<Box<History>>) -> Waiting<'m> {
        Waiting {
            alloc,
            list: Vec::new(alloc),
            cells: 0,
            histories,
        }
    }

    /// Makes the list in which these starts wait.
    pub(crate) fn of_starts(
        alloc: Global,
        histories: &'m mut Vec<Box<History>>,
        starts: &[Start],
    ) -> Result<Waiting<'m>, AllocError> {
        let mut waiting = Waiting::new(alloc, histories);
        for start in starts {
            waiting.put_start(start.ranges.len())?;
        }
        Ok(waiting)
    }

    /// Returns how many wait.
    pub(crate) fn len(&self) -> usize {
        self.list.len()
    }

    /// Whether none waits.
    pub(crate) fn is_empty(&self) -> bool {
        self.list.is_empty()
    }

    /// Returns how the place of a track is ordered to that of the state at an index of the list.
    fn order(&self, walk: &Walk, index: usize, track: Seen<'_>) -> Ordering {
        match (self.list.get(index), walk.pending.get(index)) {
            (Some(waiter), Some(pending)) => track.order_to(Seen {
                state: &pending.state,
                history: &waiter.history,
            }),
            _ => Ordering::Less,
        }
    }

    /// Whether a state waits at the place of a track or before it.
    pub(crate) fn has_behind(&self, walk: &Walk, track: Seen<'_>) -> bool {
        match self.list.len().checked_sub(1) {
            Some(last) => self.order(walk, last, track) != Ordering::Less,
            None => false,
        }
    }

    /// Makes a copy of a history, in memory that is no longer needed, where there is some.
    pub(crate) fn copied(&mut self, history: &History) -> Result<Box<History>, AllocError> {
        match self.histories.pop() {
            Some(mut copy) => {
                copy.copy_from(history)?;
                Ok(copy)
            }
            None => history.boxed_copy(self.alloc),
        }
    }

    /// Keeps the memory of a history that is no longer needed.
    pub(crate) fn spare(&mut self, history: Box<History>) -> Result<(), AllocError> {
        if self.histories.len() < MOST_SPARE {
            self.histories.push(history)?;
        }
        Ok(())
    }

    /// Returns how a track that waits for this is ordered to what waits at an index of the list.
    fn order_for(&self, walk: &Walk, index: usize, track: Seen<'_>, purpose: Purpose) -> Ordering {
        let order = self.order(walk, index, track);
        match self.list.get(index) {
            Some(waiter) if order == Ordering::Equal => purpose.key().cmp(&waiter.purpose.key()),
            _ => order,
        }
    }

    /// Returns where in the list a track is to wait for this: it is carried on before its equals. The
    /// list is halved until one place is left.
    fn index_of(&self, walk: &Walk, track: Seen<'_>, purpose: Purpose) -> usize {
        let (mut low, mut high) = (0, self.list.len());
        for _ in 0..usize::BITS {
            if low >= high {
                break;
            }
            let middle = low.midpoint(high);
            if self.order_for(walk, middle, track, purpose) == Ordering::Greater {
                high = middle;
            } else {
                low = middle.saturating_add(1);
            }
        }
        low
    }

    /// Lets a state with this history wait. Returns where in the list.
    pub(crate) fn put(
        &mut self,
        walk: &Walk,
        state: &State,
        purpose: Purpose,
        history: Box<History>,
    ) -> Result<usize, AllocError> {
        let track = Seen {
            state,
            history: &history,
        };
        let index = self.index_of(walk, track, purpose).min(self.list.len());
        let cells = weight(state);
        let waiter = Waiter {
            purpose,
            cells,
            history,
        };
        self.list.insert(index, waiter)?;
        self.cells = self.cells.saturating_add(cells);
        Ok(index)
    }

    /// Lets a part of a split state wait. Returns where in the list.
    pub(crate) fn put_part(&mut self, walk: &Walk, track: Seen<'_>) -> Result<usize, AllocError> {
        let history = self.copied(track.history)?;
        self.put(walk, track.state, Purpose::Part, history)
    }

    /// Lets a start wait that has so many symbols.
    fn put_start(&mut self, symbols: usize) -> Result<(), AllocError> {
        let history = History::boxed_start(self.alloc, symbols)?;
        self.list.push(Waiter {
            purpose: Purpose::Part,
            cells: 0,
            history,
        })?;
        Ok(())
    }

    /// Takes what is known beside the state that is carried on next, if one waits.
    pub(crate) fn take(&mut self) -> Option<(Purpose, Box<History>)> {
        let Waiter {
            purpose,
            cells,
            history,
        } = self.list.pop()?;
        self.cells = self.cells.saturating_sub(cells);
        Some((purpose, history))
    }

    /// Returns where in the list a state waits at the place of a track, to be joined with others of
    /// this signature.
    pub(crate) fn meeting(&self, walk: &Walk, track: Seen<'_>, signature: u64) -> Option<usize> {
        let purpose = Purpose::Meeting(signature);
        for index in (0..self.index_of(walk, track, purpose)).rev() {
            if self.order_for(walk, index, track, purpose) != Ordering::Equal {
                break;
            }
            if self.is_for(index, purpose) {
                return Some(index);
            }
        }
        None
    }

    /// Whether the state at an index of the list waits for this.
    fn is_for(&self, index: usize, purpose: Purpose) -> bool {
        match self.list.get(index) {
            Some(waiter) => waiter.purpose == purpose,
            None => false,
        }
    }

    /// Returns where in the list a state waits to become the head of this signature.
    pub(crate) fn head(&self, signature: u64) -> Option<usize> {
        self.list.iter().position(|waiter| match waiter.purpose {
            Purpose::Head(own, _) => own == signature,
            Purpose::Part | Purpose::Meeting(_) => false,
        })
    }

    /// Returns what is known beside the state that waits at a place in the list.
    pub(crate) fn get(&self, index: usize) -> Option<&Waiter> {
        self.list.get(index)
    }

    /// Gives the state that waits at a place in the list another history. The memory of the one that
    /// it had is kept, and that of a further one that is no longer needed.
    pub(crate) fn exchange(
        &mut self,
        index: usize,
        history: Box<History>,
        further: Box<History>,
    ) -> Result<(), AllocError> {
        let old = match self.list.get_mut(index) {
            Some(waiter) => mem::replace(&mut waiter.history, history),
            None => history,
        };
        self.spare(old)?;
        self.spare(further)
    }
}
