//! A run of the search: the guide of one walk, from the starts of a program on.

ghost use Rattle.std.specs.Prelude.{IfOk};
ghost use Rattle.tt_symbolic_check.specs.Moves.{IsFair};

use crate::blame::culprits;
use crate::blending::Merges;
use crate::boxes::{Sharing, rename};
use crate::cell_names::CellName;
use crate::marks::Marks;
use crate::origins::{NOWHERE, of_merges};
use crate::stepping::{Before, Led};
use crate::track::{History, Seen, Track, weight};
use crate::waiting::{Purpose, Waiting};
use crate::writes::Writes;
use std::alloc::{AllocError, Global};
use std::collections::{HashMap, HashSet};
use std::mem;
use tt_code::Reason;
use tt_setting::{Failed, Setting, StepFault};
use tt_symbolic::kept::Kept;
use tt_symbolic::step::code_at;
use tt_symbolic_check::{
    Guide, Insight, Move, Pool, Question, RefusedState, Site, Split, Start, Walk, covers_by,
    decision_of, is_at_end, wanted,
};
use tt_symbolic_state::State;

/// How many splits are made before one step at most.
const MOST_SPLITS: u32 = 4096;

/// How many symbols a state may have besides two for each element of the stack, until those that no
/// cell has are left out.
const MOST_SPARE_SYMBOLS: usize = 256;

/// How many of the states are kept that come to a site which is asked for.
const MOST_SEEN: usize = 16;

/// How many cells the states may have in all that wait or are kept.
const MOST_CELLS: usize = 8_000_000;

/// How many states may wait.
const MOST_WAITING: usize = 1 << 12;

/// What a run may rely on.
#[derive(Clone, Copy)]
pub(crate) struct Task<'t, 'm> {
    pub alloc: Global,
    pub setting: &'t Setting<'t>,
    /// The entries whose writes are noted, if they are.
    pub noted: Option<Kept<'t>>,
    pub apart: &'m [CellName],
    pub widest_compared: i64,
    /// How many steps it may make.
    pub most_steps: u64,
    /// What is asked, if the answer is to be explained.
    pub question: Option<Question>,
}

/// The state that is carried on, and its walk.
#[derive(Clone, Copy)]
pub(crate) struct Here<'a> {
    pub walk: &'a Walk,
    pub state: &'a State,
}

/// What is chosen for that state, or why the search gives up.
pub(crate) type Chosen = Result<Move, StepFault>;

/// What is known beside the state that is carried on.
#[derive(Drop)]
pub(crate) struct Way {
    pub history: Box<History>,
    /// Where its last step has led, until that is looked at.
    led: Option<Led>,
    /// What it has in common with those that it is joined with, where it may be put down.
    pub signature: u64,
    /// How many steps it has made since no state was seen to wait behind it.
    pub crowded: u32,
    /// How often it was split where it is.
    splits: u32,
    /// Whether what isn't needed was left out of it where it is.
    is_tidied: bool,
}

impl Way {
    /// Makes the way of a state with this history that waited until now, of a signature.
    fn of(history: Box<History>, signature: u64) -> Way {
        Way {
            history,
            led: None,
            signature,
            crowded: 0,
            splits: 0,
            is_tidied: false,
        }
    }

    /// Notes that a symbol of the state is split.
    fn note_split(&mut self, symbol: u32) -> Result<(), AllocError> {
        let origin = self.history.origins.get(symbol as usize).copied();
        self.history
            .note_split(of_merges(origin.unwrap_or(NOWHERE)))?;
        self.splits = self.splits.saturating_add(1);
        Ok(())
    }

    /// Notes where a step has led.
    fn note_step(&mut self, led: Led) {
        self.led = Some(led);
        self.splits = 0;
        self.is_tidied = false;
    }

    /// Lends the state that is carried on with its history.
    pub(crate) fn seen<'a>(&'a self, state: &'a State) -> Seen<'a> {
        Seen {
            state,
            history: &self.history,
        }
    }
}

/// The head of a loop.
#[derive(Drop)]
pub(crate) struct Head {
    /// Its number in the walk.
    pub number: usize,
    /// How often heads of its signature were replaced by wider ones.
    pub rises: u32,
    pub history: Box<History>,
}

/// What a refusal tells.
#[derive(Drop)]
pub(crate) struct Stop {
    /// The test that failed.
    pub failed: Failed,
    /// Cells whose numbers are to be kept apart.
    pub apart: Vec<CellName>,
}

/// A run of the search.
pub(crate) struct Run<'t, 'm> {
    pub task: Task<'t, 'm>,
    pub merges: &'m mut Merges,
    writes: &'m mut Writes,
    pub way: Option<Way>,
    pub waiting: Waiting<'m>,
    /// The latest head of each signature.
    pub heads: HashMap<u64, Head>,
    /// The signatures of states that came back once, which no head has yet: most of them, those of
    /// turns that are told apart, come back never again.
    pub came_back: HashSet<u64>,
    pub marks: Marks,
    /// How many cells the heads and the ends have.
    pub kept_cells: usize,
    before: Before,
    /// How many steps were made: never more than it may make.
    pub steps: u64,
    /// Whether one more would be needed.
    is_spent: bool,
    /// Why the instruction was refused that was refused.
    pub stop: Option<Stop>,
    /// How many elements the stack had at most.
    depth: usize,
    /// The state before its last step, where the answer is to be explained.
    last: Option<Track>,
    /// The first states that came to the site that is asked for.
    seen: Vec<Track>,
    /// Whether more states came there.
    has_more: bool,
}

// Written out, so that who holds a run proves in one step that its memory is given back.
impl<'t, 'm> Drop for Run<'t, 'm> {
    fn drop(self) {
        let Run {
            task: _,
            merges: _,
            writes: _,
            way,
            waiting,
            heads,
            came_back,
            marks,
            kept_cells: _,
            before,
            steps: _,
            is_spent: _,
            stop,
            depth: _,
            last,
            seen,
            has_more: _,
        } = self;
        drop(way);
        drop(waiting);
        drop(heads);
        drop(came_back);
        drop(marks);
        drop(before);
        drop(stop);
        drop(last);
        drop(seen);
    }
}

/// Whether a state has many symbols that no cell has.
fn is_untidy(state: &State) -> bool {
    let most = state.stack.len().saturating_mul(2);
    state.ranges.len() > most.saturating_add(MOST_SPARE_SYMBOLS)
}

impl<'t, 'm> Run<'t, 'm> {
    /// Makes the run of a walk in which these starts wait, and which uses the memory of these
    /// histories again.
    pub(crate) fn new(
        task: Task<'t, 'm>,
        merges: &'m mut Merges,
        writes: &'m mut Writes,
        starts: &[Start],
        spare: &'m mut Vec<Box<History>>,
    ) -> Result<Run<'t, 'm>, AllocError> {
        let alloc = task.alloc;
        let waiting = Waiting::of_starts(alloc, spare, starts)?;
        let marks = Marks::new(alloc, task.setting)?;
        Ok(Run {
            task,
            merges,
            writes,
            way: None,
            waiting,
            heads: HashMap::new(alloc),
            came_back: HashSet::new(alloc),
            marks,
            kept_cells: 0,
            before: Before::new(alloc),
            steps: 0,
            is_spent: false,
            stop: None,
            depth: 0,
            last: None,
            seen: Vec::new(alloc),
            has_more: false,
        })
    }

    /// Makes a copy of a state with its history.
    pub(crate) fn copied(&mut self, pool: &mut Pool, track: Seen<'_>) -> Result<Track, AllocError> {
        Ok(Track {
            state: pool.copied(track.state)?,
            history: self.waiting.copied(track.history)?,
        })
    }

    /// Carries on a state that waited until now.
    fn take_up(&mut self, here: Here<'_>, pool: &mut Pool) -> Chosen
        ensures fair { IfOk result (IsFair here.entry.walk.now here.entry.state.now) }
    {
        let Some((purpose, history)) = self.waiting.take() else {
            return Err(StepFault::from(Reason::TooManySteps));
        };
        let way = Way::of(history, purpose.key());
        match purpose {
            Purpose::Head(_, rises) => self.become_head(here, way, rises),
            Purpose::Part | Purpose::Meeting(_) => self.go_on(here, pool, way),
        }
    }

    /// Carries the state on where it is: splits it, leaves out what isn't needed, or makes a step.
    pub(crate) fn go_on(&mut self, here: Here<'_>, pool: &mut Pool, way: Way) -> Chosen
        ensures fair { IfOk result (IsFair here.entry.walk.now here.entry.state.now) }
    {
        let Some(code) = code_at(self.task.setting, here.state) else {
            return self.go_out(here, way);
        };
        if decision_of(code).is_none() {
            return self.step(here, pool, way, code);
        }
        match wanted(code, here.state, self.task.widest_compared) {
            Some(split) if way.splits < MOST_SPLITS => self.split(here, way, split),
            _ if is_untidy(here.state) && !way.is_tidied => self.tidy(here, pool, way),
            _ => self.step(here, pool, way, code),
        }
    }

    /// Carries a state on that is at no instruction: to the ends, or to its refusal.
    fn go_out(&mut self, here: Here<'_>, way: Way) -> Chosen
        ensures fair { IfOk result (IsFair here.entry.walk.now here.entry.state.now) }
    {
        if is_at_end(self.task.setting, here.state) {
            self.kept_cells = self.kept_cells.saturating_add(weight(here.state));
        }
        self.waiting.spare(way.history)?;
        Ok(Move::Go)
    }

    /// Splits the state: its upper part waits.
    fn split(&mut self, here: Here<'_>, way: Way, split: Split) -> Chosen
        ensures fair { IfOk result (IsFair here.entry.walk.now here.entry.state.now) }
    {
        let mut way = way;
        way.note_split(split.symbol)?;
        let index = self.waiting.put_part(here.walk, way.seen(here.state))?;
        self.way = Some(way);
        Ok(Move::Split(split, index))
    }

    /// Leaves out the symbols that no cell has.
    fn tidy(&mut self, here: Here<'_>, pool: &mut Pool, way: Way) -> Chosen
        ensures fair { IfOk result (IsFair here.entry.walk.now here.entry.state.now) }
    {
        let mut way = way;
        way.is_tidied = true;
        let Track { state, history } = self.renamed(pool, way.seen(here.state))?;
        if !covers_by(&mut pool.assigned, here.state, &state)? {
            pool.keep(state)?;
            self.way = Some(way);
            return Ok(Move::Wait(self.waiting.len()));
        }
        way.history = history;
        self.way = Some(way);
        Ok(Move::Widen(state, self.waiting.len()))
    }

    /// Makes a copy of a state without the symbols that no cell has.
    fn renamed(&mut self, pool: &mut Pool, track: Seen<'_>) -> Result<Track, AllocError> {
        let mut copy = self.copied(pool, track)?;
        rename(self.task.alloc, &mut copy, Sharing::Kept)?;
        Ok(copy)
    }

    /// Makes a step of the state, by the instruction of this code.
    fn step(&mut self, here: Here<'_>, pool: &mut Pool, way: Way, code: u8) -> Chosen
        ensures fair { IfOk result (IsFair here.entry.walk.now here.entry.state.now) }
    {
        self.note(pool, way.seen(here.state), code)?;
        self.way = Some(way);
        Ok(Move::Go)
    }

    /// Notes what is needed of a state before its step by the instruction of this code.
    fn note(&mut self, pool: &mut Pool, track: Seen<'_>, code: u8) -> Result<(), AllocError> {
        if let Some(question) = self.task.question {
            self.keep(pool, track, question)?;
        }
        if let Some(kept) = self.task.noted {
            let setting = self.task.setting;
            self.writes.note(setting, track.state, &kept, code)?;
        }
        self.before.note(self.merges, track, code)
    }

    /// Keeps the state before its step, as far as an explanation needs it.
    fn keep(
        &mut self,
        pool: &mut Pool,
        track: Seen<'_>,
        question: Question,
    ) -> Result<(), AllocError> {
        if question.is_on(self.task.setting.kind, Site::of(track.state)) {
            self.keep_seen(pool, track)?;
        }
        let copy = self.copied(pool, track)?;
        match self.last.replace(copy) {
            Some(last) => pool.keep(last.state),
            None => Ok(()),
        }
    }

    /// Keeps a state that came to the site that is asked for, if it is one of the first.
    fn keep_seen(&mut self, pool: &mut Pool, track: Seen<'_>) -> Result<(), AllocError> {
        if self.seen.len() >= MOST_SEEN {
            self.has_more = true;
            return Ok(());
        }
        let copy = self.copied(pool, track)?;
        self.seen.push(copy)?;
        Ok(())
    }

    /// Counts a step after which the stack has so many elements.
    fn count_step(&mut self, depth: usize) {
        self.depth = self.depth.max(depth);
        if self.steps >= self.task.most_steps {
            self.is_spent = true;
        } else {
            self.steps = self.steps.saturating_add(1);
        }
    }

    /// Returns cells whose numbers are to be kept apart, after a refusal of the state in its step for
    /// this reason.
    fn culprits(&self, state: &State, reason: Reason) -> Result<Vec<CellName>, AllocError> {
        let Task { alloc, apart, .. } = self.task;
        let origins = &self.merges.origins;
        match &self.way {
            Some(way) => culprits(alloc, origins, way.seen(state), &self.before, reason, apart),
            None => Ok(Vec::new(alloc)),
        }
    }

    /// Takes out the last state, if that was refused and no writes are noted.
    fn take_refused(&mut self) -> Result<Option<RefusedState>, AllocError> {
        let alloc = self.task.alloc;
        let origins = &self.merges.origins;
        match (&self.stop, self.task.noted) {
            (Some(stop), None) => origins.refused_state(alloc, self.last.take(), stop.failed),
            _ => Ok(None),
        }
    }

    /// Takes out what is told of the run to explain it: also of the last state, if that was refused
    /// and no writes are noted.
    pub(crate) fn insight(&mut self) -> Result<Insight, AllocError> {
        let alloc = self.task.alloc;
        let tracks = mem::replace(&mut self.seen, Vec::new(alloc));
        let seen = self.merges.origins.known_states(alloc, tracks)?;
        let refused = self.take_refused()?;
        Ok(Insight {
            steps: self.steps,
            depth: self.depth,
            heads: self.heads.len(),
            refused,
            seen,
            has_more: self.has_more,
        })
    }
}

impl Guide for Run<'_, '_> {
    /// It gives up with `TooManySteps`, where more steps would be needed than may be made, or too
    /// much memory.
    fn choose(&mut self, walk: &Walk, state: &State, pool: &mut Pool) -> Result<Move, StepFault> {
        let here = Here { walk, state };
        let cells = self.kept_cells.saturating_add(self.waiting.cells);
        if self.is_spent || cells > MOST_CELLS || self.waiting.len() > MOST_WAITING {
            return Err(StepFault::from(Reason::TooManySteps));
        }
        let Some(way) = self.way.take() else {
            return self.take_up(here, pool);
        };
        let mut way = way;
        match way.led.take() {
            Some(led) => self.arrive(here, pool, way, led),
            None => self.go_on(here, pool, way),
        }
    }

    /// After the last step that may be made, one more is only tried: where it is refused, that refusal
    /// is the one that is told.
    fn stepped(&mut self, state: &State) -> Result<(), AllocError> {
        if let Some(way) = &mut self.way {
            let Task { alloc, setting, .. } = self.task;
            let before = &self.before;
            let led = before.follow(alloc, setting, self.merges, state, &mut way.history)?;
            way.note_step(led);
        }
        self.count_step(state.stack.len());
        Ok(())
    }

    fn refused(&mut self, state: &State, fault: &StepFault) -> Result<(), AllocError> {
        let StepFault::Refused(failed) = fault else {
            return Ok(());
        };
        let apart = self.culprits(state, failed.reason())?;
        self.stop = Some(Stop {
            failed: *failed,
            apart,
        });
        Ok(())
    }
}
