//! Where states of a run are put down: where others may meet them, and at the heads of loops.

ghost use Rattle.std.specs.Prelude.{IfOk};
ghost use Rattle.tt_symbolic_check.specs.Moves.{IsFair};

use crate::blending::{Manner, blend};
use crate::boxes::{Sharing, rename};
use crate::run::{Chosen, Head, Here, Run, Way};
use crate::signature::signature;
use crate::stepping::Led;
use crate::track::{Seen, Track, weight};
use crate::waiting::Purpose;
use std::alloc::AllocError;
use tt_setting::Kind;
use tt_symbolic_check::{Move, Pool, Site, Walk, covers_both, covers_by, is_at_end};
use tt_symbolic_state::State;

/// How many steps a state makes, since it was last seen alone, before others are looked for.
const MOST_CROWDED: u32 = 40;

/// After how many turns of a known number a state is put down.
const TURNS_TOGETHER: u32 = 1000;

/// How states are joined that meet: what is the same in both stays so.
const IN_PASSING: Manner = Manner {
    sharing: Sharing::Kept,
    rises: 0,
};

/// How a state is merged with a head, or with what is to become one.
fn at_head(rises: u32) -> Manner {
    Manner {
        sharing: Sharing::Dropped,
        rises,
    }
}

impl Run<'_, '_> {
    /// Returns the hash of what states have in common that are joined. All states of a glyph program
    /// have the same functions.
    fn signature(&self, state: &State, way: &Way) -> u64 {
        let functions = match self.task.setting.kind {
            Kind::Glyph { .. } => &[],
            Kind::Font | Kind::Cvt => state.functions.as_slice(),
        };
        signature(way.seen(state), functions, self.task.apart)
    }

    /// Whether the state must be put down where it is, since a loop is there that may not end.
    fn must_arrive(&self, state: &State, way: &Way, led: Led) -> bool {
        if led != Led::Back {
            return false;
        }
        if !self.waiting.is_empty() {
            return true;
        }
        let turn = way.history.levels.last().map_or(0, |level| level.turn);
        turn % TURNS_TOGETHER == TURNS_TOGETHER - 1
            || state.calls.iter().any(|call| call.left.factor != 0)
    }

    /// Whether the state may meet others where it is: one waits there, or at a place before. It is
    /// looked for only where states are put down, since most steps lead on.
    fn may_meet(&self, here: Here<'_>, way: &mut Way, led: Led, is_marked: bool) -> bool {
        let is_looked_for = is_marked
            || led != Led::On
            || way.crowded > MOST_CROWDED
            || is_at_end(self.task.setting, here.state);
        if !is_looked_for {
            return false;
        }
        let may_meet = self.waiting.has_behind(here.walk, way.seen(here.state));
        if !may_meet {
            way.crowded = 0;
        }
        may_meet
    }

    /// Decides whether a state is put down that has just made a step, which has led there.
    pub(crate) fn arrive(&mut self, here: Here<'_>, pool: &mut Pool, way: Way, led: Led) -> Chosen
        ensures fair { IfOk result (IsFair here.entry.walk.now here.entry.state.now) }
    {
        let mut way = way;
        way.crowded = way.crowded.saturating_add(1);
        let must = self.must_arrive(here.state, &way, led);
        let is_marked = self.marks.at(Site::of(here.state));
        let may_meet = self.may_meet(here, &mut way, led, is_marked);
        let may_stop = must || is_marked && !self.heads.is_empty();
        if may_meet || may_stop {
            way.signature = self.signature(here.state, &way);
        }
        if may_stop {
            if let Some(number) = self.heads.get(&way.signature).map(|head| head.number) {
                return self.stop(here, pool, way, number);
            }
            if must && self.came_back.contains(&way.signature) {
                return self.rise(here, pool, way);
            }
            if must {
                self.note_return(way.signature)?;
            }
        }
        if may_meet {
            return self.meet(here, pool, way);
        }
        self.go_on(here, pool, way)
    }

    /// Lets a state wait where it is, to be joined with others.
    fn put_down(&mut self, here: Here<'_>, way: Way) -> Chosen
        ensures fair { IfOk result (IsFair here.entry.walk.now here.entry.state.now) }
    {
        let Here { walk, state } = here;
        self.marks.set(Site::of(state));
        let purpose = Purpose::Meeting(way.signature);
        let index = self.waiting.put(walk, state, purpose, way.history)?;
        Ok(Move::Wait(index))
    }

    /// Lets a state wait where others may meet it, or joins it with one that waits there.
    fn meet(&mut self, here: Here<'_>, pool: &mut Pool, way: Way) -> Chosen
        ensures fair { IfOk result (IsFair here.entry.walk.now here.entry.state.now) }
    {
        let Here { walk, state } = here;
        match self.waiting.meeting(walk, way.seen(state), way.signature) {
            Some(index) => self.join(here, pool, way, index),
            None => self.put_down(here, way),
        }
    }

    /// Joins a state with the one that waits at an index of the list, if one state can cover both.
    fn join(&mut self, here: Here<'_>, pool: &mut Pool, way: Way, index: usize) -> Chosen
        ensures fair { IfOk result (IsFair here.entry.walk.now here.entry.state.now) }
    {
        let Some(other) = here.walk.pending.get(index) else {
            return self.put_down(here, way);
        };
        if covers_by(&mut pool.assigned, here.state, &other.state)? {
            self.waiting.spare(way.history)?;
            return Ok(Move::Meet(index));
        }
        let joined = self.joined(pool, way.seen(here.state), &other.state, index)?;
        let Track { state, history } = joined;
        if !covers_both(&mut pool.assigned, here.state, &other.state, &state)? {
            return self.put_down_instead(here, pool, way, state);
        }
        self.waiting.exchange(index, history, way.history)?;
        Ok(Move::Join(index, state))
    }

    /// Lets a state wait where it is, in place of another one that was made from it.
    fn put_down_instead(
        &mut self,
        here: Here<'_>,
        pool: &mut Pool,
        way: Way,
        other: Box<State>,
    ) -> Chosen
        ensures fair { IfOk result (IsFair here.entry.walk.now here.entry.state.now) }
    {
        pool.keep(other)?;
        self.put_down(here, way)
    }

    /// Makes a copy of a track that shows too what the state shows that waits at an index of the list.
    fn joined(
        &mut self,
        pool: &mut Pool,
        track: Seen<'_>,
        other: &State,
        index: usize,
    ) -> Result<Track, AllocError> {
        let mut joined = self.copied(pool, track)?;
        self.blend_with(other, index, &mut joined)?;
        Ok(joined)
    }

    /// Makes a track show what the state shows too that waits at an index of the list.
    fn blend_with(
        &mut self,
        other: &State,
        index: usize,
        track: &mut Track,
    ) -> Result<(), AllocError> {
        let Some(waiter) = self.waiting.get(index) else {
            return Ok(());
        };
        let manner = match waiter.purpose {
            Purpose::Head(_, rises) => at_head(rises),
            Purpose::Part | Purpose::Meeting(_) => IN_PASSING,
        };
        let old = Seen {
            state: other,
            history: &waiter.history,
        };
        blend(self.task.alloc, self.merges, old, track, manner)
    }

    /// Lets a state go no further, if the head of this number covers it, and otherwise rise.
    fn stop(&mut self, here: Here<'_>, pool: &mut Pool, way: Way, number: usize) -> Chosen
        ensures fair { IfOk result (IsFair here.entry.walk.now here.entry.state.now) }
    {
        if let Some(head) = here.walk.heads.get(number) {
            if covers_by(&mut pool.assigned, here.state, head)? {
                self.waiting.spare(way.history)?;
                return Ok(Move::Stop(number));
            }
        }
        self.rise(here, pool, way)
    }

    /// Lets a state that no head covers wait to become one, widened, or joins it with one that waits
    /// so.
    fn rise(&mut self, here: Here<'_>, pool: &mut Pool, way: Way) -> Chosen
        ensures fair { IfOk result (IsFair here.entry.walk.now here.entry.state.now) }
    {
        if let Some(index) = self.waiting.head(way.signature) {
            return self.join(here, pool, way, index);
        }
        let (wider, rises) = self.widened(here, pool, &way)?;
        let Track { state, history } = wider;
        if !covers_by(&mut pool.assigned, here.state, &state)? {
            return self.put_down_instead(here, pool, way, state);
        }
        self.marks.set(Site::of(&state));
        let purpose = Purpose::Head(way.signature, rises);
        self.waiting.spare(way.history)?;
        let index = self.waiting.put(here.walk, &state, purpose, history)?;
        Ok(Move::Widen(state, index))
    }

    /// Makes a copy of a state that is widened to become a head. Returns too how often the heads have
    /// risen then.
    fn widened(
        &mut self,
        here: Here<'_>,
        pool: &mut Pool,
        way: &Way,
    ) -> Result<(Track, u32), AllocError> {
        let mut wider = self.copied(pool, way.seen(here.state))?;
        let rises = self.widen(here.walk, &mut wider, way.signature)?;
        Ok((wider, rises))
    }

    /// Widens a state to what it shows and the latest head of its signature, or to each cell by
    /// itself, where there is none. Returns how often the heads have risen then.
    fn widen(&mut self, walk: &Walk, track: &mut Track, signature: u64) -> Result<u32, AllocError> {
        let alloc = self.task.alloc;
        let Some(head) = self.heads.get(&signature) else {
            rename(alloc, track, Sharing::Dropped)?;
            return Ok(0);
        };
        if let Some(state) = walk.heads.get(head.number) {
            let old = Seen {
                state,
                history: &head.history,
            };
            blend(alloc, self.merges, old, track, at_head(head.rises))?;
        }
        Ok(head.rises.saturating_add(1))
    }

    /// Makes a head of a state that waited for it.
    pub(crate) fn become_head(&mut self, here: Here<'_>, way: Way, rises: u32) -> Chosen
        ensures fair { IfOk result (IsFair here.entry.walk.now here.entry.state.now) }
    {
        self.kept_cells = self.kept_cells.saturating_add(weight(here.state));
        let head = Head {
            number: here.walk.heads.len(),
            rises,
            history: self.waiting.copied(&way.history)?,
        };
        self.put_head(way.signature, head)?;
        self.way = Some(way);
        Ok(Move::Head)
    }

    /// Makes a head the latest one of a signature.
    fn put_head(&mut self, signature: u64, head: Head) -> Result<(), AllocError> {
        self.heads.insert(signature, head)?;
        Ok(())
    }

    /// Notes that a state of this signature came back.
    fn note_return(&mut self, signature: u64) -> Result<(), AllocError> {
        self.came_back.insert(signature)?;
        Ok(())
    }
}
