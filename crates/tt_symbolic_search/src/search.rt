//! The search of a font: what was learnt from its programs so far, and the walks of the next.

ghost use Rattle.std.specs.Prelude.{IfErr, IfOk};
ghost use Rattle.tt_setting.specs.Refusals.{IsOfNoBudget};
ghost use Rattle.tt_setting.specs.Settings.{setting_of};
ghost use Rattle.tt_symbolic_check.specs.Answers.{IsAnswerBySymbols};
ghost use Rattle.tt_symbolic_check.specs.Checked.{AreEnds, IsChecked, IsSafe, KeepsEntries};

use crate::blending::Merges;
use crate::cell_names::CellName;
use crate::origin_notes::Notes;
use crate::origins::Origins;
use crate::run::{Run, Stop, Task};
use crate::starts;
use crate::thresholds::thresholds;
use crate::track::History;
use crate::writes::Writes;
use std::alloc::{AllocError, Global};
use std::collections::HashMap;
use tt_code::Reason;
use tt_setting::{Refusal, Setting};
use tt_symbolic::kept::{Kept, NOTHING_KEPT};
use tt_symbolic_check::{Insight, Pool, Question, Start, check, too_many_steps};
use tt_symbolic_state::State;

/// How often a program is searched at most, each time with more that was learnt.
const MOST_TRIALS: u32 = 14;

/// How many numbers the range of a symbol may have that comparisons split, where all are split.
const WIDEST: i64 = 1 << 33;

/// How much the search of a program may usually do: the steps of all its trials together.
pub const USUAL_SEARCH: Effort = Effort {
    steps: 20_000_000,
    widest_compared: 1 << 16,
};

/// How many moves a walk may have for each step: splits and stops are moves too.
const MOVES_PER_STEP: u64 = 1 << 14;

/// How many moves it may have besides.
const MORE_MOVES: u64 = 1 << 30;

/// How much may be done for a program.
#[derive(Clone, Copy)]
pub struct Effort {
    /// How many steps all walks of it may have together.
    pub steps: u64,
    /// How many numbers the range of a symbol may have that a comparison splits.
    pub widest_compared: i64,
}

/// The search of a font.
#[derive(Drop)]
pub struct Search {
    alloc: Global,
    /// What the merges know.
    merges: Merges,
    /// The cells whose numbers are kept apart.
    apart: Vec<CellName>,
    /// The entries that glyph programs write.
    writes: Writes,
    /// How many numbers the range of a symbol had at most that comparisons split.
    widest: i64,
    /// How many steps were made for all programs.
    steps: u64,
    /// What is asked, if answers are to be explained.
    question: Option<Question>,
    /// What is told of the last trial to explain its answer.
    insight: Option<Insight>,
    /// States of earlier walks that are no longer needed, whose memory is used again.
    pool: Pool,
    /// Their histories.
    spare: Vec<Box<History>>,
}

/// What becomes of a program's trials.
#[derive(Drop)]
struct Trial {
    effort: Effort,
    /// How many steps the search had made before.
    before: u64,
    /// What the last walk's refusal tells.
    stop: Option<Stop>,
}

impl Search {
    /// Makes the search of a font of which nothing is known.
    pub fn new(alloc: Global) -> Search {
        Search {
            alloc,
            merges: Merges {
                origins: Origins::new(alloc),
                dropped: HashMap::new(alloc),
                thresholds: Vec::new(alloc),
            },
            apart: Vec::new(alloc),
            writes: Writes::new(alloc),
            widest: 0,
            steps: 0,
            question: None,
            insight: None,
            pool: Pool::new(alloc),
            spare: Vec::new(alloc),
        }
    }

    /// Asks that the answers of `check` be explained from now on, or no longer.
    pub fn ask(&mut self, question: Option<Question>) {
        self.question = question;
    }

    /// Takes what the last trial tells of the program that was searched last while it was asked.
    /// There is nothing where that met the budget.
    pub fn take_insight(&mut self) -> Option<Insight> {
        self.insight.take()
    }

    /// Returns how many steps the search has made so far, for all programs together.
    pub fn steps(&self) -> u64 {
        self.steps
    }

    /// Makes the starts of glyph programs after the ends of the CVT program: few that cover all of
    /// them, without the entries that glyph programs are known to write. Their functions are those of
    /// some end: the caller gives them the functions that all ends have.
    ///
    /// # Errors
    /// If memory runs out.
    pub fn starts_after(&mut self, ends: &[State]) -> Result<Vec<Start>, AllocError> {
        self.begin_run();
        let apart = self.apart.as_slice();
        starts::starts_after(self.alloc, &mut self.merges, ends, &self.writes, apart)
    }

    /// Searches a program that starts in one of these ways, and checks it: by walks, of which each
    /// knows more of what is to be kept apart. Returns the states at the main program's end. The
    /// program writes none of the kept entries.
    ///
    /// # Errors
    /// `Refused` with the place of an instruction and its reason, where a run may fault or not enough is
    /// known; with `KeptEntry` for one that writes kept entries: `starts_after` leaves these out from
    /// now on; with `TooManySteps`, at the program's start, where more steps would be needed, or too
    /// much memory. `Exhausted`, if memory runs out.
    #[tactic(auto, using(tt_symbolic_check::specs::Answers::answered_by_symbols))]
    pub fn check(
        &mut self,
        setting: &Setting<'_>,
        kept: &Kept<'_>,
        starts: &[Start],
        effort: Effort,
    ) -> Result<Vec<State>, Refusal>
        ensures safe { IfOk result (λ ends. IsSafe (setting_of setting.now) starts.now) }
        ensures kept { IfOk result
            (λ ends. KeepsEntries (setting_of setting.now) kept.now starts.now) }
        ensures ends { IfOk result
            (λ ends. AreEnds (setting_of setting.now) starts.now ends.items) }
        ensures answer { IfErr result (IsAnswerBySymbols setting.now) }
        ensures within { IfErr result IsOfNoBudget }
    {
        self.merges.thresholds = thresholds(self.alloc, setting)?;
        self.apart.retain(|name| name.body.is_some());
        let learnt = self.apart.len();
        let answer = self.walk_often(setting, kept, starts, effort);
        if answer.is_err() {
            self.apart.truncate(learnt);
        }
        answer
    }

    /// Walks a program as often as something is learnt from its refusal.
    fn walk_often(
        &mut self,
        setting: &Setting<'_>,
        kept: &Kept<'_>,
        starts: &[Start],
        effort: Effort,
    ) -> Result<Vec<State>, Refusal>
        ensures checked { IfOk result
            (λ ends. IsChecked (setting_of setting.now) kept.now starts.now ends.items) }
        ensures within { IfErr result IsOfNoBudget }
    {
        let mut trial = Trial {
            effort: Effort {
                widest_compared: effort.widest_compared.max(self.widest),
                ..effort
            },
            before: self.steps,
            stop: None,
        };
        for trials in 1..=MOST_TRIALS {
            let refusal = match self.walk(&*setting, kept, starts, &mut trial, None) {
                Ok(ends) => {
                    self.widest = trial.effort.widest_compared;
                    return Ok(ends);
                }
                Err(refusal) => refusal,
            };
            let is_more_known = self.learn(setting, kept, starts, &mut trial, &refusal)?;
            if trials == MOST_TRIALS || !is_more_known {
                return Err(refusal);
            }
        }
        Err(too_many_steps())
    }

    /// Forgets what the merges of another run know.
    fn begin_run(&mut self) {
        self.merges.origins.clear();
        self.merges.dropped.clear();
        if self.question.is_some() {
            self.merges.origins.notes = Some(Notes::new(self.alloc));
            self.insight = None;
        }
    }

    /// Walks a program that writes kept entries once more, to note all of these.
    ///
    /// # Errors
    /// `TooManySteps`; `Exhausted`.
    fn note_writes(
        &mut self,
        setting: &Setting<'_>,
        kept: &Kept<'_>,
        starts: &[Start],
        trial: &mut Trial,
    ) -> Result<(), Refusal>
        ensures { IfErr result IsOfNoBudget }
    {
        match self.walk(setting, &NOTHING_KEPT, starts, trial, Some(*kept)) {
            Err(refusal) if is_beyond(&refusal) => Err(refusal),
            _ => Ok(()),
        }
    }

    /// Walks a program once; notes the writes of these entries, if they are to be noted.
    fn walk<'t>(
        &mut self,
        setting: &'t Setting<'t>,
        kept: &Kept<'_>,
        starts: &[Start],
        trial: &mut Trial,
        noted: Option<Kept<'t>>,
    ) -> Result<Vec<State>, Refusal>
        ensures checked { IfOk result
            (λ ends. IsChecked (setting_of setting.now) kept.now starts.now ends.items) }
        ensures within { IfErr result IsOfNoBudget }
    {
        self.begin_run();
        let used = self.steps.saturating_sub(trial.before);
        let most_steps = trial.effort.steps.saturating_sub(used);
        let task = Task {
            alloc: self.alloc,
            setting,
            noted,
            apart: self.apart.as_slice(),
            widest_compared: trial.effort.widest_compared,
            most_steps,
            question: self.question,
        };
        let (merges, writes) = (&mut self.merges, &mut self.writes);
        let mut run = Run::new(task, merges, writes, starts, &mut self.spare)?;
        let moves = moves_for(most_steps);
        let pool = &mut self.pool;
        let answer = check(self.alloc, pool, setting, kept, starts, &mut run, moves);
        self.steps = self.steps.saturating_add(run.steps);
        if self.question.is_some() {
            self.insight = insight_of(&mut run, &answer)?;
        }
        trial.stop = run.stop.take();
        answer
    }

    /// Learns from a refusal which cells are to be kept apart, that all comparisons are to be split, or
    /// which kept entries are written. Returns whether another walk is of use.
    ///
    /// # Errors
    /// That of the walk that notes the writes.
    fn learn(
        &mut self,
        setting: &Setting<'_>,
        kept: &Kept<'_>,
        starts: &[Start],
        trial: &mut Trial,
        refusal: &Refusal,
    ) -> Result<bool, Refusal>
        ensures { IfErr result IsOfNoBudget }
    {
        let reason = reason_of(refusal);
        if reason == Some(Reason::KeptEntry) {
            self.note_writes(setting, kept, starts, trial)?;
            return Ok(false);
        }
        if let Some(Stop { apart, .. }) = trial.stop.take() {
            if !apart.is_empty() {
                self.apart.extend_from_slice(apart.as_slice())?;
                return Ok(true);
            }
        }
        if reason != Some(Reason::UnknownOperand) || trial.effort.widest_compared >= WIDEST {
            return Ok(false);
        }
        trial.effort.widest_compared = WIDEST;
        Ok(true)
    }
}

/// Returns how many moves a walk of so many steps may have.
fn moves_for(steps: u64) -> u64 {
    steps
        .saturating_mul(MOVES_PER_STEP)
        .saturating_add(MORE_MOVES)
}

/// Takes out what is told of a run with this answer; nothing where that met the budget.
fn insight_of(
    run: &mut Run<'_, '_>,
    answer: &Result<Vec<State>, Refusal>,
) -> Result<Option<Insight>, AllocError> {
    match answer {
        Err(refusal) if is_beyond(refusal) => Ok(None),
        _ => Ok(Some(run.insight()?)),
    }
}

/// Returns the reason for which a program is refused, if it is.
fn reason_of(refusal: &Refusal) -> Option<Reason> {
    match refusal {
        Refusal::Refused { failed, .. } => Some(failed.reason()),
        Refusal::Exhausted(_) => None,
    }
}

/// Whether a walk was too long, or memory ran out, so that nothing is told of it.
fn is_beyond(refusal: &Refusal) -> bool {
    match reason_of(refusal) {
        Some(reason) => reason == Reason::TooManySteps,
        None => true,
    }
}
