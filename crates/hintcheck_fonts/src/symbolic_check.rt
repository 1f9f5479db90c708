//! The judge that searches and checks a program by symbolic states.

ghost use Rattle.std.specs.Prelude.{◌≡◌, [], IfErr, OnOk, refl};
ghost use Rattle.tt_setting.specs.Entries.{Ascends};
ghost use Rattle.hintcheck_fonts.specs.SymbolicEnds.{StartGlyphs};
ghost use Rattle.hintcheck_programs.specs.FontPrograms.{font_of};
ghost use Rattle.hintcheck_programs.specs.ProgramVerdicts.{with_start};
ghost use Rattle.hintcheck_fonts.specs.SymbolicRefusals.{IsSymbolicRefusal, IsToldInTurn};
ghost use Rattle.hintcheck_fonts.specs.Representation.SymbolicChecks.{AreBegun, IsCheckedBy, IsEndedBy};

use crate::ends::{Ends, check_to_end};
use crate::glyph_starts::{GlyphStarts, check_glyph, starts_after};
use hintcheck_programs::judge::Judge;
use hintcheck_programs::program::empty_program;
use hintcheck_programs::report::Name;
use std::alloc::{AllocError, Global};
use tt_abs::{Kind, Refusal, Setting};
use tt_family::Budget;
use tt_font::Font;
use tt_symbolic_search::{Effort, Insight, Question, Search, USUAL_SEARCH};

/// Judges a program by symbolic states, which are found and checked. What was learnt from one program
/// of a font serves the next ones.
pub struct SymbolicCheck {
    search: Search,
    /// How many steps the search may make, for all programs together.
    most_steps: u64,
    /// What is known where the font program or the CVT program ends that was accepted last.
    ends: Ends,
    /// With what glyph programs start.
    starts: GlyphStarts,
    /// The program that is to be explained, and what is asked about it; nothing where no answer is.
    explained: Option<(Name, Question)>,
}

// Written out, so that who holds a judge proves in one step that its memory is given back.
impl Drop for SymbolicCheck {
    fn drop(self) {
        let SymbolicCheck {
            search,
            most_steps: _,
            ends,
            starts,
            explained: _,
        } = self;
        drop(search);
        drop(ends);
        drop(starts);
    }
}

/// Returns what the search is asked about a program, where this is to be explained.
fn question_on(explained: Option<(Name, Question)>, program: Name) -> Option<Question> {
    match explained {
        Some((name, question)) if name == program => Some(question),
        _ => None,
    }
}

impl SymbolicCheck {
    /// Makes a judge that knows nothing yet, whose search may make so many steps for all programs
    /// together. It takes no memory.
    pub fn new(alloc: Global, most_steps: u64) -> Self {
        SymbolicCheck {
            search: Search::new(alloc),
            most_steps,
            ends: Ends::none(alloc),
            starts: GlyphStarts::none(alloc),
            explained: None,
        }
    }

    /// Lets the judge keep what explains its answer for the program of this name.
    pub fn explain(&mut self, program: Name, question: Question) {
        self.explained = Some((program, question));
    }

    /// Takes what the search tells of the program that is explained.
    pub fn take_insight(&mut self) -> Option<Insight> {
        self.search.take_insight()
    }

    /// Returns how many steps the search has made so far, for all programs together.
    pub fn steps(&self) -> u64 {
        self.search.steps()
    }

    /// Returns how much may be done for the next program.
    fn effort_left(&self) -> Effort {
        let left = self.most_steps.saturating_sub(self.search.steps());
        Effort {
            steps: USUAL_SEARCH.steps.min(left),
            ..USUAL_SEARCH
        }
    }

    /// Makes the starts of glyph programs after the ends of the CVT program, without the memory
    /// entries that glyph programs were found to write.
    ///
    /// # Errors
    /// If memory runs out.
    pub(crate) fn start_glyphs(&mut self, alloc: Global) -> Result<(), AllocError>
        ensures starts { OnOk result (StartGlyphs self.new.ends self.new.starts) }
        ensures ends { self.new.ends ≡ self.old.ends }
        ensures bound { self.new.most_steps ≡ self.old.most_steps }
    {
        self.starts = starts_after(alloc, &mut self.search, &self.ends)?;
        Ok(())
    }

    /// Judges the font program and the CVT program of a font in which both are empty, and makes the
    /// starts of its glyph programs.
    ///
    /// # Errors
    /// Those of `check_to_end`.
    #[tactic(auto, using(crate::proofs::SymbolicAnswers::answer_in_turn, crate::proofs::SymbolicAnswers::memory_in_turn))]
    pub(crate) fn pass_empty(&mut self, alloc: Global, font: &Font<'_>) -> Result<(), Refusal>
        ensures begun { OnOk result
            (AreBegun (font_of font.now [] []) self.new.ends self.new.starts) }
        ensures told { IfErr result IsToldInTurn }
    {
        let empty = empty_program(alloc)?;
        let for_font = Setting {
            limits: font.limits(),
            cvt: font.cvt_count(),
            kind: Kind::Font,
            main: &empty,
            font: &empty,
            prep: &empty,
            start: &[],
        };
        let for_cvt = Setting {
            kind: Kind::Cvt,
            ..for_font
        };
        let effort = self.effort_left();
        let first = check_to_end(alloc, &mut self.search, effort, &for_font, &[])?;
        let left = self.effort_left();
        let functions = first.functions.as_slice();
        self.ends = check_to_end(alloc, &mut self.search, left, &for_cvt, functions)?;
        self.start_glyphs(alloc)?;
        Ok(())
    }
}

impl Judge for SymbolicCheck {
    type Known = (u16, u32);

    ghost CanStart = { λ _ functions. Ascends functions };

    ghost Accepts = { λ j x start is. IsCheckedBy j x start is };

    ghost Ends = { λ j x start is known. IsEndedBy j x start is known };

    ghost Refuses = { λ j x start r. IsSymbolicRefusal (with_start x start) r };

    ghost Keeps = { λ j k. k.most_steps ≡ j.most_steps };

    ghost KeepsForGlyphs = { λ j k. (k.ends ≡ j.ends) × (k.starts ≡ j.starts) };

    fn judge(
        &mut self,
        alloc: Global,
        program: Name,
        setting: &Setting<'_>,
        start: &[(u16, u32)],
        _budget: &mut Budget,
    ) -> Result<(), Refusal> {
        self.search.ask(question_on(self.explained, program));
        let effort = self.effort_left();
        let search = &mut self.search;
        match setting.kind {
            Kind::Font => {
                self.ends = check_to_end(alloc, search, effort, setting, start)?;
                Ok(())
            }
            Kind::Cvt => {
                self.ends = check_to_end(alloc, search, effort, setting, start)?;
                self.start_glyphs(alloc)?;
                Ok(())
            }
            Kind::Glyph { .. } => check_glyph(search, effort, setting, &self.starts),
        }
    }

    fn uncut_facts(&self) {}

    fn known_at_end(
        &self,
        alloc: Global,
        _setting: &Setting<'_>,
        _start: &[(u16, u32)],
    ) -> Result<Vec<(u16, u32)>, AllocError> {
        Vec::from_slice(alloc, self.ends.functions.as_slice())
    }

    ghost keeps_itself = { λ j. refl };

    ghost keeps_itself_for_glyphs = { λ j. (refl, refl) };
}
