//! The programs of a font in their order: the font program, the CVT program, each glyph program.
//! Each starts with what is known where the one before it ends, a glyph program with what is known
//! where the CVT program ends.

ghost use Rattle.std.specs.Prelude.{◌≡◌, ◌↔◌, [], IfErr, IfOk, IfSome, IsTrue, None, OnErr, OnOk, Some, false, true};
ghost use Rattle.tt_setting.specs.Settings.{kind_of};
ghost use Rattle.tt_setting.specs.Budgets.{EndTellsBudget, Spends};
ghost use Rattle.hintcheck_programs.specs.FontPrograms.{IsFontInRange};
ghost use Rattle.hintcheck_programs.specs.Representation.FontVerdicts.{ComesToEnd};
ghost use Rattle.hintcheck_programs.specs.Representation.ProgramOrder.{CanGoOn, IsAnswerBy, IsGlyphNext, IsNext, IsOfKindNext, IsSettingOf, TellsOutcome, next_program, skipped_to, stage_after, stage_in, stage_of, start_at};
ghost use Rattle.hintcheck_programs.specs.Stages.{accepted_as, at_glyph, at_start, over};

use crate::judge::Judge;
use crate::program::{cut, empty_program};
use crate::report::{Name, Outcome, Refused};
use std::alloc::{AllocError, Global};
use std::mem;
use tt_abs::{Exhausted, Kind, Refusal, Setting};
use tt_code::Program;
use tt_family::Budget;
use tt_font::Font;

/// A font program or a CVT program, and what is known where it ends.
#[derive(Drop)]
pub struct Ended<'a, K: Drop> {
    program: Program<'a>,
    known: Vec<K>,
}

/// The accepted programs before the next one.
#[derive(Drop)]
enum Before<'a, K: Drop> {
    /// None: the font program is next.
    Nothing,
    /// The font program: the CVT program is next.
    Font(Ended<'a, K>),
    /// The font program and the CVT program: a glyph program is next.
    Both(Program<'a>, Ended<'a, K>),
    /// No program is next.
    Over,
}

/// The program that is next: its name, its bytes, and what kind of program it is.
#[derive(Clone, Copy)]
pub struct Next<'a> {
    pub name: Name,
    pub bytes: &'a [u8],
    pub kind: Kind,
}

/// Which of a font's programs is next, and what those before it leave.
pub struct Programs<'a, K: Drop> {
    pub font: &'a Font<'a>,
    before: Before<'a, K>,
    /// The number of the next glyph, once glyph programs are next.
    glyph: u16,
}

// Written out, so that who holds programs proves in one step that their memory is given back.
impl<'a, K: Drop> Drop for Programs<'a, K> {
    fn drop(self) {
        let Programs {
            font: _,
            before,
            glyph: _,
        } = self;
        drop(before);
    }
}

/// The programs of a font, where functions are known at their ends, by ascending number.
pub type FontPrograms<'a> = Programs<'a, (u16, u32)>;

/// Returns the outcome of an accepted program.
fn accepted(program: Name) -> Outcome
    ensures { result ≡ accepted_as program }
{
    Outcome {
        program,
        refused: None,
    }
}

/// Returns the outcome of a program that the fault refuses.
///
/// # Errors
/// What ended the work without an answer, which refuses nothing.
pub fn refused(program: Name, fault: Refusal) -> Result<Outcome, Exhausted>
    ensures { TellsOutcome program fault result }
{
    match fault {
        Refusal::Refused {
            spot,
            offset,
            failed,
        } => Ok(Outcome {
            program,
            refused: Some(Refused::at(program, spot, offset, failed.reason())),
        }),
        Refusal::Exhausted(by) => Err(by),
    }
}

/// Whether a program of this kind has to come to its end.
fn has_end(kind: Kind) -> bool
    ensures yes { result ≡ true → ComesToEnd (kind_of kind) }
    ensures no { result ≡ false → ComesToEnd (kind_of kind) → ⊥ }
{
    match kind {
        Kind::Font | Kind::Cvt => true,
        Kind::Glyph { .. } => false,
    }
}

/// Returns the accepted programs before the one after the font program or the CVT program that
/// ended so.
fn after<'a, K: Drop>(before: Before<'a, K>, ended: Ended<'a, K>) -> Before<'a, K>
    requires { IsGlyphNext (stage_in before 0) → ⊥ }
    ensures { stage_in result 0 ≡ stage_after (stage_in before.entry 0) (Some ended.entry) }
{
    match before {
        Before::Nothing => Before::Font(ended),
        Before::Font(Ended { program, .. }) => Before::Both(program, ended),
        Before::Both(_, _) | Before::Over => Before::Over,
    }
}

impl<'a, K: Drop> Programs<'a, K> {
    /// Makes the programs of this font, of which the font program is next. It takes no memory.
    pub fn new(font: &'a Font<'a>) -> Self
        ensures font { result.font.now ≡ font.now }
        ensures stage { stage_of result ≡ at_start }
    {
        Programs {
            font,
            before: Before::Nothing,
            glyph: 0,
        }
    }

    /// Makes the programs of a font whose font program and CVT program are empty, of which the first
    /// glyph program is next. Nothing is known where the CVT program ends.
    ///
    /// # Errors
    /// If memory runs out.
    pub fn after_empty(alloc: Global, font: &'a Font<'a>) -> Result<Self, AllocError>
        ensures font { IfOk result (λ programs. programs.font.now ≡ font.now) }
        ensures stage { IfOk result (λ programs. stage_of programs ≡ at_glyph [] [] [] 0) }
    {
        let fpgm = empty_program(alloc)?;
        let prep = Ended {
            program: empty_program(alloc)?,
            known: Vec::new(alloc),
        };
        Ok(Programs {
            font,
            before: Before::Both(fpgm, prep),
            glyph: 0,
        })
    }

    /// Returns the program that is next, if one is left.
    pub fn next(&self) -> Option<Next<'a>>
        requires { IsFontInRange self.now.font.now }
        ensures some { IfSome result (IsNext self.now.font.now (stage_of self.now)) }
        ensures none { result ≡ None
            → next_program self.now.font.now (stage_of self.now) ≡ None }
    {
        match &self.before {
            Before::Nothing => Some(Next {
                name: Name::Font,
                bytes: self.font.fpgm(),
                kind: Kind::Font,
            }),
            Before::Font(_) => Some(Next {
                name: Name::Cvt,
                bytes: self.font.prep(),
                kind: Kind::Cvt,
            }),
            Before::Both(_, _) => {
                let glyph = self.font.glyph(self.glyph)?;
                Some(Next {
                    name: Name::Glyph(self.glyph),
                    bytes: glyph.program,
                    kind: Kind::Glyph {
                        points: glyph.points,
                        contours: glyph.contours,
                    },
                })
            }
            Before::Over => None,
        }
    }

    /// Returns what the next program starts with.
    pub fn start(&self) -> &[K]
        ensures { result.now ≡ start_at (stage_of self.now) }
    {
        match &self.before {
            Before::Font(fpgm) => &fpgm.known,
            Before::Both(_, prep) => &prep.known,
            Before::Nothing | Before::Over => &[],
        }
    }

    /// Returns the setting of the next program, which is of this kind, but for the functions with
    /// which it starts.
    pub fn setting<'s>(&'s self, kind: Kind, main: &'s Program<'s>) -> Setting<'s>
        ensures setting { IsSettingOf self.now.font.now (stage_of self.now) kind
            main.entry.now result }
        ensures main { result.main.now ≡ main.entry.now }
        ensures kind { result.kind ≡ kind }
        ensures limits { result.limits ≡ self.now.font.now.limits }
    {
        let (font, prep) = match &self.before {
            Before::Nothing | Before::Over => (main, main),
            Before::Font(fpgm) => (&fpgm.program, main),
            Before::Both(font, prep) => (font, &prep.program),
        };
        Setting {
            limits: self.font.limits(),
            cvt: self.font.cvt_count(),
            kind,
            main,
            font,
            prep,
            start: &[],
        }
    }

    /// Whether no program is next, whichever the font has.
    pub fn is_over(&self) -> bool
        ensures { IsTrue result ↔ (stage_of self.now ≡ over) }
    {
        match &self.before {
            Before::Over => true,
            Before::Nothing | Before::Font(_) | Before::Both(_, _) => false,
        }
    }

    /// Ends the look: no program is next.
    pub fn end(&mut self)
        ensures font { self.new.font ≡ self.old.font }
        ensures stage { stage_of self.new ≡ over }
    {
        self.before = Before::Over;
    }

    /// Whether a program like that of this name is next: for a glyph's, any glyph's.
    pub fn is_at(&self, called: Name) -> bool
        ensures { IsTrue result ↔ IsOfKindNext called (stage_of self.now) }
    {
        match (&self.before, called) {
            (Before::Nothing, Name::Font) => true,
            (Before::Font(_), Name::Cvt) => true,
            (Before::Both(_, _), Name::Glyph(_)) => true,
            _ => false,
        }
    }

    /// Goes on to the glyph program of this name, where a glyph program is next.
    pub fn skip_to(&mut self, called: Name)
        ensures font { self.new.font ≡ self.old.font }
        ensures stage { stage_of self.new ≡ skipped_to called (stage_of self.old) }
    {
        if let Name::Glyph(id) = called {
            self.glyph = id;
        }
    }

    /// Goes on to the program after the next one: after a font program or a CVT program with what
    /// is known where it ends, if it is accepted.
    pub(crate) fn advance(&mut self, ended: Option<Ended<'a, K>>)
        requires { next_program self.old.font.now (stage_of self.old) ≡ None → ⊥ }
        ensures font { self.new.font ≡ self.old.font }
        ensures stage { stage_of self.new ≡ stage_after (stage_of self.old) ended.entry }
    {
        if let Before::Both(_, _) = &self.before {
            if self.glyph < self.font.glyph_count() {
                self.glyph += 1;
            }
            return;
        }
        self.glyph = 0;
        let before = mem::replace(&mut self.before, Before::Over);
        if let Some(ended) = ended {
            self.before = after(before, ended);
        }
    }

    /// Goes on to the program after the next one, which the fault refuses: returns its outcome.
    ///
    /// # Errors
    /// What ended the work without an answer; then the program is still the next one.
    fn refuse(&mut self, called: Name, fault: Refusal) -> Result<Outcome, Exhausted>
        requires { next_program self.old.font.now (stage_of self.old) ≡ None → ⊥ }
        ensures outcome { TellsOutcome called fault result }
        ensures stage { OnOk result (stage_of self.new ≡ stage_after (stage_of self.old) None) }
        ensures unchanged { OnErr result (self.new ≡ self.old) }
        ensures font { self.new.font ≡ self.old.font }
    {
        let outcome = refused(called, fault)?;
        self.advance(None);
        Ok(outcome)
    }

    /// Judges the next program and goes on to the one after it: returns the program's outcome, or
    /// none where no program is left. A refused font program or CVT program is the last one.
    ///
    /// # Errors
    /// What ended the work without an answer; then the program is still the next one.
    pub fn judge_next<J: Judge<Known = K>>(
        &mut self,
        alloc: Global,
        judge: &mut J,
        budget: &mut Budget,
    ) -> Result<Option<Outcome>, Exhausted>
        requires range { IsFontInRange self.old.font.now }
        requires start { CanGoOn (J.CanStart self.old.font.now.limits) (stage_of self.old) }
        ensures answer { IfOk result (λ answer. IsAnswerBy self.old.font.now (J.Accepts judge.new)
            (J.Ends judge.new) (J.Refuses judge.new) (stage_of self.old) answer
            (stage_of self.new)) }
        ensures start { CanGoOn (J.CanStart self.new.font.now.limits) (stage_of self.new) }
        ensures unchanged { IfErr result (λ _. self.new ≡ self.old) }
        ensures font { self.new.font ≡ self.old.font }
        ensures keeps { J.Keeps judge.old judge.new }
        ensures keeps_for_glyphs { IsGlyphNext (stage_of self.old)
            → J.KeepsForGlyphs judge.old judge.new }
        ensures spends { Spends budget.old budget.new }
        ensures budget { EndTellsBudget budget.old budget.new result }
    {
        let Some(next) = self.next() else {
            self.end();
            return Ok(None);
        };
        judge.uncut_facts();
        let program = match cut(alloc, next.bytes) {
            Ok(program) => program,
            Err(fault) => return Ok(Some(self.refuse(next.name, fault)?)),
        };
        let setting = self.setting(next.kind, &program);
        let start = self.start();
        if let Err(fault) = judge.judge(alloc, next.name, &setting, start, budget) {
            return Ok(Some(self.refuse(next.name, fault)?));
        }
        if !has_end(next.kind) {
            self.advance(None);
            return Ok(Some(accepted(next.name)));
        }
        let known = judge.known_at_end(alloc, &setting, start)?;
        self.advance(Some(Ended { program, known }));
        Ok(Some(accepted(next.name)))
    }
}
