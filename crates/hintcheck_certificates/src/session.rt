//! The programs of a font, one a call: each is checked by its section of a certificate, or its
//! family is found anew. A session holds one certificate at a time.

ghost use Rattle.std.specs.Prelude.{◌≡◌, ◌≢◌, IfErr, IfOk, None, Ok, Err, Some};
ghost use Rattle.tt_setting.specs.Budgets.{EndTellsBudget, Spends};
ghost use Rattle.tt_stream.specs.Reads.{ConsumesBeginning};
ghost use Rattle.hintcheck_certificates.specs.BudgetAnswers.{AnswerTells, AnswerTellsBudget, IsOutsideFont};
ghost use Rattle.hintcheck_certificates.specs.CertificateFaults.{CountsCheck, IsOutsideFontAndBudget};
ghost use Rattle.hintcheck_certificates.specs.CheckedFonts.{Finds, IsTold};
ghost use Rattle.hintcheck_certificates.specs.FailedReads.{EndsInCall, HasRead};
ghost use Rattle.hintcheck_certificates.specs.FindingSessions.{IsForFinding, IsFoundAnswer, out_of_memory};
ghost use Rattle.hintcheck_programs.specs.FontPrograms.{IsFontInRange};
ghost use Rattle.hintcheck_certificates.specs.Sessions.{AnswersNext, IsForChecking, IsNextFault, IsSoundAnswer, ReadsOn, new_standing, standing_at};
ghost use Rattle.hintcheck_programs.specs.Stages.{Stage, over};
ghost use Rattle.hintcheck_programs.specs.Representation.ProgramOrder.{stage_of};
ghost use Rattle.hintcheck_certificates.specs.Representation.SessionStages.{KeepsFound, KeepsGood, StepsBySection, StopsInSection, read_of, standing_of};
ghost use Rattle.hintcheck_programs.specs.Representation.FontVerdicts.{KeepsKnown};
ghost use Rattle.hintcheck_report.specs.declared.answer_fault.AnswerFault.{AnswerFault as AnyFault};
ghost use Rattle.hintcheck_certificates.specs.Representation.ReadProgress.{input_from};

use crate::certificate::FindFontFault;
use crate::font_check::{CheckFontFault, read_start};
use crate::section_check::SectionCheck;
use crate::sections::{Progress, next_section};
use hintcheck_programs::finding::Finding;
use hintcheck_programs::program::Search;
use hintcheck_programs::programs::{FontPrograms, Programs};
use hintcheck_programs::report::{Name, Outcome, Refused};
use hintcheck_report::AnswerFault;
use std::alloc::Global;
use std::marker::Model;
use tt_abs::Exhausted;
use tt_cert::{Decoder, read_end};
use tt_family::Budget;
use tt_find::Found;
use tt_font::Font;
use tt_stream::Source;

/// Returns how far the certificate was read: this far, or through its header, which is read if it
/// wasn't yet.
fn progress_of<S: Source>(
    font: &Font<'_>,
    known: Option<Progress>,
    source: &mut S,
) -> Result<Progress, CheckFontFault>
    ensures exact { (stage : Stage) → IsTold (S.remaining source.old) → Finds result
        (λ p. IsTold (S.remaining source.new)
        × ReadsOn (standing_at font.now stage (read_of known)) (S.remaining source.old)
        p.form (input_from p (S.remaining source.new)))
        (IsNextFault (standing_at font.now stage (read_of known)) (S.remaining source.old)) }
    ensures beginning { ConsumesBeginning (S.remaining source.old) (S.remaining source.new) }
    ensures stopped { (stage : Stage) → IfErr result
        (HasRead (S.remaining source.old) (S.remaining source.new)
        (EndsInCall (standing_at font.now stage (read_of known)))) }
    ensures failures { CountsCheck result (S.failures source.old) (S.failures source.new) }
    ensures font { IfErr result IsOutsideFontAndBudget }
{
    match known {
        Some(progress) => Ok(progress),
        None => read_start(font, source),
    }
}

/// Returns what a call that checks comes to, after the header was read: the next program's outcome
/// by the next section, or, after the last one's section, that nothing follows.
fn check_section<'a, S: Source>(
    alloc: Global,
    decoder: &mut Decoder,
    programs: &mut FontPrograms<'a>,
    source: &mut S,
    progress: &mut Progress,
    budget: &mut Budget,
) -> Result<Option<Outcome>, CheckFontFault>
    requires range { IsFontInRange programs.old.font.now }
    requires good { KeepsGood programs.old.font.now (stage_of programs.old) }
    requires going { stage_of programs.old ≢ over }
    ensures sound { IfOk result (λ answer. IsSoundAnswer programs.old.font.now
        (stage_of programs.old) answer (stage_of programs.new)) }
    ensures exact { StepsBySection programs.old.font.now (stage_of programs.old)
        progress.old (S.remaining source.old) progress.new (S.remaining source.new)
        (stage_of programs.new) result }
    ensures form { progress.new.form ≡ progress.old.form }
    ensures font { programs.new.font ≡ programs.old.font }
    ensures unchanged { IfErr result (λ _. programs.new ≡ programs.old) }
    ensures beginning { ConsumesBeginning (S.remaining source.old) (S.remaining source.new) }
    ensures stopped { IfErr result (StopsInSection programs.old.font.now (stage_of programs.old)
        progress.old (S.remaining source.old) (S.remaining source.new)) }
    ensures failures { CountsCheck result (S.failures source.old) (S.failures source.new) }
    ensures no_font_fault { IfErr result IsOutsideFont }
    ensures spends { Spends budget.old budget.new }
    ensures ends { AnswerTells budget.old budget.new result }
{
    let Some(next) = programs.next() else {
        read_end(source, progress.place)?;
        programs.end();
        return Ok(None);
    };
    let certificate = next_section(alloc, decoder, source, progress, next.name)?;
    let mut judge = SectionCheck {
        certificate,
        form: progress.form,
    };
    let judged = programs.judge_next(alloc, &mut judge, budget);
    decoder.clear();
    Ok(judged?)
}

/// Returns what a call of a session that has read this far comes to, and puts in its place how far
/// the session has read then.
fn check_from<'a, S: Source>(
    alloc: Global,
    decoder: &mut Decoder,
    programs: &mut FontPrograms<'a>,
    read: &mut Option<Progress>,
    source: &mut S,
    budget: &mut Budget,
) -> Result<Option<Outcome>, CheckFontFault>
    requires range { IsFontInRange programs.old.font.now }
    requires good { KeepsGood programs.old.font.now (stage_of programs.old) }
    requires going { stage_of programs.old ≢ over }
    ensures sound { IfOk result (λ answer. IsSoundAnswer programs.old.font.now
        (stage_of programs.old) answer (stage_of programs.new)) }
    ensures good { KeepsGood programs.new.font.now (stage_of programs.new) }
    ensures found { KeepsFound (read_of read.old) programs.old.font.now (stage_of programs.old)
        → KeepsFound (read_of read.new) programs.new.font.now (stage_of programs.new) }
    ensures font { programs.new.font ≡ programs.old.font }
    ensures read { IfOk result (λ _. read_of read.new ≡ None → ⊥) }
    ensures exact { IsTold (S.remaining source.old) → Finds result
        (λ answer. IsTold (S.remaining source.new)
        × AnswersNext (standing_of programs.old read.old) (S.remaining source.old)
        answer (standing_of programs.new read.new) (S.remaining source.new))
        (IsNextFault (standing_of programs.old read.old) (S.remaining source.old)) }
    ensures beginning { ConsumesBeginning (S.remaining source.old) (S.remaining source.new) }
    ensures stopped { IfErr result (HasRead (S.remaining source.old) (S.remaining source.new)
        (EndsInCall (standing_of programs.old read.old))) }
    ensures failures { CountsCheck result (S.failures source.old) (S.failures source.new) }
    ensures no_font_fault { IfErr result IsOutsideFont }
    ensures spends { Spends budget.old budget.new }
    ensures ends { AnswerTells budget.old budget.new result }
{
    let mut progress = progress_of(programs.font, *read, source)?;
    let answer = check_section(alloc, decoder, programs, source, &mut progress, budget)?;
    *read = Some(progress);
    Ok(answer)
}

/// Returns what a call that finds comes to: the next program's outcome, and what is found for it,
/// if it is accepted.
fn find_from<'a>(
    alloc: Global,
    programs: &mut FontPrograms<'a>,
    budget: &mut Budget,
) -> Result<Option<(Outcome, Option<Found>)>, Exhausted>
    requires range { IsFontInRange programs.old.font.now }
    requires known { KeepsKnown programs.old.font.now (stage_of programs.old) }
    ensures found { IfOk result (λ answer. IsFoundAnswer programs.old.font.now
        (stage_of programs.old) answer (stage_of programs.new)) }
    ensures known { KeepsKnown programs.new.font.now (stage_of programs.new) }
    ensures font { programs.new.font ≡ programs.old.font }
    ensures spends { Spends budget.old budget.new }
    ensures budget { EndTellsBudget budget.old budget.new result }
{
    let mut judge = Finding::new(alloc, Search::Certificate);
    let Some(outcome) = programs.judge_next(alloc, &mut judge, budget)? else {
        return Ok(None);
    };
    match outcome.refused {
        None => Ok(Some((outcome, judge.take_found(alloc)))),
        Some(_) => Ok(Some((outcome, None))),
    }
}

/// The programs of a font, one after the other: the font program, the CVT program, and each glyph
/// program. A session keeps which program is next, what the next ones start with, and a fault; and
/// of a certificate only its form, how far it was read, the state that was read last, and memory
/// for the next section. It holds no family between two calls.
pub struct Session<'a> {
    programs: FontPrograms<'a>,
    decoder: Decoder,
    progress: Option<Progress>,
    fault: Option<AnswerFault>,
}

// Written out, so that who holds a session proves in one step that its memory is given back.
impl<'a> Drop for Session<'a> {
    fn drop(self) {
        let Session {
            programs,
            decoder,
            progress: _,
            fault: _,
        } = self;
        drop(programs);
        drop(decoder);
    }
}

impl<'a> Model for Session<'a> {
    ghost use Rattle.hintcheck_certificates.specs.Sessions.{Standing};
    ghost use Rattle.hintcheck_programs.specs.FontPrograms.{IsFontInRange};
    ghost use Rattle.hintcheck_programs.specs.Representation.ProgramOrder.{stage_of};
    ghost use Rattle.hintcheck_certificates.specs.Representation.SessionStages.{KeepsFound, KeepsGood, read_of};

    ghost Value = { Standing };

    ghost view = { λ s. record {
      font = s.programs.font.now;
      stage = stage_of s.programs;
      read = read_of s.progress;
      fault = s.fault;
    } };

    ghost invariant = { λ s. IsFontInRange s.programs.font.now
        × KeepsGood s.programs.font.now (stage_of s.programs)
        × KeepsFound (read_of s.progress) s.programs.font.now (stage_of s.programs) };
}

impl<'a> Session<'a> {
    /// Makes a session over the programs of this font. It takes no memory.
    pub fn new(font: &'a Font<'a>) -> Self
        ensures { result ≡ new_standing font.now }
    {
        font.range_facts();
        Session {
            programs: Programs::new(font),
            decoder: Decoder::new(),
            progress: None,
            fault: None,
        }
    }

    /// Reads the section of the next program, and checks the program by it: returns the program's
    /// outcome. The first call reads the certificate's header first. After the last section, or
    /// after a refused font program or CVT program, there is no outcome: the first call after the
    /// last section reads on to see that the certificate ends there, and any other such call reads
    /// nothing. A session on which this is called may be used only for calls that check.
    ///
    /// # Errors
    /// `Form` where the bytes are no certificate for the font; `Read` exactly where a read failed;
    /// `Exhausted` where memory ran out. After a fault each call returns it, and reads nothing.
    pub fn check_next<S: Source>(
        &mut self,
        alloc: Global,
        source: &mut S,
    ) -> Result<Option<Outcome>, CheckFontFault>
        requires { IsForChecking self.old }
        // The outcome is the next program's, and an accepted one has a good family.
        ensures sound { IfOk result
            (λ answer. IsSoundAnswer self.old.font self.old.stage answer self.new.stage) }
        // Where the source tells its bytes, it comes from the program's section, which is read from
        // where the call before ended.
        ensures exact { self.old.fault ≡ None → IsTold (S.remaining source.old) → Finds result
            (λ answer. IsTold (S.remaining source.new)
            × AnswersNext self.old (S.remaining source.old)
            answer self.new (S.remaining source.new))
            (IsNextFault self.old (S.remaining source.old)) }
        ensures after_fault { (fault : AnyFault) → self.old.fault ≡ Some fault
            → (result ≡ Err fault) × (self.new ≡ self.old) × (source.new ≡ source.old) }
        ensures after_none { self.old.fault ≡ None → self.old.stage ≡ over
            → (result ≡ Ok None) × (self.new ≡ self.old) × (source.new ≡ source.old) }
        ensures fault { IfErr result (λ fault. self.new.fault ≡ Some fault) }
        ensures no_fault { IfOk result (λ _. self.new.fault ≡ None) }
        ensures font { self.new.font ≡ self.old.font }
        ensures checking { IsForChecking self.new }
        ensures beginning { ConsumesBeginning (S.remaining source.old) (S.remaining source.new) }
        // Where a read failed, no unit that the call read whole breaks a rule.
        ensures whole_units { self.old.fault ≡ None → IfErr result
            (HasRead (S.remaining source.old) (S.remaining source.new) (EndsInCall self.old)) }
        ensures failures { self.old.fault ≡ None
            → CountsCheck result (S.failures source.old) (S.failures source.new) }
        ensures no_font_fault { self.old.fault ≡ None
            → IfErr result IsOutsideFontAndBudget }
    {
        if let Some(fault) = self.fault {
            return Err(fault);
        }
        let checked = self.check_next_within(alloc, source, &mut Budget::unlimited());
        if let Some(AnswerFault::Exhausted(Exhausted::Budget)) = self.fault {
            // No font has so many points.
            self.fault = Some(AnswerFault::Exhausted(Exhausted::Memory));
            return Err(CheckFontFault::Exhausted(Exhausted::Memory));
        }
        checked
    }

    /// Checks the next program as `check_next` does, and makes at most as many points as the budget
    /// allows: one point is made each time that a state is carried on. The next call may have
    /// another budget.
    ///
    /// # Errors
    /// As `check_next`; `Exhausted` too where more points were to be made than the budget allows, in
    /// this call or in an earlier one, unless a fault of form or a failed read comes first, or no
    /// program is left. After a fault each call returns it, and reads nothing.
    pub fn check_next_within<S: Source>(
        &mut self,
        alloc: Global,
        source: &mut S,
        budget: &mut Budget,
    ) -> Result<Option<Outcome>, CheckFontFault>
        requires { IsForChecking self.old }
        // The outcome is the next program's, and an accepted one has a good family.
        ensures sound { IfOk result
            (λ answer. IsSoundAnswer self.old.font self.old.stage answer self.new.stage) }
        // Where the source tells its bytes, it comes from the program's section, which is read from
        // where the call before ended.
        ensures exact { self.old.fault ≡ None → IsTold (S.remaining source.old) → Finds result
            (λ answer. IsTold (S.remaining source.new)
            × AnswersNext self.old (S.remaining source.old)
            answer self.new (S.remaining source.new))
            (IsNextFault self.old (S.remaining source.old)) }
        ensures after_fault { (fault : AnyFault) → self.old.fault ≡ Some fault
            → (result ≡ Err fault) × (self.new ≡ self.old) × (source.new ≡ source.old) }
        ensures after_none { self.old.fault ≡ None → self.old.stage ≡ over
            → (result ≡ Ok None) × (self.new ≡ self.old) × (source.new ≡ source.old) }
        ensures fault { IfErr result (λ fault. self.new.fault ≡ Some fault) }
        ensures no_fault { IfOk result (λ _. self.new.fault ≡ None) }
        ensures font { self.new.font ≡ self.old.font }
        ensures checking { IsForChecking self.new }
        ensures beginning { ConsumesBeginning (S.remaining source.old) (S.remaining source.new) }
        // Where a read failed, no unit that the call read whole breaks a rule.
        ensures whole_units { self.old.fault ≡ None → IfErr result
            (HasRead (S.remaining source.old) (S.remaining source.new) (EndsInCall self.old)) }
        ensures failures { self.old.fault ≡ None
            → CountsCheck result (S.failures source.old) (S.failures source.new) }
        ensures no_font_fault { self.old.fault ≡ None → IfErr result IsOutsideFont }
        ensures spends { Spends budget.old budget.new }
        ensures budget { self.old.fault ≡ None → self.old.stage ≢ over
            → AnswerTellsBudget budget.new result }
        ensures ends { self.old.fault ≡ None → AnswerTells budget.old budget.new result }
    {
        if let Some(fault) = self.fault {
            return Err(fault);
        }
        if self.programs.is_over() {
            return Ok(None);
        }
        if budget.is_exceeded() {
            self.fault = Some(AnswerFault::Exhausted(Exhausted::Budget));
            return Err(CheckFontFault::Exhausted(Exhausted::Budget));
        }
        let answer = check_from(
            alloc,
            &mut self.decoder,
            &mut self.programs,
            &mut self.progress,
            source,
            budget,
        );
        if let Err(fault) = &answer {
            self.fault = Some(*fault);
        }
        answer
    }

    /// Finds the next program's family, and checks it: returns the program's outcome, and where it
    /// is accepted, what is found for it. After the last program, or after a refused font program
    /// or CVT program, there is no outcome. A session on which this is called may be used only for
    /// calls that find.
    ///
    /// # Errors
    /// `Exhausted` where memory ran out. After a fault each call returns it.
    pub fn find_next(
        &mut self,
        alloc: Global,
    ) -> Result<Option<(Outcome, Option<Found>)>, FindFontFault>
        requires { IsForFinding self.old }
        // The outcome is the next program's: what is found for an accepted one is its least family,
        // and a refused one has none.
        ensures found { IfOk result
            (λ answer. IsFoundAnswer self.old.font self.old.stage answer self.new.stage) }
        ensures after_fault { (fault : AnyFault) → self.old.fault ≡ Some fault
            → (result ≡ Err fault) × (self.new ≡ self.old) }
        ensures after_none { self.old.fault ≡ None → self.old.stage ≡ over
            → (result ≡ Ok None) × (self.new ≡ self.old) }
        ensures fault { self.old.fault ≡ None → IfErr result
            (λ fault. (fault ≡ out_of_memory) × (self.new.fault ≡ Some out_of_memory)) }
        ensures no_fault { IfOk result (λ _. self.new.fault ≡ None) }
        ensures font { self.new.font ≡ self.old.font }
        ensures finding { IsForFinding self.new }
    {
        if let Some(fault) = self.fault {
            return Err(fault);
        }
        match self.find_next_within(alloc, &mut Budget::unlimited()) {
            Ok(found) => Ok(found),
            Err(_) => {
                // No font has so many points.
                self.fault = Some(AnswerFault::Exhausted(Exhausted::Memory));
                Err(FindFontFault::Exhausted(Exhausted::Memory))
            }
        }
    }

    /// Finds the next program's family as `find_next` does, and makes at most as many points as the
    /// budget allows: one point is made each time that a state is carried on, to find a family or
    /// to check it. The next call may have another budget.
    ///
    /// # Errors
    /// `Exhausted` where memory ran out, and where more points were to be made than the budget allows,
    /// in this call or in an earlier one, unless no program is left. After a fault each call returns
    /// it.
    pub fn find_next_within(
        &mut self,
        alloc: Global,
        budget: &mut Budget,
    ) -> Result<Option<(Outcome, Option<Found>)>, FindFontFault>
        requires { IsForFinding self.old }
        // The outcome is the next program's: what is found for an accepted one is its least family,
        // and a refused one has none.
        ensures found { IfOk result
            (λ answer. IsFoundAnswer self.old.font self.old.stage answer self.new.stage) }
        ensures after_fault { (fault : AnyFault) → self.old.fault ≡ Some fault
            → (result ≡ Err fault) × (self.new ≡ self.old) }
        ensures after_none { self.old.fault ≡ None → self.old.stage ≡ over
            → (result ≡ Ok None) × (self.new ≡ self.old) }
        ensures fault { IfErr result (λ fault. self.new.fault ≡ Some fault) }
        ensures no_fault { IfOk result (λ _. self.new.fault ≡ None) }
        ensures font { self.new.font ≡ self.old.font }
        ensures finding { IsForFinding self.new }
        ensures spends { Spends budget.old budget.new }
        ensures budget { self.old.fault ≡ None → self.old.stage ≢ over
            → AnswerTellsBudget budget.new result }
    {
        if let Some(fault) = self.fault {
            return Err(fault);
        }
        if self.programs.is_over() {
            return Ok(None);
        }
        if budget.is_exceeded() {
            self.fault = Some(AnswerFault::Exhausted(Exhausted::Budget));
            return Err(FindFontFault::Exhausted(Exhausted::Budget));
        }
        match find_from(alloc, &mut self.programs, budget) {
            Ok(found) => Ok(found),
            Err(by) => {
                self.fault = Some(AnswerFault::Exhausted(by));
                Err(FindFontFault::Exhausted(by))
            }
        }
    }
}
