//! What a call answers, in numbers.

ghost use Rattle.std.specs.Prelude.{◌≡◌, ◌≢◌, ◌≤◌};
ghost use Rattle.hintcheck_c.specs.Answers.{Answers, fault_answer as answer_of_fault, file_unanswered, font_answer, font_unanswered, unanswered};
ghost use Rattle.hintcheck_c.specs.declared.no_verdict.NoVerdict.{NoVerdict};
ghost use Rattle.hintcheck_report.specs.declared.answer_fault.AnswerFault.{AnswerFault};
ghost use Rattle.tt_setting.specs.declared.exhausted.Exhausted.{Exhausted as By};

use crate::no_verdict::NoVerdict;
use crate::refusal::{HintcheckRefusal, list_refused};
use hintcheck_fonts::{AnswerFault, FontFault, Verdict};
use tt_abs::Exhausted;
use tt_collection::CollectionFault;

/// The status where every program is accepted.
const ACCEPTED: u32 = 0;

/// The status where a program is refused.
pub(crate) const REFUSED: u32 = 1;

/// The status where there is no verdict: no such face, no font that can be read, or no certificate
/// for it.
const FAULT: u32 = 2;

/// The status where there is no verdict since memory ran out.
const OUT_OF_MEMORY: u32 = 3;

/// The status where there is no verdict since the strict profile was to make more steps than may be.
pub(crate) const BUDGET: u32 = 4;

/// The number of the strict profile.
const STRICT: u32 = 0;

/// The number of the symbolic profile.
const SYMBOLIC: u32 = 1;

/// The number of the fault that memory ran out.
const MEMORY_FAULT: u32 = 9;

/// The number of the fault of a certificate's form.
const FORM_FAULT: u32 = 43;

/// The number of the fault that a certificate can't be read.
const READ_FAULT: u32 = 44;

/// The number of the fault that something can't be written, which no call here does.
const WRITE_FAULT: u32 = 45;

/// The number of the fault that the budget is exceeded.
const BUDGET_FAULT: u32 = 46;

/// What a call answers.
#[repr(C)]
#[derive(Clone, Copy)]
pub struct HintcheckAnswer {
    /// 0 accepted, 1 refused, 2 a fault, 3 out of memory, 4 a budget that is exceeded.
    pub status: u32,
    /// The number of the fault: 1 to 8 of the font, 10 to 15 of the collection or the face, 43 of the
    /// certificate, 9 out of memory, 46 a budget that is exceeded; 0 where there is a verdict.
    pub fault: u32,
    /// Where the certificate is at fault, in bytes; 0 where it isn't.
    pub place: u64,
    /// How many steps the profile took that answers. A step of the strict profile carries a state on
    /// from a place of a program; one of the symbolic profile carries a state over an instruction.
    pub steps: u64,
    /// How many programs there are; 0 at a fault.
    pub programs: u32,
    /// How many of them are refused.
    pub refused: u32,
    /// How many refusals are listed.
    pub listed: usize,
    /// Which profile answers: 0 the strict one, 1 the symbolic one.
    pub profile: u32,
}

/// What was done for an answer.
#[derive(Clone, Copy)]
pub(crate) struct Work {
    /// The number of the profile that answers.
    pub profile: u32,
    /// How many steps it took.
    pub steps: u64,
}

impl Work {
    /// Returns the work of the strict profile in so many steps.
    pub(crate) fn strict(steps: u64) -> Work
        ensures { result ≡ record { profile = 0; steps = steps } }
    {
        Work {
            profile: STRICT,
            steps,
        }
    }

    /// Returns the work of the symbolic profile in so many steps.
    pub(crate) fn symbolic(steps: u64) -> Work
        ensures { result ≡ record { profile = 1; steps = steps } }
    {
        Work {
            profile: SYMBOLIC,
            steps,
        }
    }
}

/// Returns a fault as an answer.
fn fault_answer(status: u32, fault: u32, place: u64, work: Work) -> HintcheckAnswer
    ensures { result ≡ answer_of_fault status fault place work.profile work.steps }
{
    HintcheckAnswer {
        status,
        fault,
        place,
        steps: work.steps,
        programs: 0,
        refused: 0,
        listed: 0,
        profile: work.profile,
    }
}

/// Returns a verdict that took this work as an answer, and lists its first refusals.
pub(crate) fn answer_verdict(
    verdict: &Verdict,
    refusals: &mut [HintcheckRefusal],
    work: Work,
) -> HintcheckAnswer
    ensures answers { Answers verdict.now result refusals.old refusals.new }
    ensures status { result.status ≤ 1 }
    ensures profile { result.profile ≡ work.profile }
    ensures steps { result.steps ≡ work.steps }
{
    let refused = verdict.refused();
    let listed = list_refused(refused, refusals);
    HintcheckAnswer {
        status: if verdict.accepted() {
            ACCEPTED
        } else {
            REFUSED
        },
        fault: 0,
        place: 0,
        steps: work.steps,
        programs: verdict.programs(),
        refused: u32::try_from(refused.len()).unwrap_or(u32::MAX),
        listed,
        profile: work.profile,
    }
}

/// Returns a fault of a font as an answer after this work.
fn fault_of_font(fault: &FontFault, work: Work) -> HintcheckAnswer
    ensures answer { result ≡ font_answer fault.now work.profile work.steps }
    ensures status { result.status ≤ 3 }
    ensures none { 2 ≤ result.status }
    ensures profile { result.profile ≡ work.profile }
    ensures steps { result.steps ≡ work.steps }
{
    match fault {
        FontFault::OutOfMemory(_) => fault_answer(OUT_OF_MEMORY, MEMORY_FAULT, 0, work),
        fault => fault_answer(FAULT, u32::from(fault.number()), 0, work),
    }
}

/// Returns a fault of a collection or of a face as an answer after this work.
fn fault_of_file(fault: &CollectionFault, work: Work) -> HintcheckAnswer
    ensures answer { result ≡ file_unanswered fault.now work.profile work.steps }
    ensures status { result.status ≤ 3 }
    ensures none { 2 ≤ result.status }
    ensures profile { result.profile ≡ work.profile }
    ensures steps { result.steps ≡ work.steps }
{
    match fault {
        CollectionFault::OutOfMemory(_) => fault_answer(OUT_OF_MEMORY, MEMORY_FAULT, 0, work),
        fault => fault_answer(FAULT, u32::from(fault.number()), 0, work),
    }
}

/// Returns why a font file has no verdict as an answer after this work.
fn fault_of_answer(fault: &AnswerFault, work: Work) -> HintcheckAnswer
    ensures answer { result ≡ font_unanswered fault.now work.profile work.steps }
    ensures status { fault.now ≢ AnswerFault.Exhausted By.Budget → result.status ≤ 3 }
    ensures none { 2 ≤ result.status }
    ensures profile { result.profile ≡ work.profile }
    ensures steps { result.steps ≡ work.steps }
{
    match fault {
        AnswerFault::Font(fault) => fault_of_font(fault, work),
        AnswerFault::Form(place) => fault_answer(FAULT, FORM_FAULT, *place, work),
        AnswerFault::Read => fault_answer(FAULT, READ_FAULT, 0, work),
        AnswerFault::Write | AnswerFault::Print(_) => fault_answer(FAULT, WRITE_FAULT, 0, work),
        AnswerFault::Exhausted(Exhausted::Memory) => {
            fault_answer(OUT_OF_MEMORY, MEMORY_FAULT, 0, work)
        }
        AnswerFault::Exhausted(Exhausted::Budget) => fault_answer(BUDGET, BUDGET_FAULT, 0, work),
    }
}

/// Returns why there is no verdict as an answer after this work.
pub(crate) fn fault_of(fault: &NoVerdict, work: Work) -> HintcheckAnswer
    ensures answer { result ≡ unanswered fault.now work.profile work.steps }
    ensures status { fault.now ≢ NoVerdict.Font (AnswerFault.Exhausted By.Budget)
        → result.status ≤ 3 }
    ensures none { 2 ≤ result.status }
    ensures profile { result.profile ≡ work.profile }
    ensures steps { result.steps ≡ work.steps }
{
    match fault {
        NoVerdict::File(fault) => fault_of_file(fault, work),
        NoVerdict::Font(fault) => fault_of_answer(fault, work),
    }
}
