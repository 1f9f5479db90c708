//! Which glyphs of a font may be drawn with hints: those whose programs are accepted, and those of
//! their components at any depth too, which a renderer runs to draw them.

ghost use Rattle.std.specs.Prelude.{◌≡◌, ◌≢◌, ◌↔◌, None, ℕ, ◌+◌, ◌≤◌, [], alloc_error, IfErr, IfOk, length, true};
ghost use Rattle.hintcheck_c.specs.Representation.Retained.{is_in};
ghost use Rattle.tt_setting.specs.Budgets.{IsExceeded, Spends};
ghost use Rattle.tt_font.specs.FileFaults.{font_fault};
ghost use Rattle.tt_font.specs.Files.{font_glyph_count};
ghost use Rattle.hintcheck_fonts.specs.FontAnswers.{IsSymbolicVerdictOn, IsVerdictOn};
ghost use Rattle.hintcheck_report.specs.declared.answer_fault.AnswerFault.{AnswerFault};
ghost use Rattle.tt_setting.specs.declared.exhausted.Exhausted.{Exhausted as By};
ghost use Rattle.hintcheck_c.specs.Answers.{Answers, IsFaultOfVerdict, IsNoVerdict, unanswered};
ghost use Rattle.hintcheck_c.specs.FontFiles.{font_file};
ghost use Rattle.hintcheck_c.specs.Representation.FontBytes.{IsRead};
ghost use Rattle.hintcheck_c.specs.Representation.HintedSets.{AreHinted, Tell};
ghost use Rattle.hintcheck_c.specs.declared.no_verdict.NoVerdict.{NoVerdict};

use crate::answer::{HintcheckAnswer, Work, answer_verdict, fault_of};
use crate::closed::retain_closed;
use crate::font_file::FontFile;
use crate::no_verdict::NoVerdict;
use crate::refusal::HintcheckRefusal;
use hintcheck_fonts::{
    Budget, FontFault, Name, Refused, SymbolicCheck, Verdict, verdict_symbolic_by, verdict_within,
};
use std::alloc::Global;

/// The verdict on a font, and which of its glyphs may be drawn with hints.
#[derive(Drop)]
pub(crate) struct Hinting {
    /// The verdict.
    verdict: Verdict,
    /// Whether each glyph may be drawn with hints; where none may, there may be no entry.
    glyphs: Vec<bool>,
}

/// Takes a glyph out of a set.
fn take_out(set: &mut [bool], id: u16)
    ensures taken { (k : ℕ) → (is_in set.new k ≡ true) ↔ ((is_in set.old k ≡ true) × (id ≢ k)) }
    ensures len { length set.new ≡ length set.old }
{
    let place = usize::from(id);
    if place < set.len() {
        set[place] = false;
    }
}

/// Returns the set of the glyphs that may be drawn with hints in a font of so many glyphs, of which
/// these programs are refused.
///
/// # Errors
/// `OutOfMemory`.
fn hinted_glyphs(
    alloc: Global,
    font: &[u8],
    count: usize,
    refused: &[Refused],
) -> Result<Vec<bool>, FontFault>
    requires font { font_fault font.now ≡ None }
    requires count { count ≡ font_glyph_count font.now }
    ensures glyphs { IfOk result (λ set. AreHinted font.now refused.now set.items) }
    ensures memory { IfErr result (λ fault. fault ≡ FontFault.OutOfMemory alloc_error) }
{
    let mut set = vec![in alloc; true; count]?;
    for one in refused {
        match one.program {
            Name::Glyph(id) => take_out(&mut set, id),
            Name::Font | Name::Cvt => return Ok(Vec::new(alloc)),
        }
    }
    retain_closed(font, &mut set);
    Ok(set)
}

/// Adds to the verdict on a font which of its glyphs may be drawn with hints.
///
/// # Errors
/// `OutOfMemory`.
fn with_glyphs(alloc: Global, font: &[u8], verdict: Verdict) -> Result<Hinting, FontFault>
    requires font { font_fault font.now ≡ None }
    requires count { verdict.programs ≡ font_glyph_count font.now + 2 }
    ensures verdict { IfOk result (λ hinting. hinting.verdict ≡ verdict) }
    ensures glyphs { IfOk result (λ hinting.
        AreHinted font.now verdict.refused hinting.glyphs.items) }
    ensures memory { IfErr result (λ fault. fault ≡ FontFault.OutOfMemory alloc_error) }
{
    let count = verdict.programs() as usize - 2;
    let glyphs = hinted_glyphs(alloc, font, count, verdict.refused())?;
    Ok(Hinting { verdict, glyphs })
}

/// Returns the strict verdict on the programs of a face of these bytes, and which of its glyphs may
/// be drawn with hints. At most as many steps are made as the budget allows.
pub(crate) fn judge_hinting(
    alloc: Global,
    font: &[u8],
    face: u32,
    budget: &mut Budget,
) -> Result<Hinting, NoVerdict>
    ensures given { IfOk result (λ h. IsVerdictOn (font_file face font.now) h.verdict) }
    ensures glyphs { IfOk result (λ h.
        AreHinted (font_file face font.now) h.verdict.refused h.glyphs.items) }
    ensures whole { IfOk result (λ h. IsRead face font.now) }
    ensures fault { IfErr result (IsNoVerdict IsFaultOfVerdict face font.now) }
    ensures spends { Spends budget.old budget.new }
    ensures exceeded { IfErr result (λ why.
        why ≡ NoVerdict.Font (AnswerFault.Exhausted By.Budget) → IsExceeded budget.new) }
{
    let file = FontFile::of(alloc, font, face)?;
    let bytes = file.bytes();
    let verdict = verdict_within(alloc, bytes, budget)?;
    Ok(with_glyphs(alloc, bytes, verdict)?)
}

/// Returns the symbolic verdict on the programs of a face of these bytes, by this judge, and which of
/// its glyphs may be drawn with hints.
pub(crate) fn judge_hinting_symbolic(
    alloc: Global,
    font: &[u8],
    face: u32,
    judge: &mut SymbolicCheck,
) -> Result<Hinting, NoVerdict>
    ensures given { IfOk result (λ h. IsSymbolicVerdictOn (font_file face font.now) h.verdict) }
    ensures glyphs { IfOk result (λ h.
        AreHinted (font_file face font.now) h.verdict.refused h.glyphs.items) }
    ensures whole { IfOk result (λ h. IsRead face font.now) }
    ensures fault { IfErr result (IsNoVerdict IsFaultOfVerdict face font.now) }
    ensures unbounded { IfErr result (λ why.
        why ≢ NoVerdict.Font (AnswerFault.Exhausted By.Budget)) }
{
    let file = FontFile::of(alloc, font, face)?;
    let bytes = file.bytes();
    let verdict = verdict_symbolic_by(alloc, bytes, judge)?;
    Ok(with_glyphs(alloc, bytes, verdict)?)
}

/// Writes 1 for each glyph in a set, and 0 elsewhere.
fn tell(set: &[bool], entries: &mut [u8])
    ensures tell { Tell set.now entries.new }
    ensures len { length entries.new ≡ length entries.old }
{
    for place in 0..entries.len() {
        entries[place] = u8::from(set.get(place).copied().unwrap_or(false));
    }
}

/// Returns a verdict that took this work as an answer, lists its first refusals, and tells which
/// glyphs may be drawn with hints.
pub(crate) fn answer_hinting(
    hinting: &Hinting,
    refusals: &mut [HintcheckRefusal],
    may_hint: &mut [u8],
    work: Work,
) -> HintcheckAnswer
    ensures answers { Answers hinting.now.verdict result refusals.old refusals.new }
    ensures status { result.status ≤ 1 }
    ensures tell { Tell hinting.now.glyphs.items may_hint.new }
    ensures len { length may_hint.new ≡ length may_hint.old }
    ensures profile { result.profile ≡ work.profile }
    ensures steps { result.steps ≡ work.steps }
{
    tell(&hinting.glyphs, may_hint);
    answer_verdict(&hinting.verdict, refusals, work)
}

/// Returns why there is no verdict as an answer after this work, and tells that no glyph may be drawn
/// with hints.
pub(crate) fn answer_no_hinting(why: &NoVerdict, may_hint: &mut [u8], work: Work) -> HintcheckAnswer
    ensures answer { result ≡ unanswered why.now work.profile work.steps }
    ensures status { why.now ≢ NoVerdict.Font (AnswerFault.Exhausted By.Budget)
        → result.status ≤ 3 }
    ensures none { 2 ≤ result.status }
    ensures tell { Tell [] may_hint.new }
    ensures len { length may_hint.new ≡ length may_hint.old }
    ensures profile { result.profile ≡ work.profile }
    ensures steps { result.steps ≡ work.steps }
{
    tell(&[], may_hint);
    fault_of(why, work)
}
