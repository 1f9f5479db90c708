//! hintcheck as a static library for C and C++. `include/hintcheck.h` declares its functions and
//! says for each what it takes and answers.
#![tactic(auto)]

ghost use Rattle.std.specs.Prelude.{◌≡◌, ◌<◌, ◌≤◌, ◌↔◌, ℕ, [], IfErr, IfOk, None, length, replicate, slice_index, true};
ghost use Rattle.tt_code.specs.Refusals.{number_of, reason_text};
ghost use Rattle.tt_code.specs.declared.reason.Reason.{Reason};
ghost use Rattle.tt_setting.specs.Budgets.{IsExceeded, Spends};
ghost use Rattle.hintcheck_certificates.specs.CheckedFonts.{AnswersFinding};
ghost use Rattle.hintcheck_programs.specs.FontPrograms.{IsSafeFont};
ghost use Rattle.hintcheck_fonts.specs.FontAnswers.{HoldRefusedFont, HoldSafeFont, HoldSymbolicRefusedFont, HoldSymbolicSafeFont};
ghost use Rattle.hintcheck_c.specs.Answers.{AnswersCheck, AnswersNoVerdict, AnswersSymbolicVerdict, AnswersVerdict, IsFaultOfCheck, IsFaultOfVerdict, IsNoVerdict};
ghost use Rattle.hintcheck_c.specs.FontFiles.{file_fault, font_file};
ghost use Rattle.hintcheck_c.specs.MayHint.{HoldSafeGlyph, HoldSymbolicSafeGlyphs};
ghost use Rattle.hintcheck_c.specs.Profiles.{AnswersVerdictBy, HoldSafeFontBy, HoldSafeGlyphBy};
ghost use Rattle.hintcheck_c.specs.ReasonTexts.{c_string};
ghost use Rattle.hintcheck_report.specs.declared.answer_fault.AnswerFault.{AnswerFault};
ghost use Rattle.tt_setting.specs.declared.exhausted.Exhausted.{Exhausted as By};
ghost use Rattle.hintcheck_report.specs.ReasonNumbers.{IsReasonNumber};
ghost use Rattle.hintcheck_c.specs.declared.no_verdict.NoVerdict.{NoVerdict};
ghost use Rattle.tt_font.specs.Reading.{FontData, Reads};

mod answer;
mod closed;
mod component;
mod font_file;
mod hinted;
mod no_verdict;
mod reason;
mod refusal;

pub use answer::HintcheckAnswer;
use answer::{BUDGET, REFUSED, Work, answer_verdict, fault_of};
use font_file::FontFile;
use hintcheck_certificates::check_font_within;
use hintcheck_fonts::{Budget, SymbolicCheck, Verdict};
use hintcheck_report::reason_of;
use hinted::{answer_hinting, answer_no_hinting, judge_hinting, judge_hinting_symbolic};
use no_verdict::NoVerdict;
use reason::{TEXT_SIZE, c_string_of};
pub use refusal::HintcheckRefusal;
use std::alloc::Global;
use tt_stream::Bytes;

/// The version, a byte each for its three numbers.
const VERSION: u32 = 0x0000_0900;

/// Returns the version: 0.9.0 is 0x000900.
#[unsafe(no_mangle)]
pub extern "C" fn hintcheck_version() -> u32
    ensures { result ≡ 2304 }
{
    VERSION
}

/// Hands out the text of the reason of this number, with zeros after it, and returns whether it is a
/// reason's number; where it isn't, what was there stays. What was there has to be a text too, as all
/// that is handed in: 24 bytes that can be read, of any kind, and no null pointer.
#[unsafe(no_mangle)]
pub extern "C" fn hintcheck_reason_text_of_number(
    number: u32,
    text: &mut &'static [u8; TEXT_SIZE],
) -> bool
    ensures text { (r : Reason) → number_of r ≡ number
        → text.new.now ≡ c_string (reason_text r) }
    ensures known { (result ≡ true) ↔ IsReasonNumber number }
{
    match reason_of(number) {
        Some(reason) => {
            *text = c_string_of(reason);
            true
        }
        None => false,
    }
}

/// Answers with the strict verdict on the programs of a font, or with why there is none, and returns
/// the answer's status. The font is the face of this number, from 0, where the bytes are a font
/// collection, and otherwise the bytes, which have the face 0 alone. At most this many steps are made:
/// each carries a state on from a place of a program. The first refusals are listed, as many as there
/// is room for. An array has an entry for each glyph, as far as it goes, which is 1 exactly where the
/// font program, the CVT program, the glyph's program and those of its components at any depth are
/// accepted. The other entries are 0.
#[unsafe(no_mangle)]
pub extern "C" fn hintcheck_verdict_of_bytes(
    alloc: Global,
    font: &[u8],
    face: u32,
    steps: u64,
    refusals: &mut [HintcheckRefusal],
    may_hint: &mut [u8],
    answer: &mut HintcheckAnswer,
) -> u32
    // Where the status is 0, the face is a font, and no run of any of its programs reaches a fault.
    ensures accepted { result ≡ 0 → HoldSafeFont (font_file face font.now) }
    ensures refused { result ≡ 1 → HoldRefusedFont (font_file face font.now) }
    // Where a glyph's entry is 1, the face is a font, and no run of the font program, of the CVT
    // program, of the glyph's program or of a component's reaches a fault.
    ensures hinted { (id : ℕ) → slice_index may_hint.new id ≡ 1
        → HoldSafeGlyph (font_file face font.now) id }
    // The answer is the font's verdict in numbers, its first refusals are listed, and the entries are
    // those that it tells; or why there is none, nothing is listed, and each entry is 0.
    ensures verdict { result ≤ 1 → AnswersVerdict (font_file face font.now)
        answer.new refusals.old refusals.new may_hint.new }
    ensures face { result ≤ 1 → file_fault face font.now ≡ None }
    ensures fault { 2 ≤ result → AnswersNoVerdict IsFaultOfVerdict face font.now
        answer.new refusals.old refusals.new }
    ensures none { 2 ≤ result → may_hint.new ≡ replicate (length may_hint.old) 0 }
    ensures status { result ≤ 4 }
    // What it costs: no more steps than may be made, and all of these where the status is 4.
    ensures steps { answer.new.steps ≤ steps }
    ensures exceeded { result ≡ 4 → answer.new.steps ≡ steps }
    ensures profile { answer.new.profile ≡ 0 }
    ensures told { answer.new.status ≡ result }
    ensures room { length refusals.new ≡ length refusals.old }
    ensures glyphs { length may_hint.new ≡ length may_hint.old }
    ensures listed { answer.new.listed ≤ length refusals.old }
{
    let mut budget = Budget::of(steps);
    *answer = match judge_hinting(alloc, font, face, &mut budget) {
        Ok(hinting) => answer_hinting(&hinting, refusals, may_hint, Work::strict(budget.made())),
        Err(why) => answer_no_hinting(&why, may_hint, Work::strict(budget.made())),
    };
    answer.status
}

/// Answers as `hintcheck_verdict_of_bytes` does, with the symbolic verdict. The search makes at most
/// this many steps, each of which carries a state over an instruction. A program for which they don't
/// suffice is refused.
#[unsafe(no_mangle)]
pub extern "C" fn hintcheck_verdict_symbolic_of_bytes(
    alloc: Global,
    font: &[u8],
    face: u32,
    steps: u64,
    refusals: &mut [HintcheckRefusal],
    may_hint: &mut [u8],
    answer: &mut HintcheckAnswer,
) -> u32
    // Where the status is 0, the face is a font, and no run of any of its programs reaches a fault,
    // on the machine that keeps control values. Where it is 1, programs are refused: if these are
    // glyph programs, no run of any other program does, as long as none of these is run.
    ensures accepted { result ≡ 0 → HoldSymbolicSafeFont (font_file face font.now) }
    ensures refused { result ≡ 1 → HoldSymbolicRefusedFont (font_file face font.now) }
    // Where an entry is 1, the face is a font, and as long as the only glyph programs that are run
    // are those of glyphs with an entry of 1 and of their components, no run of these, of the font
    // program or of the CVT program reaches a fault, on the machine that keeps control values.
    ensures hinted { (id : ℕ) → slice_index may_hint.new id ≡ 1
        → HoldSymbolicSafeGlyphs (font_file face font.now) may_hint.new }
    // The answer is a symbolic verdict in numbers, its first refusals are listed, and the entries are
    // those that it tells; or why there is none, nothing is listed, and each entry is 0.
    ensures verdict { result ≤ 1 → AnswersSymbolicVerdict (font_file face font.now)
        answer.new refusals.old refusals.new may_hint.new }
    ensures face { result ≤ 1 → file_fault face font.now ≡ None }
    ensures fault { 2 ≤ result → AnswersNoVerdict IsFaultOfVerdict face font.now
        answer.new refusals.old refusals.new }
    ensures none { 2 ≤ result → may_hint.new ≡ replicate (length may_hint.old) 0 }
    ensures status { result ≤ 3 }
    ensures profile { answer.new.profile ≡ 1 }
    ensures told { answer.new.status ≡ result }
    ensures room { length refusals.new ≡ length refusals.old }
    ensures glyphs { length may_hint.new ≡ length may_hint.old }
    ensures listed { answer.new.listed ≤ length refusals.old }
{
    let mut judge = SymbolicCheck::new(alloc, steps);
    *answer = match judge_hinting_symbolic(alloc, font, face, &mut judge) {
        Ok(hinting) => answer_hinting(&hinting, refusals, may_hint, Work::symbolic(judge.steps())),
        Err(why) => answer_no_hinting(&why, may_hint, Work::symbolic(judge.steps())),
    };
    answer.status
}

/// Answers as `hintcheck_verdict_of_bytes` does, unless that refuses a program or needs more steps than
/// may be made: then the answer is that of `hintcheck_verdict_symbolic_of_bytes`. It tells which
/// profile gave it, and the steps of that profile. Each profile makes at most this many.
#[unsafe(no_mangle)]
pub extern "C" fn hintcheck_verdict_both_of_bytes(
    alloc: Global,
    font: &[u8],
    face: u32,
    steps: u64,
    refusals: &mut [HintcheckRefusal],
    may_hint: &mut [u8],
    answer: &mut HintcheckAnswer,
) -> u32
    // The clauses say what those of the two other calls say, for the profile that the answer tells.
    ensures accepted { result ≡ 0 → HoldSafeFontBy answer.new.profile (font_file face font.now) }
    ensures refused { result ≡ 1 → HoldSymbolicRefusedFont (font_file face font.now) }
    ensures hinted { (id : ℕ) → slice_index may_hint.new id ≡ 1
        → HoldSafeGlyphBy answer.new.profile (font_file face font.now) may_hint.new id }
    ensures verdict { result ≤ 1 → AnswersVerdictBy answer.new.profile (font_file face font.now)
        answer.new refusals.old refusals.new may_hint.new }
    ensures face { result ≤ 1 → file_fault face font.now ≡ None }
    ensures fault { 2 ≤ result → AnswersNoVerdict IsFaultOfVerdict face font.now
        answer.new refusals.old refusals.new }
    ensures none { 2 ≤ result → may_hint.new ≡ replicate (length may_hint.old) 0 }
    ensures status { result ≤ 3 }
    // Only the symbolic profile refuses programs here.
    ensures profile { answer.new.profile ≤ 1 }
    ensures symbolic { result ≡ 1 → answer.new.profile ≡ 1 }
    ensures steps { answer.new.profile ≡ 0 → answer.new.steps ≤ steps }
    ensures told { answer.new.status ≡ result }
    ensures room { length refusals.new ≡ length refusals.old }
    ensures glyphs { length may_hint.new ≡ length may_hint.old }
    ensures listed { answer.new.listed ≤ length refusals.old }
{
    // Where the strict profile answers here, it has no refusal to list.
    let status = hintcheck_verdict_of_bytes(alloc, font, face, steps, &mut [], may_hint, answer);
    if status == REFUSED || status == BUDGET {
        return hintcheck_verdict_symbolic_of_bytes(
            alloc, font, face, steps, refusals, may_hint, answer,
        );
    }
    status
}

/// Returns the verdict on the programs of a face of these bytes by the certificate in the others, and
/// makes at most as many steps as the budget allows.
fn check_bytes(
    alloc: Global,
    font: &[u8],
    face: u32,
    certificate: &[u8],
    budget: &mut Budget,
) -> Result<Verdict, NoVerdict>
    ensures safe { IfOk result (λ v. (d : FontData) × Reads (font_file face font.now) d
        × (v.refused ≡ [] → IsSafeFont d)) }
    ensures exact { IfOk result (λ v. (d : FontData) × Reads (font_file face font.now) d
        × AnswersFinding d certificate.now v) }
    ensures face { IfOk result (λ v. file_fault face font.now ≡ None) }
    ensures fault { IfErr result (IsNoVerdict (IsFaultOfCheck certificate.now) face font.now) }
    ensures spends { Spends budget.old budget.new }
    ensures exceeded { IfErr result (λ why.
        why ≡ NoVerdict.Font (AnswerFault.Exhausted By.Budget) → IsExceeded budget.new) }
{
    let file = FontFile::of(alloc, font, face)?;
    let bytes = file.bytes();
    Ok(check_font_within(alloc, bytes, &mut Bytes::new(certificate), budget)?)
}

/// Answers with the strict verdict on the programs of a font by the certificate in the other bytes,
/// or with why there is none, and returns the answer's status. The font is a face of these bytes as in
/// `hintcheck_verdict_of_bytes`, and at most this many steps are made, as there. The first refusals
/// are listed, as many as there is room for.
#[unsafe(no_mangle)]
pub extern "C" fn hintcheck_check_of_bytes(
    alloc: Global,
    font: &[u8],
    face: u32,
    certificate: &[u8],
    steps: u64,
    refusals: &mut [HintcheckRefusal],
    answer: &mut HintcheckAnswer,
) -> u32
    // Where the status is 0, the face is a font, and no run of any of its programs reaches a fault,
    // whoever made the certificate.
    ensures accepted { result ≡ 0 → HoldSafeFont (font_file face font.now) }
    // The answer is the verdict by the certificate in numbers, and its first refusals are listed;
    // or why there is none, and nothing is listed.
    ensures verdict { result ≤ 1 → AnswersCheck (font_file face font.now) certificate.now
        answer.new refusals.old refusals.new }
    ensures face { result ≤ 1 → file_fault face font.now ≡ None }
    ensures fault { 2 ≤ result → AnswersNoVerdict (IsFaultOfCheck certificate.now) face font.now
        answer.new refusals.old refusals.new }
    ensures status { result ≤ 4 }
    // What it costs: no more steps than may be made, and all of these where the status is 4.
    ensures steps { answer.new.steps ≤ steps }
    ensures exceeded { result ≡ 4 → answer.new.steps ≡ steps }
    ensures profile { answer.new.profile ≡ 0 }
    ensures told { answer.new.status ≡ result }
    ensures room { length refusals.new ≡ length refusals.old }
    ensures listed { answer.new.listed ≤ length refusals.old }
{
    let mut budget = Budget::of(steps);
    *answer = match check_bytes(alloc, font, face, certificate, &mut budget) {
        Ok(verdict) => answer_verdict(&verdict, refusals, Work::strict(budget.made())),
        Err(why) => fault_of(&why, Work::strict(budget.made())),
    };
    answer.status
}
