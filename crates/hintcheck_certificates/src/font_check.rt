//! The check of a font by its certificate: each program by the family that its section lists.

ghost use Rattle.std.specs.Prelude.{◌≡◌, ◌+◌, [], IfErr, IfOk, Ok, Err, length};
ghost use Rattle.tt_setting.specs.Budgets.{Spends};
ghost use Rattle.tt_font.specs.FileFaults.{font_fault};
ghost use Rattle.tt_font.specs.Reading.{FontData, Reads};
ghost use Rattle.tt_stream.specs.Reads.{ConsumesBeginning};
ghost use Rattle.hintcheck_certificates.specs.BudgetAnswers.{AnswerTells, AnswerTellsBudget, AnswerTellsFontFault, IsOutsideFont};
ghost use Rattle.hintcheck_certificates.specs.CertificateFaults.{CountsCheck, IsOutsideFontAndBudget, TellsFontFault};
ghost use Rattle.hintcheck_certificates.specs.Certificates.{IsChecked};
ghost use Rattle.hintcheck_certificates.specs.CheckedFonts.{AnswersFinding, Finds, IsLeftBy, IsTold, bytes_in};
ghost use Rattle.hintcheck_programs.specs.GoodPrograms.{HasGoodFamilies};
ghost use Rattle.hintcheck_certificates.specs.FailedReads.{HasRead, IsCutHeader, IsUnbroken, IsUnbrokenFor};
ghost use Rattle.hintcheck_programs.specs.FontPrograms.{IsFontInRange, IsSafeFont};
ghost use Rattle.hintcheck_certificates.specs.Representation.SessionStages.{HasHeader};
ghost use Rattle.hintcheck_certificates.specs.Sessions.{IsHeaderFault};

use crate::sections::{HEADER, Progress, SECTIONS};
use crate::session::Session;
use hintcheck_programs::font::{list_outcome, read_font};
use hintcheck_programs::report::{Refused, Verdict};
use std::alloc::Global;
use tt_abs::Exhausted;
use tt_cert::read_form;
use tt_family::Budget;
use tt_font::Font;
use tt_stream::Source;

/// Why a font isn't checked by its certificate. No `Write` comes, and no `Print`.
pub use hintcheck_report::AnswerFault as CheckFontFault;

/// Reads the header of the font's certificate, which has a section for each program.
pub(crate) fn read_start<S: Source>(
    font: &Font<'_>,
    source: &mut S,
) -> Result<Progress, CheckFontFault>
    ensures header { IsTold (S.remaining source.old) → Finds result
        (λ p. IsTold (S.remaining source.new) × (p.place ≡ 10)
        × HasHeader font.now p.form (S.remaining source.old) (S.remaining source.new))
        (IsHeaderFault font.now (S.remaining source.old)) }
    ensures beginning { ConsumesBeginning (S.remaining source.old) (S.remaining source.new) }
    ensures stopped { IfErr result
        (HasRead (S.remaining source.old) (S.remaining source.new) IsCutHeader) }
    ensures failures { CountsCheck result (S.failures source.old) (S.failures source.new) }
    ensures font { IfErr result IsOutsideFontAndBudget }
{
    let (form, sections) = read_form(source)?;
    if sections != u32::from(font.glyph_count()) + 2 {
        return Err(CheckFontFault::Form(SECTIONS));
    }
    Ok(Progress {
        form,
        place: HEADER,
    })
}

/// Checks the programs of a font, one after the other, by the certificate that is left in the
/// source: returns the refused ones, in their order.
fn check_programs<S: Source>(
    alloc: Global,
    font: &Font<'_>,
    source: &mut S,
    budget: &mut Budget,
) -> Result<Vec<Refused>, CheckFontFault>
    requires { IsFontInRange font.now }
    ensures good { IfOk result (λ refused. refused.items ≡ [] → HasGoodFamilies font.now) }
    ensures exact { IsTold (S.remaining source.old) → Finds result
        (λ refused. IsChecked font.now (bytes_in (S.remaining source.old)) (Ok refused.items))
        (λ place. IsChecked font.now (bytes_in (S.remaining source.old)) (Err place)) }
    ensures unread { IsTold (S.remaining source.old) → IfOk result (λ refused.
        IsLeftBy (bytes_in (S.remaining source.old)) refused.items (S.remaining source.new)) }
    ensures beginning { ConsumesBeginning (S.remaining source.old) (S.remaining source.new) }
    ensures whole_units { IfErr result
        (HasRead (S.remaining source.old) (S.remaining source.new) (IsUnbroken font.now)) }
    ensures failures { CountsCheck result (S.failures source.old) (S.failures source.new) }
    ensures font { IfErr result IsOutsideFont }
    ensures spends { Spends budget.old budget.new }
    ensures ends { AnswerTells budget.old budget.new result }
{
    let mut session = Session::new(font);
    let mut refused = Vec::new(alloc);
    while let Some(outcome) = session.check_next_within(alloc, source, budget)? {
        list_outcome(&mut refused, outcome)?;
    }
    Ok(refused)
}

/// Returns the verdict on the programs of a font that was read, by its certificate, and makes at most
/// as many points as the budget allows.
///
/// # Errors
/// As `check_font_within`, but for those of the font.
pub fn check_read_font<S: Source>(
    alloc: Global,
    font: &Font<'_>,
    source: &mut S,
    budget: &mut Budget,
) -> Result<Verdict, CheckFontFault>
    requires { IsFontInRange font.now }
    ensures safe { IfOk result (λ v. v.refused ≡ [] → IsSafeFont font.now) }
    ensures programs { IfOk result (λ v. v.programs ≡ length font.now.glyphs + 2) }
    ensures exact { IsTold (S.remaining source.old) → Finds result
        (AnswersFinding font.now (bytes_in (S.remaining source.old)))
        (λ place. IsChecked font.now (bytes_in (S.remaining source.old)) (Err place)) }
    ensures unread { IsTold (S.remaining source.old) → IfOk result
        (λ v. IsLeftBy (bytes_in (S.remaining source.old)) v.refused (S.remaining source.new)) }
    ensures beginning { ConsumesBeginning (S.remaining source.old) (S.remaining source.new) }
    ensures whole_units { IfErr result
        (HasRead (S.remaining source.old) (S.remaining source.new) (IsUnbroken font.now)) }
    ensures failures { CountsCheck result (S.failures source.old) (S.failures source.new) }
    ensures font { IfErr result IsOutsideFont }
    ensures spends { Spends budget.old budget.new }
    ensures budget { AnswerTellsBudget budget.new result }
{
    if budget.is_exceeded() {
        return Err(CheckFontFault::Exhausted(Exhausted::Budget));
    }
    let refused = check_programs(alloc, font, source, budget)?;
    Ok(Verdict::new(u32::from(font.glyph_count()) + 2, refused))
}

/// Returns the verdict on the programs of a font file by its certificate, which is all that is left
/// in the source: each program is checked by the family that its section lists, and the certificate
/// isn't trusted, wherever it comes from. The CVT program starts with the functions that are known
/// where the font program ends, and a glyph program with those that are known where the CVT program
/// ends. A refused font program or CVT program ends the check, which reads nothing after its
/// section; a refused glyph program doesn't.
///
/// # Errors
/// The faults of `Font::read`; `Form` where the bytes are no certificate for the font; `Read`
/// exactly where a read failed; `Exhausted` where memory ran out.
pub fn check_font<S: Source>(
    alloc: Global,
    font: &[u8],
    source: &mut S,
) -> Result<Verdict, CheckFontFault>
    // Whatever comes of it, a beginning of the certificate was read.
    ensures beginning { ConsumesBeginning (S.remaining source.old) (S.remaining source.new) }
    // Where no program is refused, no run of any of them reaches a fault.
    ensures safe { IfOk result (λ v. (d : FontData) × Reads font.now d
        × (v.refused ≡ [] → IsSafeFont d)) }
    // What the check comes to, where the source tells its bytes: the refused programs, or the place
    // at which the bytes are no certificate.
    ensures exact { IsTold (S.remaining source.old) → Finds result
        (λ v. (d : FontData) × Reads font.now d
        × AnswersFinding d (bytes_in (S.remaining source.old)) v)
        (λ place. (d : FontData) × Reads font.now d
        × IsChecked d (bytes_in (S.remaining source.old)) (Err place)) }
    // What it leaves unread: what follows the section of a refused font program or CVT program;
    // otherwise nothing.
    ensures unread { IsTold (S.remaining source.old) → IfOk result
        (λ v. IsLeftBy (bytes_in (S.remaining source.old)) v.refused (S.remaining source.new)) }
    // Where the check of the font by the bytes refuses nothing, no program is refused and the form
    // isn't at fault: `find_font` writes such bytes.
    ensures accepts { IsTold (S.remaining source.old) → (d : FontData) → Reads font.now d
        → IsChecked d (bytes_in (S.remaining source.old)) (Ok [])
        → Finds result (λ v. v.refused ≡ []) (λ _. ⊥) }
    // Where a read failed, what was read is at fault nowhere but at its end: no unit that was read
    // whole breaks a rule.
    ensures whole_units { IfErr result
        (HasRead (S.remaining source.old) (S.remaining source.new) (IsUnbrokenFor font.now)) }
    ensures failures { CountsCheck result (S.failures source.old) (S.failures source.new) }
    // A fault of the font is the first one of its bytes, unless memory ran out; any other answer
    // means that they have none.
    ensures faults { TellsFontFault (font_fault font.now) result }
{
    match check_font_within(alloc, font, source, &mut Budget::unlimited()) {
        Ok(verdict) => Ok(verdict),
        Err(fault) => Err(fault.without_budget()),
    }
}

/// Returns the verdict on the programs of a font file by its certificate, as `check_font` does, and
/// makes at most as many points as the budget allows: one point is made each time that a state is
/// carried on.
///
/// # Errors
/// As `check_font`; `Exhausted` too where more points were to be made than the budget allows, in this
/// call or in an earlier one, unless a fault of the font or of form, or a failed read, comes first.
pub fn check_font_within<S: Source>(
    alloc: Global,
    font: &[u8],
    source: &mut S,
    budget: &mut Budget,
) -> Result<Verdict, CheckFontFault>
    ensures beginning { ConsumesBeginning (S.remaining source.old) (S.remaining source.new) }
    ensures safe { IfOk result (λ v. (d : FontData) × Reads font.now d
        × (v.refused ≡ [] → IsSafeFont d)) }
    ensures exact { IsTold (S.remaining source.old) → Finds result
        (λ v. (d : FontData) × Reads font.now d
        × AnswersFinding d (bytes_in (S.remaining source.old)) v)
        (λ place. (d : FontData) × Reads font.now d
        × IsChecked d (bytes_in (S.remaining source.old)) (Err place)) }
    ensures unread { IsTold (S.remaining source.old) → IfOk result
        (λ v. IsLeftBy (bytes_in (S.remaining source.old)) v.refused (S.remaining source.new)) }
    ensures accepts { IsTold (S.remaining source.old) → (d : FontData) → Reads font.now d
        → IsChecked d (bytes_in (S.remaining source.old)) (Ok [])
        → Finds result (λ v. v.refused ≡ []) (λ _. ⊥) }
    ensures whole_units { IfErr result
        (HasRead (S.remaining source.old) (S.remaining source.new) (IsUnbrokenFor font.now)) }
    ensures failures { CountsCheck result (S.failures source.old) (S.failures source.new) }
    ensures faults { AnswerTellsFontFault (font_fault font.now) result }
    // What it costs: at most as many points as the budget has left. A verdict or out of memory
    // comes only where that was enough, and the end of the budget only where it wasn't.
    ensures spends { Spends budget.old budget.new }
    ensures budget { AnswerTellsBudget budget.new result }
{
    let read = read_font(alloc, font)?;
    check_read_font(alloc, &read, source, budget)
}
