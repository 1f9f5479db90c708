//! The certificate of a font: found once more and written, after a verdict that refuses no program.

ghost use Rattle.std.specs.Prelude.{◌≡◌, ◌⊎◌, [], Err, IfErr, IfOk, OnErr, OnOk};
ghost use Rattle.tt_setting.specs.Budgets.{Spends};
ghost use Rattle.tt_font.specs.FileFaults.{font_fault};
ghost use Rattle.tt_font.specs.Reading.{FontData, Reads};
ghost use Rattle.hintcheck_report.specs.declared.answer_fault.AnswerFault.{AnswerFault};
ghost use Rattle.hintcheck_certificates.specs.BudgetAnswers.{AnswerTells, AnswerTellsFontFault, FindTellsBudget, IsOutsideFont};
ghost use Rattle.hintcheck_certificates.specs.CertificateFaults.{CountsFind, TellsFontFault, WritesNothing};
ghost use Rattle.hintcheck_certificates.specs.CertificateTexts.{IsPassingCertificate, WritesBeginning, WritesText};
ghost use Rattle.hintcheck_certificates.specs.FindingSessions.{BeginsCertificate, IsBegunFor, IsCertificateBegun};
ghost use Rattle.hintcheck_programs.specs.Representation.FontVerdicts.{AreAllRefused};
ghost use Rattle.hintcheck_programs.specs.FontPrograms.{IsFontInRange, IsSafeFont, IsVerdict, RefusesNone, RefusesNoneIn};
ghost use Rattle.hintcheck_certificates.specs.Representation.SessionStages.{AreSectionsFrom, AreSomeSections};
ghost use Rattle.hintcheck_programs.specs.Stages.{at_start};

use hintcheck_programs::finding::Finding;
use hintcheck_programs::font::{read_font, refused_programs};
use hintcheck_programs::program::Search;
use hintcheck_programs::programs::Programs;
use hintcheck_programs::report::Verdict;
use std::alloc::Global;
use tt_abs::Exhausted;
use tt_cert::{Encoder, NEWEST_FORM, write_header};
use tt_family::Budget;
use tt_font::Font;
use tt_stream::Sink;

/// Why a font's certificate isn't found or written. No `Form` comes, no `Read` and no `Print`.
pub use hintcheck_report::AnswerFault as FindFontFault;

/// Writes the sections of a font's programs, none of which is refused. Each program's family is
/// found once more, so that one is held at a time.
fn write_sections<W: Sink>(
    alloc: Global,
    font: &Font<'_>,
    sink: &mut W,
    budget: &mut Budget,
) -> Result<(), FindFontFault>
    requires range { IsFontInRange font.now }
    requires accepted { AreAllRefused font.now [] }
    ensures written { OnOk result (WritesText (W.contents sink.old) (W.contents sink.new)
        (AreSectionsFrom font.now at_start)) }
    ensures begun { OnErr result (WritesBeginning (W.contents sink.old) (W.contents sink.new)
        (AreSomeSections font.now)) }
    ensures failures { CountsFind result (W.failures sink.old) (W.failures sink.new) }
    ensures font { IfErr result IsOutsideFont }
    ensures spends { Spends budget.old budget.new }
    ensures ends { AnswerTells budget.old budget.new result }
{
    let mut programs = Programs::new(font);
    let mut judge = Finding::new(alloc, Search::Writing);
    let mut encoder = Encoder::new(alloc);
    while let Some(outcome) = programs.judge_next(alloc, &mut judge, budget)? {
        // The verdict refuses no program, so none is refused as it is found once more.
        let certificate = judge.certificate().unwrap();
        certificate.order_facts();
        encoder.encode(outcome.program, certificate, sink)?;
    }
    Ok(())
}

/// Writes the certificate of a font of which no program is refused.
fn write_certificate<W: Sink>(
    alloc: Global,
    font: &Font<'_>,
    sink: &mut W,
    budget: &mut Budget,
) -> Result<(), FindFontFault>
    requires range { IsFontInRange font.now }
    requires accepted { AreAllRefused font.now [] }
    ensures written { OnOk result (WritesText (W.contents sink.old) (W.contents sink.new)
        (IsPassingCertificate font.now)) }
    ensures begun { OnErr result (WritesBeginning (W.contents sink.old) (W.contents sink.new)
        (IsCertificateBegun font.now)) }
    ensures failures { CountsFind result (W.failures sink.old) (W.failures sink.new) }
    ensures font { IfErr result IsOutsideFont }
    ensures spends { Spends budget.old budget.new }
    ensures ends { AnswerTells budget.old budget.new result }
{
    write_header(NEWEST_FORM, u32::from(font.glyph_count()) + 2, sink)?;
    write_sections(alloc, font, sink, budget)
}

/// Returns the verdict on the programs of a font that was read, as `verdict` makes it. Where it
/// refuses no program, each is then found once more, and the certificate is written. At most as many
/// points are made as the budget allows.
///
/// # Errors
/// As `find_font_within`, but for those of the font.
pub fn find_programs<W: Sink>(
    alloc: Global,
    font: &Font<'_>,
    sink: &mut W,
    budget: &mut Budget,
) -> Result<Verdict, FindFontFault>
    requires { IsFontInRange font.now }
    ensures exact { IfOk result (λ v. IsVerdict font.now v) }
    ensures written { IfOk result (λ v. v.refused ≡ []
        → WritesText (W.contents sink.old) (W.contents sink.new) (IsPassingCertificate font.now)) }
    ensures begun { OnErr result ((W.contents sink.new ≡ W.contents sink.old)
        ⊎ IsBegunFor font.now (W.contents sink.old) (W.contents sink.new)) }
    ensures unwritten { IfOk result (WritesNothing (W.contents sink.old) (W.contents sink.new)) }
    ensures write_fault { result ≡ Err AnswerFault.Write → RefusesNone font.now }
    ensures failures { CountsFind result (W.failures sink.old) (W.failures sink.new) }
    ensures font { IfErr result IsOutsideFont }
    ensures spends { Spends budget.old budget.new }
    ensures budget { FindTellsBudget budget.new result }
{
    if budget.is_exceeded() {
        return Err(FindFontFault::Exhausted(Exhausted::Budget));
    }
    let refused = refused_programs(alloc, font, budget)?;
    if refused.is_empty() {
        write_certificate(alloc, font, sink, budget)?;
    }
    Ok(Verdict::new(u32::from(font.glyph_count()) + 2, refused))
}

/// Returns the verdict on the programs of a font file, as `verdict` makes it. Where it refuses no
/// program, the font's certificate is then written to the sink: the family of each program, which
/// is found once more, without the states that can be left out. Where it refuses one, nothing is
/// written.
///
/// # Errors
/// The faults of `Font::read`; `Write` exactly where a write failed; `Exhausted` where memory ran
/// out. Before the verdict is made nothing was written, and after a verdict that refuses no program
/// a beginning of the certificate was, perhaps an empty one.
pub fn find_font<W: Sink>(
    alloc: Global,
    font: &[u8],
    sink: &mut W,
) -> Result<Verdict, FindFontFault>
    ensures exact { IfOk result (λ v. (d : FontData) × Reads font.now d × IsVerdict d v
        × (v.refused ≡ [] → IsSafeFont d)) }
    // Where no program is refused, what is appended is the certificate of the least families, and
    // the check of the font by it refuses nothing.
    ensures written { IfOk result (λ v. v.refused ≡ []
        → (d : FontData) × Reads font.now d
        × WritesText (W.contents sink.old) (W.contents sink.new) (IsPassingCertificate d)) }
    ensures unwritten { IfOk result (WritesNothing (W.contents sink.old) (W.contents sink.new)) }
    // After a fault nothing was written; or the verdict refuses no program, and a beginning of the
    // certificate was: of the header and of the sections that were made.
    ensures begun { OnErr result
        (BeginsCertificate font.now (W.contents sink.old) (W.contents sink.new)) }
    // A write fails only where the verdict refuses no program.
    ensures write_fault { result ≡ Err AnswerFault.Write → RefusesNoneIn font.now }
    ensures failures { CountsFind result (W.failures sink.old) (W.failures sink.new) }
    // A fault of the font is the first one of its bytes, unless memory ran out; any other answer
    // means that they have none.
    ensures faults { TellsFontFault (font_fault font.now) result }
{
    match find_font_within(alloc, font, sink, &mut Budget::unlimited()) {
        Ok(verdict) => Ok(verdict),
        Err(fault) => Err(fault.without_budget()),
    }
}

/// Returns the verdict on the programs of a font file and writes its certificate, as `find_font`
/// does, and makes at most as many points as the budget allows: one point is made each time that a
/// state is carried on, to find a family, to check it, or to find it once more.
///
/// # Errors
/// As `find_font`; `Exhausted` too where more points were to be made than the budget allows, in this
/// call or in an earlier one. Then too nothing was written, or after a verdict that refuses no
/// program a beginning of the certificate. A fault of the font or a failed write may come first. A
/// verdict that is returned is right, whether or not the budget is exceeded.
pub fn find_font_within<W: Sink>(
    alloc: Global,
    font: &[u8],
    sink: &mut W,
    budget: &mut Budget,
) -> Result<Verdict, FindFontFault>
    ensures exact { IfOk result (λ v. (d : FontData) × Reads font.now d × IsVerdict d v
        × (v.refused ≡ [] → IsSafeFont d)) }
    ensures written { IfOk result (λ v. v.refused ≡ []
        → (d : FontData) × Reads font.now d
        × WritesText (W.contents sink.old) (W.contents sink.new) (IsPassingCertificate d)) }
    ensures unwritten { IfOk result (WritesNothing (W.contents sink.old) (W.contents sink.new)) }
    ensures begun { OnErr result
        (BeginsCertificate font.now (W.contents sink.old) (W.contents sink.new)) }
    ensures write_fault { result ≡ Err AnswerFault.Write → RefusesNoneIn font.now }
    ensures failures { CountsFind result (W.failures sink.old) (W.failures sink.new) }
    ensures faults { AnswerTellsFontFault (font_fault font.now) result }
    ensures spends { Spends budget.old budget.new }
    ensures budget { FindTellsBudget budget.new result }
{
    let read = read_font(alloc, font)?;
    find_programs(alloc, &read, sink, budget)
}
