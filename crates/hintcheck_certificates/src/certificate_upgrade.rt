//! Old certificates, written again in the newest form.

ghost use Rattle.std.specs.Prelude.{◌≡◌, ◌<◌, ◌≤◌, ◌^◌, [], IfErr, IfOk, Ok, Err, OnErr, Some, length};
ghost use Rattle.tt_cert.specs.Answers.{AreBytes};
ghost use Rattle.tt_cert.specs.Readers.{place_after};
ghost use Rattle.tt_font.specs.Reading.{FontData};
ghost use Rattle.tt_stream.specs.Reads.{ConsumesBeginning};
ghost use Rattle.hintcheck_certificates.specs.Certificates.{HasNoSection, IsChecked};
ghost use Rattle.hintcheck_certificates.specs.CertificateTexts.{WritesBeginning, WritesText};
ghost use Rattle.hintcheck_certificates.specs.CheckedFonts.{IsTold, bytes_in};
ghost use Rattle.hintcheck_certificates.specs.FailedReads.{HasReadOld, IsUnbrokenOld};
ghost use Rattle.hintcheck_certificates.specs.Upgrades.{AreBegun, AreUpgraded, IsNumberOfPrograms, IsUpgradeBegunOf, IsUpgradeOf, KeepsFamilies, LackSection, UpgradesTo, name_at};
ghost use Rattle.hintcheck_certificates.specs.CertificateFaults.{ComesTo};
ghost use Rattle.hintcheck_certificates.specs.UpgradeFaults.{CountsReads, CountsWrites};
ghost use Rattle.hintcheck_certificates.specs.Representation.ReadProgress.{input_from};

use crate::sections::{HEADER, Progress, SECTIONS, next_section};
use hintcheck_programs::report::Name;
use std::alloc::Global;
use tt_cert::{Decoder, Encoder, NEWEST_FORM, read_end, read_form, write_header};
use tt_stream::{Sink, Source};

/// Why a certificate isn't upgraded: the old one can't be read, or is none of any font, or the new
/// one can't be written.
pub use tt_cert::CertFault as UpgradeFault;

/// How many sections a certificate has at least: those of a font program, a CVT program and no
/// glyph.
const FEWEST: u32 = 2;

/// How many sections a certificate has at most: a font has up to 65,535 glyphs.
const MOST: u32 = 65_537;

/// Returns the name of the program whose section has this number.
fn name_of(number: u32) -> Name
    requires { number < 65537 }
    ensures { result ≡ name_at number }
{
    match number {
        0 => Name::Font,
        1 => Name::Cvt,
        number => Name::Glyph((number - 2) as u16),
    }
}

/// Reads the section with this number and writes it again.
fn upgrade_section<S: Source, W: Sink>(
    alloc: Global,
    decoder: &mut Decoder,
    encoder: &mut Encoder,
    number: u32,
    source: &mut S,
    progress: &mut Progress,
    sink: &mut W,
) -> Result<(), UpgradeFault>
    requires { number < 65537 }
    ensures section { IsTold (S.remaining source.old) → ComesTo result
        (λ _. IsTold (S.remaining source.new) × AreUpgraded progress.old.form number 1
        (input_from progress.old (S.remaining source.old))
        (input_from progress.new (S.remaining source.new))
        (W.contents sink.old) (W.contents sink.new))
        (HasNoSection progress.old.form (input_from progress.old (S.remaining source.old))
        (name_at number)) }
    ensures begun { IsTold (S.remaining source.old) → OnErr result
        (AreBegun progress.old.form number 1 (input_from progress.old (S.remaining source.old))
        (W.contents sink.old) (W.contents sink.new)) }
    ensures form { progress.new.form ≡ progress.old.form }
    ensures beginning { ConsumesBeginning (S.remaining source.old) (S.remaining source.new) }
    ensures stopped { IfErr result (HasReadOld (S.remaining source.old) (S.remaining source.new)
        (λ front. HasNoSection progress.old.form (input_from progress.old (Some front))
        (name_at number) (place_after progress.old.place (length front)))) }
    ensures reads { CountsReads result (S.failures source.old) (S.failures source.new) }
    ensures writes { CountsWrites result (W.failures sink.old) (W.failures sink.new) }
{
    let name = name_of(number);
    let certificate = next_section(alloc, decoder, source, progress, name)?;
    encoder.encode(name, certificate, sink)?;
    Ok(())
}

/// Reads the sections of this many programs and writes each again before the next one is read.
fn upgrade_sections<S: Source, W: Sink>(
    alloc: Global,
    count: u32,
    source: &mut S,
    progress: &mut Progress,
    sink: &mut W,
) -> Result<(), UpgradeFault>
    requires { count ≤ 65537 }
    ensures sections { IsTold (S.remaining source.old) → ComesTo result
        (λ _. IsTold (S.remaining source.new) × AreUpgraded progress.old.form 0 count
        (input_from progress.old (S.remaining source.old))
        (input_from progress.new (S.remaining source.new))
        (W.contents sink.old) (W.contents sink.new))
        (LackSection progress.old.form 0 count
        (input_from progress.old (S.remaining source.old))) }
    ensures begun { IsTold (S.remaining source.old) → OnErr result
        (AreBegun progress.old.form 0 count (input_from progress.old (S.remaining source.old))
        (W.contents sink.old) (W.contents sink.new)) }
    ensures beginning { ConsumesBeginning (S.remaining source.old) (S.remaining source.new) }
    ensures stopped { IfErr result (HasReadOld (S.remaining source.old) (S.remaining source.new)
        (λ front. LackSection progress.old.form 0 count (input_from progress.old (Some front))
        (place_after progress.old.place (length front)))) }
    ensures reads { CountsReads result (S.failures source.old) (S.failures source.new) }
    ensures writes { CountsWrites result (W.failures sink.old) (W.failures sink.new) }
{
    let mut decoder = Decoder::new();
    let mut encoder = Encoder::new(alloc);
    for number in 0..count {
        upgrade_section(
            alloc,
            &mut decoder,
            &mut encoder,
            number,
            source,
            progress,
            sink,
        )?;
    }
    Ok(())
}

/// Reads a certificate of any form, which is all that is left in the source, and writes one of the
/// newest form, with the same families under the same names. Returns how many sections there are.
/// One family is held at a time.
///
/// # Errors
/// `Form` where the bytes are no certificate of any font; `Read` exactly where a read failed;
/// `Write` exactly where a write failed; `OutOfMemory`. Then a beginning of the new certificate was
/// written, perhaps an empty one.
pub fn upgrade<S: Source, W: Sink>(
    alloc: Global,
    source: &mut S,
    sink: &mut W,
) -> Result<u32, UpgradeFault>
    // How many sections the bytes have, where the source tells them, or the place at which they are
    // no certificate.
    ensures exact { IsTold (S.remaining source.old) → ComesTo result
        (λ count. UpgradesTo (bytes_in (S.remaining source.old)) (Ok count))
        (λ place. UpgradesTo (bytes_in (S.remaining source.old)) (Err place)) }
    // A font may have this many programs, whatever the source tells.
    ensures number { IfOk result IsNumberOfPrograms }
    // What is appended is the certificate of form 4 with the families that were read.
    ensures written { IsTold (S.remaining source.old)
        → IfOk result (λ _. WritesText (W.contents sink.old) (W.contents sink.new)
        (IsUpgradeOf (bytes_in (S.remaining source.old)))) }
    // So the old and the new certificate list the same families, under the same names.
    ensures kept { IsTold (S.remaining source.old) → AreBytes (bytes_in (S.remaining source.old))
        → IfOk result (λ _. WritesText (W.contents sink.old) (W.contents sink.new)
        (KeepsFamilies (bytes_in (S.remaining source.old)))) }
    // Where the check of a font by the bytes refuses nothing, they are a certificate, and the check
    // by what is appended refuses nothing either.
    ensures accepts { IsTold (S.remaining source.old) → AreBytes (bytes_in (S.remaining source.old))
        → (d : FontData) → length d.glyphs < 2 ^ 16
        → IsChecked d (bytes_in (S.remaining source.old)) (Ok []) → ComesTo result
        (λ _. WritesText (W.contents sink.old) (W.contents sink.new)
        (λ text. IsChecked d text (Ok [])))
        (λ _. ⊥) }
    // Whatever comes of it, a beginning of the old certificate was read; and after a fault a
    // beginning of the new one was written, as far as that can be made of the sections that were
    // read.
    ensures beginning { ConsumesBeginning (S.remaining source.old) (S.remaining source.new) }
    ensures begun { IsTold (S.remaining source.old)
        → OnErr result (WritesBeginning (W.contents sink.old) (W.contents sink.new)
        (IsUpgradeBegunOf (bytes_in (S.remaining source.old)))) }
    // Where a read failed, what was read is at fault nowhere but at its end: no unit that was read
    // whole breaks a rule.
    ensures whole_units { IfErr result
        (HasReadOld (S.remaining source.old) (S.remaining source.new) IsUnbrokenOld) }
    ensures reads { CountsReads result (S.failures source.old) (S.failures source.new) }
    ensures writes { CountsWrites result (W.failures sink.old) (W.failures sink.new) }
{
    let (form, count) = read_form(source)?;
    if count < FEWEST || count > MOST {
        return Err(UpgradeFault::Form(SECTIONS));
    }
    write_header(NEWEST_FORM, count, sink)?;
    let mut progress = Progress {
        form,
        place: HEADER,
    };
    upgrade_sections(alloc, count, source, &mut progress, sink)?;
    read_end(source, progress.place)?;
    Ok(count)
}
