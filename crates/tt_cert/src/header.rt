//! The header of a certificate file: its form, and how many sections follow.

ghost use Rattle.std.specs.Prelude.{◌≡◌, ◌++◌, ◌<◌, ◌^◌, ℕ, List, Some, IfErr, IfOk, MatchResult, OnErr, OnOk};
ghost use Rattle.std.specs.Io.KnownBytes.{Appends, IsAtEnd, Keeps};
ghost use Rattle.tt_stream.specs.Reads.{ConsumesBeginning};
ghost use Rattle.tt_stream.specs.Streams.{AppendsBeginning};
ghost use Rattle.tt_cert.specs.Answers.{AreBytes, CountsRead, CountsWrite, GivesHeader, IsFormFault, IsMore, IsOutOfMemory, ReadsHeader, StopsAtEnd, input_at};
ghost use Rattle.tt_cert.specs.Representation.Clauses.{ReadsBy, StopsWhole};
ghost use Rattle.tt_cert.specs.Forms.{IsFormNumber};
ghost use Rattle.tt_cert.specs.Reading.{form_at, header_at, header_numbers_at, magic_at};
ghost use Rattle.tt_cert.specs.Text.{header_of};

use crate::form::Form;
use crate::units::{read_long, read_word};
use tt_setting::CertFault;
use tt_stream::{Sink, Source, read_full, write_all};

/// What a certificate file begins with: `HCRT`.
const MAGIC: u32 = 0x4843_5254;

/// Reads what a certificate file begins with.
///
/// # Errors
/// As `read_header`.
#[tactic(auto, unfolding(crate::specs::Reading::magic_at))]
fn read_magic<S: Source>(source: &mut S, place: u64) -> Result<(u32, u64), CertFault>
    ensures reads { ReadsBy magic_at place result
        (S.remaining source.old) (S.remaining source.new) }
    ensures beginning { ConsumesBeginning (S.remaining source.old) (S.remaining source.new) }
    ensures stopped { StopsWhole magic_at place result
        (S.remaining source.old) (S.remaining source.new) }
    ensures failures { CountsRead result (S.failures source.old) (S.failures source.new) }
    ensures memory { IfErr result (λ fault. ¬ IsOutOfMemory fault) }
{
    let (magic, at) = read_long(source, place)?;
    if magic != MAGIC {
        return Err(CertFault::Form(place));
    }
    Ok((magic, at))
}

/// Reads the number of a form.
///
/// # Errors
/// As `read_header`.
#[tactic(auto, unfolding(crate::specs::Reading::form_at))]
fn read_form_at<S: Source>(source: &mut S, place: u64) -> Result<(Form, u64), CertFault>
    ensures reads { ReadsBy form_at place result (S.remaining source.old) (S.remaining source.new) }
    ensures beginning { ConsumesBeginning (S.remaining source.old) (S.remaining source.new) }
    ensures stopped { StopsWhole form_at place result
        (S.remaining source.old) (S.remaining source.new) }
    ensures failures { CountsRead result (S.failures source.old) (S.failures source.new) }
    ensures memory { IfErr result (λ fault. ¬ IsOutOfMemory fault) }
{
    let (number, at) = read_word(source, place)?;
    match Form::with_number(number) {
        Some(form) => Ok((form, at)),
        None => Err(CertFault::Form(place)),
    }
}

/// Reads a header at a place, and returns it with the place after it.
///
/// # Errors
/// As `read_header`.
#[tactic(auto, unfolding(crate::specs::Reading::header_at))]
fn read_header_at<S: Source>(source: &mut S, place: u64) -> Result<((Form, u32), u64), CertFault>
    ensures reads { ReadsBy header_at place result
        (S.remaining source.old) (S.remaining source.new) }
    ensures beginning { ConsumesBeginning (S.remaining source.old) (S.remaining source.new) }
    ensures stopped { StopsWhole header_at place result
        (S.remaining source.old) (S.remaining source.new) }
    ensures failures { CountsRead result (S.failures source.old) (S.failures source.new) }
    ensures memory { IfErr result (λ fault. ¬ IsOutOfMemory fault) }
{
    let (_magic, at) = read_magic(source, place)?;
    let (form, at) = read_form_at(source, at)?;
    let (sections, at) = read_long(source, at)?;
    Ok(((form, sections), at))
}

/// Reads the header of a certificate file as `read_header` does, and returns the form itself.
///
/// # Errors
/// As `read_header`.
pub fn read_form<S: Source>(source: &mut S) -> Result<(Form, u32), CertFault>
    ensures exact { GivesHeader (S.remaining source.old) (S.remaining source.new) result
        (header_at (input_at 0 (S.remaining source.old))) }
    ensures beginning { ConsumesBeginning (S.remaining source.old) (S.remaining source.new) }
    // Where a read failed, no field that was read whole breaks a rule.
    ensures whole_fields { IfErr result
        (StopsAtEnd 0 (S.remaining source.old) (S.remaining source.new) header_at) }
    ensures failures { CountsRead result (S.failures source.old) (S.failures source.new) }
    ensures memory { IfErr result (λ fault. ¬ IsOutOfMemory fault) }
{
    let (header, _after) = read_header_at(source, 0)?;
    Ok(header)
}

/// Reads the header of a certificate file: the number of its form, from 1 to 4, and how many
/// sections follow. It has ten bytes.
///
/// # Errors
/// `Form` with the place of the field that is wrong, or of the input's end where that comes too
/// early; `Read` exactly where a read failed. Then some beginning of what is left was read, and at
/// `Read` no field of it that is whole is wrong.
pub fn read_header<S: Source>(source: &mut S) -> Result<(u16, u32), CertFault>
    ensures form { IfOk result (λ header. IsFormNumber header.0) }
    // What is read was at the beginning of the input, of which no more is read.
    ensures found { IfOk result (λ header. (input : List ℕ)
        → S.remaining source.old ≡ Some input → AreBytes input
        → ReadsHeader input header (S.remaining source.new)) }
    // A header at the beginning of the input is read, except for failed reads.
    ensures only { (form sections : ℕ) (rest : List ℕ) → IsFormNumber form → sections < 2 ^ 32
        → S.remaining source.old ≡ Some (header_of form sections ++ rest)
        → MatchResult result (λ header. header ≡ (form, sections)) (λ fault. ¬ IsFormFault fault) }
    // Which place a fault names.
    ensures exact { GivesHeader (S.remaining source.old) (S.remaining source.new) result
        (header_numbers_at (input_at 0 (S.remaining source.old))) }
    ensures beginning { ConsumesBeginning (S.remaining source.old) (S.remaining source.new) }
    // Where a read failed, no field that was read whole breaks a rule.
    ensures whole_fields { IfErr result
        (StopsAtEnd 0 (S.remaining source.old) (S.remaining source.new) header_at) }
    ensures failures { CountsRead result (S.failures source.old) (S.failures source.new) }
    ensures memory { IfErr result (λ fault. ¬ IsOutOfMemory fault) }
{
    let (form, sections) = read_form(source)?;
    Ok((form.number(), sections))
}

/// Checks that nothing is left to read, as at the end of a certificate file; `place` is the place
/// of this end.
///
/// # Errors
/// `Form` with the place of the first byte that follows; `Read` exactly where a read failed, and
/// then nothing was read.
pub fn read_end<S: Source>(source: &mut S, place: u64) -> Result<(), CertFault>
    ensures ended { OnOk result
        (IsAtEnd (S.remaining source.old) × IsAtEnd (S.remaining source.new)) }
    ensures followed { IfErr result (λ fault. (p : ℕ) → fault ≡ CertFault.Form p
        → (p ≡ place) × IsMore (S.remaining source.old)) }
    ensures unread { IfErr result (λ fault. fault ≡ CertFault.Read
        → Keeps (S.remaining source.old) (S.remaining source.new)) }
    ensures beginning { ConsumesBeginning (S.remaining source.old) (S.remaining source.new) }
    ensures failures { CountsRead result (S.failures source.old) (S.failures source.new) }
    ensures memory { IfErr result (λ fault. ¬ IsOutOfMemory fault) }
{
    let mut byte = [0u8; 1];
    if read_full(source, &mut byte)? > 0 {
        return Err(CertFault::Form(place));
    }
    Ok(())
}

/// Writes the header of a certificate file of this form, which is form 4, with this many sections.
///
/// # Errors
/// `Write` exactly where a write failed; then a beginning of the header was written, perhaps an
/// empty one.
pub fn write_header<W: Sink>(form: u16, sections: u32, sink: &mut W) -> Result<(), CertFault>
    requires newest { form ≡ 4 }
    ensures written { OnOk result
        (Appends (W.contents sink.old) (W.contents sink.new) (header_of form sections)) }
    ensures beginning { OnErr result
        (AppendsBeginning (W.contents sink.old) (W.contents sink.new) (header_of form sections)) }
    ensures failures { CountsWrite result (W.failures sink.old) (W.failures sink.new) }
    ensures memory { IfErr result (λ fault. fault ≡ CertFault.Write) }
{
    let [m3, m2, m1, m0] = MAGIC.to_be_bytes();
    let [f1, f0] = form.to_be_bytes();
    let [s3, s2, s1, s0] = sections.to_be_bytes();
    write_all(sink, &[m3, m2, m1, m0, f1, f0, s3, s2, s1, s0])?;
    Ok(())
}
