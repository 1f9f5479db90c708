//! The sections of a certificate, read one after the other.

ghost use Rattle.std.specs.Prelude.{◌≡◌, ◌↔◌, IfErr, IsTrue};
ghost use Rattle.tt_cert.specs.Answers.{CountsRead, StopsAtEnd};
ghost use Rattle.tt_cert.specs.Reading.{section_at};
ghost use Rattle.tt_stream.specs.Reads.{ConsumesBeginning};
ghost use Rattle.hintcheck_certificates.specs.CertificateFaults.{ComesTo};
ghost use Rattle.hintcheck_certificates.specs.Certificates.{HasNoSection, IsSectionOf};
ghost use Rattle.hintcheck_certificates.specs.CheckedFonts.{IsTold};
ghost use Rattle.hintcheck_certificates.specs.Representation.ReadProgress.{input_from};

use hintcheck_programs::report::Name;
use std::alloc::Global;
use tt_cert::{CertFault, Decoder, Form};
use tt_family::Certificate;
use tt_stream::Source;

/// How many bytes the header of a certificate file has.
pub(crate) const HEADER: u64 = 10;

/// Where the header has the number of sections.
pub(crate) const SECTIONS: u64 = 6;

/// How far the certificate was read: its form, and the place of the next section.
#[derive(Clone, Copy)]
pub(crate) struct Progress {
    pub(crate) form: Form,
    pub(crate) place: u64,
}

/// Whether the two names are the same.
fn is_same(one: Name, other: Name) -> bool
    ensures { IsTrue result ↔ (one ≡ other) }
{
    one == other
}

/// Reads the section of the program with this name, and goes on to the next one. The decoder lends
/// the section's family.
///
/// # Errors
/// `Form` where the bytes are no section, or another program's; `Read` exactly where a read failed;
/// `OutOfMemory`.
pub(crate) fn next_section<'d, S: Source>(
    alloc: Global,
    decoder: &'d mut Decoder,
    source: &mut S,
    progress: &mut Progress,
    name: Name,
) -> Result<&'d Certificate, CertFault>
    ensures section { IsTold (S.remaining source.old) → ComesTo result
        (λ c. IsTold (S.remaining source.new) × IsSectionOf progress.old.form
        (input_from progress.old (S.remaining source.old)) name c.now
        (input_from progress.new (S.remaining source.new)))
        (HasNoSection progress.old.form (input_from progress.old (S.remaining source.old)) name) }
    ensures form { progress.new.form ≡ progress.old.form }
    ensures beginning { ConsumesBeginning (S.remaining source.old) (S.remaining source.new) }
    ensures stopped { IfErr result (StopsAtEnd progress.old.place (S.remaining source.old)
        (S.remaining source.new) (section_at progress.old.form)) }
    ensures failures { CountsRead result (S.failures source.old) (S.failures source.new) }
{
    let start = progress.place;
    let (named, certificate, after) = decoder.decode(alloc, source, start, progress.form)?;
    if !is_same(named, name) {
        return Err(CertFault::Form(start));
    }
    certificate.order_facts();
    progress.place = after;
    Ok(certificate)
}
