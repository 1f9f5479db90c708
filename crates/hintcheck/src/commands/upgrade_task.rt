//! The subcommand `upgrade`: an old certificate file, written again in the newest form.

ghost use Rattle.std.specs.Prelude.{◌≢◌, IfErr, IfOk, IfSome, Ok, OnOk};
ghost use Rattle.hintcheck_certificates.specs.CertificateTexts.{WritesText};
ghost use Rattle.hintcheck_certificates.specs.CheckedFonts.{IsTold, bytes_in};
ghost use Rattle.hintcheck.specs.Commands.{IsNoWriteFault, TellsFailure};
ghost use Rattle.hintcheck.specs.CommandFaults.{IsFaultOfRewriting, IsFaultOfTask, IsFaultOfUpgrading};
ghost use Rattle.hintcheck_words.specs.Requests.{upgrade as upgrade_of};
ghost use Rattle.hintcheck.specs.Representation.Answers.{IsAnswered};
ghost use Rattle.hintcheck_certificates.specs.Upgrades.{IsNumberOfPrograms, IsUpgradeOf, UpgradesTo};

use super::ACCEPTED;
use super::faults::{CommandFault, FileWord};
use super::files::{ROOM, file_numbers, is_same_file, of_certificate, opened, write_rest};
use hintcheck_certificates::certificate_upgrade::upgrade;
use std::alloc::Global;
use std::fs;
use std::io::{BufWriter, Read, Write};
use std::rt::Files;
use tt_stream::{Buffered, Counted, Sink, Source};

/// Upgrades the certificate that is left in the source to the new file: returns how many sections it
/// has, and the new file.
fn upgrade_to<S: Source, G: Write + Drop>(
    alloc: Global,
    source: &mut S,
    new: G,
) -> Result<(u32, G), CommandFault>
    ensures exact { IsTold (S.remaining source.old)
        → IfOk result (λ r. UpgradesTo (bytes_in (S.remaining source.old)) (Ok r.0)) }
    ensures written { IsTold (S.remaining source.old) → IfOk result
        (λ r. WritesText (G.contents new) (G.contents r.1) (IsUpgradeOf (bytes_in (S.remaining source.old)))) }
    ensures number { IfOk result (λ r. IsNumberOfPrograms r.0) }
    ensures fault { IfErr result IsNoWriteFault }
    ensures faults { IfErr result IsFaultOfRewriting }
{
    let Ok(new) = BufWriter::with_capacity(alloc, ROOM, new) else {
        return Err(CommandFault::OutOfMemory);
    };
    let mut sink = Counted::new(new);
    let count = upgrade(alloc, source, &mut sink)?;
    let new = write_rest(sink.into_inner())?;
    Ok((count, new))
}

/// Upgrades the certificate that is left in the old file to the new one: returns how many sections
/// it has, and the new file.
fn upgrade_file<F: Read + Drop, G: Write + Drop>(
    alloc: Global,
    old: F,
    new: G,
) -> Result<(u32, G), CommandFault>
    ensures exact { IfOk result
        (λ r. IfSome (F.remaining old) (λ bytes. UpgradesTo bytes (Ok r.0))) }
    ensures written { IfOk result (λ r. IfSome (F.remaining old)
        (λ bytes. WritesText (G.contents new) (G.contents r.1) (IsUpgradeOf bytes))) }
    ensures number { IfOk result (λ r. IsNumberOfPrograms r.0) }
    ensures fault { IfErr result IsNoWriteFault }
    ensures faults { IfErr result IsFaultOfRewriting }
{
    let mut source = Buffered::new(alloc, Counted::new(old))?;
    upgrade_to(alloc, &mut source, new)
}

/// Upgrades the certificate in the file with the first name to the file with the second, which is
/// made or emptied once the first is open, and returns how many sections the certificate has. Of the
/// first at most so many bytes are read. It is a fault if both are one file, as far as that can be known.
fn upgrade_named<R: Files + AllocGlobal>(
    rt: &R,
    old: &str,
    new: &str,
    max_bytes: u64,
) -> Result<u32, CommandFault>
    ensures number { IfOk result IsNumberOfPrograms }
    ensures fault { IfErr result IsNoWriteFault }
    ensures faults { IfErr result (IsFaultOfUpgrading old.now new.now) }
    ensures none { OnOk result (old.now ≢ new.now) }
{
    if old == new || is_same_file(file_numbers(rt, old), file_numbers(rt, new)) {
        return Err(CommandFault::NewWord);
    }
    let file = opened(rt, old, FileWord::Old)?;
    let Ok(new) = fs::create(rt, new) else {
        return Err(CommandFault::File);
    };
    match upgrade_file(rt.alloc(), file.take(max_bytes), new) {
        Ok((count, _new)) => Ok(count),
        Err(fault) => Err(of_certificate(rt, old, fault)),
    }
}

/// Upgrades the certificate in the file with the first name, of which at most so many bytes are read, to
/// the file with the second, prints how many sections it has, and returns the exit status.
pub(super) fn tell_upgrade<R: Files + AllocGlobal, O: Sink>(
    rt: &R,
    old: &str,
    new: &str,
    max_bytes: u64,
    out: &mut O,
) -> Result<u8, CommandFault>
    ensures answer { IfOk result (λ status. IsAnswered (upgrade_of old.now new.now max_bytes) status
        (O.contents out.old) (O.contents out.new)) }
    ensures failures { TellsFailure result (O.failures out.old) (O.failures out.new) }
    ensures faults { IfErr result (IsFaultOfTask (upgrade_of old.now new.now max_bytes)) }
{
    let count = upgrade_named(rt, old, new, max_bytes)?;
    writeln!(out, "upgraded: {count} sections")?;
    Ok(ACCEPTED)
}
