//! Files: their bytes, the numbers by which a system tells them apart, and the rest of what is
//! written to them.

ghost use Rattle.std.specs.Prelude.{◌≡◌, ◌≢◌, ◌↔◌, IfErr, IfOk, IfSome, IsTrue, None};
ghost use Rattle.std.specs.Io.Buffered.{writer_contents};
ghost use Rattle.std.specs.Io.KnownBytes.{Keeps};
ghost use Rattle.hintcheck.specs.Commands.{HasAll, IsNoWriteFault};
ghost use Rattle.hintcheck.specs.CommandFaults.{IsFaultOfChecking, IsFaultOfReading, IsFaultOfRewriting};

use super::faults::{CommandFault, FileWord, Unopened};
use std::alloc::Global;
use std::fs;
use std::io::{BufWriter, Read, Write};
use std::os::unix::fs::MetadataExt;
use std::rt::Files;
use tt_stream::{Counted, read_all};

/// How many bytes of a certificate are written at a time: those of many sections, since most are
/// short. With a write for each section the system takes half as long again, and with writes of an
/// eighth of this a quarter.
pub(super) const ROOM: usize = 524_288;

/// Whether the name is a directory's, as far as that can be known.
fn is_directory<R: Files>(rt: &R, name: &str) -> bool {
    match fs::metadata(rt, name) {
        Ok(metadata) => metadata.is_dir(),
        Err(_) => false,
    }
}

/// Opens the file with this name, which this word names, to be read.
pub(super) fn opened<R: Files>(rt: &R, name: &str, word: FileWord) -> Result<R::File, CommandFault>
    ensures unwritten { IfErr result IsNoWriteFault }
    ensures faults { IfErr result IsFaultOfReading }
{
    if is_directory(rt, name) {
        return Err(CommandFault::Unopened(word, Unopened::Directory));
    }
    match fs::open(rt, name) {
        Ok(file) => Ok(file),
        Err(error) => Err(CommandFault::Unopened(word, Unopened::of(&error))),
    }
}

/// Whether the file with this name has bytes, as far as that can be known.
fn has_bytes<R: Files>(rt: &R, name: &str) -> bool {
    match fs::metadata(rt, name) {
        Ok(metadata) => metadata.len() > 0,
        Err(_) => false,
    }
}

/// Returns the fault of the certificate in the file with this name as it is told. One at the first
/// byte tells that the file is no certificate, unless it is empty, as far as the system tells that: an
/// empty one is the beginning of a certificate.
pub(super) fn of_certificate<R: Files>(rt: &R, name: &str, fault: CommandFault) -> CommandFault
    ensures unwritten { IsNoWriteFault fault → IsNoWriteFault result }
    ensures checking { IsFaultOfChecking fault → IsFaultOfChecking result }
    ensures rewriting { IsFaultOfRewriting fault → IsFaultOfRewriting result }
{
    match fault {
        CommandFault::Form(0) if has_bytes(rt, name) => CommandFault::NoCertificate,
        fault => fault,
    }
}

/// Returns the bytes that are left in the file that this word names.
///
/// # Errors
/// `TooLong` where there are more than these: so a device that never ends has an end.
pub(super) fn read_file<F: Read + Drop>(
    alloc: Global,
    file: F,
    word: FileWord,
    max_bytes: u64,
) -> Result<Vec<u8>, CommandFault>
    ensures read { IfOk result (λ bytes. HasAll (F.remaining file) bytes.items) }
    ensures fault { IfErr result IsNoWriteFault }
    ensures faults { IfErr result IsFaultOfReading }
{
    let mut source = Counted::new(file.take(max_bytes.saturating_add(1)));
    let bytes = read_all(alloc, &mut source)?;
    if bytes.len() as u64 > max_bytes {
        return Err(CommandFault::TooLong(word, max_bytes));
    }
    Ok(bytes)
}

/// Returns the bytes of the file with this name, which this word names, as far as they are at most so
/// many.
///
/// # Errors
/// `Unopened` and `Read` where the file can't be opened or read; `TooLong`; `OutOfMemory`.
pub(super) fn file_bytes<R: Files + AllocGlobal>(
    rt: &R,
    name: &str,
    word: FileWord,
    max_bytes: u64,
) -> Result<Vec<u8>, CommandFault>
    ensures fault { IfErr result IsNoWriteFault }
    ensures faults { IfErr result IsFaultOfReading }
{
    let file = opened(rt, name, word)?;
    read_file(rt.alloc(), file, word, max_bytes)
}

/// Returns the writer's file, once it has all that was written.
pub(super) fn write_rest<F: Write + Drop>(writer: BufWriter<F>) -> Result<F, CommandFault>
    ensures written { IfOk result
        (λ file. Keeps (writer_contents F.contents writer) (F.contents file)) }
    ensures fault { IfErr result (λ fault. fault ≡ CommandFault.File) }
{
    let Ok(mut file) = writer.into_inner() else {
        return Err(CommandFault::File);
    };
    match file.flush() {
        Ok(()) => Ok(file),
        Err(_) => Err(CommandFault::File),
    }
}

/// The numbers by which a system tells its files apart: that of the file on its device, and the
/// device's.
#[derive(Clone, Copy, PartialEq, Eq)]
pub(super) struct FileNumbers {
    file: u64,
    device: u64,
}

/// Returns the numbers of the file with this name, if it exists and the runtime gives them: a
/// runtime that doesn't has 0 for each file.
pub(super) fn file_numbers<R: Files>(rt: &R, name: &str) -> Option<FileNumbers>
    ensures { IfSome result (λ numbers. numbers.file ≢ 0) }
{
    let metadata = fs::metadata(rt, name).ok()?;
    let numbers = FileNumbers {
        file: metadata.ino(),
        device: metadata.dev(),
    };
    (numbers.file != 0).then_some(numbers)
}

/// Whether these are the numbers of one file: not where they aren't given, since it isn't known
/// then.
pub(super) fn is_same_file(one: Option<FileNumbers>, other: Option<FileNumbers>) -> bool
    ensures { IsTrue result ↔ (one ≢ None × one ≡ other) }
{
    match (one, other) {
        (Some(one), Some(other)) => one == other,
        _ => false,
    }
}
