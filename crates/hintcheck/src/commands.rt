//! Does what the words of a command line ask for: gives an answer or a fault in lines for the user,
//! and the exit status.

ghost use Rattle.std.specs.Prelude.{◌≡◌, ◌+◌, ◌≤◌, ◌⊎◌, IfErr, IfOk, map, option_map, string_bytes, true};
ghost use Rattle.hintcheck_words.specs.Requests.{IsOutOfMemory, asked, explain, is_taken};
ghost use Rattle.hintcheck.specs.Representation.Answers.{IsAnswered, IsNoVerdictFor, IsVerdictFor};
ghost use Rattle.hintcheck.specs.Commands.{IsForVerdict, TellsFailure, status_of};
ghost use Rattle.hintcheck.specs.CommandFaults.{IsFaultOfTask, MeansNoFault, TellsFault, TellsNoTask};
ghost use Rattle.hintcheck.specs.MeansSafe.{MeansRefused, MeansSafe};
ghost use Rattle.hintcheck.specs.Printed.{MeansPrinted, TellsPrinted, asks_last_line as asks_last_line_of};

mod bare_task;
mod cause_lines;
mod check_task;
mod explain_font;
mod explain_program;
mod explain_reason;
pub mod faults;
mod files;
mod find_task;
mod font_bytes;
mod font_label;
mod json_objects;
mod known_refusals;
mod list_task;
mod listed_names;
mod need_lines;
mod scan_lines;
mod scan_more;
mod scan_summary;
mod scan_task;
mod shown_names;
mod upgrade_task;
mod verdict_lines;
mod verdict_task;

use crate::asked_site::asked_site;
use bare_task::{BareWords, bare_verdict, word_or_empty};
use check_task::check_verdict;
use explain_font::explain_of_font;
use explain_program::{ExplainRequest, explain_of_file};
use explain_reason::{reason_called, tell_reason};
use faults::{CommandFault, FileWord};
use find_task::find_verdict;
use font_label::FontLabel;
use hintcheck_fonts::Judged;
use hintcheck_words::{ExplainOptions, Task, TaskFault, read_words};
use list_task::list_of_file;
use scan_task::scan_words;
use shown_names::Shown;
use std::alloc::AllocError;
use std::rt::Files;
use tt_stream::Sink;
use upgrade_task::tell_upgrade;
use verdict_lines::tell_verdict;
use verdict_task::file_verdict;

/// The exit status where every program is accepted, a certificate is upgraded, or help was asked
/// for.
const ACCEPTED: u8 = 0;

/// The exit status where a program is refused.
const REFUSED: u8 = 1;

/// Whether the task asks for the last line of the verdict alone.
#[tactic(auto, unfolding(hintcheck_words::specs::Requests::asked))]
fn asks_last_line(task: &Task) -> bool
    ensures { result ≡ asks_last_line_of (asked task.now) }
{
    match task {
        Task::Verdict { options, .. } => options.is_quiet,
        _ => false,
    }
}

/// Returns the verdict that the task asks for.
fn verdict_on<R: Files + AllocGlobal>(rt: &R, task: &Task) -> Result<Judged, CommandFault>
    requires { IsForVerdict (asked task.now) }
    ensures given { IfOk result (λ j. IsVerdictFor (asked task.now) j.by j.verdict) }
    ensures faults { IfErr result (IsNoVerdictFor (asked task.now)) }
{
    match task {
        Task::Bare {
            maxp,
            cvt,
            points,
            contours,
            program,
            profile,
        } => {
            let words = BareWords {
                maxp,
                cvt: *cvt,
                points: *points,
                contours: *contours,
                program: word_or_empty(program),
            };
            bare_verdict(rt.alloc(), words, *profile)
        }
        Task::Verdict { font, options } => file_verdict(rt, font, *options),
        Task::Find {
            font,
            certificate,
            options,
        } => find_verdict(rt, font, certificate, *options),
        Task::Check {
            font,
            certificate,
            options,
        } => check_verdict(rt, font, certificate, *options),
        Task::Scan { .. } | Task::Explain { .. } | Task::List { .. } | Task::Upgrade { .. } => {
            unreachable!()
        }
    }
}

/// Explains the program of the font file with the first name that the second one names, at the site
/// that the third one asks for. Without a program it tells what the reason means whose number the
/// first name is, or why the font's programs are refused. Returns the exit status.
fn tell_explanation<R: Files + AllocGlobal, O: Sink>(
    rt: &R,
    font: &str,
    program: &Option<String>,
    place: &Option<String>,
    options: ExplainOptions,
    out: &mut O,
) -> Result<u8, CommandFault>
    ensures answer { IfOk result (λ status. IsAnswered (explain font.now
        (option_map (λ s. string_bytes s) program.now)
        (option_map (λ s. string_bytes s) place.now) options)
        status (O.contents out.old) (O.contents out.new)) }
    ensures failures { TellsFailure result (O.failures out.old) (O.failures out.new) }
{
    let Some(word) = program else {
        return match reason_called(font) {
            Some(reason) => tell_reason(reason, out),
            None => explain_of_font(rt, font, options, out),
        };
    };
    let request = ExplainRequest {
        word,
        site: asked_site(place)?,
        options,
    };
    explain_of_file(rt, font, request, out)
}

/// Prints the verdict that the task asks for, and returns the exit status.
fn answer_verdict<R: Files + AllocGlobal, O: Sink>(
    rt: &R,
    task: &Task,
    out: &mut O,
) -> Result<u8, CommandFault>
    requires { IsForVerdict (asked task.now) }
    ensures answer { IfOk result (λ status.
        IsAnswered (asked task.now) status (O.contents out.old) (O.contents out.new)) }
    ensures faults { IfErr result (IsFaultOfTask (asked task.now)) }
    ensures failures { TellsFailure result (O.failures out.old) (O.failures out.new) }
{
    let judged = verdict_on(rt, task)?;
    tell_verdict(out, judged, asks_last_line(task))
}

/// Does the task, prints the answer to `out`, and what counts the fonts of a scan to `err`; returns
/// the exit status: 0 accepted, listed or upgraded, 1 refused, and more where what is printed tells a
/// fault, of a font file of a scan or in the object of an explanation. Reporting any other fault is
/// left to the caller.
///
/// # Errors
/// `Write` exactly where a write to `out` failed; `MaxpWord` and `ProgramWord` for a word that spells
/// no bytes; `ProgramName` for one that names no program of the font; `NoOffset` for one that spells
/// no offset, and `OffsetWord` for an offset at which no instruction begins; `ClassWord` where a scan
/// is to fail for reasons of a class that doesn't exist; `ExpectedWord` and `FontWord` where a font
/// can't be in a scan with its file of known refusals, and `KnownLine` for the first line of that file
/// that names none; `NameWord` where a name is given for other than one font; `Budget` where more steps
/// were to be made than `--max-steps` allows; `CertificateWord` where a font's file is to be its
/// certificate's; `NewWord` where an old certificate's file is to be the new one's; `Font` for the first
/// fault of the font or of `bare`'s `maxp`, which may be that memory ran out; `Collection` and
/// `ManyFaces` for a collection; `Form`, `NoCertificate`, `Unopened`, `TooLong`, `Read`, `File` and
/// `OutOfMemory`.
fn do_task<R: Files + AllocGlobal, O: Sink, E: Sink>(
    rt: &R,
    task: &Task,
    out: &mut O,
    err: &mut E,
) -> Result<u8, CommandFault>
    ensures answer { IfOk result (λ status.
        IsAnswered (asked task.now) status (O.contents out.old) (O.contents out.new)) }
    ensures faults { IfErr result (IsFaultOfTask (asked task.now)) }
    ensures failures { TellsFailure result (O.failures out.old) (O.failures out.new) }
    ensures untold { E.failures err.old ≤ E.failures err.new }
{
    match task {
        Task::Scan {
            fonts,
            options,
            texts,
        } => scan_words(rt, fonts, *options, texts, out, err),
        Task::Explain {
            font,
            program,
            place,
            options,
        } => tell_explanation(rt, font, program, place, *options, out),
        Task::List {
            font,
            program,
            options,
        } => list_of_file(rt, font, program, *options, out),
        Task::Upgrade {
            old,
            new,
            max_bytes,
        } => tell_upgrade(rt, old, new, *max_bytes, out),
        task => answer_verdict(rt, task, out),
    }
}

/// Does what the words of a command line ask for, prints the answer to `out` or a fault to `err`,
/// and returns the exit status: 0 accepted, listed, upgraded or help, 1 refused, 2 words, input or
/// output that can't be read or written, 3 out of memory or budget; for a scan the greatest one of
/// its fonts, whose faults are printed to `out`, and a line that counts them to `err`. The first
/// word is the program's own name. Printing takes no memory.
pub fn command<R: Files + AllocGlobal, O: Sink, E: Sink>(
    rt: &R,
    words: &[&str],
    out: &mut O,
    err: &mut E,
) -> u8
    ensures statuses { result ≤ 3 }
    // Where the command line takes the words and the status is 0, what they ask for is safe; where
    // a scan is to fail for possible faults alone, no verdict of its fonts names one; where it names
    // a file of known refusals, its fonts have no others.
    ensures safe { result ≡ 0 → is_taken (map (λ w. w.now) words.entry.now) ≡ true
        → MeansSafe (map (λ w. w.now) words.entry.now) }
    // Where the status is 1, the words ask for something, which is refused.
    ensures refused { result ≡ 1 → MeansRefused (map (λ w. w.now) words.entry.now) }
    // Where it is 0 or 1, and the command line takes the words, what is printed is the answer.
    ensures printed { result ≤ 1 → is_taken (map (λ w. w.now) words.entry.now) ≡ true
        → MeansPrinted (map (λ w. w.now) words.entry.now) result
        (O.contents out.old) (O.contents out.new) }
    // Where the status is 2 or 3, a fault of the words gives it; otherwise they have none where the
    // command line takes them.
    ensures told { 2 ≤ result → TellsFault (map (λ w. w.now) words.entry.now) result }
    // It is reported; or it is that of a font file of a scan, and the lines of all its files are
    // printed; or the object that tells it in place of an explanation is.
    ensures scanned { 2 ≤ result → TellsPrinted (map (λ w. w.now) words.entry.now) result
        (O.contents out.old) (O.contents out.new) }
    ensures none { result ≤ 1 → is_taken (map (λ w. w.now) words.entry.now) ≡ true
        → MeansNoFault (map (λ w. w.now) words.entry.now) }
    // At most one write to `out` failed, and none unless the status is 2.
    ensures unwritten { O.failures out.new ≡ O.failures out.old
        ⊎ (result ≡ 2 × O.failures out.new ≡ O.failures out.old + 1) }
    ensures untold { E.failures err.old ≤ E.failures err.new }
{
    match read_words(rt.alloc(), words) {
        Ok(task) => match do_task(rt, &task, out, err) {
            Ok(status) => status,
            Err(fault) => {
                let status = tell(err, &fault);
                tell_note(err, &task, &fault);
                status
            }
        },
        Err(fault) => tell_words(fault, out, err),
    }
}

/// Prints the help or the version to `out`, where the words ask for it, or else the fault for which
/// they ask for nothing; returns the exit status.
fn tell_words<O: Sink, E: Sink>(fault: TaskFault, out: &mut O, err: &mut E) -> u8
    ensures few { result ≤ 3 }
    ensures help { result ≤ 1 → (result ≡ 0) × (IsOutOfMemory fault → ⊥) }
    ensures told { 2 ≤ result → (reported : CommandFault)
        × TellsNoTask fault reported × (result ≡ status_of reported) }
    ensures unwritten { O.failures out.new ≡ O.failures out.old
        ⊎ (result ≡ 2 × O.failures out.new ≡ O.failures out.old + 1) }
    ensures untold { E.failures err.old ≤ E.failures err.new }
{
    match fault {
        TaskFault::OutOfMemory(AllocError) => tell(err, &CommandFault::OutOfMemory),
        TaskFault::Words(text) if text.use_stderr() => {
            tell(err, &CommandFault::Usage(TaskFault::Words(text)))
        }
        TaskFault::Words(text) => match write!(out, "{text}") {
            Ok(()) => ACCEPTED,
            Err(failed) => tell(err, &CommandFault::from(failed)),
        },
    }
}

/// Prints the fault, and returns its exit status. A fault that can't be printed is reported only by
/// the status.
fn tell<E: Sink>(err: &mut E, fault: &CommandFault) -> u8
    ensures status { result ≡ status_of fault.now }
    ensures untold { E.failures err.old ≤ E.failures err.new }
{
    let _ = match fault {
        CommandFault::Usage(text) => write!(err, "{text}"),
        fault => writeln!(err, "fault: {fault}"),
    };
    fault.status()
}

/// Returns the name of the file that this word of the task names, if it has the word.
fn file_named(task: &Task, word: FileWord) -> Option<&str> {
    let name = match (task, word) {
        (Task::Scan { texts, .. }, FileWord::Known) => texts.expected.as_ref()?,
        (Task::Scan { fonts, .. }, FileWord::List(number)) => fonts.get(number)?,
        (Task::Verdict { font, .. }, FileWord::Font)
        | (Task::Explain { font, .. }, FileWord::Font)
        | (Task::List { font, .. }, FileWord::Font)
        | (Task::Find { font, .. }, FileWord::Font)
        | (Task::Check { font, .. }, FileWord::Font) => font,
        (Task::Check { certificate, .. }, FileWord::Certificate) => certificate,
        (Task::Upgrade { old, .. }, FileWord::Old) => old,
        _ => return None,
    };
    Some(name.as_str())
}

/// Prints what helps the user with the fault of a task, in a line of its own, if there is something. That
/// it can't be printed is not told.
fn tell_note<E: Sink>(err: &mut E, task: &Task, fault: &CommandFault)
    ensures untold { E.failures err.old ≤ E.failures err.new }
{
    let Some(note) = fault.note() else {
        return;
    };
    let name = fault.file_word().and_then(|word| file_named(task, word));
    let _ = match name {
        Some(name) => {
            let file = Shown(FontLabel::of_file(name));
            writeln!(err, "note: {file}: {note}")
        }
        None => writeln!(err, "note: {note}"),
    };
}
