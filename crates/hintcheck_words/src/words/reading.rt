//! The task that the words of a command line name, read from what clap makes of the words.

ghost use Rattle.std.specs.Prelude.{◌≡◌, ◌∷◌, [], IfErr, IfOk, Some, codes, is_some, map, option_map, string_bytes, true};
ghost use Rattle.clap.specs.Words.{subcommand_rows_of};
ghost use Rattle.hintcheck_words.specs.Requests.{IsMemoryIfTaken, MeetsSubcommand, asked, bare_request, certificate_options_in, check_request, detail_in, explain_options_in, explain_request, faces_in, fail_on_in, fail_on_named, find_request, flag_in, font_words_in, format_in, json_options_in, json_request, list_options_in, list_request, max_bytes_in, max_steps_in, meaning, met, needs_in, number_in, optional_in, optional_number_in, profile_or_both_in, profile_or_strict_in, request_of, rows_in, scan_options_in, scan_request, scan_texts_in, text_in, texts_in, texts_of, texts_spelled, upgrade_request, verdict_options_in, verdict_request};

use super::command_line::command_line;
use super::{
    AskedNeeds, CertificateOptions, Detail, ExplainOptions, Faces, FailOn, FontWords, Format,
    ListOptions, Profile, ScanOptions, ScanTexts, Task, TaskFault, VerdictOptions,
};
use clap::ArgMatches;
use clap::error::ErrorKind;
use std::alloc::{AllocError, Global};

/// How many bytes a file may have where the words name no number: 1 GiB.
const USUAL_MAX_BYTES: u64 = 1_073_741_824;

/// Returns the text that the words give the argument, empty where they give none.
///
/// # Errors
/// If memory runs out.
fn text(alloc: Global, values: &ArgMatches<'_>, id: &str) -> Result<String, AllocError>
    ensures { IfOk result (λ t. string_bytes t ≡ text_in (rows_in values.now) id.now) }
{
    String::from_str(alloc, values.get_str(id).unwrap_or(""))
}

/// Returns the text that the words give the argument, if they give one.
///
/// # Errors
/// If memory runs out.
fn optional_text(
    alloc: Global,
    values: &ArgMatches<'_>,
    id: &str,
) -> Result<Option<String>, AllocError>
    ensures { IfOk result (λ t.
        option_map (λ s. string_bytes s) t ≡ optional_in (rows_in values.now) id.now) }
{
    match values.get_str(id) {
        Some(text) => Ok(Some(String::from_str(alloc, text)?)),
        None => Ok(None),
    }
}

/// Returns the texts that the words give the argument, none where they give none.
///
/// # Errors
/// If memory runs out.
fn all_texts(alloc: Global, values: &ArgMatches<'_>, id: &str) -> Result<Vec<String>, AllocError>
    ensures { IfOk result (λ ts.
        map (λ s. string_bytes s) ts.items ≡ texts_in (rows_in values.now) id.now) }
{
    let mut texts = Vec::new(alloc);
    for &text in values.get_strs(id).unwrap_or(&[]) {
        texts.push(String::from_str(alloc, text)?)?;
    }
    Ok(texts)
}

/// Returns the number that the words give the argument, 0 where they give none.
fn number(values: &ArgMatches<'_>, id: &str) -> u16
    ensures { result ≡ number_in (rows_in values.now) id.now }
{
    values.get_one::<u16>(id).unwrap_or(0)
}

/// Whether the words give the option, which takes no value.
fn is_given(values: &ArgMatches<'_>, id: &str) -> bool
    ensures { result ≡ flag_in (rows_in values.now) id.now }
{
    values.get_one::<bool>(id).unwrap_or(false)
}

/// Returns the number of 64 bits that the words give the option, if they give one.
fn long_number(values: &ArgMatches<'_>, id: &str) -> Option<u64>
    ensures { result ≡ optional_number_in 18446744073709551615 (rows_in values.now) id.now }
{
    values.get_one::<u64>(id)
}

/// Returns how many steps may be made, if the words name a number.
fn asked_max_steps(values: &ArgMatches<'_>) -> Option<u64>
    ensures { result ≡ max_steps_in (rows_in values.now) }
{
    long_number(values, "STEPS")
}

/// Returns how many bytes a file may have: the number that the words name, or the usual one.
fn asked_max_bytes(values: &ArgMatches<'_>) -> u64
    ensures { result ≡ max_bytes_in (rows_in values.now) }
{
    long_number(values, "BYTES").unwrap_or(USUAL_MAX_BYTES)
}

/// Returns the number of the face that the words ask for, if they give one.
fn face_number(values: &ArgMatches<'_>) -> Option<u32>
    ensures { result ≡ optional_number_in 4294967295 (rows_in values.now) (codes "FACE") }
{
    values.get_one::<u32>("FACE")
}

/// Returns which faces of a collection the words ask for: the one that they number, or these.
fn asked_faces(values: &ArgMatches<'_>, otherwise: Faces) -> Faces
    ensures { result ≡ faces_in otherwise (rows_in values.now) }
{
    match face_number(values) {
        Some(number) => Faces::Numbered(number),
        None => otherwise,
    }
}

/// Returns the profile that `scan` or `explain` is asked for: both, unless one alone is named.
fn profile_or_both(values: &ArgMatches<'_>) -> Profile
    ensures { result ≡ profile_or_both_in (rows_in values.now) }
{
    let max_steps = asked_max_steps(values);
    match (is_given(values, "STRICT"), is_given(values, "SYMBOLIC")) {
        (true, false) => Profile::Strict { max_steps },
        (false, true) => Profile::Symbolic { max_steps },
        _ => Profile::Both { max_steps },
    }
}

/// Returns the profile that `verdict` or `bare` is asked for: the strict one, unless the words name
/// another.
fn profile_or_strict(values: &ArgMatches<'_>) -> Profile
    ensures { result ≡ profile_or_strict_in (rows_in values.now) }
{
    let max_steps = asked_max_steps(values);
    if is_given(values, "BOTH") {
        Profile::Both { max_steps }
    } else if is_given(values, "SYMBOLIC") {
        Profile::Symbolic { max_steps }
    } else {
        Profile::Strict { max_steps }
    }
}

/// Returns the form in which the words ask for answers.
fn asked_format(values: &ArgMatches<'_>) -> Format
    ensures { result ≡ format_in (rows_in values.now) }
{
    if is_given(values, "JSON") {
        Format::Json
    } else {
        Format::Lines
    }
}

/// Returns of which numbers the words ask what a font needs of them.
fn asked_needs(values: &ArgMatches<'_>) -> AskedNeeds
    ensures { result ≡ needs_in (rows_in values.now) }
{
    if is_given(values, "ALL_NEEDS") {
        AskedNeeds::All
    } else if is_given(values, "NEEDS") {
        AskedNeeds::Refused
    } else {
        AskedNeeds::None
    }
}

/// Returns what the words of a scan's fonts are.
fn asked_words(values: &ArgMatches<'_>) -> FontWords
    ensures { result ≡ font_words_in (rows_in values.now) }
{
    if is_given(values, "NULS") {
        FontWords::Nuls
    } else if is_given(values, "LINES") {
        FontWords::Lines
    } else {
        FontWords::Fonts
    }
}

/// Returns what the words ask to be listed of an instruction.
fn asked_detail(values: &ArgMatches<'_>) -> Detail
    ensures { result ≡ detail_in (rows_in values.now) }
{
    if is_given(values, "NUMBERS") {
        Detail::Numbers
    } else {
        Detail::Names
    }
}

/// Returns for which refused programs a scan fails, by the word that names their class of reasons,
/// if it names one.
fn class_named(word: &str) -> Option<FailOn>
    ensures { result ≡ fail_on_named word.now }
{
    (word == "possible").then_some(FailOn::Possible)
}

/// Returns for which refused programs the scan that the words ask for is to fail.
fn asked_class(values: &ArgMatches<'_>) -> Option<FailOn>
    ensures { result ≡ fail_on_in (rows_in values.now) }
{
    match values.get_str("CLASS") {
        Some(word) => class_named(word),
        None => Some(FailOn::Refused),
    }
}

/// Returns the options of the scan that the words ask for.
fn scan_options(values: &ArgMatches<'_>) -> ScanOptions
    ensures { result ≡ scan_options_in (rows_in values.now) }
{
    ScanOptions {
        profile: profile_or_both(values),
        fail_on: asked_class(values),
        format: asked_format(values),
        has_causes: is_given(values, "CAUSES"),
        needs: asked_needs(values),
        words: asked_words(values),
        faces: asked_faces(values, Faces::All),
        max_bytes: asked_max_bytes(values),
        is_quiet: is_given(values, "QUIET"),
    }
}

/// Returns the names that the words give a scan, besides those of its fonts.
///
/// # Errors
/// If memory runs out.
fn scan_texts(alloc: Global, values: &ArgMatches<'_>) -> Result<ScanTexts, AllocError>
    ensures { IfOk result (λ t. texts_spelled t ≡ scan_texts_in (rows_in values.now)) }
{
    Ok(ScanTexts {
        expected: optional_text(alloc, values, "FILE")?,
        written: optional_text(alloc, values, "NEW")?,
        name: optional_text(alloc, values, "NAME")?,
    })
}

/// Returns the options of the verdict that the words ask for.
fn verdict_options(values: &ArgMatches<'_>) -> VerdictOptions
    ensures { result ≡ verdict_options_in (rows_in values.now) }
{
    VerdictOptions {
        profile: profile_or_strict(values),
        faces: asked_faces(values, Faces::Only),
        max_bytes: asked_max_bytes(values),
        is_quiet: is_given(values, "QUIET"),
    }
}

/// Returns the options of the explanation that the words ask for.
fn explain_options(values: &ArgMatches<'_>) -> ExplainOptions
    ensures { result ≡ explain_options_in (rows_in values.now) }
{
    ExplainOptions {
        profile: profile_or_both(values),
        format: asked_format(values),
        faces: asked_faces(values, Faces::Only),
        max_bytes: asked_max_bytes(values),
    }
}

/// Returns the options with which the words ask for a certificate to be found or checked.
fn certificate_options(values: &ArgMatches<'_>) -> CertificateOptions
    ensures { result ≡ certificate_options_in (rows_in values.now) }
{
    CertificateOptions {
        max_steps: asked_max_steps(values),
        faces: asked_faces(values, Faces::Only),
        max_bytes: asked_max_bytes(values),
    }
}

/// Returns the options of the list that the words ask for.
fn list_options(values: &ArgMatches<'_>) -> ListOptions
    ensures { result ≡ list_options_in (rows_in values.now) }
{
    ListOptions {
        detail: asked_detail(values),
        faces: asked_faces(values, Faces::Only),
        max_bytes: asked_max_bytes(values),
    }
}

/// Returns the task of the subcommand `scan`.
///
/// # Errors
/// If memory runs out.
fn scan_task(alloc: Global, values: &ArgMatches<'_>) -> Result<Task, AllocError>
    ensures { IfOk result (λ t. asked t ≡ scan_request (rows_in values.now)) }
{
    Ok(Task::Scan {
        fonts: all_texts(alloc, values, "FONT")?,
        options: scan_options(values),
        texts: scan_texts(alloc, values)?,
    })
}

/// Returns the texts that are this one alone.
///
/// # Errors
/// If memory runs out.
fn one_text(alloc: Global, text: String) -> Result<Vec<String>, AllocError>
    ensures { IfOk result (λ ts. ts.items ≡ text ∷ []) }
{
    let mut texts = Vec::new(alloc);
    texts.push(text)?;
    Ok(texts)
}

/// Returns the options of the scan that tells the verdict on a font in an object, by this profile.
fn json_options(values: &ArgMatches<'_>, profile: Profile) -> ScanOptions
    ensures { result ≡ json_options_in profile (rows_in values.now) }
{
    ScanOptions {
        profile,
        fail_on: Some(FailOn::Refused),
        format: Format::Json,
        has_causes: false,
        needs: AskedNeeds::None,
        words: FontWords::Fonts,
        faces: asked_faces(values, Faces::Only),
        max_bytes: asked_max_bytes(values),
        is_quiet: false,
    }
}

/// Returns the task of telling the verdict on a font in an object, by this profile.
///
/// # Errors
/// If memory runs out.
fn json_task(alloc: Global, values: &ArgMatches<'_>, profile: Profile) -> Result<Task, AllocError>
    ensures { IfOk result (λ t. asked t ≡ json_request profile (rows_in values.now)) }
{
    let font = text(alloc, values, "FONT")?;
    Ok(Task::Scan {
        fonts: one_text(alloc, font)?,
        options: json_options(values, profile),
        texts: ScanTexts {
            expected: None,
            written: None,
            name: None,
        },
    })
}

/// Whether the words name a program.
fn names_program(values: &ArgMatches<'_>) -> bool
    ensures { result ≡ is_some (optional_in (rows_in values.now) (codes "PROGRAM")) }
{
    values.get_str("PROGRAM").is_some()
}

/// Returns the task of the subcommand `explain`. Without a program, an object of JSON tells the font as
/// `scan` does.
///
/// # Errors
/// If memory runs out.
fn explain_task(alloc: Global, values: &ArgMatches<'_>) -> Result<Task, AllocError>
    ensures { IfOk result (λ t. asked t ≡ explain_request (rows_in values.now)) }
{
    if is_given(values, "JSON") && !names_program(values) {
        return json_task(alloc, values, profile_or_both(values));
    }
    Ok(Task::Explain {
        font: text(alloc, values, "FONT")?,
        program: optional_text(alloc, values, "PROGRAM")?,
        place: optional_text(alloc, values, "OFFSET")?,
        options: explain_options(values),
    })
}

/// Returns the task of the subcommand `verdict`.
///
/// # Errors
/// If memory runs out.
fn verdict_task(alloc: Global, values: &ArgMatches<'_>) -> Result<Task, AllocError>
    ensures { IfOk result (λ t. asked t ≡ verdict_request (rows_in values.now)) }
{
    if is_given(values, "JSON") {
        return json_task(alloc, values, profile_or_strict(values));
    }
    Ok(Task::Verdict {
        font: text(alloc, values, "FONT")?,
        options: verdict_options(values),
    })
}

/// Returns the task of the subcommand `list`.
///
/// # Errors
/// If memory runs out.
fn list_task(alloc: Global, values: &ArgMatches<'_>) -> Result<Task, AllocError>
    ensures { IfOk result (λ t. asked t ≡ list_request (rows_in values.now)) }
{
    Ok(Task::List {
        font: text(alloc, values, "FONT")?,
        program: text(alloc, values, "PROGRAM")?,
        options: list_options(values),
    })
}

/// Returns the task of the subcommand `find`.
///
/// # Errors
/// If memory runs out.
fn find_task(alloc: Global, values: &ArgMatches<'_>) -> Result<Task, AllocError>
    ensures { IfOk result (λ t. asked t ≡ find_request (rows_in values.now)) }
{
    Ok(Task::Find {
        font: text(alloc, values, "FONT")?,
        certificate: text(alloc, values, "CERT")?,
        options: certificate_options(values),
    })
}

/// Returns the task of the subcommand `check`.
///
/// # Errors
/// If memory runs out.
fn check_task(alloc: Global, values: &ArgMatches<'_>) -> Result<Task, AllocError>
    ensures { IfOk result (λ t. asked t ≡ check_request (rows_in values.now)) }
{
    Ok(Task::Check {
        font: text(alloc, values, "FONT")?,
        certificate: text(alloc, values, "CERT")?,
        options: certificate_options(values),
    })
}

/// Returns the task of the subcommand `upgrade`.
///
/// # Errors
/// If memory runs out.
fn upgrade_task(alloc: Global, values: &ArgMatches<'_>) -> Result<Task, AllocError>
    ensures { IfOk result (λ t. asked t ≡ upgrade_request (rows_in values.now)) }
{
    Ok(Task::Upgrade {
        old: text(alloc, values, "OLD")?,
        new: text(alloc, values, "NEW")?,
        max_bytes: asked_max_bytes(values),
    })
}

/// Returns the task of the subcommand `bare`.
///
/// # Errors
/// If memory runs out.
fn bare_task(alloc: Global, values: &ArgMatches<'_>) -> Result<Task, AllocError>
    ensures { IfOk result (λ t. asked t ≡ bare_request (rows_in values.now)) }
{
    Ok(Task::Bare {
        maxp: text(alloc, values, "MAXP")?,
        cvt: number(values, "CVT"),
        points: number(values, "POINTS"),
        contours: number(values, "CONTOURS"),
        program: optional_text(alloc, values, "PROGRAM")?,
        profile: profile_or_strict(values),
    })
}

/// Returns the task of the subcommand with this name.
///
/// # Errors
/// If memory runs out.
fn task_of(alloc: Global, name: &str, values: &ArgMatches<'_>) -> Result<Task, AllocError>
    requires { is_some (request_of (name.now, rows_in values.now)) ≡ true }
    ensures { IfOk result (λ t. request_of (name.now, rows_in values.now) ≡ Some (asked t)) }
{
    match name {
        "scan" => scan_task(alloc, values),
        "explain" => explain_task(alloc, values),
        "verdict" => verdict_task(alloc, values),
        "list" => list_task(alloc, values),
        "find" => find_task(alloc, values),
        "check" => check_task(alloc, values),
        "upgrade" => upgrade_task(alloc, values),
        "bare" => bare_task(alloc, values),
        _ => unreachable!(),
    }
}

/// Returns what the words give the arguments, and the subcommand that they name.
///
/// # Errors
/// `Words` where the command line doesn't take the words, or they ask for help or for the version;
/// `OutOfMemory`.
fn matches_of<'a>(alloc: Global, words: &'a [&'a str]) -> Result<ArgMatches<'a>, TaskFault>
    ensures met { IfOk result (λ m. subcommand_rows_of m ≡ met (texts_of words.entry.now)) }
    ensures meets { IfOk result (λ m. MeetsSubcommand (subcommand_rows_of m)) }
    ensures refused { IfErr result (IsMemoryIfTaken (texts_of words.entry.now)) }
{
    let command = command_line(alloc)?;
    match command.try_get_matches_from(words) {
        Ok(matches) => Ok(matches),
        Err(error) => match error.kind() {
            ErrorKind::OutOfMemory => Err(TaskFault::OutOfMemory(AllocError)),
            _ => Err(TaskFault::Words(error)),
        },
    }
}

/// Returns what the words ask for. The first word is the program's own name.
///
/// # Errors
/// `Words` where the command line doesn't take the words, or they ask for help or for the version;
/// `OutOfMemory`.
pub fn read_words<'a>(alloc: Global, words: &'a [&'a str]) -> Result<Task, TaskFault>
    // The task is the request that the words mean.
    ensures asked { IfOk result (λ t. meaning (texts_of words.entry.now) ≡ Some (asked t)) }
    // Words that the command line takes are refused only when memory runs out.
    ensures refused { IfErr result (IsMemoryIfTaken (texts_of words.entry.now)) }
{
    let matches = matches_of(alloc, words)?;
    match matches.subcommand() {
        Some((name, values)) => Ok(task_of(alloc, name, values)?),
        None => unreachable!(),
    }
}
