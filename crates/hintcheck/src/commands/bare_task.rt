//! The subcommand `bare`: the verdict on one glyph program, whose bytes are words of hexadecimal
//! digits.

ghost use Rattle.std.specs.Prelude.{◌≡◌, ◌≤◌, IfErr, IfOk, None, OnOk, Some, length, option_map, string_bytes, unwrap_or, []};
ghost use Rattle.tt_font.specs.Conditions.{maxp_fault};
ghost use Rattle.hintcheck_programs.specs.BarePrograms.{glyph_with};
ghost use Rattle.hintcheck_words.specs.Requests.{bare};
ghost use Rattle.hintcheck.specs.MeansSafe.{IsBareVerdict};
ghost use Rattle.hintcheck.specs.Representation.Answers.{IsFaultOfTable, IsNoVerdictFor, IsVerdictFor};

use super::faults::CommandFault;
use crate::font_file::budget_of;
use hintcheck_fonts::symbolic_verdict::USUAL_STEPS;
use hintcheck_fonts::{Judged, Request, bare_by_both, bare_symbolic_within, bare_within};
use hintcheck_report::AnswerFault;
use hintcheck_words::{Profile, word_bytes};
use std::alloc::Global;
use tt_abs::Exhausted;

/// What `bare` is given: a `maxp` table and a glyph program in words of hexadecimal digits, and how
/// many control values, points and contours there are.
#[derive(Clone, Copy)]
pub(super) struct BareWords<'a> {
    pub maxp: &'a str,
    pub cvt: u16,
    pub points: u16,
    pub contours: u16,
    pub program: &'a str,
}

/// Returns the word, empty where it is left out.
pub(super) fn word_or_empty(word: &Option<String>) -> &str
    ensures { result.now ≡ unwrap_or (option_map (λ s. string_bytes s) word.now) [] }
{
    match word {
        Some(word) => word.as_str(),
        None => "",
    }
}

/// Judges one glyph program against the limits of a `maxp` table by the profile that is asked for, as
/// `judge` does a font.
///
/// # Errors
/// `Font` with the first fault of the table; `Exhausted` as `judge` says.
fn judge_bare(
    alloc: Global,
    maxp: &[u8],
    words: BareWords<'_>,
    program: &[u8],
    profile: Profile,
) -> Result<Judged, AnswerFault>
    requires few { length program.now ≤ 65535 }
    ensures given { let glyph = glyph_with words.entry.points words.entry.contours program.now in
        IfOk result (λ j. IsBareVerdict profile j.by words.entry.cvt j.verdict maxp.now glyph) }
    ensures faults { IfErr result (IsFaultOfTable (maxp_fault maxp.now)) }
    ensures none { OnOk result (maxp_fault maxp.now ≡ None) }
{
    let BareWords {
        cvt,
        points,
        contours,
        ..
    } = words;
    let mut budget = budget_of(profile.max_steps());
    let steps = profile.max_steps().unwrap_or(USUAL_STEPS);
    match profile {
        Profile::Strict { .. } => {
            let verdict = bare_within(alloc, maxp, cvt, points, contours, program, &mut budget)?;
            Ok(Judged {
                by: Request::Strict,
                verdict,
            })
        }
        Profile::Symbolic { .. } => {
            let verdict = bare_symbolic_within(alloc, maxp, cvt, points, contours, program, steps)?;
            Ok(Judged {
                by: Request::Symbolic { steps },
                verdict,
            })
        }
        Profile::Both { .. } => {
            bare_by_both(
                alloc,
                maxp,
                cvt,
                points,
                contours,
                program,
                steps,
                &mut budget,
            )
        }
    }
}

/// Returns the verdict that is asked for on one glyph program against the limits of a `maxp` table.
pub(super) fn bare_verdict(
    alloc: Global,
    words: BareWords<'_>,
    profile: Profile,
) -> Result<Judged, CommandFault>
    ensures given { IfOk result (λ j. IsVerdictFor (bare words.entry.maxp.now words.entry.cvt
        words.entry.points words.entry.contours (Some words.entry.program.now) profile)
        j.by j.verdict) }
    ensures faults { IfErr result (IsNoVerdictFor (bare words.entry.maxp.now words.entry.cvt
        words.entry.points words.entry.contours (Some words.entry.program.now) profile)) }
{
    let maxp = word_bytes(alloc, words.maxp).map_err(|fault| CommandFault::of_word(
        fault,
        CommandFault::MaxpWord,
    ))?;
    let program = word_bytes(alloc, words.program).map_err(|fault| CommandFault::of_word(
        fault,
        CommandFault::ProgramWord,
    ))?;
    match judge_bare(alloc, &maxp, words, &program, profile) {
        Ok(judged) => Ok(judged),
        Err(AnswerFault::Exhausted(Exhausted::Budget)) => Err(CommandFault::Budget),
        Err(fault) => Err(CommandFault::from(fault.into_font_fault())),
    }
}
