//! The kinds of cases that ask hintcheck_fonts: on fonts and on certificates.

use crate::calls::AMPLE;
use crate::{calls, needs, sessions, sweeps};
use anyhow::{Result, bail};
use hintcheck_fonts::Budget;
use tt_cases::context::Context;
use tt_cases::kinds::Kinds;
use tt_cases::words::Words;

/// The kinds.
pub(crate) struct FontKinds;

impl Kinds for FontKinds {
    fn answer(&self, context: &Context<'_>, kind: &str, words: &mut Words<'_>) -> Result<String> {
        match kind {
            "bare" => calls::judge_bare(context, words),
            "profiles" => calls::judge_by_both(context, words),
            "verdict" | "check_font" | "find_font" | "upgrade" => {
                let names = words.rest(context.rt.alloc())?;
                calls::call(context, kind, &names, AMPLE, &mut Budget::unlimited())
            }
            "needs" => needs::needs(context, words),
            "found" => calls::found(context, words),
            "session" => sessions::session(context, words),
            "first" => sessions::first(context, words),
            "search" => sessions::search(context, words),
            "within" => sweeps::within(context, words),
            "budget" => sweeps::budgeted(context, words),
            "failing" => sweeps::failing(context, words),
            "answered" => sweeps::answered(context, words),
            _ => bail!("no kind {kind}"),
        }
    }
}
