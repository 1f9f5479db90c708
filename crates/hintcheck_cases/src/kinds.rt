//! The kinds of cases that ask hintcheck: on the command and on its words.

use crate::{commands, tasks};
use anyhow::{Result, bail};
use tt_cases::context::Context;
use tt_cases::kinds::Kinds;
use tt_cases::words::Words;

/// The kinds.
pub(crate) struct CommandKinds;

impl Kinds for CommandKinds {
    fn answer(&self, context: &Context<'_>, kind: &str, words: &mut Words<'_>) -> Result<String> {
        match kind {
            "run" => commands::run(context, words),
            "words" => tasks::task(context, words),
            "hex" => tasks::hex_word(context, words),
            _ => bail!("no kind {kind}"),
        }
    }
}
