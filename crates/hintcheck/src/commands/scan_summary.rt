//! How many of the font files of a scan came to which end, in a line of the error output.

ghost use Rattle.std.specs.Prelude.{◌≤◌};

use hintcheck_words::Format;
use std::alloc::{AllocError, Global};
use std::collections::HashSet;
use std::fmt;
use tt_stream::Sink;

/// How many font files came to which end, and which refused programs were known.
#[derive(Drop)]
pub(super) struct Tally {
    /// Those of which each program is accepted.
    accepted: usize,
    /// Those of which some program is refused.
    refused: usize,
    /// Those without a verdict.
    unread: usize,
    /// How many refused programs were known.
    known: usize,
    /// The lines of these, each once.
    met: HashSet<String>,
    /// The lines of all refused programs for which the scan would fail, each with its end, if they are
    /// to be written.
    lines: Option<String>,
}

impl Tally {
    /// Returns what is told before any font file. Lines are kept if they are to be written.
    pub(super) fn new(alloc: Global, keeps_lines: bool) -> Tally {
        Tally {
            accepted: 0,
            refused: 0,
            unread: 0,
            known: 0,
            met: HashSet::new(alloc),
            lines: keeps_lines.then_some(String::new(alloc)),
        }
    }

    /// Counts a font file with a verdict, which accepts it or not.
    pub(super) fn count_verdict(&mut self, is_accepted: bool) {
        if is_accepted {
            self.accepted = self.accepted.saturating_add(1);
        } else {
            self.refused = self.refused.saturating_add(1);
        }
    }

    /// Counts a font file with a fault.
    pub(super) fn count_fault(&mut self) {
        self.unread = self.unread.saturating_add(1);
    }

    /// Counts a known refused program, which has this line.
    ///
    /// # Errors
    /// If memory runs out.
    pub(super) fn count_known(&mut self, line: String) -> Result<(), AllocError> {
        self.known = self.known.saturating_add(1);
        match self.met.insert(line) {
            Ok(_) => Ok(()),
            Err(_) => Err(AllocError),
        }
    }

    /// Keeps the line of a refused program for which the scan would fail, if lines are kept.
    ///
    /// # Errors
    /// If memory runs out.
    pub(super) fn add_line(&mut self, line: &str) -> Result<(), AllocError> {
        let Some(lines) = &mut self.lines else {
            return Ok(());
        };
        lines.push_str(line)?;
        lines.push('\n')
    }

    /// Whether lines are kept.
    pub(super) fn keeps_lines(&self) -> bool {
        self.lines.is_some()
    }

    /// Returns the lines that are kept.
    pub(super) fn lines(&self) -> &str {
        match &self.lines {
            Some(lines) => lines.as_str(),
            None => "",
        }
    }

    /// Returns how many font files were told, a face of a collection as one.
    fn fonts(&self) -> usize {
        self.accepted
            .saturating_add(self.refused)
            .saturating_add(self.unread)
    }
}

/// The line of a scan, in which a file of known refusals has so many lines, if one is named.
#[derive(Clone, Copy)]
struct Summary<'a> {
    tally: &'a Tally,
    listed: Option<usize>,
}

impl fmt::Display for Summary<'_> {
    fn fmt<W: fmt::Write>(&self, f: &mut fmt::Formatter<W>) -> fmt::Result {
        let Tally {
            accepted,
            refused,
            unread,
            known,
            met,
            ..
        } = self.tally;
        let fonts = self.tally.fonts();
        let word = if fonts == 1 { "font" } else { "fonts" };
        write!(
            f,
            "{fonts} {word}: {accepted} accepted, {refused} refused, {unread} without an answer"
        )?;
        let Some(listed) = self.listed else {
            return Ok(());
        };
        let word = if *known == 1 { "refusal" } else { "refusals" };
        let unmet = listed.saturating_sub(met.len());
        write!(f, ", {known} known {word}, {unmet} of FILE not met")
    }
}

/// Prints the line of a scan, in which a file of known refusals has so many lines, if one is named;
/// except in the form JSON. That it can't be printed is not told.
pub(super) fn tell_summary<E: Sink>(
    err: &mut E,
    tally: &Tally,
    listed: Option<usize>,
    format: Format,
)
    ensures { E.failures err.old ≤ E.failures err.new }
{
    match format {
        Format::Lines => {
            let summary = Summary { tally, listed };
            let _ = writeln!(err, "{summary}");
        }
        Format::Json => {}
    }
}
