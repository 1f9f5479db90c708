//! Where a number comes from, as it is printed by either profile.

use crate::explored_program::{ExploredProgram, Landmark, code_at};
use crate::making::{making_by_strict, making_by_symbolic};
use crate::origin::CellOrigin;
use hintcheck_report::Place;
use std::fmt;
use tt_setting::{Kind, Name, Setting};
use tt_symbolic_check::SymbolOrigin;

/// A number that ways bring which meet.
#[derive(Clone, Copy)]
struct MetNumber(Option<i32>);

impl fmt::Display for MetNumber {
    fn fmt<W: fmt::Write>(&self, f: &mut fmt::Formatter<W>) -> fmt::Result {
        match self.0 {
            Some(number) => write!(f, "{number}"),
            None => f.write_str("one that isn't known"),
        }
    }
}

/// Where a number comes from that the strict profile doesn't know.
#[derive(Clone, Copy)]
pub(crate) struct OriginText<'a> {
    pub subject: &'a ExploredProgram<'a>,
    pub origin: CellOrigin,
}

impl fmt::Display for OriginText<'_> {
    fn fmt<W: fmt::Write>(&self, f: &mut fmt::Formatter<W>) -> fmt::Result {
        let subject = self.subject;
        match self.origin {
            CellOrigin::Made(point) => {
                let Landmark { place, name } = subject.landmark(point);
                let code = code_at(subject.setting, subject.site(point));
                let making = making_by_strict(code.unwrap_or(0));
                write!(f, "{name} at {place} {making}")
            }
            CellOrigin::Joined { at, first, second } => write!(
                f,
                "ways that meet at {} bring different numbers: {} from {}, {} from {}.",
                subject.place(at),
                MetNumber(first.number),
                subject.landmark(first.from),
                MetNumber(second.number),
                subject.landmark(second.from)
            ),
            CellOrigin::Start(element) => write!(
                f,
                "the program starts with it: {element} isn't written before on a way \
                that comes here."
            ),
            CellOrigin::Lost => f.write_str("what was searched doesn't tell."),
        }
    }
}

/// Where a number comes from that the symbolic profile doesn't know.
#[derive(Clone, Copy)]
pub(crate) struct SymbolOriginText<'a> {
    pub program: Name,
    pub setting: &'a Setting<'a>,
    pub origin: SymbolOrigin,
}

impl fmt::Display for SymbolOriginText<'_> {
    fn fmt<W: fmt::Write>(&self, f: &mut fmt::Formatter<W>) -> fmt::Result {
        match self.origin {
            SymbolOrigin::Made(at) => {
                let Landmark { place, name } = Landmark::at(self.program, self.setting, at);
                let is_glyph = matches!(self.setting.kind, Kind::Glyph { .. });
                let code = code_at(self.setting, at);
                let making = making_by_symbolic(code.unwrap_or(0), is_glyph);
                write!(f, "{name} at {place} {making}")
            }
            SymbolOrigin::Met { at, first, second } => {
                let place = Place::at(self.program, at.spot, at.offset);
                if first.is_none() && second.is_none() {
                    return write!(
                        f,
                        "ways that meet at {place} bring numbers that aren't known."
                    );
                }
                let first = MetNumber(first);
                let second = MetNumber(second);
                write!(
                    f,
                    "ways that meet at {place} bring different numbers: {first}, {second}."
                )
            }
            SymbolOrigin::Start => {
                f.write_str("the program starts with it, as the CVT program leaves it.")
            }
            SymbolOrigin::Lost => f.write_str("what was searched doesn't tell."),
        }
    }
}
