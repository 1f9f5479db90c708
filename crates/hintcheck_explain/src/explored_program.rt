//! A program with what the search has found of it.

use crate::instruction_text::name_of;
use hintcheck_report::Place;
use std::alloc::{AllocError, Global};
use std::fmt;
use tt_abs::{Move, State};
use tt_code::{Frame, Instr, Program};
use tt_family::{Certificate, PointKey};
use tt_setting::setting::body_offset;
use tt_setting::{Name, Setting, Spot};
use tt_symbolic_check::Site;

/// Returns the program of a spot.
pub(crate) fn code_of<'a>(setting: &Setting<'a>, spot: Spot) -> &'a Program<'a> {
    match spot {
        Spot::Main => setting.main,
        Spot::Font => setting.font,
        Spot::Prep => setting.prep,
    }
}

/// Returns the instruction at a site, if one is there.
pub(crate) fn instruction_at<'a>(setting: &Setting<'a>, site: Site) -> Option<Instr<'a>> {
    code_of(setting, site.spot).at(site.offset)
}

/// Returns the code of the instruction at a site, if one is there.
pub(crate) fn code_at(setting: &Setting<'_>, site: Site) -> Option<u8> {
    Some(instruction_at(setting, site)?.code())
}

/// Returns the name of an instruction by its code; words for the program's end where there is none.
pub(crate) fn name_or_end(code: Option<u8>) -> &'static str {
    match code {
        Some(code) => name_of(code),
        None => "the program's end",
    }
}

/// A place with the name of the instruction there, as `g0:4 ELSE`.
#[derive(Clone, Copy)]
pub(crate) struct Landmark {
    pub place: Place,
    pub name: &'static str,
}

impl Landmark {
    /// Makes the landmark of a site, seen from the program of this name.
    pub(crate) fn at(program: Name, setting: &Setting<'_>, site: Site) -> Landmark {
        Landmark {
            place: Place::at(program, site.spot, site.offset),
            name: name_or_end(code_at(setting, site)),
        }
    }
}

impl fmt::Display for Landmark {
    fn fmt<W: fmt::Write>(&self, f: &mut fmt::Formatter<W>) -> fmt::Result {
        write!(f, "{} {}", self.place, self.name)
    }
}

/// A program that is explained: its name, what it is checked against, and the contexts and states
/// that the search has found of it.
#[derive(Clone, Copy)]
pub(crate) struct ExploredProgram<'a> {
    pub alloc: Global,
    pub name: Name,
    pub setting: &'a Setting<'a>,
    pub certificate: &'a Certificate,
}

impl<'a> ExploredProgram<'a> {
    /// Returns in which program a context is.
    pub(crate) fn spot(&self, context: u32) -> Spot {
        if context < self.certificate.contexts() {
            self.certificate.builder().spot(context)
        } else {
            Spot::Main
        }
    }

    /// Returns the site of a point.
    pub(crate) fn site(&self, point: PointKey) -> Site {
        Site {
            spot: self.spot(point.0),
            offset: point.1,
        }
    }

    /// Returns the place of a point, as it is printed.
    pub(crate) fn place(&self, point: PointKey) -> Place {
        Place::at(self.name, self.spot(point.0), point.1)
    }

    /// Returns the place of a point, with the name of the instruction there.
    pub(crate) fn landmark(&self, point: PointKey) -> Landmark {
        Landmark::at(self.name, self.setting, self.site(point))
    }

    /// Returns the instruction at a point.
    pub(crate) fn instruction_at(&self, point: PointKey) -> Option<Instr<'a>> {
        instruction_at(self.setting, self.site(point))
    }

    /// Returns what is known at a point, if the program comes there.
    pub(crate) fn state(&self, point: PointKey) -> Option<&'a State> {
        self.certificate.state(point.0, point.1)
    }

    /// Returns the calls that are open in a context, the outermost first.
    ///
    /// # Errors
    /// If memory runs out.
    pub(crate) fn frames(&self, context: u32) -> Result<Vec<Frame>, AllocError> {
        if context < self.certificate.contexts() {
            self.certificate.builder().frames(self.alloc, context)
        } else {
            Ok(Vec::new(self.alloc))
        }
    }

    /// Returns the point to which a way leads from a context, if the search knows that point's
    /// context.
    pub(crate) fn landing(&self, context: u32, way: Move) -> Option<PointKey> {
        match way {
            Move::To(offset) => Some((context, offset)),
            Move::Enter(frame) => self.start_of(context, frame),
            Move::NextTurn => {
                let (parent, frame) = self.certificate.context(context)?;
                let turn = frame.turn.checked_add(1)?;
                self.start_of(parent, Frame { turn, ..frame })
            }
            Move::Return => {
                let (parent, frame) = self.certificate.context(context)?;
                Some((parent, frame.call.checked_add(1)?))
            }
        }
    }

    /// Returns the first point of a function's body in the context that has the parent's frames and
    /// this one more, if the search knows that context.
    fn start_of(&self, parent: u32, frame: Frame) -> Option<PointKey> {
        let context = self.certificate.builder().number(parent, frame)?;
        Some((context, body_offset(frame.body)))
    }
}
