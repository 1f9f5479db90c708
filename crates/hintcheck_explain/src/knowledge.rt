//! What is known at a place, as it is printed by either profile: the open calls, the stack, the
//! graphics state, the storage area and, by the symbolic profile, the control values.

use crate::describing::write_more;
use crate::element::Element;
use crate::legend::{CellText, Legend};
use crate::view::{Entries, View};
use hintcheck_report::Place;
use std::fmt;
use tt_code::kinds::Pointer;
use tt_code::{Frame, Limits};
use tt_setting::setting::body_offset;
use tt_setting::{Name, Register, Setting, Spot, ZoneCell};
use tt_symbolic_state::cell::known;
use tt_symbolic_state::state::OpenCall;

/// How many cells of the stack, and of a memory area, are printed.
pub(crate) const SHOWN_CELLS: usize = 16;

/// The calls that are open at a place, the outermost first.
#[derive(Clone, Copy)]
pub(crate) enum Calls<'a> {
    Strict(&'a [Frame]),
    Symbolic(&'a [OpenCall]),
}

impl Calls<'_> {
    /// Returns how many there are.
    pub(crate) fn len(self) -> usize {
        match self {
            Calls::Strict(frames) => frames.len(),
            Calls::Symbolic(calls) => calls.len(),
        }
    }
}

/// What is known at a place of a program.
#[derive(Clone, Copy)]
pub(crate) struct Knowledge<'l, 'a> {
    pub program: Name,
    pub setting: &'a Setting<'a>,
    pub calls: Calls<'a>,
    pub view: View<'a>,
    /// The names of the symbols.
    pub legend: &'l Legend<'a>,
}

/// Returns a zone's name.
pub(crate) fn zone_name(zone: ZoneCell) -> &'static str {
    match zone {
        ZoneCell::Zero => "twilight",
        ZoneCell::One => "glyph",
        ZoneCell::Either => "twilight or glyph",
    }
}

/// Writes the entries of a memory area.
fn write_entries<W: fmt::Write>(
    entries: Entries<'_>,
    legend: &Legend<'_>,
    f: &mut fmt::Formatter<W>,
) -> fmt::Result {
    let count = entries.len();
    if count == 0 {
        return f.write_str(" none is known");
    }
    for place in 0..SHOWN_CELLS {
        let Some((index, cell)) = entries.get(place) else {
            break;
        };
        write!(f, " [{index}]={}", legend.text(cell))?;
    }
    write_more(" ", count, SHOWN_CELLS, f)
}

impl<'l> Knowledge<'l, '_> {
    /// Returns the text of a number.
    fn number(&self, element: Element) -> CellText<'l> {
        self.legend.text(self.view.cell(element))
    }

    /// Writes a call from an offset in the caller's spot, and the function's body that it enters.
    /// Returns the body's spot.
    fn write_call<W: fmt::Write>(
        &self,
        caller: Spot,
        offset: u32,
        body: u32,
        f: &mut fmt::Formatter<W>,
    ) -> Result<Spot, fmt::Error> {
        let spot = Spot::of_body(body);
        let call = Place::at(self.program, caller, offset);
        let start = Place::at(self.program, spot, body_offset(body));
        let functions = self.view.functions();
        match functions.iter().find(|function| function.1 == body) {
            Some(function) => write!(f, "\n    {call} calls function {}", function.0)?,
            None => write!(f, "\n    {call} calls a function")?,
        }
        write!(f, ", whose body begins at {start}")?;
        Ok(spot)
    }

    /// Writes the calls of the strict profile, each with its turn, if it has more than one.
    fn write_strict<W: fmt::Write>(
        &self,
        frames: &[Frame],
        f: &mut fmt::Formatter<W>,
    ) -> fmt::Result {
        let mut caller = Spot::Main;
        for frame in frames {
            caller = self.write_call(caller, frame.call, frame.body, f)?;
            if frame.count > 1 {
                write!(f, " (turn {} of {})", frame.turn, frame.count)?;
            }
        }
        Ok(())
    }

    /// Writes the calls of the symbolic profile, each with how many turns are left, if any is.
    fn write_symbolic<W: fmt::Write>(
        &self,
        calls: &[OpenCall],
        f: &mut fmt::Formatter<W>,
    ) -> fmt::Result {
        let mut caller = Spot::Main;
        for call in calls {
            caller = self.write_call(caller, call.call, call.body, f)?;
            if call.left != known(0) {
                write!(f, " (turns left: {})", self.legend.text(call.left))?;
            }
        }
        Ok(())
    }

    /// Writes the open calls.
    fn write_calls<W: fmt::Write>(&self, f: &mut fmt::Formatter<W>) -> fmt::Result {
        match self.calls {
            Calls::Strict([]) | Calls::Symbolic([]) => f.write_str("Open calls: none"),
            Calls::Strict(frames) => {
                f.write_str("Open calls, the outermost first:")?;
                self.write_strict(frames, f)
            }
            Calls::Symbolic(calls) => {
                f.write_str("Open calls, the outermost first:")?;
                self.write_symbolic(calls, f)
            }
        }
    }

    /// Writes the cells of the stack, from the top on.
    fn write_stack<W: fmt::Write>(&self, f: &mut fmt::Formatter<W>) -> fmt::Result {
        let depth = self.view.depth();
        for taken in 0..SHOWN_CELLS {
            let Some(element) = Element::under(depth, taken) else {
                break;
            };
            write!(f, " {}", self.number(element))?;
        }
        write_more(" ", depth, SHOWN_CELLS, f)
    }

    /// Writes the graphics state, as far as it decides which points and counts are in range.
    fn write_graphics<W: fmt::Write>(&self, f: &mut fmt::Formatter<W>) -> fmt::Result {
        write!(
            f,
            "\nGraphics state: rp0 {}, rp1 {}, rp2 {}; zp0 {}, zp1 {}, zp2 {}; loop {}",
            self.number(Element::Register(Register::Rp0)),
            self.number(Element::Register(Register::Rp1)),
            self.number(Element::Register(Register::Rp2)),
            zone_name(self.view.zone(Pointer::Zp0)),
            zone_name(self.view.zone(Pointer::Zp1)),
            zone_name(self.view.zone(Pointer::Zp2)),
            self.number(Element::Register(Register::Loop))
        )
    }
}

impl fmt::Display for Knowledge<'_, '_> {
    fn fmt<W: fmt::Write>(&self, f: &mut fmt::Formatter<W>) -> fmt::Result {
        let legend = self.legend;
        let depth = self.view.depth();
        let Limits { stack, storage, .. } = self.setting.limits;
        self.write_calls(f)?;
        write!(f, "\nStack, the top first ({depth} of at most {stack}):")?;
        self.write_stack(f)?;
        self.write_graphics(f)?;
        write!(f, "\nStorage cells ({storage} in all):")?;
        write_entries(self.view.stored(), legend, f)?;
        if let View::Symbolic(state) = self.view {
            let values = self.setting.cvt;
            write!(f, "\nControl values ({values} in all):")?;
            write_entries(Entries::Cells(state.controls.as_slice()), legend, f)?;
        }
        write!(f, "{legend}")
    }
}
