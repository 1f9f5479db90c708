//! A step of a state, with what the search knows beside it.

use crate::blending::{Merges, part_of};
use crate::boxes::Area;
use crate::origin_notes::Point;
use crate::origins::{NOWHERE, OriginNumber};
use crate::track::{History, Seen};
use std::alloc::{AllocError, Global};
use std::cmp::Ordering;
use tt_code::block_keyword::BlockKeyword;
use tt_code::kinds::{Arithmetic, Control, Operand, Pushed, Row, StackOp};
use tt_code::{Effect, Graphics, Program, Refinement, entry, keyword_of_code, refinement};
use tt_setting::{Setting, Spot};
use tt_symbolic_check::Site;
use tt_symbolic_state::cell::{Cell, bounds, known, number};
use tt_symbolic_state::state::{State, Zone};

/// How many elements most instructions take at most.
const MOST_TAKEN: usize = 6;

/// How many points or pairs of an instruction are looked at at most.
const MOST_COUNTED: i64 = 300;

/// What a state was before a step, as far as a refusal is explained by it, and what is known of the
/// step before it is made.
#[derive(Drop)]
pub(crate) struct Before {
    /// The elements that the instruction may have taken, the top last.
    pub taken: Vec<Cell>,
    /// The graphics state.
    pub graphics: Graphics<Cell, Zone>,
    /// What is left of the innermost call.
    pub left: Option<Cell>,
    /// What the instruction does.
    pub effect: &'static Effect,
    /// Its code.
    code: u8,
    /// Where it is.
    at: Point,
    /// How many calls hadn't returned.
    depth: usize,
    /// The origin of the symbols that it makes.
    origin: OriginNumber,
}

/// Returns a count that a cell is, if it isn't too great.
fn count_of(state: &State, cell: Option<Cell>) -> usize {
    let Some(cell) = cell else {
        return 0;
    };
    match bounds(cell, state.ranges.as_slice()) {
        Some((_, high)) => usize::try_from(high.clamp(0, MOST_COUNTED)).unwrap_or(0),
        None => 0,
    }
}

/// Returns how many elements a line may take that takes as many as a count says.
fn taken_by(state: &State, line: &Row) -> usize {
    let top = state.stack.under(0);
    match line.operands.last() {
        Some(Operand::LoopPoints(_)) => {
            let count = count_of(state, Some(state.graphics.loop_number));
            count.saturating_add(1)
        }
        Some(Operand::PointPairs(_) | Operand::CvtPairs) => {
            count_of(state, top).saturating_mul(2).saturating_add(1)
        }
        _ => MOST_TAKEN,
    }
}

impl Before {
    /// Makes what is known before any step.
    pub(crate) fn new(alloc: Global) -> Before {
        Before {
            taken: Vec::new(alloc),
            graphics: Graphics {
                rp0: known(0),
                rp1: known(0),
                rp2: known(0),
                zp0: Zone::One,
                zp1: Zone::One,
                zp2: Zone::One,
                loop_number: known(1),
            },
            left: None,
            effect: entry(0),
            code: 0,
            at: Point {
                body: None,
                offset: 0,
            },
            depth: 0,
            origin: NOWHERE,
        }
    }

    /// Notes the elements that an instruction may take.
    fn note_taken(&mut self, state: &State, effect: &Effect) -> Result<(), AllocError> {
        let count = match effect {
            Effect::Plain(line) => taken_by(state, line),
            _ => MOST_TAKEN,
        };
        let cells = state.stack.as_slice();
        let first = cells.len().saturating_sub(count);
        self.taken.clear();
        match cells.get(first..) {
            Some(taken) => self.taken.extend_from_slice(taken),
            None => Ok(()),
        }
    }

    /// Notes what a state is before a step by the instruction of this code.
    pub(crate) fn note(
        &mut self,
        merges: &mut Merges,
        track: Seen<'_>,
        code: u8,
    ) -> Result<(), AllocError> {
        let state = track.state;
        let effect = entry(code);
        self.note_taken(state, effect)?;
        self.graphics = state.graphics;
        self.left = state.calls.last().map(|call| call.left);
        self.effect = effect;
        self.code = code;
        self.at = Point::of(state);
        self.depth = state.calls.len();
        self.origin = origin_of_result(merges, track, code, effect)?;
        Ok(())
    }

    /// Follows the step that was made: where it has led.
    pub(crate) fn follow(
        &self,
        alloc: Global,
        setting: &Setting<'_>,
        merges: &mut Merges,
        state: &State,
        history: &mut History,
    ) -> Result<Led, AllocError> {
        let symbols = state.ranges.len();
        if symbols > history.origins.len() {
            let made = merges.origins.made(self.origin, self.at)?;
            history.origins.resize(symbols, made)?;
        }
        let put = self.put_count(state);
        history.touch(state.stack.len().saturating_sub(put));
        match self.effect {
            Effect::Control(control) => self.follow_calls(alloc, setting, state, history, *control),
            _ if keyword_of_code(self.code) == BlockKeyword::Eif => Ok(Led::ToMeeting),
            _ => Ok(Led::On),
        }
    }

    /// Returns how many elements from the top on the instruction has put there.
    fn put_count(&self, state: &State) -> usize {
        match self.effect {
            Effect::Plain(line) => line.pushes.len(),
            Effect::Arithmetic(_) => 1,
            Effect::Stack(StackOp::Swap) => 2,
            Effect::Stack(StackOp::Roll) => 3,
            Effect::Stack(StackOp::MoveIndexed) => count_of(state, self.taken.last().copied()),
            _ => 0,
        }
    }

    /// Follows what a control instruction did to the calls: where it has led.
    fn follow_calls(
        &self,
        alloc: Global,
        setting: &Setting<'_>,
        state: &State,
        history: &mut History,
        control: Control,
    ) -> Result<Led, AllocError> {
        match state.calls.len().cmp(&self.depth) {
            Ordering::Greater => {
                history.go_in(alloc, state.stack.as_slice())?;
                Ok(Led::On)
            }
            Ordering::Less => {
                history.come_back();
                Ok(Led::ToMeeting)
            }
            Ordering::Equal => Ok(follow_here(setting, state, history, control, self.at.offset)),
        }
    }
}

/// Whether the instruction takes the top only.
fn takes_one(operation: Arithmetic) -> bool {
    matches!(
        operation,
        Arithmetic::Abs | Arithmetic::Neg | Arithmetic::Not
    )
}

/// Returns the origin of what is read at an index.
fn read_origin(merges: &Merges, track: Seen<'_>, area: Area) -> OriginNumber {
    let Some(index) = track.state.stack.under(0) else {
        return NOWHERE;
    };
    match number(index, track.state.ranges.as_slice()) {
        Some(number) => match u16::try_from(number) {
            Ok(number) => merges.dropped_origin(part_of(area, number)),
            Err(_) => NOWHERE,
        },
        None => track.origin(index),
    }
}

/// Returns the origin of an element from the top.
fn element_origin(track: Seen<'_>, taken: usize) -> OriginNumber {
    let cell = track.state.stack.under(taken);
    cell.map_or(NOWHERE, |cell| track.origin(cell))
}

/// Returns the origin of a number that is computed from the two upper elements.
fn origin_of_two(merges: &mut Merges, track: Seen<'_>) -> Result<OriginNumber, AllocError> {
    let second = element_origin(track, 1);
    merges.origins.computed(element_origin(track, 0), second)
}

/// Returns the origin of what a line pushes, where it pushes a stored number.
fn stored_origin(merges: &Merges, track: Seen<'_>, line: &Row) -> OriginNumber {
    match line.pushes {
        [Pushed::Stored(_)] => read_origin(merges, track, Area::Storage),
        _ => NOWHERE,
    }
}

/// Returns the origin of the symbols that the instruction of this code makes, which this line describes.
fn origin_of_line(
    merges: &mut Merges,
    track: Seen<'_>,
    code: u8,
    line: &Row,
) -> Result<OriginNumber, AllocError> {
    match refinement(code) {
        Refinement::Greatest | Refinement::Least | Refinement::Product | Refinement::Quotient =>
            origin_of_two(merges, track),
        Refinement::Floor | Refinement::Ceiling => Ok(element_origin(track, 0)),
        Refinement::ReadsControl => Ok(read_origin(merges, track, Area::Controls)),
        Refinement::WritesControl
        | Refinement::ChangesControl
        | Refinement::ChangesControls
        | Refinement::Ordinary => Ok(stored_origin(merges, track, line)),
    }
}

/// Returns the origin of the symbols that the instruction of this code makes.
fn origin_of_result(
    merges: &mut Merges,
    track: Seen<'_>,
    code: u8,
    effect: &Effect,
) -> Result<OriginNumber, AllocError> {
    match effect {
        Effect::Arithmetic(operation) if takes_one(*operation) => Ok(element_origin(track, 0)),
        Effect::Arithmetic(_) => origin_of_two(merges, track),
        Effect::Plain(line) => origin_of_line(merges, track, code, line),
        _ => Ok(NOWHERE),
    }
}

/// Where a step has led.
#[derive(Clone, Copy, PartialEq, Eq)]
pub(crate) enum Led {
    /// On.
    On,
    /// To where other ways may meet: behind an EIF, after a call, to a next turn of a known number of
    /// turns, or by a jump.
    ToMeeting,
    /// Back, to the next turn of an unknown number of turns, or by a jump.
    Back,
}

/// Returns the program that a spot names.
fn program_of<'a>(setting: &Setting<'a>, spot: Spot) -> &'a Program<'a> {
    match spot {
        Spot::Main => setting.main,
        Spot::Font => setting.font,
        Spot::Prep => setting.prep,
    }
}

/// Whether the state is behind an EIF.
fn is_behind_end_of_if(setting: &Setting<'_>, state: &State) -> bool {
    let site = Site::of(state);
    let Some(before) = site.offset.checked_sub(1) else {
        return false;
    };
    match program_of(setting, site.spot).at(before) {
        Some(instr) => keyword_of_code(instr.code()) == BlockKeyword::Eif,
        None => false,
    }
}

/// Follows a control instruction that opened and closed no call, or began a turn.
fn follow_here(
    setting: &Setting<'_>,
    state: &State,
    history: &mut History,
    control: Control,
    offset: u32,
) -> Led {
    match control {
        Control::EndFunction => {
            history.count_turn();
            match state.calls.last() {
                Some(call) if call.left.factor != 0 => Led::Back,
                _ => Led::ToMeeting,
            }
        }
        Control::Jump | Control::JumpIfTrue | Control::JumpIfFalse => {
            if state.offset > offset {
                return Led::ToMeeting;
            }
            history.count_turn();
            Led::Back
        }
        Control::If | Control::Else if is_behind_end_of_if(setting, state) => Led::ToMeeting,
        _ => Led::On,
    }
}
