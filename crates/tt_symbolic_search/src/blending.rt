//! Merges of two states: a state that shows both, with widened ranges.

use crate::boxes::{Area, Sharing, Symbols, is_wide, rename};
use crate::cell_names::{CellName, Part};
use crate::origin_notes::{Meeting, Point};
use crate::origins::{NOWHERE, OriginNumber, Origins};
use crate::thresholds::{GREATEST, LEAST, widened_high, widened_low};
use crate::track::{History, Level, Seen, Track, cell_count, copy_list};
use std::alloc::{AllocError, Global};
use std::collections::HashMap;
use std::mem;
use tt_setting::SortedMap;
use tt_symbolic_check::listed_near;
use tt_symbolic_state::OpenCall;
use tt_symbolic_state::cell::{Cell, Range, bounds, known, number};
use tt_symbolic_state::stack::Stack;

/// Strides are below this.
const MOST_STRIDE: u64 = 1 << 20;

/// How many symbols a merged state may have besides one for each cell, until those that no cell has
/// are left out.
const MOST_SPARE_SYMBOLS: usize = 16;

/// How many divisions find a common divisor at most.
const MOST_DIVISIONS: u32 = 100;

/// What the merges of a run know of one another.
pub(crate) struct Merges {
    /// The origins of symbols.
    pub origins: Origins,
    /// The origin of what is read from an entry that was listed, until a merge dropped it.
    pub dropped: HashMap<Part, OriginNumber>,
    /// The thresholds of widening.
    pub thresholds: Vec<i64>,
}

// Written out, so that who holds merges proves in one step that their memory is given back.
impl Drop for Merges {
    fn drop(self) {
        let Merges {
            origins,
            dropped,
            thresholds,
        } = self;
        drop(origins);
        drop(dropped);
        drop(thresholds);
    }
}

impl Merges {
    /// Returns the origin of what is read from an entry that isn't listed.
    pub(crate) fn dropped_origin(&self, part: Part) -> OriginNumber {
        self.dropped.get(&part).copied().unwrap_or(NOWHERE)
    }

    /// Notes that a merge at a point drops an entry that was a known number.
    fn note_dropped(&mut self, name: CellName, cell: Cell, at: Point) -> Result<(), AllocError> {
        let before = self.dropped_origin(name.part);
        let origin = self.origins.merged(name, true, before, NOWHERE)?;
        self.dropped.insert(name.part, origin)?;
        if let Some(notes) = &mut self.origins.notes {
            let meeting = Meeting {
                at,
                first: Some(cell.offset),
                second: None,
            };
            notes.note_meeting(origin, meeting)?;
        }
        Ok(())
    }
}

/// Returns the greatest common divisor of two numbers.
fn common_divisor(a: u64, b: u64) -> u64 {
    let (mut greater, mut less) = (a, b);
    for _ in 0..MOST_DIVISIONS {
        match greater.checked_rem(less) {
            None => return greater,
            Some(rest) => {
                greater = less;
                less = rest;
            }
        }
    }
    1
}

/// Returns a number of which the distances of all values of two cells are multiples.
fn stride_of(one: Cell, other: Cell) -> i64 {
    let distance = i64::from(one.offset).saturating_sub(i64::from(other.offset));
    let factors = common_divisor(
        u64::from(one.factor.unsigned_abs()),
        u64::from(other.factor.unsigned_abs()),
    );
    let stride = common_divisor(factors, distance.unsigned_abs());
    if stride == 0 || stride >= MOST_STRIDE {
        return 1;
    }
    i64::try_from(stride).unwrap_or(1)
}

/// A set of numbers in steps of a stride, of which one is the base.
#[derive(Clone, Copy)]
struct Steps {
    base: i64,
    stride: i64,
}

impl Steps {
    /// Makes the steps in which the values of two cells are.
    fn of(one: Cell, other: Cell) -> Steps {
        let stride = stride_of(one, other);
        let base = if stride == 1 {
            0
        } else {
            i64::from(one.offset)
        };
        Steps { base, stride }
    }

    /// Returns the number of the step at a number, or of the one before it.
    fn at(self, number: i64) -> i64 {
        let distance = number.saturating_sub(self.base);
        distance.checked_div_euclid(self.stride).unwrap_or(0)
    }

    /// Returns the numbers of the steps between which a cell's values are.
    fn of_cell(self, cell: Cell, ranges: &[Range]) -> (i64, i64) {
        match bounds(cell, ranges) {
            Some((low, high)) => (self.at(low), self.at(high)),
            None => (LEAST, GREATEST),
        }
    }

    /// Returns the range of these numbers of steps, as far as their numbers are those of the
    /// machine.
    fn range(self, low: i64, high: i64) -> Range {
        let greatest = self.at(GREATEST).min(GREATEST);
        let least = 0i64.saturating_sub(self.least_distance()).max(LEAST);
        Range {
            low: i32::try_from(low.max(least)).unwrap_or(i32::MIN),
            high: i32::try_from(high.min(greatest)).unwrap_or(i32::MAX),
        }
    }

    /// Returns how many steps the least number of the machine is below the base.
    fn least_distance(self) -> i64 {
        let distance = self.base.saturating_sub(LEAST);
        distance.checked_div_euclid(self.stride).unwrap_or(0)
    }

    /// Returns the cell of these steps with a symbol.
    fn cell(self, symbol: u32) -> Cell {
        Cell {
            symbol,
            factor: i32::try_from(self.stride).unwrap_or(1),
            offset: i32::try_from(self.base).unwrap_or(0),
        }
    }
}

/// How two states are merged.
#[derive(Clone, Copy)]
pub(crate) struct Manner {
    /// Whether a cell that is the same in both keeps its symbol, so that it is related still to
    /// others that have it.
    pub sharing: Sharing,
    /// How often what is merged has risen before.
    pub rises: u32,
}

/// Which entry of a memory area it is.
pub(crate) fn part_of(area: Area, number: u16) -> Part {
    match area {
        Area::Storage => Part::Storage(number),
        Area::Controls => Part::Control(number),
    }
}

/// Returns the range that has all numbers of both ranges of a cell's symbol, where these differ.
fn hull_of(cell: Cell, theirs: Option<&Range>, own: Option<&Range>) -> Option<Range> {
    match (theirs, own) {
        (Some(theirs), Some(own)) if cell.factor != 0 && *theirs != *own => Some(Range {
            low: theirs.low.min(own.low),
            high: theirs.high.max(own.high),
        }),
        _ => None,
    }
}

/// A merge: a track is made to show what an old one shows too.
#[derive(Drop)]
struct Blending<'a> {
    alloc: Global,
    merges: &'a mut Merges,
    old: Seen<'a>,
    /// The symbols that the track had.
    mine: Symbols,
    /// The symbols that it gets.
    new: Symbols,
    manner: Manner,
}

impl Blending<'_> {
    /// Returns the number that both cells always are, if there is one.
    fn common_number(&self, old: Cell, mine: Cell) -> Option<i32> {
        let theirs = number(old, self.old.state.ranges.as_slice())?;
        let own = number(mine, self.mine.ranges.as_slice())?;
        if theirs == own { Some(own) } else { None }
    }

    /// Whether the cell is the same in both states, and stays so.
    fn is_shared(&self, old: Cell, mine: Cell) -> bool {
        old == mine && (mine.factor == 0 || self.manner.sharing == Sharing::Kept)
    }

    /// Lets a cell that is the same in both states have each value of both.
    fn share(&mut self, cell: Cell) -> Result<(), AllocError> {
        let place = cell.symbol as usize;
        let theirs = self.old.state.ranges.as_slice().get(place);
        let range = hull_of(cell, theirs, self.mine.ranges.as_slice().get(place));
        let Some(range) = range else {
            return Ok(());
        };
        let (first, second) = (self.old.origin(cell), self.mine.origin(cell));
        let origin = self.merges.origins.computed(first, second)?;
        self.new.set(place, range, origin);
        Ok(())
    }

    /// Returns a cell that can be each value of both cells.
    fn cell(&mut self, old: Cell, mine: Cell, name: CellName) -> Result<Cell, AllocError> {
        if self.is_shared(old, mine) {
            self.share(mine)?;
            return Ok(mine);
        }
        if let Some(number) = self.common_number(old, mine) {
            return Ok(known(number));
        }
        let steps = Steps::of(old, mine);
        let theirs = steps.of_cell(old, self.old.state.ranges.as_slice());
        let own = steps.of_cell(mine, self.mine.ranges.as_slice());
        let is_changed = old.factor == 0 || mine.factor == 0 || theirs != own;
        let origin = self.origin(old, mine, name, is_changed)?;
        let range = self.hull(steps, theirs, own);
        let symbol = self.new.add(range, origin)?;
        Ok(steps.cell(symbol))
    }

    /// Returns the range of the steps of both cells, widened where it has risen often.
    fn hull(&self, steps: Steps, old: (i64, i64), mine: (i64, i64)) -> Range {
        let thresholds = self.merges.thresholds.as_slice();
        let rises = self.manner.rises;
        let low = widened_low(thresholds, old.0, mine.0, rises);
        let high = widened_high(thresholds, old.1, mine.1, rises);
        steps.range(low, high)
    }

    /// Returns the origin of the symbol of a merged cell.
    fn origin(
        &mut self,
        old: Cell,
        mine: Cell,
        name: CellName,
        is_changed: bool,
    ) -> Result<OriginNumber, AllocError> {
        let (theirs, own) = (self.old.origin(old), self.mine.origin(mine));
        let origins = &mut self.merges.origins;
        if !is_changed {
            return origins.computed(theirs, own);
        }
        let lost_number = old.factor == 0 && mine.factor == 0;
        let origin = origins.merged(name, lost_number, theirs, own)?;
        self.note_meeting(origin, old, mine)?;
        Ok(origin)
    }

    /// Notes where two cells are merged, if notes are taken.
    fn note_meeting(
        &mut self,
        origin: OriginNumber,
        old: Cell,
        mine: Cell,
    ) -> Result<(), AllocError> {
        let Some(notes) = &mut self.merges.origins.notes else {
            return Ok(());
        };
        let meeting = Meeting {
            at: Point::of(self.old.state),
            first: number(old, self.old.state.ranges.as_slice()),
            second: number(mine, self.mine.ranges.as_slice()),
        };
        notes.note_meeting(origin, meeting)
    }

    /// Merges what is left of a call.
    fn call(&mut self, old: &OpenCall, call: &mut OpenCall) -> Result<(), AllocError> {
        let name = CellName {
            body: Some(call.body),
            part: Part::Left,
        };
        call.left = self.cell(old.left, call.left, name)?;
        Ok(())
    }

    /// Merges what is left of the calls.
    fn calls(&mut self, track: &mut Track) -> Result<(), AllocError> {
        let theirs = self.old.state.calls.as_slice().iter();
        for (call, other) in track.state.calls.iter_mut().zip(theirs) {
            self.call(other, call)?;
        }
        Ok(())
    }

    /// Merges the reference points.
    fn references(&mut self, track: &mut Track) -> Result<(), AllocError> {
        let old = self.old.state.graphics;
        let mine = track.state.graphics;
        let rp0 = self.cell(old.rp0, mine.rp0, track.seen().name(Part::Rp0))?;
        let rp1 = self.cell(old.rp1, mine.rp1, track.seen().name(Part::Rp1))?;
        let rp2 = self.cell(old.rp2, mine.rp2, track.seen().name(Part::Rp2))?;
        let graphics = &mut track.state.graphics;
        graphics.rp0 = rp0;
        graphics.rp1 = rp1;
        graphics.rp2 = rp2;
        Ok(())
    }

    /// Merges the loop numbers.
    fn loop_number(&mut self, track: &mut Track) -> Result<(), AllocError> {
        let name = track.seen().name(Part::Loop);
        let old = self.old.state.graphics.loop_number;
        let mine = track.state.graphics.loop_number;
        track.state.graphics.loop_number = self.cell(old, mine, name)?;
        Ok(())
    }

    /// Merges the stacks.
    fn stack(&mut self, track: &mut Track) -> Result<(), AllocError> {
        let empty = Stack::new(self.alloc);
        let mut cells = mem::replace(&mut track.state.stack, empty).into_cells();
        self.elements(track, cells.as_mut_slice())?;
        track.state.stack = Stack::from_cells(cells);
        Ok(())
    }

    /// Merges the elements of the track's stack with those of the old one.
    fn elements(&mut self, track: &Track, cells: &mut [Cell]) -> Result<(), AllocError> {
        let theirs = self.old.state.stack.as_slice().iter();
        for (height, (cell, other)) in cells.iter_mut().zip(theirs).enumerate() {
            if self.is_shared(*other, *cell) {
                self.share(*cell)?;
            } else {
                let name = track.seen().element_name(height);
                *cell = self.cell(*other, *cell, name)?;
            }
        }
        Ok(())
    }

    /// Notes that an entry is dropped which only one of the states lists.
    fn drop_entry(&mut self, name: CellName, cell: Cell) -> Result<(), AllocError> {
        if cell.factor == 0 {
            let at = Point::of(self.old.state);
            self.merges.note_dropped(name, cell, at)?;
        }
        Ok(())
    }

    /// Notes which entries of the old state are dropped, since the track doesn't list them.
    fn drop_old_entries(&mut self, track: &Track, area: Area) -> Result<(), AllocError> {
        let (mine, theirs) = (area.of(&track.state), area.of(self.old.state));
        for (place, entry) in theirs.as_slice().iter().enumerate() {
            if listed_near(mine, place, entry.0).is_none() {
                let name = track.seen().name(part_of(area, entry.0));
                self.drop_entry(name, entry.1)?;
            }
        }
        Ok(())
    }

    /// Merges an entry with that of the old state, if it lists it: returns its cell, if it is still
    /// listed.
    fn entry(
        &mut self,
        area: Area,
        old: Option<Cell>,
        mine: Cell,
        name: CellName,
    ) -> Result<Option<Cell>, AllocError> {
        let Some(old) = old else {
            self.drop_entry(name, mine)?;
            return Ok(None);
        };
        let cell = self.cell(old, mine, name)?;
        let is_dropped = self.manner.sharing == Sharing::Dropped
            && is_wide(self.new.range(cell), area.width());
        Ok(if is_dropped { None } else { Some(cell) })
    }

    /// Lists which entries of a memory area that the track lists get another cell, or none, where
    /// they are no longer listed.
    fn list_changes(
        &mut self,
        changes: &mut Vec<(u16, Option<Cell>)>,
        track: &Track,
        area: Area,
    ) -> Result<(), AllocError> {
        let (mine, theirs) = (area.of(&track.state), area.of(self.old.state));
        for (place, entry) in mine.as_slice().iter().enumerate() {
            let (number, cell) = *entry;
            match listed_near(theirs, place, number) {
                Some(other) if self.is_shared(other, cell) => self.share(cell)?,
                other => {
                    let name = track.seen().name(part_of(area, number));
                    let cell = self.entry(area, other, cell, name)?;
                    changes.push((number, cell))?;
                }
            }
        }
        Ok(())
    }

    /// Merges the entries of a memory area.
    fn entries(&mut self, track: &mut Track, area: Area) -> Result<(), AllocError> {
        self.drop_old_entries(track, area)?;
        let mut changes = Vec::new(self.alloc);
        self.list_changes(&mut changes, track, area)?;
        change_entries(area.of_mut(&mut track.state), changes.as_slice())
    }

    /// Merges all cells of the states.
    fn cells(&mut self, track: &mut Track) -> Result<(), AllocError> {
        self.calls(track)?;
        self.references(track)?;
        self.loop_number(track)?;
        self.stack(track)?;
        self.entries(track, Area::Storage)?;
        self.entries(track, Area::Controls)
    }
}

/// Gives entries of a memory area other cells, and leaves out those that get none.
fn change_entries(
    entries: &mut SortedMap<Cell>,
    changes: &[(u16, Option<Cell>)],
) -> Result<(), AllocError> {
    for change in changes {
        match change.1 {
            Some(cell) => entries.put(change.0, cell)?,
            None => entries.remove(change.0),
        }
    }
    Ok(())
}

/// Whether the place of the old track is the later one.
fn is_later(old: &[Level], own: &[Level]) -> bool {
    for (theirs, own) in old.iter().zip(own) {
        if theirs.turn != own.turn {
            return theirs.turn > own.turn;
        }
        if theirs.base != own.base {
            return theirs.base > own.base;
        }
    }
    false
}

/// Merges the histories of two states.
fn blend_histories(old: &History, own: &mut History) -> Result<(), AllocError> {
    if is_later(old.levels.as_slice(), own.levels.as_slice()) {
        copy_list(&mut own.levels, old.levels.as_slice())?;
    }
    own.add_splits(old.splits.as_slice())
}

/// Leaves out the symbols that no cell has, where these may be many.
fn tidy(alloc: Global, track: &mut Track) -> Result<(), AllocError> {
    let cells = cell_count(&track.state);
    if track.state.ranges.len() > cells.saturating_add(MOST_SPARE_SYMBOLS) {
        rename(alloc, track, Sharing::Kept)?;
    }
    Ok(())
}

/// Makes a track show what an old one of the same frame shows too.
pub(crate) fn blend(
    alloc: Global,
    merges: &mut Merges,
    old: Seen<'_>,
    track: &mut Track,
    manner: Manner,
) -> Result<(), AllocError> {
    let mine = Symbols::take(alloc, track);
    let new = match manner.sharing {
        Sharing::Kept => mine.copied(alloc)?,
        Sharing::Dropped => Symbols::new(alloc),
    };
    let mut blending = Blending {
        alloc,
        merges,
        old,
        mine,
        new,
        manner,
    };
    blending.cells(track)?;
    blend_histories(old.history, &mut track.history)?;
    let Blending { new, .. } = blending;
    new.put(track);
    tidy(alloc, track)
}
