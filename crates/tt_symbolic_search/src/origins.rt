//! Where symbols come from: which merges made them. A merge that lost a number which a later
//! instruction needs is found from the symbol of its operand. Where a refusal is to be explained, it
//! is noted beside that where the merges were, and which instructions made the other symbols.

use crate::cell_names::CellName;
use crate::origin_notes::{FIRST_MAKER, Meeting, Notes, Point};
use crate::track::Track;
use std::alloc::{AllocError, Global};
use std::collections::HashMap;
use tt_setting::Failed;
use tt_symbolic_check::{KnownState, RefusedState, SymbolOrigin};
use tt_symbolic_state::cell::Cell;

/// The number of an origin; `NOWHERE` is that of symbols that no merge made. Those from
/// `FIRST_MAKER` on are of symbols that an instruction made.
pub(crate) type OriginNumber = u32;

/// No merge.
pub(crate) const NOWHERE: OriginNumber = 0;

/// How many origins are looked at for where one symbol comes from, at most.
const MOST_LOOKS: usize = 1000;

/// Returns the origin, if merges made it, and otherwise `NOWHERE`.
pub(crate) fn of_merges(origin: OriginNumber) -> OriginNumber {
    if origin < FIRST_MAKER {
        origin
    } else {
        NOWHERE
    }
}

/// Returns the origin of a cell's symbol among those of all symbols.
pub(crate) fn origin_in(origins: &[OriginNumber], cell: Cell) -> OriginNumber {
    if cell.factor == 0 {
        return NOWHERE;
    }
    match origins.get(cell.symbol as usize) {
        Some(origin) => *origin,
        None => NOWHERE,
    }
}

/// What made a symbol.
#[derive(Clone, Copy, PartialEq, Eq, Hash)]
struct Origin {
    /// The cell that was merged; none where an instruction computed it.
    merged: Option<CellName>,
    /// Whether two known numbers were merged.
    lost_number: bool,
    /// The origin of the one number.
    first: OriginNumber,
    /// The origin of the other number.
    second: OriginNumber,
}

/// All origins of the symbols of a run.
pub(crate) struct Origins {
    /// The origins, by their numbers.
    list: Vec<Origin>,
    /// Their numbers.
    numbers: HashMap<Origin, OriginNumber>,
    /// What is noted to explain a refusal; nothing where none is to be explained.
    pub notes: Option<Notes>,
}

// Written out, so that who holds origins proves in one step that their memory is given back.
impl Drop for Origins {
    fn drop(self) {
        let Origins {
            list,
            numbers,
            notes,
        } = self;
        drop(list);
        drop(numbers);
        drop(notes);
    }
}

/// Which merges are looked for.
#[derive(Clone, Copy, PartialEq, Eq)]
pub(crate) enum Wanted {
    /// Those that lost a known number.
    LostNumbers,
    /// All.
    Any,
}

/// Notes that an origin is seen, and returns whether it wasn't before.
fn see(seen: &mut [bool], number: OriginNumber) -> bool {
    match seen.get_mut(number as usize) {
        Some(mark) => {
            let is_new = !*mark;
            *mark = true;
            is_new
        }
        None => false,
    }
}

/// How far it was looked for where a symbol comes from.
#[derive(Drop)]
struct Looks {
    /// The cells that were found.
    found: Vec<CellName>,
    /// For each number whether its origin was looked at.
    seen: Vec<bool>,
    /// The origins to look at, in the order of their distance.
    queue: Vec<OriginNumber>,
}

impl Looks {
    /// Makes the first look, at one of so many origins.
    fn new(alloc: Global, from: OriginNumber, count: usize) -> Result<Looks, AllocError> {
        let seen = vec![in alloc; false; count.saturating_add(1)]?;
        let queue = vec![in alloc; from]?;
        Ok(Looks {
            found: Vec::new(alloc),
            seen,
            queue,
        })
    }
}

impl Origins {
    /// Makes the origins of no symbol.
    pub(crate) fn new(alloc: Global) -> Origins {
        Origins {
            list: Vec::new(alloc),
            numbers: HashMap::new(alloc),
            notes: None,
        }
    }

    /// Forgets all origins.
    pub(crate) fn clear(&mut self) {
        self.list.clear();
        self.numbers.clear();
        self.notes = None;
    }

    /// Returns an origin.
    fn get(&self, number: OriginNumber) -> Option<Origin> {
        let place = usize::try_from(number.checked_sub(1)?).ok()?;
        self.list.get(place).copied()
    }

    /// Returns the number of the latest origin.
    fn latest(&self) -> Result<OriginNumber, AllocError> {
        match u32::try_from(self.list.len()) {
            Ok(number) if number < FIRST_MAKER => Ok(number),
            _ => Err(AllocError),
        }
    }

    /// Adds an origin, and returns its number.
    fn add(&mut self, origin: Origin) -> Result<OriginNumber, AllocError> {
        self.list.push(origin)?;
        let number = self.latest()?;
        self.numbers.insert(origin, number)?;
        Ok(number)
    }

    /// Returns the number of an origin, which it gets where it has none.
    fn number_of(&mut self, origin: Origin) -> Result<OriginNumber, AllocError> {
        match self.numbers.get(&origin) {
            Some(number) => Ok(*number),
            None => self.add(origin),
        }
    }

    /// Returns the origin of a number that was computed from two others.
    pub(crate) fn computed(
        &mut self,
        first: OriginNumber,
        second: OriginNumber,
    ) -> Result<OriginNumber, AllocError> {
        let low = of_merges(first).min(of_merges(second));
        let high = of_merges(first).max(of_merges(second));
        if high == NOWHERE {
            return Ok(first.max(second));
        }
        if low == NOWHERE || low == high {
            return Ok(high);
        }
        self.number_of(Origin {
            merged: None,
            lost_number: false,
            first: low,
            second: high,
        })
    }

    /// Returns the origin of a number that was merged from two others.
    pub(crate) fn merged(
        &mut self,
        name: CellName,
        lost_number: bool,
        first: OriginNumber,
        second: OriginNumber,
    ) -> Result<OriginNumber, AllocError> {
        let low = of_merges(first).min(of_merges(second));
        let high = of_merges(first).max(of_merges(second));
        if low == NOWHERE || low == high {
            if let Some(origin) = self.get(high) {
                if origin.merged == Some(name) {
                    return Ok(high);
                }
            }
        }
        self.number_of(Origin {
            merged: Some(name),
            lost_number,
            first: low,
            second: high,
        })
    }

    /// Returns the origin of a symbol that the instruction at a point made: that of what it was
    /// computed from, if there is one, and otherwise the instruction, if notes are taken.
    pub(crate) fn made(
        &mut self,
        computed: OriginNumber,
        at: Point,
    ) -> Result<OriginNumber, AllocError> {
        match &mut self.notes {
            Some(notes) if computed == NOWHERE => notes.maker(at),
            _ => Ok(computed),
        }
    }

    /// Returns the nearest noted merge from which a symbol of this origin comes, if one of those
    /// that are looked for is found.
    fn meeting(
        &self,
        alloc: Global,
        notes: &Notes,
        from: OriginNumber,
        wanted: Wanted,
    ) -> Result<Option<Meeting>, AllocError> {
        let mut queue = vec![in alloc; from]?;
        for index in 0..MOST_LOOKS {
            let Some(number) = queue.get(index).copied() else {
                break;
            };
            let Some(origin) = self.get(number) else {
                continue;
            };
            let meeting = notes.meeting(number);
            if meeting.is_some() && (wanted == Wanted::Any || origin.lost_number) {
                return Ok(meeting);
            }
            queue.extend_from_slice(&[origin.first, origin.second])?;
        }
        Ok(None)
    }

    /// Returns where a symbol of this origin comes from, as far as it was noted.
    fn symbol_origin(&self, alloc: Global, from: OriginNumber) -> Result<SymbolOrigin, AllocError> {
        if from == NOWHERE {
            return Ok(SymbolOrigin::Start);
        }
        let Some(notes) = &self.notes else {
            return Ok(SymbolOrigin::Lost);
        };
        if let Some(at) = notes.made_at(from) {
            return Ok(SymbolOrigin::Made(at.place()));
        }
        for wanted in [Wanted::LostNumbers, Wanted::Any] {
            if let Some(meeting) = self.meeting(alloc, notes, from, wanted)? {
                return Ok(SymbolOrigin::Met {
                    at: meeting.at.place(),
                    first: meeting.first,
                    second: meeting.second,
                });
            }
        }
        Ok(SymbolOrigin::Lost)
    }

    /// Returns where symbols of these origins come from, as far as it was noted.
    fn symbol_origins(
        &self,
        alloc: Global,
        numbers: &[OriginNumber],
    ) -> Result<Vec<SymbolOrigin>, AllocError> {
        let mut origins = Vec::new(alloc);
        for number in numbers {
            origins.push(self.symbol_origin(alloc, *number)?)?;
        }
        Ok(origins)
    }

    /// Returns the state of a track, with where the number of each of its symbols comes from.
    pub(crate) fn known_state(
        &self,
        alloc: Global,
        track: Track,
    ) -> Result<KnownState, AllocError> {
        let origins = self.symbol_origins(alloc, track.history.origins.as_slice())?;
        let Track { state, .. } = track;
        Ok(KnownState {
            state: Box::into_inner(state),
            origins,
        })
    }

    /// Returns likewise the state of a track that was refused by this test, if there is one.
    pub(crate) fn refused_state(
        &self,
        alloc: Global,
        track: Option<Track>,
        failed: Failed,
    ) -> Result<Option<RefusedState>, AllocError> {
        let Some(track) = track else {
            return Ok(None);
        };
        let known = self.known_state(alloc, track)?;
        Ok(Some(RefusedState { known, failed }))
    }

    /// Returns the states of these tracks likewise.
    pub(crate) fn known_states(
        &self,
        alloc: Global,
        tracks: Vec<Track>,
    ) -> Result<Vec<KnownState>, AllocError> {
        let mut states = Vec::new(alloc);
        for track in tracks {
            states.push(self.known_state(alloc, track)?)?;
        }
        Ok(states)
    }

    /// Returns the cell that an origin names, if its merge is one that is looked for and the cell
    /// isn't kept apart already.
    fn culprit(origin: Origin, wanted: Wanted, apart: &[CellName]) -> Option<CellName> {
        let name = origin.merged?;
        if wanted == Wanted::LostNumbers && !origin.lost_number {
            return None;
        }
        if name.is_main_element() || apart.contains(&name) {
            return None;
        }
        Some(name)
    }

    /// Returns the nearest cells from whose merges a symbol of this origin comes, and that aren't
    /// kept apart yet. The origins are looked at in the order of their distance: those behind all of
    /// one distance only where none of these names such a cell.
    pub(crate) fn nearest(
        &self,
        alloc: Global,
        from: OriginNumber,
        wanted: Wanted,
        apart: &[CellName],
    ) -> Result<Vec<CellName>, AllocError> {
        let mut looks = Looks::new(alloc, from, self.list.len())?;
        let mut end = looks.queue.len();
        for index in 0..=self.list.len().saturating_mul(2) {
            if index == end {
                if !looks.found.is_empty() {
                    break;
                }
                end = looks.queue.len();
            }
            let Some(number) = looks.queue.get(index).copied() else {
                break;
            };
            self.look(&mut looks, number, wanted, apart)?;
        }
        let Looks { found, .. } = looks;
        Ok(found)
    }

    /// Looks at the origin of this number.
    fn look(
        &self,
        looks: &mut Looks,
        number: OriginNumber,
        wanted: Wanted,
        apart: &[CellName],
    ) -> Result<(), AllocError> {
        let Some(origin) = self.get(number) else {
            return Ok(());
        };
        if !see(looks.seen.as_mut_slice(), number) {
            return Ok(());
        }
        match Origins::culprit(origin, wanted, apart) {
            Some(name) => looks.found.push(name)?,
            None => looks
                .queue
                .extend_from_slice(&[origin.first, origin.second])?,
        }
        Ok(())
    }
}
