//! The heap of a test, of which a call is left little, or whose growths are refused.

use std::alloc::Global;

/// The greatest block has 2 to the power of 46 bytes, half of what a process can address.
const GREATEST: u32 = 46;

/// A small block has at most 2 to the power of 20 bytes.
const GREATEST_SMALL: u32 = 20;

/// The room: blocks next to each other, of which a call may be left a part, how many they are and
/// how many bytes each has. Where the blocks that the C library keeps lie in the middle of the room, either
/// half still has the 1,100,000 bytes that a call is left at most.
const ROOM: (usize, usize) = (30, 100_000);

/// How many blocks that aren't small are taken at most.
const LARGE_BLOCKS: usize = 100_000;

/// How many small blocks are taken at most. A heap that has more can't be used up.
const SMALL_BLOCKS: usize = 4_000;

/// How many sizes of freed blocks the C library keeps, in steps of 16 up to 1,032 bytes, each block
/// for the next call that wants just as many bytes, instead of joining them.
const KEPT_SIZES: usize = 64;

/// How many of these sizes are greater than 248 bytes.
const LARGE_SIZES: usize = 49;

/// How many freed blocks the C library keeps of one of those sizes, and of a smaller one. A freed
/// block that is kept lies between others, which then aren't joined over it.
const KEPT_BLOCKS: (usize, usize) = (7, 7);

/// How many are drawn to be sure that it keeps none: where it finds one elsewhere, it keeps others
/// of that size that it finds there. More of the small ones lie elsewhere.
const DRAWN_BLOCKS: (usize, usize) = (14, 56);

/// A block of this size isn't one of these.
const APART: usize = 2_048;

/// How many bytes more a call is left from one trial to the next, as the C library's blocks grow.
const STEP: usize = 16;

/// A number of bytes that no memory has. Where `bench/refusals.py` puts an allocator before the C
/// library's, a request for as many or more is a message to that: what is added is the number of
/// the growth that is refused, counted from then on. With nothing added, none is refused any more,
/// and the answer is whether one was.
const MESSAGE: usize = 0x4000_0000_0000_0000;

/// Sends a message with this number added, and returns what is answered.
fn answer_to(alloc: Global, number: usize) -> bool {
    let block: Result<Vec<u8>, _> = Vec::with_capacity(alloc, MESSAGE.saturating_add(number));
    block.is_ok()
}

/// Takes blocks of a size until there are so many blocks, or no more memory.
fn take_blocks(blocks: &mut Vec<Vec<u8>>, alloc: Global, size: usize, most: usize) {
    for _ in blocks.len()..most {
        let Ok(block) = Vec::with_capacity(alloc, size) else {
            return;
        };
        if blocks.push(block).is_err() {
            return;
        }
    }
}

/// Takes so many blocks of each size that the C library keeps.
fn take_kept_sizes(blocks: &mut Vec<Vec<u8>>, alloc: Global, (large, small): (usize, usize)) {
    for less in 0..KEPT_SIZES {
        let count = if less < LARGE_SIZES { large } else { small };
        let most = blocks.len().saturating_add(count);
        take_blocks(blocks, alloc, 1_032 - 16 * less, most);
    }
}

/// Takes small blocks until there are so many blocks, or no more memory.
fn take_small(blocks: &mut Vec<Vec<u8>>, alloc: Global, most: usize) {
    for power in (11..=GREATEST_SMALL).rev() {
        take_blocks(blocks, alloc, 1usize.wrapping_shl(power), most);
    }
    for less in 0..KEPT_SIZES {
        take_blocks(blocks, alloc, 1_032 - 16 * less, most);
    }
}

/// All memory that there is, in blocks that nobody uses.
#[derive(Drop)]
struct Hoard {
    blocks: Vec<Vec<u8>>,
    /// How many blocks stay when the room is given back.
    kept: usize,
    /// Blocks outside of the room of all sizes that the C library keeps, as many as it keeps.
    fillers: Vec<Vec<u8>>,
    /// The blocks that it kept after a call.
    drawn: Vec<Vec<u8>>,
}

impl Hoard {
    /// Takes all memory but the room; nothing where it can't be used up.
    fn new(alloc: Global) -> Option<Hoard> {
        let mut fillers = Vec::with_capacity(alloc, KEPT_SIZES * KEPT_BLOCKS.0).ok()?;
        take_kept_sizes(&mut fillers, alloc, KEPT_BLOCKS);
        let (count, size) = ROOM;
        let mut room: Vec<Vec<u8>> = Vec::with_capacity(alloc, count).ok()?;
        take_blocks(&mut room, alloc, size, count);
        let mut hoard = Hoard {
            blocks: Vec::with_capacity(alloc, LARGE_BLOCKS + SMALL_BLOCKS).ok()?,
            kept: 0,
            fillers,
            drawn: Vec::with_capacity(alloc, KEPT_SIZES * DRAWN_BLOCKS.1).ok()?,
        };
        for power in (GREATEST_SMALL + 1..=GREATEST).rev() {
            let size = 1usize.wrapping_shl(power);
            take_blocks(&mut hoard.blocks, alloc, size, LARGE_BLOCKS);
        }
        let most = hoard.blocks.len().saturating_add(SMALL_BLOCKS);
        take_small(&mut hoard.blocks, alloc, most);
        hoard.kept = hoard.blocks.len();
        if hoard.kept < most { Some(hoard) } else { None }
    }

    /// Takes the room too, except for this many bytes next to each other, 8 of which the C library
    /// needs itself.
    fn leave(&mut self, alloc: Global, bytes: usize) {
        let gap: Result<Vec<u8>, _> = Vec::with_capacity(alloc, bytes.saturating_add(APART));
        let most = self.kept.saturating_add(SMALL_BLOCKS);
        take_small(&mut self.blocks, alloc, most);
        drop(gap);
        let most = self.blocks.len().saturating_add(1);
        take_blocks(&mut self.blocks, alloc, APART, most);
    }

    /// Gives the room back, joined to one block again: what the C library kept of it is drawn, and
    /// the fillers are kept in its place as long as the blocks of the room are freed.
    fn give_back(&mut self, alloc: Global) {
        take_kept_sizes(&mut self.drawn, alloc, DRAWN_BLOCKS);
        self.fillers.clear();
        self.drawn.clear();
        self.blocks.truncate(self.kept);
        take_kept_sizes(&mut self.fillers, alloc, KEPT_BLOCKS);
    }
}

/// How growths are refused.
#[derive(Drop)]
enum Means {
    /// All memory but the room is taken.
    Hoard(Hoard),
    /// By their number; and whether one of the last call was.
    Number { has_refused: bool },
    /// In no way: the heap can't be used up.
    Nothing,
}

/// The heap, and how much of it a call is left.
#[derive(Drop)]
pub struct Heap {
    pub alloc: Global,
    means: Means,
    /// How many times 16 bytes a call is left, or how many growths; nothing is refused where this
    /// is none.
    left: Option<usize>,
}

impl Heap {
    /// Takes all of the heap but the room, where it can be used up and growths aren't refused by
    /// their number.
    pub fn new(alloc: Global) -> Heap {
        let is_numbered = answer_to(alloc, 1);
        answer_to(alloc, 0);
        let means = if is_numbered {
            Means::Number { has_refused: false }
        } else {
            Hoard::new(alloc).map_or(Means::Nothing, Means::Hoard)
        };
        Heap {
            alloc,
            means,
            left: None,
        }
    }

    /// Leaves each call from now on this many times 16 bytes, or as many growths before the one
    /// that is refused; all where this is none.
    pub fn leave(&mut self, left: Option<usize>) {
        self.left = left;
    }

    /// Whether growths can be refused.
    pub fn refuses(&self) -> bool {
        !matches!(self.means, Means::Nothing)
    }

    /// Whether growths are refused by their number.
    pub fn is_numbered(&self) -> bool {
        matches!(self.means, Means::Number { .. })
    }

    /// Whether a growth of the last call was refused by its number.
    pub fn has_refused(&self) -> bool {
        matches!(self.means, Means::Number { has_refused: true })
    }

    /// Begins a call: takes the room, except for what the call is left.
    pub fn take_room(&mut self) {
        match (&mut self.means, self.left) {
            (Means::Hoard(hoard), Some(left)) => hoard.leave(self.alloc, left.saturating_mul(STEP)),
            (Means::Number { .. }, Some(left)) => {
                answer_to(self.alloc, left.saturating_add(1));
            }
            _ => {}
        }
    }

    /// Ends a call: gives the room back.
    pub fn give_back(&mut self) {
        match &mut self.means {
            Means::Hoard(hoard) => hoard.give_back(self.alloc),
            Means::Number { has_refused } => *has_refused = answer_to(self.alloc, 0),
            Means::Nothing => {}
        }
    }
}
