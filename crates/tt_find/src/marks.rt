//! At which offsets of the programs states are kept.

ghost use Rattle.std.specs.Prelude.{◌≡◌, ◌≢◌, IsTrue, slice_index_or};
ghost use Rattle.tt_find.specs.Representation.OffsetMarks.{SetsMark, mark_of};

use std::alloc::{AllocError, Global};
use tt_setting::{Setting, Spot};

/// What is known of an offset of a program.
#[derive(Clone, Copy)]
pub(crate) enum Mark {
    /// Nothing: no state came there.
    Free,
    /// States passed over it, and weren't kept.
    Passed,
    /// States that come there are kept.
    Kept,
}

/// At which offsets of the three programs states are kept: those at which ways meet. They are found
/// while states are carried on, and are remembered for the next program, which may call the same
/// functions. States are also kept at each offset after the end of a list.
pub(crate) struct OffsetMarks {
    /// Whether states are kept at all offsets, whatever the lists say.
    pub everywhere: bool,
    main: Vec<Mark>,
    font: Vec<Mark>,
    prep: Vec<Mark>,
}

// Written out, so that who holds marks proves in one step that its memory is given back.
impl Drop for OffsetMarks {
    fn drop(self) {
        let OffsetMarks {
            everywhere: _,
            main,
            font,
            prep,
        } = self;
        drop(main);
        drop(font);
        drop(prep);
    }
}

/// Returns the mark at an offset.
fn mark_in(marks: &[Mark], offset: u32) -> Mark
    ensures { result ≡ slice_index_or marks.now offset Mark.Kept }
{
    match marks.get(offset as usize) {
        Some(mark) => *mark,
        None => Mark::Kept,
    }
}

/// Makes a list fit a program of this length: one of another length is made anew, and nothing is
/// known of its offsets.
///
/// # Errors
/// If memory runs out.
fn fit(marks: &mut Vec<Mark>, length: u32) -> Result<(), AllocError> {
    let length = length as usize + 1;
    if marks.len() != length {
        marks.clear();
        marks.resize(length, Mark::Free)?;
    }
    Ok(())
}

impl OffsetMarks {
    /// Makes marks by which states are kept everywhere.
    pub(crate) fn new(alloc: Global) -> OffsetMarks {
        OffsetMarks {
            everywhere: true,
            main: Vec::new(alloc),
            font: Vec::new(alloc),
            prep: Vec::new(alloc),
        }
    }

    /// Begins a program: nothing is known of its offsets. What is known of the offsets of the font
    /// program and of the CVT program stays, if these are as long as before. If they are others of
    /// the same length, the old marks only cost time.
    ///
    /// # Errors
    /// If memory runs out.
    pub(crate) fn begin(&mut self, setting: &Setting<'_>) -> Result<(), AllocError> {
        self.everywhere = false;
        self.main.clear();
        fit(&mut self.main, setting.main.len())?;
        fit(&mut self.font, setting.font.len())?;
        fit(&mut self.prep, setting.prep.len())
    }

    /// Returns what is known of an offset.
    pub(crate) fn at(&self, spot: Spot, offset: u32) -> Mark
        ensures { result ≡ mark_of self.now spot offset }
    {
        if self.everywhere {
            return Mark::Kept;
        }
        match spot {
            Spot::Main => mark_in(self.main.as_slice(), offset),
            Spot::Font => mark_in(self.font.as_slice(), offset),
            Spot::Prep => mark_in(self.prep.as_slice(), offset),
        }
    }

    /// Sets the mark of an offset at which states aren't kept.
    fn set(&mut self, spot: Spot, offset: u32, mark: Mark)
        requires { mark_of self.old spot offset ≢ Mark.Kept }
        ensures { SetsMark self.old self.new spot offset mark }
    {
        match spot {
            Spot::Main => self.main[offset as usize] = mark,
            Spot::Font => self.font[offset as usize] = mark,
            Spot::Prep => self.prep[offset as usize] = mark,
        }
    }

    /// Whether no state has passed over this offset without being kept. From now on states are kept
    /// there.
    pub(crate) fn keep(&mut self, spot: Spot, offset: u32) -> bool
        ensures kept { IsTrue result → SetsMark self.old self.new spot offset Mark.Kept }
        ensures was { IsTrue result → mark_of self.old spot offset ≢ Mark.Passed }
        ensures everywhere { IsTrue self.old.everywhere → IsTrue result }
    {
        match self.at(spot, offset) {
            Mark::Kept => true,
            Mark::Free => {
                self.set(spot, offset, Mark::Kept);
                true
            }
            Mark::Passed => {
                self.set(spot, offset, Mark::Kept);
                false
            }
        }
    }

    /// Marks an offset, at which states aren't kept, as one over which a state passed.
    pub(crate) fn pass(&mut self, spot: Spot, offset: u32)
        requires { mark_of self.old spot offset ≢ Mark.Kept }
        ensures { SetsMark self.old self.new spot offset Mark.Passed }
    {
        self.set(spot, offset, Mark::Passed);
    }
}
