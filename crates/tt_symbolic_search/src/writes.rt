//! The memory entries that glyph programs write, although they are taken to start with them.

use crate::boxes::Area;
use std::alloc::{AllocError, Global};
use tt_code::{Written, written};
use tt_setting::Setting;
use tt_symbolic::kept::{Kept, keeps};
use tt_symbolic_state::State;

/// The memory entries that glyph programs write.
#[derive(Drop)]
pub(crate) struct Writes {
    /// Indexes of storage cells.
    pub storage: Vec<u16>,
    /// Indexes of control values.
    pub controls: Vec<u16>,
}

impl Writes {
    /// Makes the list of no entries.
    pub(crate) fn new(alloc: Global) -> Writes {
        Writes {
            storage: Vec::new(alloc),
            controls: Vec::new(alloc),
        }
    }

    /// Notes which of the kept entries the instruction of this code may write at which the state is.
    pub(crate) fn note(
        &mut self,
        setting: &Setting<'_>,
        state: &State,
        kept: &Kept<'_>,
        code: u8,
    ) -> Result<(), AllocError> {
        if written(code) == Written::Nothing || keeps(setting, state, kept) {
            return Ok(());
        }
        let Kept { storage, controls } = *kept;
        note_in(&mut self.storage, Area::Storage, storage, setting, state)?;
        note_in(&mut self.controls, Area::Controls, controls, setting, state)
    }
}

/// Notes which of these entries of a memory area the instruction may write at which the state is.
fn note_in(
    list: &mut Vec<u16>,
    area: Area,
    indexes: &[u16],
    setting: &Setting<'_>,
    state: &State,
) -> Result<(), AllocError> {
    for index in indexes {
        let one = [*index];
        let (storage, controls): (&[u16], &[u16]) = match area {
            Area::Storage => (&one, &[]),
            Area::Controls => (&[], &one),
        };
        if !list.contains(index) && !keeps(setting, state, &Kept { storage, controls }) {
            list.push(*index)?;
        }
    }
    Ok(())
}
