//! At which offsets of the programs states have waited.

use std::alloc::{AllocError, Global};
use tt_setting::{Setting, Spot};
use tt_symbolic_check::Site;

/// For each offset of the three programs whether a state has waited there: a bit each, those of the
/// font program behind those of the main program, and those of the CVT program last.
#[derive(Drop)]
pub(crate) struct Marks {
    words: Vec<u64>,
    /// The first bit of the font program.
    font: u32,
    /// The first bit of the CVT program.
    prep: u32,
}

impl Marks {
    /// Makes no marks.
    pub(crate) fn new(alloc: Global, setting: &Setting<'_>) -> Result<Marks, AllocError> {
        let font = setting.main.len().saturating_add(1);
        let prep = font.saturating_add(setting.font.len()).saturating_add(1);
        let bits = prep.saturating_add(setting.prep.len()).saturating_add(1);
        Ok(Marks {
            words: vec![in alloc; 0; (bits as usize / 64).saturating_add(1)]?,
            font,
            prep,
        })
    }

    /// Returns which word has the bit of a site, and that bit.
    fn bit_of(&self, site: Site) -> (usize, u64) {
        let first = match site.spot {
            Spot::Main => 0,
            Spot::Font => self.font,
            Spot::Prep => self.prep,
        };
        let bit = site.offset.saturating_add(first);
        (bit as usize / 64, 1u64.rotate_left(bit % 64))
    }

    /// Whether a state has waited at a site.
    pub(crate) fn at(&self, site: Site) -> bool {
        let (word, bit) = self.bit_of(site);
        self.words.get(word).is_some_and(|bits| bits & bit != 0)
    }

    /// Notes that a state waits at a site.
    pub(crate) fn set(&mut self, site: Site) {
        let (word, bit) = self.bit_of(site);
        if let Some(bits) = self.words.get_mut(word) {
            *bits |= bit;
        }
    }
}
