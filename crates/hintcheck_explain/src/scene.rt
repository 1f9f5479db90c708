//! The instruction at a place, and what is known there.

use crate::element::Element;
use crate::exchange::{Exchange, exchange_of};
use crate::explored_program::{instruction_at, name_or_end};
use crate::view::View;
use tt_setting::{Failed, Setting};
use tt_symbolic_check::Site;

/// The instruction at a place, and what is known there.
#[derive(Clone, Copy)]
pub(crate) struct Scene<'a> {
    pub setting: &'a Setting<'a>,
    pub site: Site,
    pub view: View<'a>,
    /// The instruction's code, if one is there.
    pub code: Option<u8>,
    pub exchange: Exchange,
}

impl<'a> Scene<'a> {
    /// Makes the scene of a place where this is known.
    pub(crate) fn at(setting: &'a Setting<'a>, site: Site, view: View<'a>) -> Scene<'a> {
        let (code, exchange) = match instruction_at(setting, site) {
            Some(instruction) => (Some(instruction.code()), exchange_of(view, &instruction)),
            None => (None, Exchange::default()),
        };
        Scene {
            setting,
            site,
            view,
            code,
            exchange,
        }
    }

    /// Returns the instruction's name; words for the program's end where there is none.
    pub(crate) fn name(&self) -> &'static str {
        name_or_end(self.code)
    }

    /// Returns the least and the greatest number that an index may be, if this test fails since it may
    /// be out of range, and anything is known of it.
    pub(crate) fn range(&self, failed: Failed) -> Option<(i64, i64)> {
        match failed {
            Failed::MayBeOutside { .. } | Failed::MayBeOutsideIn { .. } => {
                let element = Element::unknown(failed, self.view.depth())?;
                self.view.range(element)
            }
            _ => None,
        }
    }
}
