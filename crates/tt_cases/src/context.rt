//! What the cases of a file share: limits, and the fonts and files that its lines name.

use crate::files::{make_file, pieces_of};
use crate::words::Words;
use anyhow::Result;
use std::alloc::AllocError;
use tt_abs::Kind;
use tt_code::Limits;
use tt_test_fixtures::programs::LIMITS;

/// What a file's lines have said so far.
#[derive(Drop)]
pub struct Context<'a> {
    pub rt: &'a HostRuntime,
    pub file: &'a str,
    pub limits: Limits,
    /// How many control values there are.
    pub cvt: u16,
    /// How many points and contours the glyph has.
    pub points: u16,
    pub contours: u16,
    /// The units that `unit` changes one of.
    pub units: Vec<Vec<u8>>,
    /// What each row begins with.
    pub beginning: &'a str,
}

/// Takes the limits of a `maxp` table that words give, and those of the small fonts for the others.
fn limits_given(words: &mut Words<'_>) -> Result<Limits> {
    Ok(Limits {
        storage: words.number("storage", LIMITS.storage)?,
        functions: words.number("functions", LIMITS.functions)?,
        stack: words.number("stack", LIMITS.stack)?,
        program_size: words.number("size", LIMITS.program_size)?,
        zones: words.number("zones", LIMITS.zones)?,
        twilight: words.number("twilight", LIMITS.twilight)?,
    })
}

impl<'a> Context<'a> {
    /// Returns the context at the head of a file.
    pub fn new(rt: &'a HostRuntime, file: &'a str) -> Context<'a> {
        Context {
            rt,
            file,
            limits: LIMITS,
            cvt: 10,
            points: 4,
            contours: 1,
            units: Vec::new(rt.alloc()),
            beginning: "",
        }
    }

    /// Returns the kind of a glyph's program.
    pub fn glyph(&self) -> Kind {
        Kind::Glyph {
            points: self.points,
            contours: self.contours,
        }
    }

    /// Takes the limits that words give, and those of the small fonts for the others.
    fn set_limits(&mut self, words: &mut Words<'a>) -> Result<()> {
        let limits = limits_given(words)?;
        let cvt = words.number("cvt", 10)?;
        let points = words.number("points", 4)?;
        let contours = words.number("contours", 1)?;
        self.limits = limits;
        self.cvt = cvt;
        self.points = points;
        self.contours = contours;
        Ok(())
    }

    /// Takes a line that changes the context; whether it is one.
    pub fn set_up(&mut self, words: &mut Words<'a>) -> Result<bool> {
        let Some(kind @ ("limits" | "units" | "unit")) = words.first() else {
            return make_file(self, words);
        };
        words.next()?;
        match kind {
            "limits" => self.set_limits(words)?,
            "units" => self.units.clear(),
            _ => {
                let unit = pieces_of(self, words)?;
                self.units.push(unit).map_err(AllocError::from)?;
            }
        }
        Ok(true)
    }
}
