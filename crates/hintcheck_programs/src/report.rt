//! What is reported of a font's programs.

ghost use Rattle.std.specs.Prelude.{◌≡◌, ◌↔◌, [], IsTrue};
ghost use Rattle.hintcheck_programs.specs.Verdicts.{Judgement};

pub use hintcheck_report::{Name, Place, Refused};
use std::marker::Model;

/// What comes of one program of a font: nothing, where it is accepted, or why it is refused.
#[derive(Clone, Copy)]
pub struct Outcome {
    pub program: Name,
    pub refused: Option<Refused>,
}

/// How many programs there are, and which of them are refused, in their order.
pub struct Verdict {
    programs: u32,
    refused: Vec<Refused>,
}

// Written out, so that who holds a verdict proves in one step that its memory is given back.
impl Drop for Verdict {
    fn drop(self) {
        let Verdict {
            programs: _,
            refused,
        } = self;
        drop(refused);
    }
}

impl Model for Verdict {
    ghost Value = { Judgement };

    ghost view = { λ v. record { programs = v.programs; refused = v.refused.items } };
}

impl Verdict {
    /// Makes a verdict on this many programs, of which these are refused.
    pub fn new(programs: u32, refused: Vec<Refused>) -> Self
        ensures { result ≡ record { programs = programs; refused = refused.items } }
    {
        Verdict { programs, refused }
    }

    /// Returns how many programs there are.
    pub fn programs(&self) -> u32
        ensures { result ≡ self.now.programs }
    {
        self.programs
    }

    /// Returns the refused programs, in their order.
    pub fn refused(&self) -> &[Refused]
        ensures { result.now ≡ self.now.refused }
    {
        &self.refused
    }

    /// Whether no program is refused.
    pub fn accepted(&self) -> bool
        ensures { IsTrue result ↔ (self.now.refused ≡ []) }
    {
        self.refused.is_empty()
    }
}
