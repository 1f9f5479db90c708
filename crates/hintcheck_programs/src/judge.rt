//! What decides on a font's programs, one at a time.

ghost use Rattle.std.specs.Prelude.{List, IfErr, IfOk, OnOk};
ghost use Rattle.tt_setting.specs.Settings.{setting_of};
ghost use Rattle.tt_code.specs.Cut.{Instruction};
ghost use Rattle.tt_code.specs.declared.limits.Limits.{Limits};
ghost use Rattle.tt_setting.specs.Budgets.{Spends, TellsBudget};
ghost use Rattle.hintcheck_programs.specs.ProgramVerdicts.{IfRefused, IsProgramOf, IsUncut};
ghost use Rattle.hintcheck_programs.specs.Programs.{Subject};
ghost use Rattle.hintcheck_programs.specs.Representation.FontVerdicts.{ComesToEnd};
ghost use Rattle.hintcheck_report.specs.declared.refused.Refused.{Refused};

use crate::report::Name;
use std::alloc::{AllocError, Global};
use tt_abs::{Refusal, Setting};
use tt_family::Budget;

/// Decides on a program, and says what is known where it ends.
pub trait Judge {
    /// A part of what is known where a program ends: the next one starts with a list of these.
    type Known: Drop;

    /// What a program of a font with these limits may start with.
    ghost CanStart: { Limits → List Self.Known → Type 0 };

    /// The program that starts with this is accepted, in the judge's own sense.
    ghost Accepts: { Self → Subject → List Self.Known → List Instruction → Type 0 };

    /// It is accepted, and this is known where it ends.
    ghost Ends: { Self → Subject → List Self.Known → List Instruction → List Self.Known → Type 0 };

    /// It is refused, as is reported.
    ghost Refuses: { Self → Subject → List Self.Known → Refused → Type 0 };

    /// What stays of a judge while it decides on programs.
    ghost Keeps: { Self → Self → Type 0 };

    /// What stays of it besides while it decides on a glyph program.
    ghost KeepsForGlyphs: { Self → Self → Type 0 };

    /// Decides on the program of this name and setting, which starts with what is known where the one
    /// before it ends.
    ///
    /// # Errors
    /// `Refused`; `Exhausted`.
    fn judge(
        &mut self,
        alloc: Global,
        program: Name,
        setting: &Setting<'_>,
        start: &[Self::Known],
        budget: &mut Budget,
    ) -> Result<(), Refusal>
        requires { CanStart setting.now.limits start.now }
        ensures accepted { (x : Subject) → IsProgramOf x setting.now
            → OnOk result (Accepts self.new x start.now setting.now.main.now) }
        ensures refused { (x : Subject) → IsProgramOf x setting.now
            → IfErr result (λ fault. IfRefused x.name fault (Refuses self.new x start.now)) }
        ensures keeps { Keeps self.old self.new }
        ensures keeps_for_glyphs { (ComesToEnd (setting_of setting.now).kind → ⊥)
            → KeepsForGlyphs self.old self.new }
        ensures spends { Spends budget.old budget.new }
        ensures budget { TellsBudget budget.old budget.new result };

    /// States that a program that can't be cut, or isn't structured, is refused.
    fn uncut_facts(&self)
        ensures { (x : Subject) (start : List Self.Known) (r : Refused)
            → IsUncut x.name x.bytes r → Refuses self.now x start r };

    /// Returns what is known where the font program or the CVT program ends that was accepted last.
    ///
    /// # Errors
    /// If memory runs out.
    fn known_at_end(
        &self,
        alloc: Global,
        setting: &Setting<'_>,
        start: &[Self::Known],
    ) -> Result<Vec<Self::Known>, AllocError>
        requires program { (x : Subject) × IsProgramOf x setting.now }
        requires ends { ComesToEnd (setting_of setting.now).kind }
        requires accepted { (x : Subject) → IsProgramOf x setting.now
            → Accepts self.now x start.now setting.now.main.now }
        ensures known { (x : Subject) → IsProgramOf x setting.now → IfOk result
            (λ known. Ends self.now x start.now setting.now.main.now known.items) }
        ensures can_start { IfOk result (λ known. CanStart setting.now.limits known.items) };

    /// A judge that decides on nothing stays as it is.
    ghost keeps_itself: { (j : Self) → Keeps j j };

    /// So does one that decides on no glyph program.
    ghost keeps_itself_for_glyphs: { (j : Self) → KeepsForGlyphs j j };
}
