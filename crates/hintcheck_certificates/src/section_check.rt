//! The judge that checks a program by its section of a certificate.

ghost use Rattle.std.specs.Prelude.{◌≡◌, IfErr, OnOk, refl};
ghost use Rattle.tt_setting.specs.Entries.{Ascends};
ghost use Rattle.tt_setting.specs.Settings.{setting_of};
ghost use Rattle.tt_setting.specs.Budgets.{Spends, TellsBudget};
ghost use Rattle.tt_family.specs.Checks.{IsExhausted, Names};
ghost use Rattle.hintcheck_certificates.specs.Certificates.{IsCheckRefusal, IsListingBrokenFirst};
ghost use Rattle.hintcheck_programs.specs.ProgramVerdicts.{IsFilledIn, with_start};
ghost use Rattle.hintcheck_certificates.specs.Representation.SectionJudges.{IsListedIn};
ghost use Rattle.hintcheck_certificates.specs.Representation.SectionJudges.{IsPassedBy, IsPassedToEnd};

use hintcheck_programs::judge::Judge;
use hintcheck_programs::report::Name;
use std::alloc::{AllocError, Global};
use tt_abs::{Refusal, Setting};
use tt_cert::Form;
use tt_family::{Budget, Certificate, Listing, check_listing};

/// Judges a program by the family that its section of a certificate of this form lists.
#[derive(Clone, Copy)]
pub(crate) struct SectionCheck<'c> {
    pub(crate) certificate: &'c Certificate,
    pub(crate) form: Form,
}

/// Checks a program by its section of this form. In form 1 a family lists each state, and has to be
/// good as it is listed; in a later form it may leave states out, and has to have a good filling.
///
/// # Errors
/// `Refused` where the family isn't good in form 1, or has no good filling in a later one;
/// `Exhausted`.
fn check_section(
    alloc: Global,
    setting: &Setting<'_>,
    certificate: &Certificate,
    form: Form,
    budget: &mut Budget,
) -> Result<(), Refusal>
    requires { Ascends setting.now.start.now }
    ensures good { OnOk result (IsFilledIn setting.now certificate.now) }
    ensures listing { OnOk result (IsListedIn form setting.now certificate.now) }
    ensures first { IfErr result (Names (IsListingBrokenFirst form (setting_of setting.now)
        setting.now.start.now certificate.now)) }
    ensures exact { IsListedIn form setting.now certificate.now → IfErr result IsExhausted }
    ensures spends { Spends budget.old budget.new }
    ensures budget { TellsBudget budget.old budget.new result }
{
    match form {
        Form::One => check_listing(alloc, setting, Listing::Whole, certificate, budget),
        Form::Two | Form::Three | Form::Four => {
            check_listing(alloc, setting, Listing::Sparse, certificate, budget)
        }
    }
}

impl<'c> Judge for SectionCheck<'c> {
    type Known = (u16, u32);

    ghost CanStart = { λ _ functions. Ascends functions };

    ghost Accepts = { λ j x start is. IsPassedBy j.form (with_start x start) is j.certificate.now };

    ghost Ends = { λ j x start is known.
        IsPassedToEnd j.form (with_start x start) is j.certificate.now known };

    ghost Refuses = { λ j x start r.
        IsCheckRefusal j.form (with_start x start) j.certificate.now r };

    ghost Keeps = { λ j k. k ≡ j };

    ghost KeepsForGlyphs = { λ j k. Unit {0} };

    fn judge(
        &mut self,
        alloc: Global,
        _program: Name,
        setting: &Setting<'_>,
        start: &[(u16, u32)],
        budget: &mut Budget,
    ) -> Result<(), Refusal> {
        let started = Setting { start, ..*setting };
        check_section(alloc, &started, self.certificate, self.form, budget)
    }

    fn uncut_facts(&self) {}

    fn known_at_end(
        &self,
        alloc: Global,
        setting: &Setting<'_>,
        _start: &[(u16, u32)],
    ) -> Result<Vec<(u16, u32)>, AllocError> {
        // A checked font program or CVT program has a state at its end.
        let functions = self.certificate.end_functions(setting.main.len()).unwrap();
        Vec::from_slice(alloc, functions)
    }

    ghost keeps_itself = { λ j. refl };

    ghost keeps_itself_for_glyphs = { λ j. tt };
}
