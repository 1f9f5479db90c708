//! The verdict on one program: it is cut, a family of abstract states is found for it, and that
//! family is checked, except where it is found once more to be written.

ghost use Rattle.std.specs.Prelude.{◌≡◌, ℕ, ◌<◌, ◌^◌, List, [], IfErr, IfOk, OnOk, length, true};
ghost use Rattle.tt_code.specs.Cut.{Instruction, IsCut};
ghost use Rattle.tt_code.specs.Faults.{IsMemory as IsMemoryAlone};
ghost use Rattle.tt_code.specs.Grammar.{IsStructured};
ghost use Rattle.tt_code.specs.Settings.{GlyphProgram};
ghost use Rattle.tt_setting.specs.Entries.{Ascends};
ghost use Rattle.tt_setting.specs.Refusals.{IsOfNoBudget};
ghost use Rattle.tt_setting.specs.Settings.{setting_of};
ghost use Rattle.tt_abs.specs.StateFlow.{FunctionsFit};
ghost use Rattle.tt_setting.specs.Budgets.{Spends, TellsBudget};
ghost use Rattle.tt_family.specs.Checks.{IsExhausted};
ghost use Rattle.tt_setting.specs.declared.name.Name.{Name as ProgramName};
ghost use Rattle.hintcheck_programs.specs.Programs.{Subject};
ghost use Rattle.hintcheck_programs.specs.ProgramVerdicts.{IfRefused, IsFaultOfProgram, IsFilledIn, IsForCertificate, IsSubjectOf, IsUncut, NoneIsGoodFor};
ghost use Rattle.hintcheck_programs.specs.Representation.Judges.{IsFoundHere};

use std::alloc::{AllocError, Global};
use tt_abs::{Refusal, Setting};
use tt_code::{CodeFault, Program, Reason};
use tt_family::{Budget, Certificate, Listing, check_listing};
use tt_find::{Finder, ListedStates};

/// Returns the error of a fault that is out of memory.
fn memory_error(fault: CodeFault) -> AllocError
    requires { IsMemoryAlone fault }
{
    match fault {
        CodeFault::OutOfMemory(error) => error,
        CodeFault::CannotCut(_) => unreachable!(),
        CodeFault::Structure(_) => unreachable!(),
    }
}

/// Returns the program without instructions.
pub fn empty_program(alloc: Global) -> Result<Program<'static>, AllocError>
    ensures { IfOk result (λ program. program ≡ []) }
{
    match Program::cut(alloc, &[]) {
        Ok(program) => Ok(program),
        // No instruction passes the end of an empty program, and its structure is right.
        Err(fault) => Err(memory_error(fault)),
    }
}

/// Cuts the bytes of a program, at most 2^31 - 1, into its instructions.
///
/// # Errors
/// `Refused` where they can't be cut or their structure is wrong; `Exhausted`.
pub fn cut<'a>(alloc: Global, bytes: &'a [u8]) -> Result<Program<'a>, Refusal>
    requires { length bytes.now < 2 ^ 31 }
    ensures cut { IfOk result (λ program.
        IsCut bytes.entry.now program × IsStructured program) }
    ensures uncut { (called : ProgramName)
        → IfErr result (λ fault. IfRefused called fault (IsUncut called bytes.entry.now)) }
    ensures only { (instructions : List Instruction) → IsCut bytes.entry.now instructions
        → IsStructured instructions → IfErr result IsExhausted }
    ensures within { IfErr result IsOfNoBudget }
{
    match Program::cut(alloc, bytes) {
        Ok(program) => Ok(program),
        Err(CodeFault::CannotCut(offset)) => Err(Refusal::in_main(offset, Reason::CannotCut)),
        Err(CodeFault::Structure(offset)) => Err(Refusal::in_main(offset, Reason::Structure)),
        Err(CodeFault::OutOfMemory(error)) => Err(Refusal::from(error)),
    }
}

/// Checks the family that was found for a program.
///
/// # Errors
/// `Refused` where it has no good filling; `Exhausted`.
fn check_found(
    alloc: Global,
    setting: &Setting<'_>,
    certificate: &Certificate,
    budget: &mut Budget,
) -> Result<(), Refusal>
    requires { Ascends setting.now.start.now }
    // The check accepts it: this relies on no promise of the finder's.
    ensures good { OnOk result (IsFilledIn setting.now certificate.now) }
    ensures exact { IsFilledIn setting.now certificate.now → IfErr result IsExhausted }
    ensures spends { Spends budget.old budget.new }
    ensures budget { TellsBudget budget.old budget.new result }
{
    check_listing(alloc, setting, Listing::Sparse, certificate, budget)
}

/// What a family is searched for.
#[derive(Clone, Copy)]
pub enum Search {
    /// Only for the verdict, by a family that is checked.
    Verdict,
    /// For the program's certificate, which lists no state that could be left out, and is checked.
    Certificate,
    /// For the program's certificate, which lists no state that could be left out, and is written
    /// after the verdict. Nothing is checked once more: that the family has a good filling is the
    /// finder's promise.
    Writing,
}

impl Search {
    /// Whether only a verdict is wanted.
    pub(crate) fn is_for_verdict(self) -> bool
        ensures { result ≡ true → IsForCertificate self → ⊥ }
    {
        match self {
            Search::Verdict => true,
            Search::Certificate | Search::Writing => false,
        }
    }

    /// Returns which states the family lists that is found: for a certificate none that could be left
    /// out.
    fn listed(self) -> ListedStates
        ensures { IsForCertificate self → result ≡ ListedStates.Needed }
    {
        match self {
            Search::Verdict => ListedStates::Kept,
            Search::Certificate | Search::Writing => ListedStates::Needed,
        }
    }
}

/// Finds the family of abstract states of the program of this setting, and checks it where that is
/// asked. A family that is found passes the check. The finder keeps it.
///
/// # Errors
/// `Refused` where no family is found; `Exhausted`.
pub(crate) fn find_and_check(
    alloc: Global,
    finder: &mut Finder,
    setting: &Setting<'_>,
    search: Search,
    budget: &mut Budget,
) -> Result<(), Refusal>
    requires ascends { Ascends setting.now.start.now }
    requires fits { FunctionsFit (setting_of setting.now) setting.now.start.now }
    ensures accepted { (x : Subject) → IsSubjectOf x setting.now
        → OnOk result (IsFoundHere finder.new search x setting.now.main.now) }
    ensures refused { (x : Subject) → IsSubjectOf x setting.now
        → IfErr result (IsFaultOfProgram x) }
    ensures none_good { (x : Subject) (points contours : ℕ) → IsSubjectOf x setting.now
        → (setting_of setting.now).kind ≡ GlyphProgram points contours
        → IfErr result (NoneIsGoodFor x) }
    ensures spends { Spends budget.old budget.new }
    ensures budget { TellsBudget budget.old budget.new result }
{
    setting.range_facts();
    finder.find(alloc, setting, search.listed(), budget)?;
    match search {
        Search::Writing => Ok(()),
        Search::Verdict | Search::Certificate => {
            let certificate = finder.certificate().unwrap();
            check_found(alloc, setting, certificate, budget)
        }
    }
}
