//! The check of a certificate: whether its family is good for a program, or can be filled up to a
//! good one.

ghost use Rattle.std.specs.Prelude.{◌≡◌, ◌↔◌, ◌<◌, ◌^◌, [], None, IfOk, IfErr, IsFalse, IsTrue, OnOk, length};
ghost use Rattle.std.specs.List.{All};
ghost use Rattle.tt_setting.specs.Entries.{Ascends};
ghost use Rattle.tt_abs.specs.Families.{CoversAt};
ghost use Rattle.tt_abs.specs.Lines.{EndsAt};
ghost use Rattle.tt_setting.specs.Refusals.{IsOfNoBudget};
ghost use Rattle.tt_setting.specs.Settings.{setting_of};
ghost use Rattle.tt_abs.specs.States.{state_order};
ghost use Rattle.tt_setting.specs.Budgets.{Counts, IsPaidFor, Spends, TellsBudget};
ghost use Rattle.tt_family.specs.CheckedSubjects.{EndsWellFor, HasGoodFillingFor, HasSafeFillingFor, IsGoodFor, IsGoodListingFor, IsSafeFor, IsSafeListingFor, IsShortFor, NamesBrokenFirst, NamesFillingBrokenFirst, NamesListingBrokenFirst};
ghost use Rattle.tt_family.specs.Representation.Cursors.{IsFoundSoundFor, NamesFirstFor, AreToCome, AreUnlisted, IsLeftOutAfter, IsWalk, IsWalkedThrough, NamesBreak, NamesFirstBreak, PassesPoint, to_come};
ghost use Rattle.tt_family.specs.Checks.{FitOffsetsBefore, IsExhausted, NamesGap};
ghost use Rattle.tt_family.specs.Contents.{family_of};
ghost use Rattle.tt_family.specs.Fillings.{HasOneGoodFilling, place_of_point};
ghost use Rattle.tt_family.specs.GoodFamilies.{HasEnd};

use crate::builder::Builder;
use crate::certificate::Certificate;
use crate::cursor::Cursor;
use crate::listing::{Listing, added_after};
use crate::meeting::{Coverage, check_covered, check_successors};
use crate::states::States;
use std::alloc::Global;
use tt_abs::step_at;
use tt_code::Reason;
use tt_setting::{Budget, Failed, Kind, Point, Refusal, Setting, StepFault};

/// Whether the indexes of these storage cells are below the limit.
fn are_stored_within(stored: &[(u16, i32)], limit: u16) -> bool
    ensures { IsTrue result ↔ All (λ cell. cell.0 < limit) stored.now }
{
    stored.iter().all(|cell| cell.0 < limit)
}

/// Whether the program, if it is a glyph program, has at most maxSizeOfInstructions bytes.
pub fn is_short(setting: &Setting<'_>) -> bool
    ensures { IsTrue result ↔ IsShortFor setting.now }
{
    match setting.kind {
        Kind::Font => true,
        Kind::Cvt => true,
        Kind::Glyph { .. } => setting.main.len() <= u32::from(setting.limits.program_size),
    }
}

/// Whether the main program has a state at its end.
fn has_end(setting: &Setting<'_>, builder: &Builder) -> bool
    ensures { IsTrue result ↔ HasEnd (setting_of setting.now) (family_of builder.now) }
{
    builder.end_functions(setting.main.len()).is_some()
}

/// Whether the program, if it is a font program or a CVT program, has a state at its end.
pub fn ends_well(setting: &Setting<'_>, builder: &Builder) -> bool
    ensures { IsTrue result ↔ EndsWellFor setting.now builder.now }
{
    match setting.kind {
        Kind::Font => has_end(setting, builder),
        Kind::Cvt => has_end(setting, builder),
        Kind::Glyph { .. } => true,
    }
}

/// Checks that the state with which the walk begins is covered at the program's start, and notes in
/// the walk whether the first listed state is this one, as it mostly is: then nothing is copied.
fn check_start(certificate: &Certificate, walk: &mut Cursor<'_>) -> Result<(), Refusal>
    requires walk { IsWalk certificate.now walk.old }
    requires not_next { IsFalse walk.old.is_next }
    ensures covered { IfOk result (λ _.
        CoversAt state_order (family_of certificate.now) ([], 0) walk.old.made) }
    ensures gap { IfErr result (NamesGap (family_of certificate.now) ⊥ ([], 0) walk.old.made) }
    ensures within { IfErr result IsOfNoBudget }
    ensures walk { IsWalk certificate.now walk.new }
    ensures next { walk.new.next ≡ walk.old.next }
    ensures carried { walk.new.carried ≡ walk.old.carried }
{
    certificate.order_facts();
    match check_covered(certificate, walk.next, 0, 0, &walk.made, false) {
        Ok(Coverage::Next) => walk.is_next = true,
        Ok(_) => {}
        Err(fault) => return Err(fault),
    }
    Ok(())
}

/// Returns the offset just after an instruction, if a state may be left out there: in no whole
/// family, and not at the main program's end.
fn left_out_after(
    setting: &Setting<'_>,
    listing: Listing,
    point: &Point<'_>,
    end: u32,
) -> Option<u32>
    requires { EndsAt (setting_of setting.now) (place_of_point point.now) end }
    ensures { IsLeftOutAfter listing (setting_of setting.now) (place_of_point point.now) result }
{
    match listing {
        Listing::Whole => None,
        Listing::Sparse => added_after(setting, point, end),
    }
}

/// Checks that the walk's state is sound at its point, an offset of the walk's context. What it
/// gives is made in the same memory, and is carried on where it is added just after the point.
fn check_point(
    setting: &Setting<'_>,
    listing: Listing,
    certificate: &Certificate,
    walk: &mut Cursor<'_>,
    offset: u32,
    budget: &mut Budget,
) -> Result<(), Refusal>
    requires walk { IsWalk certificate.now walk.old }
    requires fit { FitOffsetsBefore certificate.now walk.old.context }
    requires in_range { state_order.InRange walk.old.made }
    requires unlisted { AreUnlisted certificate.now walk.old.next walk.old.context offset }
    ensures passed { IfOk result (λ _.
        PassesPoint (setting_of setting.now) listing certificate.now walk.old walk.new offset) }
    ensures broken { IfErr result
        (NamesBreak (setting_of setting.now) listing certificate.now walk.old offset) }
    ensures walk { IfOk result (λ _. IsWalk certificate.now walk.new) }
    ensures next { walk.new.next ≡ walk.old.next }
    ensures context { walk.new.context ≡ walk.old.context }
    ensures within { offset < 2 ^ 32 }
    ensures counted { OnOk result (Counts budget.old budget.new) }
    ensures spends { Spends budget.old budget.new }
    ensures budget { TellsBudget budget.old budget.new result }
{
    budget.spend()?;
    walk.is_next = false;
    walk.carried = None;
    if !are_stored_within(walk.made.stored(), setting.limits.storage) {
        let fault = StepFault::Refused(Failed::Only(Reason::Storage));
        return Err(certificate.builder().refused(walk.context, offset, fault));
    }
    let point = Point {
        frames: walk.frames.as_slice(),
        offset,
    };
    if setting.is_end(&point, offset) {
        return Ok(());
    }
    let step = match step_at(setting, &point, &mut walk.made) {
        Ok(step) => step,
        Err(fault) => return Err(certificate.builder().refused(walk.context, offset, fault)),
    };
    let after = left_out_after(setting, listing, &point, step.end);
    match check_successors(certificate, walk, step.moves, after) {
        Ok(Coverage::Next) => walk.is_next = true,
        Ok(Coverage::Listed) => {}
        Ok(Coverage::Added) => walk.carried = after,
        Err(fault) => return Err(fault),
    }
    Ok(())
}

/// Checks that all points are sound, including those that are left out, by ascending contexts, and
/// by ascending offsets within one. `states` are the listed states after the walk's next one.
fn check_points<'a>(
    setting: &Setting<'_>,
    listing: Listing,
    certificate: &Certificate,
    walk: &mut Cursor<'a>,
    mut states: States<'a>,
    budget: &mut Budget,
) -> Result<(), Refusal>
    requires walk { IsWalk certificate.now walk.old }
    requires to_come { AreToCome certificate.now walk.old.next states }
    requires all { certificate.now.states ≡ to_come walk.old.next states }
    requires carried { walk.old.carried ≡ None }
    ensures sound { IfOk result (λ _.
        IsWalkedThrough (setting_of setting.now) listing certificate.now) }
    ensures broken { IfErr result
        (NamesFirstBreak (setting_of setting.now) listing certificate.now) }
    ensures counted { IfOk result (λ _.
        IsPaidFor budget.old budget.new (length certificate.now.states)) }
    ensures spends { Spends budget.old budget.new }
    ensures budget { TellsBudget budget.old budget.new result }
{
    certificate.order_facts();
    while let Some(offset) = walk.go_on(certificate, &mut states)? {
        if let Err(fault) = check_point(setting, listing, certificate, walk, offset, budget) {
            return Err(fault);
        }
    }
    Ok(())
}

/// Checks that the family is good, or can be filled up to a good one, in the order of the walk.
///
/// # Errors
/// `Refused` with what is broken first; `Exhausted`.
fn check_listed(
    alloc: Global,
    setting: &Setting<'_>,
    listing: Listing,
    certificate: &Certificate,
    budget: &mut Budget,
) -> Result<(), Refusal>
    requires ascends { Ascends setting.now.start.now }
    ensures sound { IfOk result (λ _. IsFoundSoundFor setting.now listing certificate.now) }
    ensures first { IfErr result (NamesFirstFor setting.now listing certificate.now) }
    ensures counted { IfOk result (λ _.
        IsPaidFor budget.old budget.new (length certificate.now.states)) }
    ensures spends { Spends budget.old budget.new }
    ensures budget { TellsBudget budget.old budget.new result }
{
    certificate.order_facts();
    if !is_short(setting) {
        return Err(Refusal::in_main(
            u32::from(setting.limits.program_size),
            Reason::ProgramTooLong,
        ));
    }
    let mut states = certificate.states();
    let mut walk = Cursor::start(alloc, setting.start, states.take_first())?;
    if let Err(fault) = check_start(certificate, &mut walk) {
        return Err(fault);
    }
    if !ends_well(setting, certificate.builder()) {
        return Err(Refusal::in_main(setting.main.len(), Reason::MissingPoint));
    }
    check_points(setting, listing, certificate, &mut walk, states, budget)
}

/// Checks that the family, as it is listed, is good for the program of this setting. In a whole
/// listing no state is left out. In a sparse one the state at a point, other than the main program's
/// end, may be left out where only the state at the point just before leads there: it is then what
/// that one gives, and is checked as if it were listed, but kept only until what it gives is known.
///
/// The first fault in the order of the walk is named: a glyph program longer than
/// maxSizeOfInstructions; a start that isn't covered; a font program or a CVT program without a
/// state at its end; then, by ascending contexts and by ascending offsets within one, a state that
/// lists a storage index that isn't below maxStorage, that is refused at its place, or whose
/// successor isn't covered, the smaller offset first. The contexts may hold any frames: after a
/// call at offset 4,294,967,295 there is no state, and the place after it is named with that
/// offset.
///
/// # Errors
/// `Refused` with what is broken first; `Exhausted`, with `Budget` exactly where more points were to
/// be made than the budget allows.
pub fn check_listing(
    alloc: Global,
    setting: &Setting<'_>,
    listing: Listing,
    certificate: &Certificate,
    budget: &mut Budget,
) -> Result<(), Refusal>
    requires ascends { Ascends setting.now.start.now }
    ensures good { IfOk result (λ _. IsGoodListingFor setting.now listing certificate.now) }
    ensures safe { IfOk result (λ _. IsSafeListingFor setting.now listing certificate.now) }
    ensures exact { IsGoodListingFor setting.now listing certificate.now
        → IfErr result IsExhausted }
    ensures first { IfErr result (NamesListingBrokenFirst setting.now listing certificate.now) }
    ensures counted { IfOk result (λ _.
        IsPaidFor budget.old budget.new (length certificate.now.states)) }
    ensures spends { Spends budget.old budget.new }
    ensures budget { TellsBudget budget.old budget.new result }
{
    setting.range_facts();
    certificate.order_facts();
    check_listed(alloc, setting, listing, certificate, budget)
}

/// Checks that the family itself is good for the program of this setting, with no state left out, as
/// `check_listing` checks a whole listing.
///
/// # Errors
/// `Refused` with what is broken first; `Exhausted` by memory.
pub fn check_full(
    alloc: Global,
    setting: &Setting<'_>,
    certificate: &Certificate,
) -> Result<(), Refusal>
    requires ascends { Ascends setting.now.start.now }
    ensures family { IfOk result (λ _. IsGoodFor setting.now certificate.now) }
    ensures safe { IfOk result (λ _. IsSafeFor setting.now certificate.now) }
    ensures exact { IsGoodFor setting.now certificate.now → IfErr result IsExhausted }
    ensures first { IfErr result (NamesBrokenFirst setting.now certificate.now) }
    ensures within { IfErr result IsOfNoBudget }
{
    let mut budget = Budget::unlimited();
    match check_listing(alloc, setting, Listing::Whole, certificate, &mut budget) {
        Ok(()) => Ok(()),
        Err(fault) => Err(fault.without_budget()),
    }
}

/// Checks that the family, filled up with the states that it leaves out, is good for the program of
/// this setting, which is all that a certificate has to be, as `check_listing` checks a sparse
/// listing.
///
/// # Errors
/// `Refused` with what is broken first; `Exhausted` by memory.
pub fn check(alloc: Global, setting: &Setting<'_>, certificate: &Certificate) -> Result<(), Refusal>
    requires ascends { Ascends setting.now.start.now }
    ensures filling { IfOk result (λ _. HasGoodFillingFor setting.now certificate.now) }
    ensures safe { IfOk result (λ _. HasSafeFillingFor setting.now certificate.now) }
    ensures exact { HasGoodFillingFor setting.now certificate.now → IfErr result IsExhausted }
    ensures first { IfErr result (NamesFillingBrokenFirst setting.now certificate.now) }
    ensures within { IfErr result IsOfNoBudget }
{
    let mut budget = Budget::unlimited();
    match check_listing(alloc, setting, Listing::Sparse, certificate, &mut budget) {
        Ok(()) => Ok(()),
        Err(fault) => Err(fault.without_budget()),
    }
}

/// States that a family has at most one good filling. The function does nothing: its contract is
/// the law.
pub fn one_good_filling()
    ensures { HasOneGoodFilling }
{}
