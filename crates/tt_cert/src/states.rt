//! States of a section: each is made from its parts, and put into a builder.

ghost use Rattle.std.specs.Prelude.{◌≡◌, [], ◌∷◌, ◌++◌, true, length, IfErr, IfOk, OnOk};
ghost use Rattle.tt_setting.specs.Entries.{Ascends};
ghost use Rattle.tt_abs.specs.States.{KeepsRange, state_order};
ghost use Rattle.tt_stream.specs.Reads.{ConsumesBeginning};
ghost use Rattle.tt_cert.specs.Answers.{CountsRead, IsOutOfMemory};
ghost use Rattle.tt_cert.specs.Reading.{entry_after, point_at, state_at, states_at};
ghost use Rattle.tt_cert.specs.Rules.{is_next_point as is_next_point_after, last_point};
ghost use Rattle.tt_cert.specs.Representation.Clauses.{ReadsAs, ReadsBy, ReadsInto, StopsWhole, entries_at};
ghost use Rattle.tt_cert.specs.Representation.SharedCells.{IsLast};

use crate::form::Form;
use crate::lists::{Functions, read_functions, read_storage};
use crate::shared_cells::{LastStack, read_stack};
use crate::units::{read_graphics, read_long, read_pair};
use std::alloc::{AllocError, Global};
use tt_abs::{Cell, State};
use tt_code::Graphics;
use tt_code::kinds::{Pointer, Reference};
use tt_family::Builder;
use tt_setting::{CertFault, StepFault, ZoneCell};
use tt_stream::Source;

/// Sets what is known of the graphics state.
fn set_graphics(state: &mut State, graphics: &Graphics<Cell, ZoneCell>)
    ensures set { state.new ≡ record state.old { graphics = graphics.now } }
    ensures in_range { KeepsRange state.old state.new }
{
    state.set_reference_point(Reference::Rp0, graphics.rp0);
    state.set_reference_point(Reference::Rp1, graphics.rp1);
    state.set_reference_point(Reference::Rp2, graphics.rp2);
    state.set_zone_pointer(Pointer::Zp0, graphics.zp0);
    state.set_zone_pointer(Pointer::Zp1, graphics.zp1);
    state.set_zone_pointer(Pointer::Zp2, graphics.zp2);
    state.set_loop(graphics.loop_number);
}

/// Makes storage cells known, which ascend by index.
///
/// # Errors
/// If memory runs out.
fn store_cells(state: &mut State, cells: &[(u16, i32)]) -> Result<(), AllocError>
    requires empty { state.old.storage ≡ [] }
    requires ascends { Ascends cells.now }
    ensures stored { OnOk result (state.new ≡ record state.old { storage = cells.now }) }
    ensures in_range { KeepsRange state.old state.new }
{
    for &(index, number) in cells {
        state.set_storage(index, Cell::Known(number))?;
    }
    Ok(())
}

/// Makes exactly these functions known, unless they are known already.
///
/// # Errors
/// If memory runs out.
fn set_functions(state: &mut State, functions: &Functions) -> Result<(), AllocError>
    requires ascends { Ascends functions.now.list.items }
    requires same { functions.now.is_same ≡ true
        → state.old.functions ≡ functions.now.list.items }
    ensures set { OnOk result
        (state.new ≡ record state.old { functions = functions.now.list.items }) }
    ensures in_range { OnOk result (KeepsRange state.old state.new) }
{
    if functions.is_same {
        return Ok(());
    }
    state.set_functions(&functions.list)
}

/// Makes known what was read of a state besides its stack; the lists ascend by number.
///
/// # Errors
/// If memory runs out.
fn set_rest(
    state: &mut State,
    graphics: &Graphics<Cell, ZoneCell>,
    functions: &Functions,
    storage: &[(u16, i32)],
) -> Result<(), AllocError>
    requires ascends { Ascends functions.now.list.items }
    requires same { functions.now.is_same ≡ true
        → state.old.functions ≡ functions.now.list.items }
    requires storage { Ascends storage.now }
    ensures set { OnOk result (state.new ≡ record {
      stack = state.old.stack;
      graphics = graphics.now;
      functions = functions.now.list.items;
      storage = storage.now;
    }) }
    ensures in_range { OnOk result (KeepsRange state.old state.new) }
{
    set_graphics(state, graphics);
    set_functions(state, functions)?;
    state.forget_storage();
    store_cells(state, storage)
}

/// The state that was read last, and the lists of which it was made. The next state and its lists
/// reuse their memory.
pub(crate) struct LastState {
    state: State,
    stack: LastStack,
    functions: Functions,
    storage: Vec<(u16, i32)>,
}

// Written out, so that who holds a state that was read proves in one step that its memory is given back.
impl Drop for LastState {
    fn drop(self) {
        let LastState {
            state,
            stack,
            functions,
            storage,
        } = self;
        drop(state);
        drop(stack);
        drop(functions);
        drop(storage);
    }
}

impl LastState {
    /// Makes the state before the first one.
    ///
    /// # Errors
    /// If memory runs out.
    pub(crate) fn new(alloc: Global) -> Result<Self, AllocError>
        ensures { IfOk result (λ last. IsLast last) }
    {
        Ok(LastState {
            state: State::start(alloc, &[])?,
            stack: LastStack::new(alloc),
            functions: Functions::new(alloc),
            storage: Vec::new(alloc),
        })
    }
}

/// Reads a state, without its point, in place of the last one. Returns the place after it.
///
/// # Errors
/// As `decode`.
#[tactic(auto, unfolding(crate::specs::Reading::state_at))]
fn read_state<S: Source>(
    source: &mut S,
    place: u64,
    form: Form,
    last: &mut LastState,
) -> Result<u64, CertFault>
    requires { IsLast last.old }
    ensures reads { ReadsInto last.new.state (state_at form) place result
        (S.remaining source.old) (S.remaining source.new) }
    ensures kept { OnOk result (IsLast last.new) }
    ensures beginning { ConsumesBeginning (S.remaining source.old) (S.remaining source.new) }
    ensures stopped { StopsWhole (state_at form) place result
        (S.remaining source.old) (S.remaining source.new) }
    ensures failures { CountsRead result (S.failures source.old) (S.failures source.new) }
{
    let at = read_stack(source, place, &mut last.state, &mut last.stack)?;
    let (graphics, at) = read_graphics(source, at)?;
    let at = read_functions(source, at, &mut last.functions)?;
    let after = read_storage(source, at, form, &mut last.storage)?;
    set_rest(&mut last.state, &graphics, &last.functions, &last.storage)?;
    Ok(after)
}

/// Whether a state may be at this point: in one of this many contexts, and after the last state's.
fn is_next_point(contexts: u32, last: Option<(u32, u32)>, point: (u32, u32)) -> bool
    ensures { result ≡ is_next_point_after contexts last point }
{
    point.0 < contexts
        && match last {
            Some(last) => last.cmp(&point).is_lt(),
            None => true,
        }
}

/// Reads a state's point, which comes after the last state's: its context and its offset.
///
/// # Errors
/// As `decode`, except that memory doesn't run out.
#[tactic(auto, unfolding(crate::specs::Reading::point_at))]
fn read_point<S: Source>(
    source: &mut S,
    place: u64,
    contexts: u32,
    last: Option<(u32, u32)>,
) -> Result<((u32, u32), u64), CertFault>
    ensures reads { ReadsBy (point_at contexts last) place result
        (S.remaining source.old) (S.remaining source.new) }
    ensures follows { IfOk result (λ r. is_next_point_after contexts last r.0 ≡ true) }
    ensures beginning { ConsumesBeginning (S.remaining source.old) (S.remaining source.new) }
    ensures stopped { StopsWhole (point_at contexts last) place result
        (S.remaining source.old) (S.remaining source.new) }
    ensures failures { CountsRead result (S.failures source.old) (S.failures source.new) }
    ensures memory { IfErr result (λ fault. ¬ IsOutOfMemory fault) }
{
    let ((context, offset), after) = read_pair(source, place)?;
    let point = (u32::from(context), offset);
    if !is_next_point(contexts, last, point) {
        return Err(CertFault::Form(place));
    }
    Ok((point, after))
}

/// Reads a state with its point, which comes after the last state's, in place of the last one.
/// Returns the point, and the place after the state.
///
/// # Errors
/// As `decode`.
fn read_entry<S: Source>(
    source: &mut S,
    place: u64,
    form: Form,
    contexts: u32,
    last: Option<(u32, u32)>,
    state: &mut LastState,
) -> Result<((u32, u32), u64), CertFault>
    requires { IsLast state.old }
    ensures reads { ReadsAs (λ point. (point, state.new.state)) (entry_after form contexts last)
        place result (S.remaining source.old) (S.remaining source.new) }
    ensures follows { IfOk result (λ r. is_next_point_after contexts last r.0 ≡ true) }
    ensures kept { OnOk result (IsLast state.new) }
    ensures beginning { ConsumesBeginning (S.remaining source.old) (S.remaining source.new) }
    ensures stopped { StopsWhole (entry_after form contexts last) place result
        (S.remaining source.old) (S.remaining source.new) }
    ensures failures { CountsRead result (S.failures source.old) (S.failures source.new) }
{
    let (point, at) = read_point(source, place, contexts, last)?;
    let after = read_state(source, at, form, state)?;
    Ok((point, after))
}

/// Puts a state at a point of the builder that comes after all that have states.
///
/// # Errors
/// If memory runs out.
fn add_state(builder: &mut Builder, point: (u32, u32), state: &State) -> Result<(), AllocError>
    requires there { is_next_point_after (length builder.old.contexts)
        (last_point builder.old.states) point ≡ true }
    requires in_range { state_order.InRange state.now }
    ensures added { OnOk result
        (builder.new.states ≡ builder.old.states ++ (point, state.now) ∷ []) }
    ensures contexts { builder.new.contexts ≡ builder.old.contexts }
{
    builder.family_facts();
    builder.order_facts();
    let joined = builder.join_state(point.0, point.1, state);
    builder.order_facts();
    match joined {
        Ok(_) => Ok(()),
        Err(fault) => match fault {
            StepFault::OutOfMemory(error) => Err(error),
            // No state is at the point.
            StepFault::Refused(_) => unreachable!(),
        },
    }
}

/// Reads this many states into a builder that has their contexts and no state; `state` is the one
/// before the first, and becomes the last.
///
/// # Errors
/// As `decode`.
fn read_state_list<S: Source>(
    builder: Builder,
    source: &mut S,
    place: u64,
    form: Form,
    count: u32,
    state: &mut LastState,
) -> Result<(Builder, u64), CertFault>
    requires empty { builder.states ≡ [] }
    requires before { IsLast state.old }
    ensures reads { ReadsAs (λ x. x.states) (entries_at form (length builder.contexts) count)
        place result (S.remaining source.old) (S.remaining source.new) }
    ensures contexts { IfOk result (λ r. r.0.contexts ≡ builder.contexts) }
    ensures kept { OnOk result (IsLast state.new) }
    ensures beginning { ConsumesBeginning (S.remaining source.old) (S.remaining source.new) }
    ensures stopped { StopsWhole (entries_at form (length builder.contexts) count)
        place result (S.remaining source.old) (S.remaining source.new) }
    ensures failures { CountsRead result (S.failures source.old) (S.failures source.new) }
{
    let mut builder = builder;
    let contexts = builder.contexts();
    let mut last = None;
    let mut at = place;
    'states: for _ in 0..count {
        let (point, after) = read_entry(source, at, form, contexts, last, state)?;
        add_state(&mut builder, point, &state.state)?;
        last = Some(point);
        at = after;
    }
    Ok((builder, at))
}

/// Reads the states of a section into a builder that has its contexts and no state; `state` is the
/// one before the first, and becomes the last.
///
/// # Errors
/// As `decode`.
#[tactic(auto, unfolding(crate::specs::Reading::states_at))]
pub(crate) fn read_states<S: Source>(
    builder: Builder,
    source: &mut S,
    place: u64,
    form: Form,
    state: &mut LastState,
) -> Result<(Builder, u64), CertFault>
    requires empty { builder.states ≡ [] }
    requires before { IsLast state.old }
    ensures reads { ReadsAs (λ x. x.states) (states_at form (length builder.contexts))
        place result (S.remaining source.old) (S.remaining source.new) }
    ensures contexts { IfOk result (λ r. r.0.contexts ≡ builder.contexts) }
    ensures kept { OnOk result (IsLast state.new) }
    ensures beginning { ConsumesBeginning (S.remaining source.old) (S.remaining source.new) }
    ensures stopped { StopsWhole (states_at form (length builder.contexts)) place result
        (S.remaining source.old) (S.remaining source.new) }
    ensures failures { CountsRead result (S.failures source.old) (S.failures source.new) }
{
    let (count, at) = read_long(source, place)?;
    read_state_list(builder, source, at, form, count, state)
}
