//! What an abstract state becomes by the instruction at its place.

ghost use Rattle.std.specs.Prelude.{◌≡◌, IfErr, IfOk, false};
ghost use Rattle.tt_abs.specs.Covers.{has_body_twice};
ghost use Rattle.tt_abs.specs.Failures.{IsTold};
ghost use Rattle.tt_setting.specs.Refusals.{ForFailed};
ghost use Rattle.tt_abs.specs.Moves.{GivesByMachines, IsRefusedByMachines, IsStepRefusedFor, StepsTo};
ghost use Rattle.tt_setting.specs.Settings.{StartsAt};
ghost use Rattle.tt_setting.specs.Settings.{frames_of, setting_of};
ghost use Rattle.tt_abs.specs.States.{abstract_of, state_order};
ghost use Rattle.tt_abs.specs.Successors.{AreInRange, IsRefusalBy, LeadTo, PassMachinesTo, RefuseMachines, TellsRefusal};

use crate::instruction::step;
use crate::moves::{Move, Moves};
use crate::state::State;
use tt_setting::{Point, Refusal, Setting, StepFault};

/// A way on, and what is known of the machine's state there.
#[derive(Drop)]
pub struct Successor {
    /// How the place changes.
    pub way: Move,
    /// What is known of the machine's state there.
    pub state: State,
}

/// Where a program goes on, and what is known of the machine's state at each place.
#[derive(Drop)]
pub enum Successors {
    /// To one place.
    One(Successor),
    /// To one of two offsets of the same body, the smaller one first.
    Two(Successor, Successor),
}

/// The ways on, and what is known of the machine's state wherever they lead.
#[derive(Drop)]
struct Moved {
    moves: Moves,
    state: State,
}

/// Computes what a copy of an abstract state becomes by the instruction that starts at the point,
/// as `transfer` does, with one state for all ways.
///
/// # Errors
/// `Refused` with the first test of the instruction that fails; `OutOfMemory`.
fn step_copy(setting: &Setting<'_>, point: &Point<'_>, state: &State) -> Result<Moved, StepFault>
    requires starts { StartsAt setting.now point.now }
    requires once { has_body_twice (frames_of point.now) ≡ false }
    requires in_range { state_order.InRange state.now }
    ensures outcome { IfOk result
        (λ s. StepsTo setting.now point.now state.now s.state s.moves) }
    ensures gives { IfOk result
        (λ s. GivesByMachines setting.now point.now state.now s.state s.moves) }
    ensures in_range { IfOk result (λ s. state_order.InRange s.state) }
    ensures reason { IfErr result (IsStepRefusedFor setting.now point.now state.now) }
    ensures told { IfErr result (λ e. ForFailed e
        (IsTold (setting_of setting.now) (frames_of point.now) point.now.offset
        (abstract_of state.now))) }
    ensures refused { IfErr result (IsRefusedByMachines setting.now point.now state.now) }
{
    prove!(setting.program(point).len() < 1 << 31);
    let mut next = state.copy()?;
    let moves = step(setting, point, &mut next)?;
    Ok(Moved { moves, state: next })
}

/// Computes what an abstract state becomes by the instruction that starts at the point, in the
/// point's body. The state is refused exactly if one of the machine states that it covers faults
/// there or comes to have two open calls of one body, or if these come to more lists of calls than
/// a program may have. Otherwise there is a way to each place to which one of them comes by the
/// instruction, and the state given with it is the smallest that covers those there.
///
/// # Errors
/// `Refused` with the point's place and the first test of the instruction that fails, read on
/// cells; `Exhausted` where memory ran out.
pub fn transfer(
    setting: &Setting<'_>,
    point: &Point<'_>,
    state: &State,
) -> Result<Successors, Refusal>
    requires starts { StartsAt setting.now point.now }
    requires once { has_body_twice (frames_of point.now) ≡ false }
    requires in_range { state_order.InRange state.now }
    ensures outcome { IfOk result (LeadTo setting.now point.now state.now) }
    ensures gives { IfOk result (PassMachinesTo setting.now point.now state.now) }
    ensures in_range { IfOk result AreInRange }
    ensures reason { IfErr result (IsRefusalBy setting.now point.now state.now) }
    ensures told { IfErr result (TellsRefusal setting.now point.now state.now) }
    ensures refused { IfErr result (RefuseMachines setting.now point.now state.now) }
{
    match step_copy(setting, point, state) {
        Ok(
            Moved {
                moves: Moves::One(way),
                state,
            },
        ) => Ok(Successors::One(Successor { way, state })),
        Ok(
            Moved {
                moves: Moves::Two(offset, other),
                state,
            },
        ) => {
            let first = Successor {
                way: Move::To(offset),
                state: state.copy()?,
            };
            let way = Move::To(other);
            Ok(Successors::Two(first, Successor { way, state }))
        }
        Err(fault) => Err(fault.at(point.spot(), point.offset)),
    }
}
