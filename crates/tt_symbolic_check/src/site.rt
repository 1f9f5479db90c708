//! Where a state is.

ghost use Rattle.std.specs.Prelude.{◌≡◌};
ghost use Rattle.tt_setting.specs.Refusals.{IsOfNoBudget, refusal_at};
ghost use Rattle.tt_setting.specs.declared.failed.Failed.TheVariants.{Only};

use tt_code::Reason;
use tt_setting::{Refusal, Spot, StepFault};
use tt_symbolic_state::state::State;

/// Where a state is: in which program, and at which offset there.
#[derive(Clone, Copy)]
pub struct Site {
    /// The main program, or the program in which the function is that runs.
    pub spot: Spot,
    /// The offset there, in bytes.
    pub offset: u32,
}

/// Where a program starts.
pub const START: Site = Site {
    spot: Spot::Main,
    offset: 0,
};

impl Site {
    /// Returns where the state is.
    pub fn of(state: &State) -> Site {
        let spot = match state.calls.as_slice() {
            [] => Spot::Main,
            [.., call] => Spot::of_body(call.body),
        };
        Site {
            spot,
            offset: state.offset,
        }
    }

    /// Returns the refusal of the instruction at this place.
    pub fn refused(self, fault: StepFault) -> Refusal
        ensures placed { result ≡ refusal_at self.spot self.offset fault }
        ensures within { IsOfNoBudget result }
    {
        fault.at(self.spot, self.offset)
    }
}

/// Returns the refusal of a program that would need more steps than may be made, or more listed
/// states: at its start.
pub fn too_many_steps() -> Refusal
    ensures { result ≡ Refusal.Refused Spot.Main 0 (Only Reason.TooManySteps) }
{
    Refusal::in_main(0, Reason::TooManySteps)
}
