//! Why the finder stops.

use std::alloc::AllocError;
use tt_setting::{Exhausted, Refusal};

/// Why the finder stops before it is done.
#[derive(Drop)]
pub(crate) enum Stop {
    /// No family is found.
    Fault(Refusal),
    /// A state is to be kept at an offset over which states have passed. From then on states are
    /// kept there, and the finder starts again.
    Restart,
}

impl From<Refusal> for Stop {
    ghost use Rattle.std.specs.Prelude.{◌≡◌};
    ghost use Rattle.tt_find.specs.declared.stop.Stop.{Stop};

    ghost from_gives = { λ fault stop. stop ≡ Stop.Fault fault };

    fn from(fault: Refusal) -> Stop {
        Stop::Fault(fault)
    }
}

impl From<Exhausted> for Stop {
    ghost use Rattle.std.specs.Prelude.{◌≡◌};
    ghost use Rattle.tt_setting.specs.declared.refusal.Refusal.{Refusal};
    ghost use Rattle.tt_find.specs.declared.stop.Stop.{Stop};

    ghost from_gives = { λ by stop. stop ≡ Stop.Fault (Refusal.Exhausted by) };

    fn from(exhausted: Exhausted) -> Stop {
        Stop::Fault(Refusal::Exhausted(exhausted))
    }
}

impl From<AllocError> for Stop {
    ghost use Rattle.std.specs.Prelude.{◌≡◌};
    ghost use Rattle.tt_setting.specs.declared.exhausted.Exhausted.{Exhausted as By};
    ghost use Rattle.tt_setting.specs.declared.refusal.Refusal.{Refusal};
    ghost use Rattle.tt_find.specs.declared.stop.Stop.{Stop};

    ghost from_gives = { λ error stop. stop ≡ Stop.Fault (Refusal.Exhausted By.Memory) };

    fn from(_error: AllocError) -> Stop {
        Stop::Fault(Refusal::Exhausted(Exhausted::Memory))
    }
}
