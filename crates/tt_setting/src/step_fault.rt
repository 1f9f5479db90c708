//! Why an instruction is refused, where its place isn't told with it.

ghost use Rattle.std.specs.Prelude.{◌≡◌};
ghost use Rattle.tt_setting.specs.Refusals.{refusal_at};

use crate::exhausted::Exhausted;
use crate::failed::Failed;
use crate::refusal::Refusal;
use crate::spot::Spot;
use std::alloc::AllocError;
use thiserror::Error;
use tt_code::Reason;

/// Why an instruction is refused at its place, or what it leads to can't be kept.
#[derive(Debug, Drop, Error)]
pub enum StepFault {
    /// A test of the instruction fails.
    #[error(transparent)]
    Refused(Failed),
    /// Memory ran out, which is no fault of the program.
    #[error(transparent)]
    OutOfMemory(AllocError),
}

impl StepFault {
    /// Returns the refusal of the instruction that is at this place.
    pub fn at(self, spot: Spot, offset: u32) -> Refusal
        ensures { result ≡ refusal_at spot offset self }
    {
        match self {
            StepFault::Refused(failed) => Refusal::Refused {
                spot,
                offset,
                failed,
            },
            StepFault::OutOfMemory(_) => Refusal::Exhausted(Exhausted::Memory),
        }
    }
}

impl From<Failed> for StepFault {
    ghost use Rattle.std.specs.Prelude.{◌≡◌};
    ghost use Rattle.tt_setting.specs.declared.step_fault.StepFault.{StepFault};

    ghost from_gives = { λ r e. e ≡ StepFault.Refused r };

    fn from(failed: Failed) -> StepFault {
        StepFault::Refused(failed)
    }
}

impl From<Reason> for StepFault {
    ghost use Rattle.std.specs.Prelude.{◌≡◌};
    ghost use Rattle.tt_setting.specs.declared.failed.Failed.TheVariants.{Only};
    ghost use Rattle.tt_setting.specs.declared.step_fault.StepFault.{StepFault};

    ghost from_gives = { λ r e. e ≡ StepFault.Refused (Only r) };

    fn from(reason: Reason) -> StepFault {
        StepFault::Refused(Failed::Only(reason))
    }
}

impl From<AllocError> for StepFault {
    ghost use Rattle.std.specs.Prelude.{◌≡◌};
    ghost use Rattle.tt_setting.specs.declared.step_fault.StepFault.{StepFault};

    ghost from_gives = { λ r e. e ≡ StepFault.OutOfMemory r };

    fn from(error: AllocError) -> StepFault {
        StepFault::OutOfMemory(error)
    }
}
