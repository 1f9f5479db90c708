//! Why a program is refused, and where.

ghost use Rattle.std.specs.Prelude.{◌≡◌};
ghost use Rattle.tt_setting.specs.Refusals.{IsOfNoBudget, told_reason, unlimited};
ghost use Rattle.tt_setting.specs.declared.failed.Failed.TheVariants.{Only};

use crate::exhausted::Exhausted;
use crate::failed::Failed;
use crate::spot::Spot;
use std::alloc::AllocError;
use thiserror::Error;
use tt_code::Reason;

/// Why a program isn't accepted: it is refused by the finder, since no family is good for it, or by
/// the check, since its certificate's family isn't; or the work ended without an answer.
#[derive(Debug, Drop, Error)]
pub enum Refusal {
    /// What is broken first, and where: in which program, and at which offset there. An offset
    /// above 4,294,967,295 is given as that number.
    #[error("{failed}")]
    Refused {
        spot: Spot,
        offset: u32,
        failed: Failed,
    },
    /// Memory ran out, or the budget did.
    #[error(transparent)]
    Exhausted(Exhausted),
}

impl Refusal {
    /// Returns the refusal for this reason at an offset of the program that runs, outside all
    /// functions.
    pub fn in_main(offset: u32, reason: Reason) -> Refusal
        ensures { result ≡ Refusal.Refused Spot.Main offset (Only reason) }
    {
        Refusal::Refused {
            spot: Spot::Main,
            offset,
            failed: Failed::Only(reason),
        }
    }

    /// Returns the reason for which the program is refused, if it is.
    pub fn reason(&self) -> Option<Reason>
        ensures { result ≡ told_reason self.now }
    {
        match self {
            Refusal::Refused { failed, .. } => Some(failed.reason()),
            Refusal::Exhausted(_) => None,
        }
    }

    /// Returns the same answer of work that has no budget: the end of the greatest one is told as
    /// out of memory.
    pub fn without_budget(self) -> Refusal
        ensures same { result ≡ unlimited self }
        ensures within { IsOfNoBudget result }
    {
        match self {
            Refusal::Exhausted(_) => Refusal::Exhausted(Exhausted::Memory),
            refusal => refusal,
        }
    }
}

impl From<Exhausted> for Refusal {
    ghost use Rattle.std.specs.Prelude.{◌≡◌};
    ghost use Rattle.tt_setting.specs.declared.refusal.Refusal.{Refusal};

    ghost from_gives = { λ r e. e ≡ Refusal.Exhausted r };

    fn from(exhausted: Exhausted) -> Refusal {
        Refusal::Exhausted(exhausted)
    }
}

impl From<AllocError> for Refusal {
    ghost use Rattle.std.specs.Prelude.{◌≡◌};
    ghost use Rattle.tt_setting.specs.declared.exhausted.Exhausted.{Exhausted as Reason};
    ghost use Rattle.tt_setting.specs.declared.refusal.Refusal.{Refusal};

    ghost from_gives = { λ r e. e ≡ Refusal.Exhausted Reason.Memory };

    fn from(_error: AllocError) -> Refusal {
        Refusal::Exhausted(Exhausted::Memory)
    }
}
