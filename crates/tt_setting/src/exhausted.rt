//! What ends work without an answer.

use std::alloc::AllocError;
use thiserror::Error;

/// What ended work before it had an answer. It tells nothing of the program.
#[derive(Clone, Copy, Debug, Drop, PartialEq, Eq, Error)]
pub enum Exhausted {
    /// A growth of memory was refused.
    #[error("out of memory")]
    Memory,
    /// One more point was to be made than the budget allows.
    #[error("budget")]
    Budget,
}

impl From<AllocError> for Exhausted {
    ghost use Rattle.std.specs.Prelude.{◌≡◌};
    ghost use Rattle.tt_setting.specs.declared.exhausted.Exhausted.{Exhausted};

    ghost from_gives = { λ r e. e ≡ Exhausted.Memory };

    fn from(_error: AllocError) -> Exhausted {
        Exhausted::Memory
    }
}
