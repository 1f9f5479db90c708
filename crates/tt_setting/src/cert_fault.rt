//! Why a header or a section wasn't read or written.

use std::alloc::{AllocError, AllocFailed};
use thiserror::Error;
use tt_stream::{ReadFailed, WriteFailed};

/// Why a header or a section wasn't read or written, or a file doesn't end where it should. What
/// only reads answers no `Write`, and what only writes neither `Form` nor `Read`.
#[derive(Debug, Drop, Error)]
pub enum CertFault {
    /// The bytes aren't a header or a section, or follow the last section: the place of the first
    /// byte of what breaks a rule, or of the input's end where that comes too early.
    #[error("certificate form at byte {0}")]
    Form(u64),
    /// A read failed.
    #[error("read")]
    Read,
    /// A write failed.
    #[error("write")]
    Write,
    /// Memory ran out.
    #[error("out of memory")]
    OutOfMemory(AllocError),
}

impl From<ReadFailed> for CertFault {
    ghost use Rattle.std.specs.Prelude.{◌≡◌};
    ghost use Rattle.tt_setting.specs.declared.cert_fault.CertFault.TheVariants.{Read};

    ghost from_gives = { λ _ fault. fault ≡ Read };

    fn from(_failed: ReadFailed) -> CertFault {
        CertFault::Read
    }
}

impl From<WriteFailed> for CertFault {
    ghost use Rattle.std.specs.Prelude.{◌≡◌};
    ghost use Rattle.tt_setting.specs.declared.cert_fault.CertFault.TheVariants.{Write};

    ghost from_gives = { λ _ fault. fault ≡ Write };

    fn from(_failed: WriteFailed) -> CertFault {
        CertFault::Write
    }
}

impl From<AllocError> for CertFault {
    ghost use Rattle.std.specs.Prelude.{◌≡◌};
    ghost use Rattle.tt_setting.specs.declared.cert_fault.CertFault.TheVariants.{OutOfMemory};

    ghost from_gives = { λ error fault. fault ≡ OutOfMemory error };

    fn from(error: AllocError) -> CertFault {
        CertFault::OutOfMemory(error)
    }
}

impl<T: Drop> From<AllocFailed<T>> for CertFault {
    ghost use Rattle.std.specs.Prelude.{◌≡◌, alloc_error};
    ghost use Rattle.tt_setting.specs.declared.cert_fault.CertFault.TheVariants.{OutOfMemory};

    ghost from_gives = { λ _ fault. fault ≡ OutOfMemory alloc_error };

    fn from(_failed: AllocFailed<T>) -> CertFault {
        CertFault::OutOfMemory(AllocError)
    }
}
