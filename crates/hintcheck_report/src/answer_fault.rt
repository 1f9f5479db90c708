//! Why a call gives no answer on a font.

ghost use Rattle.std.specs.Prelude.{◌≡◌};
ghost use Rattle.hintcheck_report.specs.AnswerFaults.{fault_of_certificate, font_fault_of, unlimited};
ghost use Rattle.hintcheck_report.specs.declared.answer_fault.AnswerFault.{AnswerFault};
ghost use Rattle.tt_setting.specs.declared.exhausted.Exhausted.{Exhausted as By};

use std::alloc::AllocError;
use thiserror::Error;
use tt_font::FontFault;
use tt_setting::{CertFault, Exhausted};
use tt_stream::PrintFailed;

/// Why there is no answer on a font: no verdict, no certificate, no explanation of a program. What
/// reads no certificate answers no `Form` and no `Read`, what writes none no `Write`, and what
/// explains nothing no `Print`.
#[derive(Clone, Copy, Debug, Drop, Error)]
pub enum AnswerFault {
    /// The font's own fault, or that memory ran out while the font was read.
    #[error(transparent)]
    Font(FontFault),
    /// The bytes are no certificate for the font: the place of the first byte of what is wrong, or
    /// of the certificate's end where that comes too early.
    #[error("certificate form at byte {0}")]
    Form(u64),
    /// The certificate can't be read.
    #[error("read")]
    Read,
    /// The certificate can't be written.
    #[error("write")]
    Write,
    /// The text of an explanation wasn't printed.
    #[error("{0}")]
    Print(PrintFailed),
    /// Memory ran out, or the budget did.
    #[error(transparent)]
    Exhausted(Exhausted),
}

impl AnswerFault {
    /// Returns the fault where the budget was the greatest: no font has so many points, and its end
    /// is told as out of memory.
    pub fn without_budget(self) -> AnswerFault
        ensures { result ≡ unlimited self }
    {
        match self {
            AnswerFault::Exhausted(_) => AnswerFault::Exhausted(Exhausted::Memory),
            fault => fault,
        }
    }

    /// Returns the font's own fault; any other is told as out of memory, as where nothing else is
    /// read or written, and no budget is told.
    pub fn into_font_fault(self) -> FontFault
        ensures { result ≡ font_fault_of self }
    {
        match self {
            AnswerFault::Font(font) => font,
            _ => FontFault::OutOfMemory(AllocError),
        }
    }
}

impl From<FontFault> for AnswerFault {
    ghost from_gives = { λ font fault. fault ≡ AnswerFault.Font font };

    fn from(font: FontFault) -> AnswerFault {
        AnswerFault::Font(font)
    }
}

impl From<CertFault> for AnswerFault {
    ghost from_gives = { λ certificate fault. fault ≡ fault_of_certificate certificate };

    fn from(fault: CertFault) -> AnswerFault {
        match fault {
            CertFault::Form(place) => AnswerFault::Form(place),
            CertFault::Read => AnswerFault::Read,
            CertFault::Write => AnswerFault::Write,
            CertFault::OutOfMemory(_) => AnswerFault::Exhausted(Exhausted::Memory),
        }
    }
}

impl From<PrintFailed> for AnswerFault {
    ghost from_gives = { λ failed fault. fault ≡ AnswerFault.Print failed };

    fn from(failed: PrintFailed) -> AnswerFault {
        AnswerFault::Print(failed)
    }
}

impl From<Exhausted> for AnswerFault {
    ghost from_gives = { λ by fault. fault ≡ AnswerFault.Exhausted by };

    fn from(exhausted: Exhausted) -> AnswerFault {
        AnswerFault::Exhausted(exhausted)
    }
}

impl From<AllocError> for AnswerFault {
    ghost from_gives = { λ error fault. fault ≡ AnswerFault.Exhausted By.Memory };

    fn from(_error: AllocError) -> AnswerFault {
        AnswerFault::Exhausted(Exhausted::Memory)
    }
}
