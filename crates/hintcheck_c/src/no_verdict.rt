//! Why a call has no verdict.

use hintcheck_fonts::{AnswerFault, FontFault};
use tt_collection::CollectionFault;

/// Why there is no verdict.
#[derive(Clone, Copy, Drop)]
pub(crate) enum NoVerdict {
    /// The bytes have no such face, or memory ran out while it was unpacked.
    File(CollectionFault),
    /// There is no answer on the font file.
    Font(AnswerFault),
}

impl From<CollectionFault> for NoVerdict {
    ghost use Rattle.std.specs.Prelude.{◌≡◌};
    ghost use Rattle.hintcheck_c.specs.declared.no_verdict.NoVerdict.TheVariants.{File};

    ghost from_gives = { λ fault why. why ≡ File fault };

    fn from(fault: CollectionFault) -> NoVerdict {
        NoVerdict::File(fault)
    }
}

impl From<AnswerFault> for NoVerdict {
    ghost use Rattle.std.specs.Prelude.{◌≡◌};
    ghost use Rattle.hintcheck_c.specs.declared.no_verdict.NoVerdict.TheVariants.{Font};

    ghost from_gives = { λ fault why. why ≡ Font fault };

    fn from(fault: AnswerFault) -> NoVerdict {
        NoVerdict::Font(fault)
    }
}

impl From<FontFault> for NoVerdict {
    ghost use Rattle.std.specs.Prelude.{◌≡◌};
    ghost use Rattle.hintcheck_report.specs.declared.answer_fault.AnswerFault.TheVariants as answer;
    ghost use Rattle.hintcheck_c.specs.declared.no_verdict.NoVerdict.TheVariants.{Font};

    ghost from_gives = { λ fault why. why ≡ Font (answer.Font fault) };

    fn from(fault: FontFault) -> NoVerdict {
        NoVerdict::Font(AnswerFault::Font(fault))
    }
}
