//! The limits that a font sets (OpenType specification, `maxp`).

ghost use Rattle.std.specs.Prelude.{◌≡◌, ◌≤◌, length, IfOk, OnOk};
ghost use Rattle.tt_font.specs.Conditions.{Tests, maxp_fault};
ghost use Rattle.tt_font.specs.Maxp.{limits_of};

use crate::fault::FontFault;
use crate::numbers::{u16_at, u32_at};
use crate::tag::Tag;
use tt_code::Limits;

/// Reads the limits from the bytes of a `maxp` table (OpenType specification, `maxp`). A table of
/// version 1.0 has 32 bytes, and a longer one is accepted. Takes no memory.
///
/// # Errors
///
/// `TableOutside` where the table is too short, `MaxpVersion` where it isn't of version 1.0.
#[tactic(auto, unfolding(crate::specs::Conditions::maxp_fault))]
pub fn read_maxp(maxp: &[u8]) -> Result<Limits, FontFault>
    ensures fault { Tests (maxp_fault maxp.now) result }
    ensures limits { IfOk result (λ limits. limits ≡ limits_of maxp.now) }
    ensures whole { OnOk result (32 ≤ length maxp.now) }
{
    // `version` has 4 bytes; the table of version 1.0 has 32.
    if maxp.len() < 4 {
        return Err(FontFault::TableOutside(Tag::Maxp));
    }
    if u32_at(maxp, 0) != 0x10000 {
        return Err(FontFault::MaxpVersion);
    }
    if maxp.len() < 32 {
        return Err(FontFault::TableOutside(Tag::Maxp));
    }
    // `maxZones`, `maxTwilightPoints`, `maxStorage`, `maxFunctionDefs`, `maxStackElements` and
    // `maxSizeOfInstructions`; `maxInstructionDefs`, at offset 22, isn't read.
    Ok(Limits {
        zones: u16_at(maxp, 14),
        twilight: u16_at(maxp, 16),
        storage: u16_at(maxp, 18),
        functions: u16_at(maxp, 20),
        stack: u16_at(maxp, 24),
        program_size: u16_at(maxp, 26),
    })
}
