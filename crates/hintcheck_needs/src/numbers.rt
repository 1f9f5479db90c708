//! The numbers of a font that was read.

ghost use Rattle.std.specs.Prelude.{◌≡◌};
ghost use Rattle.hintcheck_needs.specs.Needs.{with_greatest, with_number};

use hintcheck_report::Bound;
use tt_code::Limits;
use tt_font::Font;

/// Gives a font 65,535 in place of each of its numbers. All else stays as it was.
pub(crate) fn raise_numbers(font: &mut Font<'_>)
    ensures { font.new ≡ with_greatest font.old }
{
    let limits = Limits {
        storage: u16::MAX,
        functions: u16::MAX,
        stack: u16::MAX,
        program_size: u16::MAX,
        zones: u16::MAX,
        twilight: u16::MAX,
    };
    font.set_limits(limits, u32::from(u16::MAX));
}

/// Gives a font this number in place of its own. All else stays as it was.
pub(crate) fn replace_number(font: &mut Font<'_>, bound: Bound, number: u16)
    ensures { font.new ≡ with_number font.old bound number }
{
    let limits = bound.limits_with(font.limits(), number);
    let cvt_count = bound.cvt_count_with(font.cvt_count(), number);
    font.set_limits(limits, cvt_count);
}
