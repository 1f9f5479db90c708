//! When a font is safe on the machine with control values. The functions here do nothing: their
//! contracts are the laws.

ghost use Rattle.hintcheck_fonts.specs.SymbolicLaws.{CheckedFontsAreSafe, StrictFontsAreSafe};

/// States that a font whose programs were checked one after another is safe: no run of the machine
/// with control values reaches a fault, of its font program, of its CVT program, or of one of its
/// glyph programs that were checked, as long as no other glyph program is run.
pub fn checked_fonts_are_safe()
    ensures { CheckedFontsAreSafe }
{}

/// States that a font whose programs never fault on the hint machine is safe on the machine with
/// control values: what the strict profile accepts never faults there.
pub fn strict_fonts_are_safe()
    ensures { StrictFontsAreSafe }
{}
