//! Laws of the definitions by which a font is read (OpenType specification, `glyf`). The function
//! here does nothing: its contract is the laws.

ghost use Rattle.tt_font.specs.Laws.{FindsLeast, ListsComponents, StartsWays, FindsWaysOut};

/// States what the recursive definitions mean. `first_below` finds the least number below a bound
/// that passes a test, if one does. Where a glyph's components come to a last one, they are the
/// only list of components that follows the header; otherwise there is no such list. `starts_chain`
/// says whether a chain of so many components starts from a glyph, and `leads_out` whether one of
/// at most so many ends at a number that is no glyph of the font.
pub fn definitions_hold()
    ensures least { FindsLeast }
    ensures components { ListsComponents }
    ensures chains { StartsWays }
    ensures ways_out { FindsWaysOut }
{}
