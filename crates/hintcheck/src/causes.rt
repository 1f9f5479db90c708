//! The causes of refusal: the refused programs of a font, grouped by reason and place.

use hintcheck_programs::report::{Name, Refused};
use std::alloc::{AllocError, Global};
use std::collections::HashMap;

/// What programs that are refused for one cause have in common: the place, where that is in the font
/// program or in the CVT program, and the reason, by its number.
#[derive(Clone, Copy, PartialEq, Eq, Hash, Drop)]
enum CauseKey {
    /// At this offset of the font program.
    Font(u32, u8),
    /// At this offset of the CVT program.
    Cvt(u32, u8),
    /// In glyph programs, at places of their own.
    Glyphs(u8),
}

/// Returns what the program has in common with those that are refused for the same cause.
fn key_of(refused: &Refused) -> CauseKey {
    let reason = refused.reason.number();
    match refused.place.program {
        Name::Font => CauseKey::Font(refused.place.offset, reason),
        Name::Cvt => CauseKey::Cvt(refused.place.offset, reason),
        Name::Glyph(_) => CauseKey::Glyphs(reason),
    }
}

/// A cause of refusal, with the programs that are refused for it.
#[derive(Drop)]
pub(crate) struct Cause {
    /// The first of them.
    pub(crate) first: Refused,
    /// All of them, in their order.
    pub(crate) programs: Vec<Name>,
}

/// Returns the causes for which these programs are refused, in the order of their first programs.
fn causes_in_order(alloc: Global, refused: &[Refused]) -> Result<Vec<Cause>, AllocError> {
    let mut places = HashMap::new(alloc);
    let mut causes = Vec::new(alloc);
    for one in refused {
        let key = key_of(one);
        let place = match places.get(&key) {
            Some(place) => *place,
            None => {
                let place = causes.len();
                places.insert(key, place)?;
                causes.push(Cause {
                    first: *one,
                    programs: Vec::new(alloc),
                })?;
                place
            }
        };
        if let Some(cause) = causes.get_mut(place) {
            cause.programs.push(one.program)?;
        }
    }
    Ok(causes)
}

/// Returns the causes for which these programs are refused: the most frequent one first, and among
/// equals the one whose first program comes first. The time it takes grows as the number of programs
/// does, and as the number of causes times its logarithm.
///
/// # Errors
/// If memory runs out.
pub(crate) fn causes_of(alloc: Global, refused: &[Refused]) -> Result<Vec<Cause>, AllocError> {
    let mut causes: Vec<Cause> = causes_in_order(alloc, refused)?;
    let count = refused.len();
    causes.sort_by_key(|cause| count.saturating_sub(cause.programs.len()))?;
    Ok(causes)
}
