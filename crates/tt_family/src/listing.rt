//! The listing of a certificate: whether it lists the state of every point, or leaves out those
//! that a filling adds.

ghost use Rattle.tt_abs.specs.Lines.{EndsAt};
ghost use Rattle.tt_setting.specs.Settings.{setting_of};
ghost use Rattle.tt_family.specs.Fillings.{IsJustAfter, place_of_point};

use tt_setting::{Point, Setting};

/// Whether a certificate lists the state of every point, or leaves out those that a filling adds.
#[derive(Clone, Copy)]
pub enum Listing {
    /// It lists all states.
    Whole,
    /// It may leave out a state that is given by the state at the point just before, and by no
    /// other.
    Sparse,
}

/// Returns `end`, the offset at which the point's instruction ends, if a filling may add a state
/// there: not at the main program's end.
pub fn added_after(setting: &Setting<'_>, point: &Point<'_>, end: u32) -> Option<u32>
    requires { EndsAt (setting_of setting.now) (place_of_point point.now) end }
    ensures { IsJustAfter (setting_of setting.now) (place_of_point point.now) result }
{
    if setting.is_end(point, end) {
        None
    } else {
        Some(end)
    }
}
