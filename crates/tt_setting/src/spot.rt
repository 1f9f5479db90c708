//! In which program a place is.

ghost use Rattle.std.specs.Prelude.{◌≡◌};
ghost use Rattle.tt_setting.specs.Spots.{spot_of_body};

/// A body of the CVT program is named by its offset plus this.
const CVT_BODIES: u32 = 1 << 31;

/// In which program a place is.
#[derive(Clone, Copy, Debug, PartialEq, Eq)]
pub enum Spot {
    /// In the program that runs, outside all functions.
    Main,
    /// In a function's body in the font program.
    Font,
    /// In a function's body in the CVT program.
    Prep,
}

impl Spot {
    /// Returns in which program a function's body is, by its name.
    pub fn of_body(body: u32) -> Spot
        ensures { result ≡ spot_of_body body }
    {
        if body < CVT_BODIES {
            Spot::Font
        } else {
            Spot::Prep
        }
    }
}
