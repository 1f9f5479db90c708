//! What is asked for, and what comes of it.

use hintcheck_report::{Place, Refused};
use tt_setting::Name;
use tt_symbolic_check::Site;

/// A program, and the site that is asked for.
#[derive(Clone, Copy)]
pub struct Asked {
    pub program: Name,
    /// Where what is known is asked for, if it is: in the program, or in a function that the font
    /// program or the CVT program defines, as this program calls it.
    pub site: Option<Site>,
}

/// Returns the place of a site, as it is printed for the program of this name.
pub(crate) fn place_of(program: Name, site: Site) -> Place {
    Place::at(program, site.spot, site.offset)
}

/// Whether the program that was explained is accepted or refused.
#[derive(Clone, Copy)]
pub enum Explained {
    Accepted,
    /// It is refused so; or one before it is, so that it isn't checked.
    Refused(Refused),
}
