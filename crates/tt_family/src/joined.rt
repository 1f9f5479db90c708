//! What putting a state makes of the one at its point.

ghost use Rattle.std.specs.Prelude.{◌≡◌, ◌≢◌};
ghost use Rattle.tt_family.specs.Joins.{is_change as is_change_of};

/// What putting a state makes of the one at its point.
#[derive(Clone, Copy, PartialEq, Eq)]
pub enum Joined {
    /// There was none, and now this one is there.
    New,
    /// It has risen.
    Changed,
    /// It is as it was.
    Same,
}

impl Joined {
    /// Returns what a join made of a state that was there: one that has risen, or one that is as it
    /// was.
    pub(crate) fn of(changed: bool) -> Joined
        ensures change { is_change_of result ≡ changed }
        ensures there { result ≢ Joined.New }
    {
        if changed {
            Joined::Changed
        } else {
            Joined::Same
        }
    }

    /// Whether the state at the point is new or has changed.
    pub fn is_change(self) -> bool
        ensures { result ≡ is_change_of self }
    {
        match self {
            Joined::Same => false,
            _ => true,
        }
    }
}
