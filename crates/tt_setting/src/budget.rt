//! How many points may be made.

ghost use Rattle.std.specs.Prelude.{◌≡◌, ◌↔◌, IsTrue, OnErr, OnOk};
ghost use Rattle.tt_setting.specs.Budgets.{Counts, EndTellsBudget, IsExceeded, Exceeds, made_by, new_budget, unlimited_budget};

use crate::exhausted::Exhausted;

/// A bound on the points that finders and checks make: one is made each time that a state is
/// carried on. It goes from program to program, and from call to call, as long as it is handed on.
#[derive(Clone, Copy)]
pub struct Budget {
    /// How many points may be made in all.
    most: u64,
    /// How many of them are left; None once one more was to be made than may be.
    left: Option<u64>,
}

impl Budget {
    /// Makes a budget of this many points.
    pub fn of(points: u64) -> Budget
        ensures { result ≡ new_budget points }
    {
        Budget {
            most: points,
            left: Some(points),
        }
    }

    /// Makes the greatest budget: at a billion points a second it lasts for 584 years.
    pub fn unlimited() -> Budget
        ensures { result ≡ unlimited_budget }
    {
        Budget::of(u64::MAX)
    }

    /// Returns how many points were made: all that may be, where the budget is exceeded.
    pub fn made(&self) -> u64
        ensures made { result ≡ made_by self.now }
        ensures all { IsExceeded self.now → result ≡ self.now.most }
    {
        match self.left {
            Some(left) => self.most.saturating_sub(left),
            None => self.most,
        }
    }

    /// Whether one more point was to be made than may be.
    pub fn is_exceeded(&self) -> bool
        ensures { IsTrue result ↔ IsExceeded self.now }
    {
        self.left.is_none()
    }

    /// Counts one more point: nothing else does.
    ///
    /// # Errors
    /// `Budget` exactly where as many points were made as may be. Then the budget is exceeded.
    pub fn spend(&mut self) -> Result<(), Exhausted>
        ensures counted { OnOk result (Counts self.old self.new) }
        ensures exceeded { OnErr result (Exceeds self.old self.new) }
        ensures budget { EndTellsBudget self.old self.new result }
    {
        if let Some(left) = &mut self.left {
            if *left > 0 {
                *left -= 1;
                return Ok(());
            }
        }
        self.left = None;
        Err(Exhausted::Budget)
    }
}
