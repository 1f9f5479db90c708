//! Orders of values that stand for sets of machine values, and their joins.

ghost use Rattle.std.specs.Prelude.{◌≡◌, ◌↔◌, IsTrue, IsFalse, IfOk, IfErr};
ghost use Rattle.tt_abs.specs.Orders.{Order as OrderOf, IsLeastAbove, OrderLaws};

use thiserror::Error;

/// Two abstract values have no join, since their stacks differ in depth.
#[derive(Clone, Copy, Debug, PartialEq, Eq, Error)]
#[error("depth mismatch")]
pub struct DepthMismatch;

/// Values that stand for sets of machine values: one is below another if the other covers all that
/// the one covers. Neither `below` nor `join` takes memory.
pub trait Order {
    /// The order: its relations, and how often a value can still rise.
    ghost order: { OrderOf Self };

    /// Whether the other value covers all that this one covers.
    fn below(&self, other: &Self) -> bool
        ensures { IsTrue result ↔ order.Below self.now other.now };

    /// Makes this value the least one above both, and returns whether that differs from what it
    /// was.
    ///
    /// # Errors
    /// `DepthMismatch` exactly if the two differ in depth; then this value stays as it is.
    fn join(&mut self, other: &Self) -> Result<bool, DepthMismatch>
        requires mine { order.InRange self.old }
        requires theirs { order.InRange other.now }
        ensures least { IfOk result (λ _. IsLeastAbove order self.old other.now self.new) }
        ensures unchanged { IfOk result (λ changed. IsFalse changed ↔ (self.new ≡ self.old)) }
        ensures one_depth { IfOk result (λ _. order.SameDepth self.old other.now) }
        ensures refused { IfErr result (λ _. order.SameDepth self.old other.now → ⊥) }
        ensures kept { IfErr result (λ _. self.new ≡ self.old) };

    /// The laws, which each order proves.
    ghost laws: { OrderLaws order };
}
