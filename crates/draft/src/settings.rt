//! What rows are judged on.
ghost use Rattle.std.specs.Prelude.{◌≡◌, ℕ, ◌<◌, ◌≤◌, Bool, List, length, MatchOption};
ghost use Rattle.sheet.specs.Asking.{HasDomain};

use netlist::domains::Domain;

/// The nodes and the variables that a row may name, and which of the variables are taken.
pub trait Setting {
    ghost domains: { Self → List ℕ };

    ghost variables: { Self → ℕ };

    ghost taken: { Self → ℕ → Bool };

    /// The domain of a node, if it is drawn.
    fn domain(&self, node: usize) -> Option<Domain>
        ensures { MatchOption result (length (domains self.now) ≤ node)
            (HasDomain (domains self.now) node) };

    /// Whether a variable is taken, if it is drawn.
    fn is_taken(&self, variable: usize) -> Option<bool>
        ensures { MatchOption result (variables self.now ≤ variable)
            (λ b. (variable < variables self.now) × (taken self.now variable ≡ b)) };
}
