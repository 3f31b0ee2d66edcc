//! What tables tell.
ghost use Rattle.std.specs.Prelude.{◌≡◌, ◌≤◌, length, MatchOption};
ghost use Rattle.netlist.specs.Sound.{Sound};
ghost use Rattle.sheet.specs.Asking.{HasDomain, HasFlag};
ghost use Rattle.sheet.specs.Counting.{counts_of};
ghost use Rattle.sheet.specs.Views.{laws_in};

use crate::counts::Counts;
use crate::tables::Tables;
use crate::views::LawView;
use netlist::domains::Domain;
use netlist::rows::Row;

impl Tables {
    /// How much is drawn, with what every netlist in tables keeps to.
    #[tactic(auto, using(crate::proofs::Whole::tables_sound, crate::proofs::Sizes::node_count))]
    pub fn counts(&self) -> Counts
        ensures value { result ≡ counts_of self.now }
        ensures sound { Sound self.now }
    {
        Counts {
            nodes: self.domains.len(),
            variables: self.taken.len(),
            rows: self.rows.len(),
            laws: self.laws.count(),
        }
    }

    /// The domain of a node, if it is drawn.
    #[tactic(auto, using(crate::proofs::Sizes::node_count))]
    pub fn domain(&self, node: usize) -> Option<Domain>
        ensures { MatchOption result (length self.now.domains ≤ node) (λ d. HasDomain self.now.domains node d) }
    {
        self.domains.get(node).copied()
    }

    /// Whether a row has the variable, if it is drawn.
    pub fn is_taken(&self, variable: usize) -> Option<bool>
        ensures { MatchOption result (self.now.variables ≤ variable) (λ taken. HasFlag self.now variable taken) }
    {
        self.taken.get(variable).copied()
    }

    /// The rows, with what every netlist in tables keeps to.
    #[tactic(auto, using(crate::proofs::Whole::tables_sound))]
    pub fn rows(&self) -> &[Row]
        ensures value { result.now ≡ self.now.rows }
        ensures sound { Sound self.now }
    {
        self.rows.as_slice()
    }

    /// The laws, one after another.
    pub fn laws(&self) -> LawView<'_>
        ensures { laws_in result ≡ self.now.laws }
    {
        self.laws.view()
    }
}
