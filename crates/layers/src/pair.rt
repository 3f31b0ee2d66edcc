//! What a layer of two parts gathers from them.
ghost use Rattle.std.specs.Prelude.{◌≡◌, ◌+◌, [], length, slice_index_or};
ghost use Rattle.std.specs.Option.{option_map};
ghost use Rattle.std.specs.List.{slice_get};
ghost use Rattle.assembly.specs.Meaning.{domains_of, rows_of, laws_of};
ghost use Rattle.layers.specs.Joined.{joined_domains, joined_rows, joined_laws};

use super::halves::Halves;
use super::renumbering::Renumbering;
use assembly::Assembly;
use assembly::plans::{PlanRow, PlanTerm};
use netlist::domains::Domain;

/// The two parts of a layer, what they have, and where the things of each go.
pub struct Pair<'a, A: Assembly, B: Assembly> {
    pub first: &'a A,
    pub second: &'a B,
    pub parts: Halves,
    pub front: Renumbering,
    pub back: Renumbering,
    ghost nodes_before: { 2 + parts.first.inner ≡ length (domains_of (A.Assembly.meaning first.now)) },
    ghost rows_before: { parts.first.rows ≡ length (rows_of (A.Assembly.meaning first.now)) },
    ghost laws_before: { parts.first.laws ≡ length (laws_of (A.Assembly.meaning first.now)) },
}

// The parts are only lent, so that a pair may be dropped whatever they are.
impl<A: Assembly, B: Assembly> Drop for Pair<'_, A, B> {
    fn drop(self) {
        let Pair {
            first: _,
            second: _,
            parts: _,
            front: _,
            back: _,
        } = self;
    }
}

impl<A: Assembly, B: Assembly> Pair<'_, A, B> {
    /// The domain of a node of the first part, or behind these of an inner node of the second.
    pub fn domain(&self, node: usize) -> Option<Domain>
        ensures { let m = A.Assembly.meaning self.now.first.now in let n = B.Assembly.meaning self.now.second.now in
            result ≡ slice_get (joined_domains m n) node }
    {
        let inner = self.parts.first.inner;
        if node < 2 + inner {
            self.first.domain(node)
        } else {
            self.second.domain(node - inner)
        }
    }

    /// Row `k`: the first part's rows, and behind them the second's.
    pub fn row(&self, k: usize) -> Option<PlanRow>
        ensures { let m = A.Assembly.meaning self.now.first.now in let n = B.Assembly.meaning self.now.second.now in
            result ≡ slice_get (joined_rows self.now.front self.now.back m n) k }
    {
        let before = self.parts.first.rows;
        if k < before {
            self.front.row(self.first.row(k))
        } else {
            self.back.row(self.second.row(k - before))
        }
    }

    /// The number of terms of law `k`.
    pub fn law_len(&self, k: usize) -> Option<usize>
        ensures { let m = A.Assembly.meaning self.now.first.now in let n = B.Assembly.meaning self.now.second.now in
            result ≡ option_map length (slice_get (joined_laws self.now.front self.now.back m n) k) }
    {
        let before = self.parts.first.laws;
        if k < before {
            self.first.law_len(k)
        } else {
            self.second.law_len(k - before)
        }
    }

    /// Term `t` of law `k`.
    pub fn term(&self, k: usize, t: usize) -> Option<PlanTerm>
        ensures { let m = A.Assembly.meaning self.now.first.now in let n = B.Assembly.meaning self.now.second.now in
            result ≡ slice_get (slice_index_or (joined_laws self.now.front self.now.back m n) k []) t }
    {
        let before = self.parts.first.laws;
        if k < before {
            self.front.term(self.first.term(k, t))
        } else {
            self.back.term(self.second.term(k - before, t))
        }
    }
}
