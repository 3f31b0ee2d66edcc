//! Two assemblies in series: the first part's second end is the second part's first, at a joint. The
//! layer's ends are the first part's first and the second part's second. Its inner nodes are the first
//! part's, the second part's and the joint; its variables, rows and laws the first part's, then the
//! second's. It is void where a part is, where the domains that meet differ, and where it has too much.
#![tactic(auto)]

ghost use Rattle.std.specs.Prelude.{◌≡◌, MatchOption};
ghost use Rattle.assembly.specs.Meaning.{void};
ghost use Rattle.layers.specs.Told.{told};
ghost use Rattle.layers.specs.Two.{Joins};
ghost use Rattle.series.specs.Series.{series, in_series, meet, joint, front_place, back_place, Knows};

use assembly::Assembly;
use assembly::plans::{PlanRow, PlanTerm, Size};
use layers::domains::same_domain;
use layers::halves::Halves;
use layers::pair::Pair;
use layers::renumbering::Renumbering;
use netlist::domains::Domain;
use std::alloc::AllocError;

/// Two parts, and what they told where the layer was made; `None` where the layer is void.
#[derive(Drop)]
pub struct Series<A: Assembly, B: Assembly> {
    first: A,
    second: B,
    sizes: Option<Halves>,
    ghost known: { Knows (A.Assembly.meaning first) (B.Assembly.meaning second) sizes } by { Prim.hlevel told },
}

/// The joint's number: it is the last inner node.
pub fn joint(parts: Halves) -> u16
    ensures { result ≡ joint parts.first parts.second }
{
    (2 + parts.first.inner + parts.second.inner) as u16
}

/// Where the first part's things go.
pub fn front(parts: Halves) -> Renumbering
    ensures { result ≡ front_place parts.first parts.second }
{
    parts.front(0, joint(parts))
}

/// Where the second part's things go.
pub fn back(parts: Halves) -> Renumbering
    ensures { result ≡ back_place parts.first parts.second }
{
    parts.back(joint(parts), 1)
}

/// What two parts and their layer have, or `None` where the layer is void. Asks for two sizes and two domains.
pub fn halves<A: Assembly, B: Assembly>(first: &A, second: &B) -> Option<Halves>
    ensures { Knows (A.Assembly.meaning first.now) (B.Assembly.meaning second.now) result }
{
    let one = first.size()?;
    let other = second.size()?;
    if !same_domain(first.domain(1), second.domain(0)) {
        return None;
    }
    Halves::new(one, other, 1)
}

impl<A: Assembly, B: Assembly> Series<A, B> {
    /// Asks the parts for their sizes and the domains that meet, once.
    pub fn new(first: A, second: B) -> Self
        ensures { ⟦<Self as Assembly>⟧.meaning result ≡ series (A.Assembly.meaning first) (B.Assembly.meaning second) }
    {
        let sizes = halves(&first, &second);
        Series {
            first,
            second,
            sizes,
        }
    }

    /// Takes the layer apart. A layer over a part that may not be dropped ends so.
    pub fn into_parts(self) -> (A, B)
        ensures { ⟦<Self as Assembly>⟧.meaning self
            ≡ series (A.Assembly.meaning result.0) (B.Assembly.meaning result.1) }
    {
        let Series {
            first,
            second,
            sizes: _,
        } = self;
        (first, second)
    }

    // The parts in their places, or `None` where the layer is void.
    fn pair(&self) -> Option<Pair<'_, A, B>>
        ensures { let whole = series (A.Assembly.meaning self.now.first) (B.Assembly.meaning self.now.second) in
            MatchOption result (whole ≡ void) (λ pair.
            Joins meet in_series (A.Assembly.meaning pair.first.now) (B.Assembly.meaning pair.second.now)
            whole pair.parts pair.front pair.back) }
    {
        let parts = self.sizes?;
        Some(Pair {
            first: &self.first,
            second: &self.second,
            parts,
            front: front(parts),
            back: back(parts),
        })
    }
}

/// A clone has clones of the parts, and asks them anew. Where they are the parts, it is the layer.
impl<A: Assembly + Clone, B: Assembly + Clone> Clone for Series<A, B> {
    ghost is_clone = { λ s t. A.is_clone s.first t.first × B.is_clone s.second t.second
        × (t.first ≡ s.first → t.second ≡ s.second → t ≡ s) };

    ghost is_infallible = { λ s. A.is_infallible s.first × B.is_infallible s.second };

    fn clone(&self) -> Result<Self, AllocError> {
        let first = self.first.clone()?;
        let second = self.second.clone()?;
        let told = halves(&first, &second);
        Ok(Series {
            first,
            second,
            sizes: told,
        })
    }
}

impl<A: Assembly + Copy, B: Assembly + Copy> Copy for Series<A, B> {}

impl<A: Assembly, B: Assembly> Assembly for Series<A, B> {
    ghost meaning = { λ s. series (A.Assembly.meaning s.first) (B.Assembly.meaning s.second) };

    fn size(&self) -> Option<Size> {
        Some(self.sizes?.whole)
    }

    fn domain(&self, node: usize) -> Option<Domain> {
        let pair = self.pair()?;
        if node == 1 {
            pair.second.domain(1)
        } else if node == usize::from(joint(pair.parts)) {
            pair.first.domain(1)
        } else {
            pair.domain(node)
        }
    }

    fn row(&self, k: usize) -> Option<PlanRow> {
        self.pair()?.row(k)
    }

    fn law_len(&self, k: usize) -> Option<usize> {
        self.pair()?.law_len(k)
    }

    fn term(&self, k: usize, t: usize) -> Option<PlanTerm> {
        self.pair()?.term(k, t)
    }
}
