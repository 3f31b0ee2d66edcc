//! Two assemblies side by side, between the same two ends. All that the layer has is the one
//! part's, and behind it the other's. It is void where a part is, where the domains of an end
//! differ, and where it has too much.
#![tactic(auto)]

ghost use Rattle.std.specs.Prelude.{◌≡◌, MatchOption};
ghost use Rattle.assembly.specs.Meaning.{void};
ghost use Rattle.layers.specs.Told.{told};
ghost use Rattle.layers.specs.Two.{Joins};
ghost use Rattle.side_by_side.specs.Beside.{beside, in_parallel, meet, front_place, back_place, Knows};

use assembly::Assembly;
use assembly::plans::{PlanRow, PlanTerm, Size};
use layers::domains::same_domain;
use layers::halves::Halves;
use layers::pair::Pair;
use layers::renumbering::Renumbering;
use netlist::domains::Domain;
use std::alloc::AllocError;

/// Two parts, and what they told where the layer was made; `None` where the layer is void.
#[derive(Drop)]
pub struct SideBySide<A: Assembly, B: Assembly> {
    one: A,
    other: B,
    sizes: Option<Halves>,
    ghost known: { Knows (A.Assembly.meaning one) (B.Assembly.meaning other) sizes } by { Prim.hlevel told },
}

/// Where the one part's things go.
pub fn front(parts: Halves) -> Renumbering
    ensures { result ≡ front_place parts.first parts.second }
{
    parts.front(0, 1)
}

/// Where the other part's things go.
pub fn back(parts: Halves) -> Renumbering
    ensures { result ≡ back_place parts.first parts.second }
{
    parts.back(0, 1)
}

// Whether each end is of one domain in both parts.
fn ends_meet<A: Assembly, B: Assembly>(one: &A, other: &B) -> bool
    ensures { result ≡ meet (A.Assembly.meaning one.now) (B.Assembly.meaning other.now) }
{
    same_domain(one.domain(0), other.domain(0)) && same_domain(one.domain(1), other.domain(1))
}

/// What two parts and their layer have, or `None` where the layer is void. Asks for two sizes and four domains.
pub fn halves<A: Assembly, B: Assembly>(one: &A, other: &B) -> Option<Halves>
    ensures { Knows (A.Assembly.meaning one.now) (B.Assembly.meaning other.now) result }
{
    let first = one.size()?;
    let second = other.size()?;
    if !ends_meet(one, other) {
        return None;
    }
    Halves::new(first, second, 0)
}

impl<A: Assembly, B: Assembly> SideBySide<A, B> {
    /// Asks the parts for their sizes and the domains that meet, once.
    pub fn new(one: A, other: B) -> Self
        ensures { ⟦<Self as Assembly>⟧.meaning result ≡ beside (A.Assembly.meaning one) (B.Assembly.meaning other) }
    {
        let sizes = halves(&one, &other);
        SideBySide { one, other, sizes }
    }

    /// Takes the layer apart. A layer over a part that may not be dropped ends so.
    pub fn into_parts(self) -> (A, B)
        ensures { ⟦<Self as Assembly>⟧.meaning self
            ≡ beside (A.Assembly.meaning result.0) (B.Assembly.meaning result.1) }
    {
        let SideBySide {
            one,
            other,
            sizes: _,
        } = self;
        (one, other)
    }

    // The parts in their places, or `None` where the layer is void.
    fn pair(&self) -> Option<Pair<'_, A, B>>
        ensures { let whole = beside (A.Assembly.meaning self.now.one) (B.Assembly.meaning self.now.other) in
            MatchOption result (whole ≡ void) (λ pair.
            Joins meet in_parallel (A.Assembly.meaning pair.first.now) (B.Assembly.meaning pair.second.now)
            whole pair.parts pair.front pair.back) }
    {
        let parts = self.sizes?;
        Some(Pair {
            first: &self.one,
            second: &self.other,
            parts,
            front: front(parts),
            back: back(parts),
        })
    }
}

/// A clone has clones of the parts, and asks them anew. Where they are the parts, it is the layer.
impl<A: Assembly + Clone, B: Assembly + Clone> Clone for SideBySide<A, B> {
    ghost is_clone = { λ s t. A.is_clone s.one t.one × B.is_clone s.other t.other
        × (t.one ≡ s.one → t.other ≡ s.other → t ≡ s) };

    ghost is_infallible = { λ s. A.is_infallible s.one × B.is_infallible s.other };

    fn clone(&self) -> Result<Self, AllocError> {
        let one = self.one.clone()?;
        let other = self.other.clone()?;
        let told = halves(&one, &other);
        Ok(SideBySide {
            one,
            other,
            sizes: told,
        })
    }
}

impl<A: Assembly + Copy, B: Assembly + Copy> Copy for SideBySide<A, B> {}

impl<A: Assembly, B: Assembly> Assembly for SideBySide<A, B> {
    ghost meaning = { λ s. beside (A.Assembly.meaning s.one) (B.Assembly.meaning s.other) };

    fn size(&self) -> Option<Size> {
        Some(self.sizes?.whole)
    }

    fn domain(&self, node: usize) -> Option<Domain> {
        self.pair()?.domain(node)
    }

    fn row(&self, k: usize) -> Option<PlanRow> {
        self.pair()?.row(k)
    }

    fn law_len(&self, k: usize) -> Option<usize> {
        self.pair()?.law_len(k)
    }

    fn term(&self, k: usize, t: usize) -> Option<PlanTerm> {
        self.pair()?.term(k, t)
    }
}
