//! Copies of one assembly in series: the second end of each copy is the first end of the next, at a joint.
//! The layer's ends are the first end of the first copy and the second end of the last. Its inner nodes are
//! the copies', copy by copy, and then the joints; its variables, rows and laws are the copies', copy by
//! copy. It is void where the part is, where the part's ends differ in domain, where there are not 1 to
//! 1,000 copies, and where it has too much. One copy is a layer too.
#![tactic(auto)]

ghost use Rattle.std.specs.Prelude.{◌≡◌};
ghost use Rattle.layers.specs.Told.{told};
ghost use Rattle.repeat.specs.Repeat.{repeated};
ghost use Rattle.repeat.specs.Repeat.{ToldCopies};

pub mod copies;
pub mod sizes;

use assembly::Assembly;
use assembly::plans::{PlanRow, PlanTerm, Size};
use copies::Copies;
use layers::domains::same_domain;
use netlist::domains::Domain;
use std::alloc::AllocError;

/// A part, how many copies of it, and what it told where the layer was made; `None` where the layer is void.
#[derive(Drop)]
pub struct Repeat<A: Assembly> {
    part: A,
    times: usize,
    sizes: Option<Copies>,
    ghost known: { ToldCopies times (A.Assembly.meaning part) sizes } by { Prim.hlevel told },
}

/// What a copy and the layer have, or `None` where the layer is void. Asks for a size and two domains.
pub fn copies_of<A: Assembly>(part: &A, times: usize) -> Option<Copies>
    ensures { ToldCopies times (A.Assembly.meaning part.now) result }
{
    let size = part.size()?;
    if !same_domain(part.domain(0), part.domain(1)) {
        return None;
    }
    Copies::new(size, times)
}

impl<A: Assembly> Repeat<A> {
    /// Asks the part for its size and the domains of its ends, once.
    pub fn new(part: A, times: usize) -> Self
        ensures { ⟦<Self as Assembly>⟧.meaning result ≡ repeated times (A.Assembly.meaning part) }
    {
        let sizes = copies_of(&part, times);
        Repeat { part, times, sizes }
    }

    /// Takes the layer apart. A layer over a part that may not be dropped ends so.
    pub fn into_part(self) -> (A, usize)
        ensures meaning { repeated result.1 (A.Assembly.meaning result.0) ≡ ⟦<Self as Assembly>⟧.meaning self }
        ensures times { result.1 ≡ self.times }
    {
        let Repeat {
            part,
            times,
            sizes: _,
        } = self;
        (part, times)
    }
}

/// A clone has a clone of the part as many times, and asks it anew. Where that is the part, it is the layer.
impl<A: Assembly + Clone> Clone for Repeat<A> {
    ghost is_clone = { λ s t. A.is_clone s.part t.part × (t.times ≡ s.times) × (t.part ≡ s.part → t ≡ s) };

    ghost is_infallible = { λ s. A.is_infallible s.part };

    fn clone(&self) -> Result<Self, AllocError> {
        let part = self.part.clone()?;
        let told = copies_of(&part, self.times);
        Ok(Repeat {
            part,
            times: self.times,
            sizes: told,
        })
    }
}

impl<A: Assembly + Copy> Copy for Repeat<A> {}

impl<A: Assembly> Assembly for Repeat<A> {
    ghost meaning = { λ s. repeated s.times (A.Assembly.meaning s.part) };

    fn size(&self) -> Option<Size> {
        Some(self.sizes?.whole)
    }

    fn domain(&self, node: usize) -> Option<Domain> {
        let copies = self.sizes?;
        if node < 2 {
            return self.part.domain(node);
        }
        match copies.spot(copies.part.inner, node - 2) {
            Some(s) => self.part.domain(2 + s.place),
            None if node - 2 < copies.whole.inner => self.part.domain(1),
            None => None,
        }
    }

    fn row(&self, k: usize) -> Option<PlanRow> {
        let copies = self.sizes?;
        let s = copies.spot(copies.part.rows, k)?;
        s.numbers.row(self.part.row(s.place))
    }

    fn law_len(&self, k: usize) -> Option<usize> {
        let copies = self.sizes?;
        let s = copies.spot(copies.part.laws, k)?;
        self.part.law_len(s.place)
    }

    fn term(&self, k: usize, t: usize) -> Option<PlanTerm> {
        let copies = self.sizes?;
        let s = copies.spot(copies.part.laws, k)?;
        s.numbers.term(self.part.term(s.place, t))
    }
}
