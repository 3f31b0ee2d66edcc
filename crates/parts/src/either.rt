//! One of two assemblies.
ghost use Rattle.parts.specs.Either.{chosen};

use assembly::Assembly;
use assembly::plans::{PlanRow, PlanTerm, Size};
use netlist::domains::Domain;

/// It means what it holds, so that one run can mix assemblies; one `Either` in another mixes three.
/// The kit's crate `either` has such a type too, but only the crate `assembly`
/// could make that an assembly, by the same five matches.
#[derive(Clone, Copy)]
pub enum Either<A, B> {
    One(A),
    Other(B),
}

impl<A: Assembly, B: Assembly> Assembly for Either<A, B> {
    ghost meaning = { λ e. chosen A.Assembly.meaning B.Assembly.meaning e };

    fn size(&self) -> Option<Size> {
        match self {
            Either::One(a) => a.size(),
            Either::Other(b) => b.size(),
        }
    }

    fn domain(&self, node: usize) -> Option<Domain> {
        match self {
            Either::One(a) => a.domain(node),
            Either::Other(b) => b.domain(node),
        }
    }

    fn row(&self, k: usize) -> Option<PlanRow> {
        match self {
            Either::One(a) => a.row(k),
            Either::Other(b) => b.row(k),
        }
    }

    fn law_len(&self, k: usize) -> Option<usize> {
        match self {
            Either::One(a) => a.law_len(k),
            Either::Other(b) => b.law_len(k),
        }
    }

    fn term(&self, k: usize, t: usize) -> Option<PlanTerm> {
        match self {
            Either::One(a) => a.term(k, t),
            Either::Other(b) => b.term(k, t),
        }
    }
}
