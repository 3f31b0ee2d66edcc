//! Two assemblies to make layers of.
ghost use Rattle.assembly_tests.specs.ExampleParts.{coupler, nothing};

use assembly::Assembly;
use assembly::plans::{PlanRow, PlanTerm, Size};
use netlist::domains::Domain;

/// An inner node of the second end's domain, a branch to it from the first end, a row that names a node
/// and a variable that are not there, and a law of one term.
#[derive(Clone, Copy)]
pub(super) struct Coupler {
    pub(super) first: Domain,
    pub(super) second: Domain,
}

impl Assembly for Coupler {
    ghost meaning = { coupler };

    fn size(&self) -> Option<Size> {
        Some(Size {
            ends: 2,
            inner: 1,
            variables: 2,
            rows: 2,
            laws: 1,
        })
    }

    fn domain(&self, node: usize) -> Option<Domain> {
        match node {
            0 => Some(self.first),
            1 | 2 => Some(self.second),
            _ => None,
        }
    }

    fn row(&self, k: usize) -> Option<PlanRow> {
        match k {
            0 => Some(PlanRow::Branch {
                flow: 0,
                across: 1,
                first: 0,
                second: 2,
            }),
            1 => Some(PlanRow::Earth {
                flow: 1,
                across: 2,
                node: 3,
            }),
            _ => None,
        }
    }

    fn law_len(&self, k: usize) -> Option<usize> {
        (k == 0).then_some(1)
    }

    fn term(&self, k: usize, t: usize) -> Option<PlanTerm> {
        match (k, t) {
            (0, 0) => Some(PlanTerm::rate(5, 1)),
            _ => None,
        }
    }
}

/// A void assembly.
#[derive(Clone, Copy)]
pub(super) struct Nothing;

impl Assembly for Nothing {
    ghost meaning = { nothing };

    fn size(&self) -> Option<Size> {
        None
    }

    fn domain(&self, _node: usize) -> Option<Domain> {
        None
    }

    fn row(&self, _k: usize) -> Option<PlanRow> {
        None
    }

    fn law_len(&self, _k: usize) -> Option<usize> {
        None
    }

    fn term(&self, _k: usize, _t: usize) -> Option<PlanTerm> {
        None
    }
}
