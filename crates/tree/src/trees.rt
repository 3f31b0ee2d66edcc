//! A tree of layers. Each node keeps what its children told where it was made, so that a query goes down one path.
ghost use Rattle.std.specs.Prelude.{◌≡◌, IfOk};
ghost use Rattle.parts.specs.Held.{held};
ghost use Rattle.parts.specs.Single.{single};
ghost use Rattle.series.specs.Series.{series};
ghost use Rattle.side_by_side.specs.Beside.{beside};
ghost use Rattle.repeat.specs.Repeat.{repeated};

use crate::ways::{Asked, Way};
use assembly::Assembly;
use assembly::plans::{PlanRow, PlanTerm, Size};
use layers::halves::Halves;
use netlist::domains::Domain;
use parts::single::Single;
use parts::stored::Stored;
use repeat::copies::Copies;
use std::alloc::{AllocError, Global};
use std::marker::Model;

/// A part, or a layer over trees. It is seen as its meaning and its height. It owns what it holds, but for the
/// tables of a stored plan, which are lent.
#[derive(Drop)]
#[cycle(tree)]
pub struct Tree<'a> {
    node: Node<'a>,
}

// A layer has what it and its parts have, or `None` where it is void.
#[derive(Drop)]
#[cycle(tree)]
enum Node<'a> {
    Stored(Stored<'a>),
    Single(Single),
    Two(Way, Box<Tree<'a>>, Box<Tree<'a>>, Option<Halves>),
    Repeat(Box<Tree<'a>>, usize, Option<Copies>),
}

impl<'a> Model for Tree<'a> {
    ghost use Rattle.tree.specs.Shape.{Shape};

    ghost Value = { Shape };

    ghost use Rattle.tree.specs.Seen.{seen, Keeps};

    ghost view = { λ t. seen t.node };

    ghost invariant = { λ t. Keeps t.node };

    ghost size = { λ t. t.height };

    ghost use Rattle.std.proofs.Common.{arith};

    ghost size_decreases = { λ a h. Prim.grind (arith) };
}

impl<'a> Tree<'a> {
    /// A plan in tables.
    pub fn stored(plan: Stored<'a>) -> Tree<'a>
        ensures { result.meaning ≡ held plan.entry }
    {
        Tree {
            node: Node::Stored(plan),
        }
    }

    /// One branch.
    pub fn single(part: Single) -> Tree<'a>
        ensures { result.meaning ≡ single part }
    {
        Tree {
            node: Node::Single(part),
        }
    }

    /// The second tree behind the first.
    pub fn series(heap: Global, first: Tree<'a>, second: Tree<'a>) -> Result<Tree<'a>, AllocError>
        ensures { IfOk result (λ t. t.meaning ≡ series first.entry.meaning second.entry.meaning) }
    {
        let sizes = series::halves(&first, &second);
        let first = Box::new(heap, first)?;
        let second = Box::new(heap, second)?;
        Ok(Tree {
            node: Node::Two(Way::Series, first, second, sizes),
        })
    }

    /// The trees between the same ends.
    pub fn side_by_side(
        heap: Global,
        one: Tree<'a>,
        other: Tree<'a>,
    ) -> Result<Tree<'a>, AllocError>
        ensures { IfOk result (λ t. t.meaning ≡ beside one.entry.meaning other.entry.meaning) }
    {
        let sizes = side_by_side::halves(&one, &other);
        let one = Box::new(heap, one)?;
        let other = Box::new(heap, other)?;
        Ok(Tree {
            node: Node::Two(Way::SideBySide, one, other, sizes),
        })
    }

    /// So many copies of the tree in series.
    pub fn repeat(heap: Global, part: Tree<'a>, times: usize) -> Result<Tree<'a>, AllocError>
        ensures { IfOk result (λ t. t.meaning ≡ repeated times part.entry.meaning) }
    {
        let sizes = repeat::copies_of(&part, times);
        let part = Box::new(heap, part)?;
        Ok(Tree {
            node: Node::Repeat(part, times, sizes),
        })
    }
}

impl<'a> Assembly for Tree<'a> {
    ghost meaning = { λ t. t.meaning };

    fn size(&self) -> Option<Size> {
        match &self.node {
            Node::Stored(plan) => plan.size(),
            Node::Single(part) => part.size(),
            Node::Two(_, _, _, sizes) => Some((*sizes)?.whole),
            Node::Repeat(_, _, sizes) => Some((*sizes)?.whole),
        }
    }

    fn domain(&self, node: usize) -> Option<Domain> {
        match &self.node {
            Node::Stored(plan) => plan.domain(node),
            Node::Single(part) => part.domain(node),
            Node::Two(way, first, second, sizes) => match way.asked((*sizes)?, node) {
                Asked::First(node) => first.domain(node),
                Asked::Second(node) => second.domain(node),
            },
            Node::Repeat(part, _, sizes) => {
                let copies = (*sizes)?;
                if node < 2 {
                    return part.domain(node);
                }
                match copies.spot(copies.part.inner, node - 2) {
                    Some(s) => part.domain(2 + s.place),
                    None if node - 2 < copies.whole.inner => part.domain(1),
                    None => None,
                }
            }
        }
    }

    fn row(&self, k: usize) -> Option<PlanRow> {
        match &self.node {
            Node::Stored(plan) => plan.row(k),
            Node::Single(part) => part.row(k),
            Node::Two(way, first, second, sizes) => {
                let parts = (*sizes)?;
                let before = parts.first.rows;
                if k < before {
                    way.front(parts).row(first.row(k))
                } else {
                    way.back(parts).row(second.row(k - before))
                }
            }
            Node::Repeat(part, _, sizes) => {
                let copies = (*sizes)?;
                let s = copies.spot(copies.part.rows, k)?;
                s.numbers.row(part.row(s.place))
            }
        }
    }

    fn law_len(&self, k: usize) -> Option<usize> {
        match &self.node {
            Node::Stored(plan) => plan.law_len(k),
            Node::Single(part) => part.law_len(k),
            Node::Two(_, first, second, sizes) => {
                let before = (*sizes)?.first.laws;
                if k < before {
                    first.law_len(k)
                } else {
                    second.law_len(k - before)
                }
            }
            Node::Repeat(part, _, sizes) => {
                let copies = (*sizes)?;
                let s = copies.spot(copies.part.laws, k)?;
                part.law_len(s.place)
            }
        }
    }

    fn term(&self, k: usize, t: usize) -> Option<PlanTerm> {
        match &self.node {
            Node::Stored(plan) => plan.term(k, t),
            Node::Single(part) => part.term(k, t),
            Node::Two(way, first, second, sizes) => {
                let parts = (*sizes)?;
                let before = parts.first.laws;
                if k < before {
                    way.front(parts).term(first.term(k, t))
                } else {
                    way.back(parts).term(second.term(k - before, t))
                }
            }
            Node::Repeat(part, _, sizes) => {
                let copies = (*sizes)?;
                let s = copies.spot(copies.part.laws, k)?;
                s.numbers.term(part.term(s.place, t))
            }
        }
    }
}
