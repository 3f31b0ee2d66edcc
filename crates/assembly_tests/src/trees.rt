//! Trees of layers, and layers in many levels.
use assembly::Assembly;
use assembly::plans::{PlanRow, PlanTerm, Size};
use draft::{Draft, Table};
use netlist::domains::Domain;
use netlist::spans::Span;
use parts::single::Single;
use parts::stored::Stored;
use parts::tables::Tables;
use place::place;
use plan_judging::PlaceRefusal;
use repeat::Repeat;
use series::Series;
use sheet::Counts;
use side_by_side::SideBySide;
use std::alloc::{AllocError, Global};
use std::test::Fail;
use tree::Tree;

const SHAFT: Single = Single {
    domain: 2,
    flow: 1,
    across: -2,
    flow_rate: 0,
    across_rate: 0,
};

const PIPE: Single = Single {
    domain: 4,
    flow: 1,
    across: 0,
    flow_rate: 0,
    across_rate: 0,
};

// Row `k` of a chain of `n` shafts, whose joints are its inner nodes.
fn link(k: usize, n: usize, first: u32, second: u32) -> Option<PlanRow> {
    let flow = u32::try_from(k.checked_mul(2)?).ok()?;
    (k < n).then_some(PlanRow::Branch {
        flow,
        across: flow.checked_add(1)?,
        first,
        second,
    })
}

fn shafts(copies: usize) -> Option<Size> {
    Some(Size {
        ends: 2,
        inner: copies.checked_sub(1)?,
        variables: copies.checked_mul(2)?,
        rows: copies,
        laws: copies,
    })
}

// So many levels of two copies each.
fn doubled(heap: Global, levels: u32) -> Result<Tree<'static>, AllocError> {
    let mut tree = Tree::single(SHAFT);
    for _ in 0..levels {
        tree = Tree::repeat(heap, tree, 2)?;
    }
    Ok(tree)
}

// Nine levels are 512 shafts, and ten are 1,024, more than a sheet has nodes for.
#[test]
fn ten_levels_of_two(rt: HostRuntime) -> Result<(), Fail> {
    let ten = doubled(rt.alloc(), 10)?;
    assert_eq!(rt; ten.size(), shafts(1024));
    assert_eq!(rt; ten.law_len(1023), Some(2));
    assert_eq!(rt; ten.row(1024), None);
    let nine = doubled(rt.alloc(), 9)?;
    let mut draft = Draft::new(rt.alloc())?;
    draft.node(2)?;
    let table = Table::Nodes;
    assert_eq!(rt;
        place(&mut draft, &ten, 0, 0),
        Err(PlaceRefusal::Limit { table })
    );
    place(&mut draft, &nine, 0, 0)?;
    assert_eq!(rt;
        draft.counts(),
        Counts {
            nodes: 512,
            variables: 1024,
            rows: 512,
            laws: 512,
        }
    );
    Ok(())
}

// The same levels, each a type of its own.
#[test]
fn ten_levels_of_types(rt: HostRuntime) {
    let three = Repeat::new(Repeat::new(Repeat::new(SHAFT, 2), 2), 2);
    let six = Repeat::new(Repeat::new(Repeat::new(three, 2), 2), 2);
    let nine = Repeat::new(Repeat::new(Repeat::new(six, 2), 2), 2);
    let ten = Repeat::new(nine, 2);
    assert_eq!(rt; ten.size(), shafts(1024));
    assert_eq!(rt; ten.law_len(1023), Some(2));
    assert_eq!(rt; ten.row(1024), None);
}

// So many levels, by turns in series and side by side, over two shafts each.
fn balanced(heap: Global, levels: u32) -> Result<Tree<'static>, AllocError> {
    if levels == 0 {
        return Ok(Tree::single(SHAFT));
    }
    let one = balanced(heap, levels - 1)?;
    let other = balanced(heap, levels - 1)?;
    if levels % 2 == 0 {
        Tree::series(heap, one, other)
    } else {
        Tree::side_by_side(heap, one, other)
    }
}

// The levels in series have a joint each: 1, 4, 16 and 64 of them.
#[test]
fn balanced_tree(rt: HostRuntime) -> Result<(), Fail> {
    let tree = balanced(rt.alloc(), 8)?;
    assert_eq!(rt;
        tree.size(),
        Some(Size {
            ends: 2,
            inner: 85,
            variables: 512,
            rows: 256,
            laws: 256,
        })
    );
    assert_eq!(rt; tree.domain(86), Some(Domain::Rotational));
    assert_eq!(rt; tree.domain(87), None);
    assert_eq!(rt; tree.row(256), None);
    let mut draft = Draft::new(rt.alloc())?;
    draft.node(2)?;
    draft.node(2)?;
    place(&mut draft, &tree, 0, 1)?;
    assert_eq!(rt;
        draft.counts(),
        Counts {
            nodes: 87,
            variables: 512,
            rows: 256,
            laws: 256,
        }
    );
    drop(tree);
    Ok(())
}

fn alike<A: Assembly, B: Assembly>(one: &A, other: &B) -> bool {
    one.size() == other.size()
        && (0..40).all(|k| {
            one.row(k) == other.row(k)
                && one.domain(k) == other.domain(k)
                && one.law_len(k) == other.law_len(k)
                && (0..4).all(|t| one.term(k, t) == other.term(k, t))
        })
}

// A tree tells what the layers of the same make-up tell, and stands among them.
#[test]
fn tree_as_layers(rt: HostRuntime) -> Result<(), Fail> {
    let plan = Stored::new(Tables {
        first: 2,
        second: 4,
        inner: &[3, 1],
        variables: 3,
        rows: &[PlanRow::Branch {
            flow: 0,
            across: 2,
            first: 2,
            second: 3,
        }],
        laws: &[Span {
            offset: 0,
            length: 1,
        }],
        terms: &[PlanTerm {
            coefficient: 5,
            order: 1,
            variable: 1,
        }],
    });
    let heap = rt.alloc();
    let chain = Repeat::new(SHAFT, 3);
    let pair = SideBySide::new(&chain, SHAFT);
    let layers = Series::new(&pair, plan);
    let branch = Tree::repeat(heap, Tree::single(SHAFT), 3)?;
    let two = Tree::side_by_side(heap, branch, Tree::single(SHAFT))?;
    let tree = Tree::series(heap, two, Tree::stored(plan))?;
    assert!(rt; !tree.is_void() && alike(&layers, &tree));
    assert!(rt; alike(&Series::new(&layers, PIPE), &Series::new(&tree, PIPE)));
    let (lent, pipe) = Series::new(&tree, PIPE).into_parts();
    assert!(rt; alike(lent, &tree) && alike(&pipe, &PIPE));
    Ok(())
}

#[test]
fn copies_lie_between_joints(rt: HostRuntime) -> Result<(), Fail> {
    let tree = Tree::repeat(rt.alloc(), Tree::single(SHAFT), 3)?;
    assert_eq!(rt; tree.size(), shafts(3));
    assert_eq!(rt; tree.row(0), link(0, 3, 0, 2));
    assert_eq!(rt; tree.row(1), link(1, 3, 2, 3));
    assert_eq!(rt; tree.row(2), link(2, 3, 3, 1));
    assert_eq!(rt; tree.row(3), None);
    Ok(())
}

#[test]
fn void_trees(rt: HostRuntime) -> Result<(), Fail> {
    let heap = rt.alloc();
    let none = Tree::repeat(heap, Tree::single(SHAFT), 0)?;
    assert!(rt; none.is_void());
    let over = Tree::series(heap, none, Tree::single(SHAFT))?;
    assert!(rt; over.is_void());
    assert_eq!(rt; over.row(0), None);
    assert_eq!(rt; over.domain(0), None);
    let apart = Tree::side_by_side(heap, Tree::single(SHAFT), Tree::single(PIPE))?;
    assert!(rt; apart.is_void());
    let many = Tree::repeat(heap, Tree::single(SHAFT), 1000)?;
    assert!(rt; !many.is_void());
    let more = Tree::repeat(heap, many, 7)?;
    assert!(rt; more.is_void());
    assert_eq!(rt; more.law_len(0), None);
    Ok(())
}
