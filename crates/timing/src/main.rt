//! Lists, prints and checks sheets, and places assemblies of many levels. How much that is goes to standard output,
//! and how long it took to standard error.
#![tactic(auto)]

mod layered;
mod plants;
mod reading;

use layered::{ask, place_part};
use netlist::limits::{MAX_LAWS, MAX_NODES, MAX_ROWS};
use parts::single::Single;
use plants::ring;
use reading::{check_zeros, list, print, print_each, walk};
use repeat::Repeat;
use series::Series;
use side_by_side::SideBySide;
use std::alloc::{AllocError, Global};
use tree::Tree;

// From tenth to tenth of the largest sheet.
const GROWTH: [usize; 4] = [1, 2, 5, 10];

const PART: Single = Single {
    domain: 2,
    flow: 1,
    across: -2,
    flow_rate: 3,
    across_rate: -4,
};

// Ten levels of copies: nine of two, and one of one.
fn copies(heap: Global) -> Result<Tree<'static>, AllocError> {
    let mut tree = Tree::single(PART);
    for level in 0..10 {
        let times = if level == 0 { 1 } else { 2 };
        tree = Tree::repeat(heap, tree, times)?;
    }
    Ok(tree)
}

// So many levels of two parts each, which lie in series or side by side.
fn balanced(heap: Global, levels: usize, in_series: bool) -> Result<Tree<'static>, AllocError> {
    let mut trees = Vec::new(heap);
    for _ in 0..1usize << levels.min(8) {
        trees.push(Tree::single(PART))?;
    }
    for _ in 0..levels {
        trees = paired(heap, trees, in_series)?;
    }
    match trees.pop() {
        Some(tree) => Ok(tree),
        None => Ok(Tree::single(PART)),
    }
}

// The trees two by two. One that is left over stays.
fn paired<'a>(
    heap: Global,
    trees: Vec<Tree<'a>>,
    in_series: bool,
) -> Result<Vec<Tree<'a>>, AllocError> {
    let mut pairs = Vec::new(heap);
    let mut waiting = None;
    for tree in trees {
        waiting = match waiting {
            None => Some(tree),
            Some(first) => {
                pairs.push(joined(heap, first, tree, in_series)?)?;
                None
            }
        };
    }
    if let Some(tree) = waiting {
        pairs.push(tree)?;
    }
    Ok(pairs)
}

fn joined<'a>(
    heap: Global,
    first: Tree<'a>,
    second: Tree<'a>,
    in_series: bool,
) -> Result<Tree<'a>, AllocError> {
    if in_series {
        Tree::series(heap, first, second)
    } else {
        Tree::side_by_side(heap, first, second)
    }
}

fn run(rt: &HostRuntime) -> anyhow::Result<()> {
    for tenths in GROWTH {
        let sheet = ring(
            rt.alloc(),
            MAX_NODES / 10 * tenths,
            MAX_ROWS / 10 * tenths,
            MAX_LAWS / 10 * tenths,
        )?;
        list(rt, &sheet)?;
        print(rt, &sheet)?;
        check_zeros(rt, &sheet)?;
    }
    let sheet = ring(rt.alloc(), MAX_NODES, MAX_ROWS, MAX_LAWS)?;
    print_each(rt, &sheet)?;
    walk(rt, &sheet)?;
    place_part(rt, "a ring", &Repeat::new(PART, 1000))?;
    place_part(rt, "ten levels of copies", &copies(rt.alloc())?)?;
    place_part(
        rt,
        "eight levels in series",
        &balanced(rt.alloc(), 8, true)?,
    )?;
    place_part(
        rt,
        "eight levels side by side",
        &balanced(rt.alloc(), 8, false)?,
    )?;
    let two = Series::new(PART, PART);
    let four = SideBySide::new(two, Series::new(PART, PART));
    place_part(
        rt,
        "four levels of types",
        &Repeat::new(Repeat::new(four, 3), 4),
    )?;
    ask(rt, PART, 10)?;
    ask(rt, PART, 1000)
}

fn main(rt: HostRuntime) -> anyhow::Result<()> {
    run(&rt)
}
