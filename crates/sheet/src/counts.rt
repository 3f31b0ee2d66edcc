//! How much there is of each thing.
/// How many nodes, variables, rows and laws there are.
#[derive(Clone, Copy, PartialEq, Eq, Debug)]
pub struct Counts {
    pub nodes: usize,
    pub variables: usize,
    pub rows: usize,
    pub laws: usize,
}
