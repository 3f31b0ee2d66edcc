//! What a line commands, before it is judged. A domain is any number, which a draft may refuse.
use super::terms::Terms;

/// A call with its arguments, or nothing.
#[derive(Clone, Copy, PartialEq, Eq, Debug)]
pub enum Command {
    /// A node of a domain.
    Node {
        domain: u32,
    },
    /// So many variables.
    Variables {
        count: usize,
    },
    /// A branch between two nodes.
    Branch {
        flow: usize,
        across: usize,
        first: usize,
        second: usize,
    },
    /// An earth at a node.
    Earth {
        flow: usize,
        across: usize,
        node: usize,
    },
    /// A law of these terms.
    Law(Terms),
    /// So many singles in series, between two nodes.
    Repeat {
        domain: u32,
        coefficients: [i64; 4],
        times: usize,
        first: usize,
        second: usize,
    },
    /// A comment or an empty line.
    Nothing,
}
