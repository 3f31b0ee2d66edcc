//! What the walk test works in.
use netlist::limits::MAX_NODES;
use std::alloc::{AllocError, Global};
use std::marker::Model;

/// Memory for the labels of the earth point and of the nodes of the largest sheet. It is made once, and used
/// again for every set of readings.
#[derive(Drop)]
pub struct Workspace {
    pub(crate) labels: Vec<usize>,
}

// What it holds is of no matter to callers, since each test begins anew: so they see nothing in it.
impl Model for Workspace {
    ghost use Rattle.std.specs.Prelude.{◌≡◌, ◌+◌, ⊤, vec_len};
    ghost use Rattle.netlist.specs.Limits.{most_nodes};

    ghost Value = { ⊤ };

    ghost view = { λ _. tt };

    ghost invariant = { λ workspace. vec_len workspace.labels ≡ most_nodes + 1 };
}

impl Workspace {
    /// Room for the largest sheet, which every later test is run in.
    pub fn new(heap: Global) -> Result<Workspace, AllocError> {
        Ok(Workspace {
            labels: vec![in heap; 0; MAX_NODES + 1]?,
        })
    }
}
