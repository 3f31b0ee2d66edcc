//! What the layers share: assemblies that are made of assemblies. A layer gathers what its parts have,
//! part by part, and numbers it anew; a layer with too much of anything is void.
#![tactic(auto)]

pub mod domains;
pub mod halves;
pub mod pair;
pub mod renumbering;
