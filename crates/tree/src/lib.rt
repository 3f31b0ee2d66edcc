//! Assemblies whose make-up is known at run time alone: a tree, which means what the layers of known type mean.
#![tactic(auto)]

pub mod trees;
mod ways;

pub use trees::Tree;
