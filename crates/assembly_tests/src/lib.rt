//! Tests of assemblies: of their parts, of layers, and of placing them.
#![tactic(auto)]

mod example_parts;
#[cfg(test)]
mod faults;
#[cfg(test)]
mod layered;
#[cfg(test)]
mod placing;
#[cfg(test)]
mod small_plans;
#[cfg(test)]
mod trees;
