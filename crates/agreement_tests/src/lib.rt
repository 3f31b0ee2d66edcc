//! Tests of the agreement: one crane with a ladder of repeated parts.
#![tactic(auto)]

#[cfg(test)]
mod crane;
#[cfg(test)]
mod tests;
