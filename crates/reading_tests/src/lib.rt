//! Tests of quantities, of the sums of readings, of the walk test, of small readings and of the check.
#![tactic(auto)]

#[cfg(test)]
mod checks;
#[cfg(test)]
mod quantities;
#[cfg(test)]
mod rows;
#[cfg(test)]
mod sheets;
#[cfg(test)]
mod small;
#[cfg(test)]
mod sums;
#[cfg(test)]
mod walks;
