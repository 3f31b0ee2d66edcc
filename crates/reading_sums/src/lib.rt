//! The sums that readings are checked by, for every kind of quantity: of a law, at a node and out of a set of nodes.
#![tactic(auto)]

mod flows;
mod laws;
mod listing;
mod lookup;
mod readings;

pub use flows::{net_flow, node_excess};
pub use laws::{law_sum, value_or_rate};
pub use listing::put_excesses;
pub use lookup::reading;
pub use readings::Readings;
