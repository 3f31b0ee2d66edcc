//! The mathematics of readings, for every kind of quantity: walks along rows, potentials, and what flows
//! out of sets of nodes. Each theorem is the contract of a function, which computes nothing.
#![tactic(auto)]

ghost use Rattle.network.specs.Flows.{FlowIsExcess, SetsKeepAsNodes};
ghost use Rattle.network.specs.Walks.{WalksAddToDifferences, PotentialsCloseWalks, ClosingHasPotentials};

use quantity::Quantity;

/// Potentials that satisfy the rows make each walk add up to the difference of its ends' potentials.
pub fn walks_add_to_differences<K: Quantity>()
    ensures { WalksAddToDifferences K.Quantity.group }
{}

/// So every closed walk adds up to zero.
pub fn potentials_close_walks<K: Quantity>()
    ensures { PotentialsCloseWalks K.Quantity.group }
{}

/// Where every closed walk adds up to zero there are potentials, and just one filling with the earth and the
/// lowest node of each part without an earth at zero.
pub fn closing_has_potentials<K: Quantity>()
    ensures { ClosingHasPotentials K.Quantity.group }
{}

/// What flows out of a set is what flows out of its nodes one by one, added up.
pub fn flow_is_excess<K: Quantity>()
    ensures { FlowIsExcess K.Quantity.group }
{}

/// Every set of nodes has net flow zero exactly when every node has.
pub fn sets_keep_as_nodes<K: Quantity>()
    ensures { SetsKeepAsNodes K.Quantity.group }
{}
