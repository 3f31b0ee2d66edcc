//! Netlists that say the same in another order and with other numbers, and readings of them: theorems for
//! every kind of quantity. Each is the contract of a function, which computes nothing.
#![tactic(auto)]

ghost use Rattle.likeness.specs.Agreeing.{AlikeAgree, PartsAgree, ReadItself, ReadBack, ReadOnward};
ghost use Rattle.likeness.specs.Turning.{AlikeItself, AlikeBack, AlikeOnward};

use quantity::Quantity;

/// Each netlist is alike itself, and being alike leads back, and on from one netlist to a third.
pub fn alike_turns()
    ensures itself { AlikeItself }
    ensures back { AlikeBack }
    ensures onward { AlikeOnward }
{}

/// Readings are read alike as they are, the other way, and on from one netlist to a third.
pub fn readings_turn<K: Quantity>()
    ensures itself { ReadItself K.Quantity.group }
    ensures back { ReadBack K.Quantity.group }
    ensures onward { ReadOnward K.Quantity.group }
{}

/// Readings agree with a netlist exactly if those that are read alike agree with a netlist that is alike.
pub fn alike_agree<K: Quantity>()
    ensures { AlikeAgree K.Quantity.group }
{}

/// And so it is with each part of that: laws, sets of nodes and closed walks.
pub fn parts_agree<K: Quantity>()
    ensures { PartsAgree K.Quantity.group }
{}
