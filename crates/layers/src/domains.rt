//! Where ends of two parts meet, their domains are compared.
ghost use Rattle.std.specs.Prelude.{◌≡◌};
ghost use Rattle.layers.specs.Layer.{same_domain};

use netlist::domains::Domain;

/// Both nodes are there, and of one domain.
pub fn same_domain(one: Option<Domain>, other: Option<Domain>) -> bool
    ensures { result ≡ same_domain one other }
{
    one.is_some() && one == other
}
