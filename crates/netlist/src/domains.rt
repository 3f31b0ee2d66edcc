//! Physical domains. Callers name one by its number, from 1 to 4.
ghost use Rattle.std.specs.Prelude.{◌≡◌};
ghost use Rattle.netlist.specs.Domains.{domain_number, IsDomainOf};

/// The physical domain of a node.
#[derive(Clone, Copy, PartialEq, Eq, Debug)]
pub enum Domain {
    Electrical,
    Rotational,
    Translational,
    Hydraulic,
}

/// That no domain has a number.
#[derive(Clone, Copy, PartialEq, Eq, Debug)]
pub struct NoDomain;

impl From<Domain> for u32 {
    ghost from_gives = { λ domain number. number ≡ domain_number domain };

    fn from(domain: Domain) -> u32 {
        match domain {
            Domain::Electrical => 1,
            Domain::Rotational => 2,
            Domain::Translational => 3,
            Domain::Hydraulic => 4,
        }
    }
}

// The domain of this number, if there is one.
impl TryFrom<u32> for Domain {
    type Error = NoDomain;

    ghost try_from_gives = { IsDomainOf };

    fn try_from(number: u32) -> Result<Domain, NoDomain> {
        match number {
            1 => Ok(Domain::Electrical),
            2 => Ok(Domain::Rotational),
            3 => Ok(Domain::Translational),
            4 => Ok(Domain::Hydraulic),
            _ => Err(NoDomain),
        }
    }
}
