//! A plan in tables, checked once.
ghost use Rattle.std.specs.Prelude.{◌≡◌, true};
ghost use Rattle.parts.specs.Tables.{is_sound};

use super::numbers::domain_of;
use super::tables::Tables;
use assembly::Assembly;
use assembly::plans::{PlanRow, PlanTerm, Size};
use netlist::domains::Domain;

// Tables that were found sound: each law's part lies in the table of terms, and each number of a domain
// names one.
#[derive(Clone, Copy)]
struct SoundTables<'a> {
    tables: Tables<'a>,
    ghost sound: { is_sound tables ≡ true },
}

/// The sound tables of a plan, or none, and then it is void. A query looks at no more of the tables than it
/// tells of.
#[derive(Clone, Copy)]
pub struct Stored<'a> {
    plan: Option<SoundTables<'a>>,
}

impl<'a> Stored<'a> {
    ghost use Rattle.std.specs.Prelude.{false};
    ghost use Rattle.std.specs.Option.{option_copied};
    ghost use Rattle.std.specs.List.{slice_get};
    ghost use Rattle.netlist.specs.Pieces.{flat};
    ghost use Rattle.assembly.specs.Meaning.{is_void, laws_of};
    ghost use Rattle.parts.specs.Tables.{stored};
    ghost use Rattle.parts.specs.Held.{held};

    /// Goes through the tables once. Unless they are void, the laws one after another are the table of
    /// terms: none is left out, and none is in two laws.
    #[tactic(auto, using(crate::proofs::Sound::whole))]
    pub fn new(tables: Tables<'a>) -> Self
        ensures value { held result ≡ stored tables.entry }
        ensures whole { is_void (held result) ≡ false → flat (laws_of (held result)) ≡ tables.entry.terms.now }
    {
        if tables.is_sound() {
            Stored {
                plan: Some(SoundTables { tables }),
            }
        } else {
            Stored { plan: None }
        }
    }

    // The terms of law `k`.
    #[tactic(auto, using(crate::proofs::Sound::law_within, crate::proofs::Sound::law_here))]
    fn law(&self, k: usize) -> Option<&'a [PlanTerm]>
        ensures { option_copied result ≡ slice_get (laws_of (held self.now)) k }
    {
        let tables = self.plan?.tables;
        let part = tables.laws.get(k)?;
        let end = part.offset + part.length;
        Some(&tables.terms[part.offset..end])
    }
}

impl<'a> Assembly for Stored<'a> {
    ghost use Rattle.parts.specs.Held.{held};

    ghost meaning = { held };

    #[tactic(auto, using(crate::proofs::Sound::proper_held))]
    fn size(&self) -> Option<Size> {
        Some(self.plan?.tables.size())
    }

    #[tactic(auto, using(crate::proofs::Sound::inner_here))]
    fn domain(&self, node: usize) -> Option<Domain> {
        let tables = self.plan?.tables;
        match node {
            0 => domain_of(tables.first),
            1 => domain_of(tables.second),
            _ => domain_of(*tables.inner.get(node - 2)?),
        }
    }

    fn row(&self, k: usize) -> Option<PlanRow> {
        self.plan?.tables.rows.get(k).copied()
    }

    fn law_len(&self, k: usize) -> Option<usize> {
        self.law(k).map(|terms| terms.len())
    }

    #[tactic(auto, using(std::proofs::lemmas::Grind::common_steps, std::proofs::lemmas::Option::gets))]
    fn term(&self, k: usize, t: usize) -> Option<PlanTerm> {
        self.law(k)?.get(t).copied()
    }
}
