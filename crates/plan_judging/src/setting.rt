//! A plan's own nodes and variables, on which its rows are judged.
ghost use Rattle.std.specs.Prelude.{length, map};
ghost use Rattle.netlist.specs.Domains.{domain_number};
ghost use Rattle.netlist.specs.Flags.{flag_up};
ghost use Rattle.assembly.specs.Meaning.{domains_of};

use assembly::Assembly;
use draft::settings::Setting;
use netlist::domains::Domain;

// `taken` has a flag for each variable, up where one of the rows before has it.
#[derive(Clone, Copy)]
pub(crate) struct PlanSetting<'a, A> {
    pub part: &'a A,
    pub taken: &'a [bool],
}

impl<'a, A: Assembly> Setting for PlanSetting<'a, A> {
    ghost domains = { λ g. map domain_number (domains_of (A.Assembly.meaning g.part.now)) };

    ghost variables = { λ g. length g.taken.now };

    ghost taken = { λ g. flag_up g.taken.now };

    fn domain(&self, node: usize) -> Option<Domain> {
        self.part.domain(node)
    }

    fn is_taken(&self, variable: usize) -> Option<bool> {
        self.taken.get(variable).copied()
    }
}
