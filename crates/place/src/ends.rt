//! The nodes that an assembly's ends are placed at.
ghost use Rattle.std.specs.Prelude.{◌≡◌, [], ◌∷◌};
ghost use Rattle.netlist.specs.Domains.{domain_number};
ghost use Rattle.draft.specs.Rules.{domain_of};
ghost use Rattle.refusal.specs.Tests.{first_of};
ghost use Rattle.refusal.specs.Answers.{Accepts, Tells};
ghost use Rattle.assembly.specs.Meaning.{Proper};
ghost use Rattle.place.specs.Parts.{judge_void_ends, TellsSize};
ghost use Rattle.place.specs.Place.{node_tests, domain_tests};

use assembly::Assembly;
use assembly::plans::Size;
use draft::Draft;
use draft::settings::Setting;
use netlist::domains::Domain;
use plan_judging::PlaceRefusal;

const FIRST: u8 = 0;

const SECOND: u8 = 1;

// Refuses a void assembly, a node that is not drawn, and one that has another domain than its end. Else it
// answers the size of the plan.
#[tactic(auto, using(crate::proofs::Plans::ends_there))]
pub(crate) fn judge_ends<A: Assembly>(
    draft: &Draft,
    part: &A,
    first: usize,
    second: usize,
) -> Result<Size, PlaceRefusal>
    ensures judged { let m = A.Assembly.meaning part.now in
        TellsSize m (judge_void_ends draft.now (first ∷ second ∷ []) m) result }
    ensures proper { Proper (A.Assembly.meaning part.now) }
{
    let Some(size) = part.size() else {
        return Err(PlaceRefusal::Void);
    };
    let first_end = part.domain(0).unwrap();
    let second_end = part.domain(1).unwrap();
    let first = find_node(draft, first, FIRST)?;
    let second = find_node(draft, second, SECOND)?;
    judge_domain(first, first_end, FIRST)?;
    judge_domain(second, second_end, SECOND)?;
    Ok(size)
}

// The domain of the node given for an end, if it is drawn.
fn find_node(draft: &Draft, node: usize, end: u8) -> Result<Domain, PlaceRefusal>
    ensures { Accepts (first_of (node_tests draft.now.domains end node))
        (λ domain. domain_of draft.now.domains node ≡ domain_number domain) result }
{
    draft.domain(node).ok_or(PlaceRefusal::NoNode { end })
}

// A node that is drawn has the domain of the end placed at it.
fn judge_domain(drawn: Domain, domain: Domain, end: u8) -> Result<(), PlaceRefusal>
    ensures { Tells (first_of (domain_tests (domain_number drawn) domain end)) result }
{
    if drawn != domain {
        return Err(PlaceRefusal::Domain { end });
    }
    Ok(())
}
