//! A call with its arguments, and lists of them.
ghost use Rattle.std.specs.Prelude.{◌≡◌, OnErr};
ghost use Rattle.calls.specs.Calls.{entry_of, entered};
ghost use Rattle.calls.specs.Entries.{answer_entry, after_entry};

use crate::refusals::CallRefusal;
use assembly::Assembly;
use draft::Draft;
use netlist::terms::RawTerm;
use place::place;

/// A call with its arguments, as a draft takes them. `A` is an assembly or a reference to one, and so a list may place
/// one assembly many times; where a list mixes kinds, `A` is an `Either` of them.
#[derive(Clone, Copy)]
pub enum Call<'a, A> {
    /// A node of a domain.
    Node {
        domain: u32,
    },
    /// So many variables.
    Variables {
        count: usize,
    },
    /// A branch between two nodes.
    Branch {
        flow: usize,
        across: usize,
        first: usize,
        second: usize,
    },
    /// An earth at a node.
    Earth {
        flow: usize,
        across: usize,
        node: usize,
    },
    /// A law of these terms.
    Law {
        terms: &'a [RawTerm],
    },
    /// An assembly with its ends at two nodes.
    Place {
        part: A,
        first: usize,
        second: usize,
    },
}

/// Makes the call, and tells whether it is refused. What its answer numbers is not told. A call that is refused leaves
/// the draft as it was.
pub fn make<A: Assembly>(draft: &mut Draft, call: &Call<A>) -> Result<(), CallRefusal>
    ensures answer { result ≡ answer_entry draft.old (entry_of A.Assembly.meaning call.now) }
    ensures netlist { draft.new ≡ after_entry draft.old (entry_of A.Assembly.meaning call.now) }
    ensures kept { OnErr result (draft.new ≡ draft.old) }
{
    match call {
        Call::Node { domain } => {
            draft.node(*domain)?;
        }
        Call::Variables { count } => {
            draft.variables(*count)?;
        }
        Call::Branch {
            flow,
            across,
            first,
            second,
        } => {
            draft.branch(*flow, *across, *first, *second)?;
        }
        Call::Earth { flow, across, node } => {
            draft.earth(*flow, *across, *node)?;
        }
        Call::Law { terms } => {
            draft.law(terms)?;
        }
        Call::Place {
            part,
            first,
            second,
        } => {
            place(draft, part, *first, *second)?;
        }
    }
    Ok(())
}

/// Makes the calls in turn, whatever becomes of each.
pub fn run<A: Assembly>(draft: &mut Draft, calls: &[Call<A>])
    ensures { draft.new ≡ entered A.Assembly.meaning draft.old calls.now }
{
    for call in calls {
        let _ = make(draft, call);
    }
}
