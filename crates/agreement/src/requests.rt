//! Two drafts are accepted, which may be of one plant.
ghost use Rattle.reading_sums.specs.Given.{given};
ghost use Rattle.agreement.specs.Agreement.{Agreement, BothOrNeither, SameBuffers};
ghost use Rattle.agreement.specs.Requests.{requested};

use crate::accepting::{Acceptance, Buffers, accept};
use assembly::Assembly;
use calls::Call;
use draft::Draft;
use quantity::Quantity;
use reading_sums::Readings;
use walk_test::Workspace;

/// What is accepted with a draft: the calls to make on it, and the readings. The buffers that are lent stand first,
/// since clauses name what is left in them by their place.
#[derive(Drop)]
pub struct Request<'a, 'b, K, A> {
    pub buffers: &'a mut Buffers<'b, K>,
    pub calls: &'a [Call<'a, A>],
    pub readings: Readings<'a, K>,
}

/// Accepts two drafts, whatever assemblies each of them places. If they are of one plant, and its readings are
/// read alike, the check says `Holds` of both or of neither.
pub fn accept_both<K: Quantity, A: Assembly, B: Assembly>(
    draft: Draft,
    first: Request<K, A>,
    other_draft: Draft,
    second: Request<K, B>,
    workspace: &mut Workspace,
) -> (Acceptance, Acceptance)
    ensures first { Agreement K.group (requested A.Assembly.meaning draft first.entry) (given first.entry.readings)
        first.entry.buffers.now first.exit.0.now result.0 }
    ensures first_same { SameBuffers first.entry.buffers.now first.exit.0.now }
    ensures second { Agreement K.group (requested B.Assembly.meaning other_draft second.entry)
        (given second.entry.readings) second.entry.buffers.now second.exit.0.now result.1 }
    ensures second_same { SameBuffers second.entry.buffers.now second.exit.0.now }
    ensures together { BothOrNeither K.group
        (requested A.Assembly.meaning draft first.entry) (given first.entry.readings) result.0
        (requested B.Assembly.meaning other_draft second.entry) (given second.entry.readings) result.1 }
{
    let Request {
        buffers,
        calls,
        readings,
    } = first;
    let one = accept(draft, calls, readings, buffers, workspace);
    let Request {
        buffers,
        calls,
        readings,
    } = second;
    let other = accept(other_draft, calls, readings, buffers, workspace);
    (one, other)
}
