//! A draft is accepted: its equations are listed, and readings of it are checked.
ghost use Rattle.netlist.specs.Sound.{Sound};
ghost use Rattle.reading_sums.specs.Given.{given};
ghost use Rattle.calls.specs.Calls.{entered};
ghost use Rattle.checking.specs.Integers.{ExactVerdicts};
ghost use Rattle.agreement.specs.Agreement.{Agreement, SameBuffers};

use assembly::Assembly;
use calls::{Call, run};
use checking::{CheckRefusal, Verdict, check};
use draft::Draft;
use equation::EquationRefusal;
use equation::listing::{Listing, equations};
use netlist::spans::Span;
use netlist::terms::Term;
use quantity::Quantity;
use reading_sums::Readings;
use sheet::Sheet;
use walk_test::Workspace;

/// What a draft comes to.
#[derive(Drop)]
pub struct Acceptance {
    /// The sheet that was issued.
    pub sheet: Sheet,
    /// How many terms and equations were listed, or that a buffer for them is short.
    pub listed: Result<Listing, EquationRefusal>,
    /// The verdict, or that there is not a reading for each variable and a potential for each node.
    pub checked: Result<Verdict, CheckRefusal>,
}

/// Buffers for the equations, and for the potential of each node.
#[derive(Drop)]
pub struct Buffers<'a, K> {
    pub terms: &'a mut [Term],
    pub spans: &'a mut [Span],
    pub potentials: &'a mut [K],
}

/// Makes the calls on a draft, issues it, lists its equations into two buffers, and checks the readings. Of whole
/// numbers from -2^40 to 2^40, the verdict and the potentials are those over the unbounded integers.
pub fn accept<K: Quantity, A: Assembly>(
    mut draft: Draft,
    calls: &[Call<A>],
    readings: Readings<K>,
    buffers: &mut Buffers<K>,
    workspace: &mut Workspace,
) -> Acceptance
    ensures agreement { Agreement K.group (entered A.Assembly.meaning draft calls.now) (given readings.entry)
        buffers.old buffers.new result }
    ensures same { SameBuffers buffers.old buffers.new }
    ensures sound { Sound result.sheet }
    ensures exact { ExactVerdicts }
{
    run(&mut draft, calls);
    let sheet = draft.issue();
    let listed = equations(&sheet, buffers.terms, buffers.spans);
    let checked = check(&sheet, readings, buffers.potentials, workspace);
    Acceptance {
        sheet,
        listed,
        checked,
    }
}
