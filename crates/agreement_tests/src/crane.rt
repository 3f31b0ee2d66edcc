//! A crane drawn by a list of calls, some of which are refused.
use calls::Call;
use netlist::terms::RawTerm;
use parts::either::Either;
use parts::single::Single;
use repeat::Repeat;

// A branch whose flow is three times its across.
pub(super) const RUNG: Single = Single {
    domain: 1,
    flow: 1,
    across: -3,
    flow_rate: 0,
    across_rate: 0,
};

// Two rungs in a row, with a joint between them.
pub(super) fn ladder() -> Repeat<Single> {
    Repeat::new(RUNG, 2)
}

pub(super) type Part = Either<Single, Repeat<Single>>;

// Twice the flow is the rate of the across.
pub(super) fn law(flow: usize, across: usize) -> [RawTerm; 2] {
    [RawTerm::value(2, flow), RawTerm::rate(-1, across)]
}

// Five calls are refused, by a wrong domain, a node that is not drawn, a taken variable, no terms, and a part
// at a node that is not drawn. Nodes 0 and 1 are drawn and the ladder's joint is node 2. The rows are: a branch
// from 0 to 1, an earth at 1, the rungs from 0 to 2 and from 2 to 1, and a rung from 0 to 1. Laws 1 to 3 are
// those of the rungs.
pub(super) fn calls<'a>(
    law: &'a [RawTerm],
    rung: &'a Part,
    ladder: &'a Part,
) -> [Call<'a, &'a Part>; 13] {
    [
        Call::Node { domain: 1 },
        Call::Node { domain: 9 },
        Call::Node { domain: 1 },
        Call::Variables { count: 4 },
        Call::Branch {
            flow: 0,
            across: 1,
            first: 0,
            second: 1,
        },
        Call::Branch {
            flow: 2,
            across: 3,
            first: 0,
            second: 2,
        },
        Call::Earth {
            flow: 2,
            across: 3,
            node: 1,
        },
        Call::Earth {
            flow: 2,
            across: 3,
            node: 0,
        },
        Call::Law { terms: law },
        Call::Law { terms: &law[..0] },
        Call::Place {
            part: ladder,
            first: 0,
            second: 1,
        },
        Call::Place {
            part: rung,
            first: 0,
            second: 7,
        },
        Call::Place {
            part: rung,
            first: 0,
            second: 1,
        },
    ]
}

// The same crane with other numbers, in another order, rung by rung, and none of these calls is refused. Nodes
// 0 and 1 have changed places.
pub(super) fn calls_again<'a>(law: &'a [RawTerm], rung: Single) -> [Call<'a, Single>; 10] {
    [
        Call::Node { domain: 1 },
        Call::Node { domain: 1 },
        Call::Node { domain: 1 },
        Call::Variables { count: 4 },
        Call::Earth {
            flow: 0,
            across: 1,
            node: 0,
        },
        Call::Place {
            part: rung,
            first: 1,
            second: 0,
        },
        Call::Branch {
            flow: 2,
            across: 3,
            first: 1,
            second: 0,
        },
        Call::Place {
            part: rung,
            first: 1,
            second: 2,
        },
        Call::Place {
            part: rung,
            first: 2,
            second: 0,
        },
        Call::Law { terms: law },
    ]
}
