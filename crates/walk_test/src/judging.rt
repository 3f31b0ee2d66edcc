//! Whether the walk test can begin.
ghost use Rattle.std.specs.Prelude.{◌≡◌};
ghost use Rattle.walk_test.specs.Drawn.{first_undrawn, judged};

use crate::ends::stands_on;
use crate::findings::Misfit;
use netlist::limits::MAX_NODES;
use netlist::rows::Row;

// The lowest row that names another than the first `nodes` nodes.
fn first_undrawn(rows: &[Row], nodes: usize) -> Option<usize>
    ensures { result ≡ first_undrawn rows.now nodes }
{
    rows.iter().position(|row| !stands_on(*row, nodes))
}

pub(crate) fn judge(rows: &[Row], nodes: usize) -> Result<(), Misfit>
    ensures { result ≡ judged rows.now nodes }
{
    if nodes > MAX_NODES {
        return Err(Misfit::TooMany);
    }
    match first_undrawn(rows, nodes) {
        Some(row) => Err(Misfit::Undrawn { row }),
        None => Ok(()),
    }
}
