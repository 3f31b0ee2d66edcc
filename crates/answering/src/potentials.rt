//! The potentials of the nodes are printed, a line each.
ghost use Rattle.std.specs.Prelude.{◌≡◌, ◌++◌, OnOk};
ghost use Rattle.answering.specs.Potentials.{potential_text, potentials_text};

use quantity::Whole;
use std::alloc::{AllocError, Global};

fn print_potential(
    heap: Global,
    node: usize,
    potential: Whole,
    out: &mut Vec<u8>,
) -> Result<(), AllocError>
    ensures { OnOk result (out.new.items ≡ out.old.items ++ potential_text node potential) }
{
    let value = potential.value;
    let line = format!(in heap; "p{node} = {value}\n")?;
    out.extend_from_slice(line.as_bytes())
}

/// Prints the line of each node behind what has been printed.
pub fn print_potentials(
    heap: Global,
    potentials: &[Whole],
    out: &mut Vec<u8>,
) -> Result<(), AllocError>
    ensures { OnOk result (out.new.items ≡ out.old.items ++ potentials_text 0 potentials.now) }
{
    for (node, potential) in potentials.iter().enumerate() {
        print_potential(heap, node, *potential, out)?;
    }
    Ok(())
}
