//! A verdict is printed, as a line.
ghost use Rattle.std.specs.Prelude.{◌≡◌, ◌++◌, IfOk, OnOk};
ghost use Rattle.answering.specs.Verdicts.{verdict_text};

use checking::Verdict;
use std::alloc::{AllocError, Global};

fn spell_verdict(heap: Global, verdict: Verdict) -> Result<String, AllocError>
    ensures { IfOk result (λ s. s.bytes.items ≡ verdict_text verdict) }
{
    match verdict {
        Verdict::Holds => format!(in heap; "holds\n"),
        Verdict::Law { law } => format!(in heap; "law {law}\n"),
        Verdict::Node { node } => format!(in heap; "node {node}\n"),
        Verdict::Row { row } => format!(in heap; "row {row}\n"),
    }
}

/// Prints the line of the verdict behind what has been printed.
pub fn print_verdict(heap: Global, verdict: Verdict, out: &mut Vec<u8>) -> Result<(), AllocError>
    ensures { OnOk result (out.new.items ≡ out.old.items ++ verdict_text verdict) }
{
    let line = spell_verdict(heap, verdict)?;
    out.extend_from_slice(line.as_bytes())
}
