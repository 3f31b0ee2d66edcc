//! A command is drawn: the call that it names is made.
ghost use Rattle.std.specs.Prelude.{◌≡◌, OnErr};
ghost use Rattle.refusal.specs.Tests.{answer};
ghost use Rattle.sheet_reader.specs.Drawing.{judge_command, after_command, singles};

use assembly::Assembly;
use calls::{Call, CallRefusal, make};
use commands::Command;
use draft::Draft;
use parts::single::Single;
use repeat::Repeat;

// A line places singles in series, and nothing else.
type LineCall<'a> = Call<'a, &'a Repeat<Single>>;

/// Draws what is commanded, or is refused as the call is.
pub fn draw(command: Command, draft: &mut Draft) -> Result<(), CallRefusal>
    ensures answer { result ≡ answer (judge_command draft.old command) tt }
    ensures netlist { draft.new ≡ after_command draft.old command }
    ensures kept { OnErr result (draft.new ≡ draft.old) }
{
    match command {
        Command::Node { domain } => make(draft, &LineCall::Node { domain }),
        Command::Variables { count } => make(draft, &LineCall::Variables { count }),
        Command::Branch {
            flow,
            across,
            first,
            second,
        } => make(
            draft,
            &LineCall::Branch {
                flow,
                across,
                first,
                second,
            },
        ),
        Command::Earth { flow, across, node } => {
            make(draft, &LineCall::Earth { flow, across, node })
        }
        Command::Law(terms) => {
            let terms = terms.as_slice();
            make(draft, &LineCall::Law { terms })
        }
        Command::Repeat {
            domain,
            coefficients,
            times,
            first,
            second,
        } => {
            let part = singles(domain, coefficients, times);
            make(
                draft,
                &LineCall::Place {
                    part: &part,
                    first,
                    second,
                },
            )
        }
        Command::Nothing => Ok(()),
    }
}

// So many of these singles in series.
fn singles(domain: u32, coefficients: [i64; 4], times: usize) -> Repeat<Single>
    ensures { ⟦<Repeat<Single> as Assembly>⟧.meaning result ≡ singles domain coefficients times }
{
    let [flow, across, flow_rate, across_rate] = coefficients;
    let part = Single {
        domain,
        flow,
        across,
        flow_rate,
        across_rate,
    };
    Repeat::new(part, times)
}
