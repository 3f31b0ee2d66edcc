//! Reads each example sheet, and readings of it that agree and that do not, and tells whether what is printed is
//! what its file says.
#![tactic(auto)]

use answering::answer;
use printing::print_text;
use std::fs;

struct Example {
    sheet: &'static str,
    printed: &'static str,
}

const EXAMPLES: [Example; 3] = [
    Example {
        sheet: "hoist.sheet",
        printed: "hoist.out",
    },
    Example {
        sheet: "trolley.sheet",
        printed: "trolley.out",
    },
    Example {
        sheet: "travel.sheet",
        printed: "travel.out",
    },
];

struct ReadExample {
    sheet: &'static str,
    readings: &'static str,
    printed: &'static str,
}

const READ_EXAMPLES: [ReadExample; 6] = [
    ReadExample {
        sheet: "hoist.sheet",
        readings: "hoist.holds.readings",
        printed: "hoist.holds.out",
    },
    ReadExample {
        sheet: "hoist.sheet",
        readings: "hoist.fails.readings",
        printed: "hoist.fails.out",
    },
    ReadExample {
        sheet: "trolley.sheet",
        readings: "trolley.holds.readings",
        printed: "trolley.holds.out",
    },
    ReadExample {
        sheet: "trolley.sheet",
        readings: "trolley.fails.readings",
        printed: "trolley.fails.out",
    },
    ReadExample {
        sheet: "travel.sheet",
        readings: "travel.holds.readings",
        printed: "travel.holds.out",
    },
    ReadExample {
        sheet: "travel.sheet",
        readings: "travel.fails.readings",
        printed: "travel.fails.out",
    },
];

fn tell(rt: &HostRuntime, example: &str, out: &str, same: bool) -> anyhow::Result<()> {
    if same {
        println!(rt; "{example} prints {out}")?;
    } else {
        println!(rt; "{example} prints something else than {out}")?;
    }
    Ok(())
}

fn compare(rt: &HostRuntime, example: &Example) -> anyhow::Result<()> {
    let text = fs::read(rt, example.sheet)?;
    let wanted = fs::read(rt, example.printed)?;
    let mut printed = Vec::new(rt.alloc());
    let answer = print_text(rt.alloc(), text.as_slice(), &mut printed)?;
    let same = answer.is_ok() && printed.as_slice() == wanted.as_slice();
    tell(rt, example.sheet, example.printed, same)
}

fn compare_readings(rt: &HostRuntime, example: &ReadExample) -> anyhow::Result<()> {
    let text = fs::read(rt, example.sheet)?;
    let readings = fs::read(rt, example.readings)?;
    let wanted = fs::read(rt, example.printed)?;
    let mut printed = Vec::new(rt.alloc());
    let answer = answer(
        rt.alloc(),
        text.as_slice(),
        readings.as_slice(),
        &mut printed,
    )?;
    let same = answer.is_ok() && printed.as_slice() == wanted.as_slice();
    tell(rt, example.readings, example.printed, same)
}

fn main(rt: HostRuntime) -> anyhow::Result<()> {
    for example in &EXAMPLES {
        compare(&rt, example)?;
    }
    for example in &READ_EXAMPLES {
        compare_readings(&rt, example)?;
    }
    Ok(())
}
