//! Prints what the calls answer on small drafts and sheets, to be held against what they should answer.
#![tactic(auto)]

mod answers;
mod buffers;
mod limits;
mod refusals;
mod sheets;

fn run(rt: &HostRuntime) -> anyhow::Result<()> {
    refusals::run(rt)?;
    limits::run(rt)?;
    sheets::run(rt)?;
    buffers::run(rt)
}

fn main(rt: HostRuntime) -> anyhow::Result<()> {
    run(&rt)
}
