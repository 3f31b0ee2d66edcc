//! Reads a sheet text from the standard input, and prints the equations that it stands for, or its fault.
#![tactic(auto)]

mod answering;

use answering::answer;
use std::process::ExitCode;

fn run(rt: &HostRuntime) -> anyhow::Result<ExitCode> {
    Ok(match answer(rt.alloc(), rt.stdin(), &mut rt.stdout())? {
        Ok(()) => ExitCode::SUCCESS,
        Err(_) => ExitCode::FAILURE,
    })
}

fn main(rt: HostRuntime) -> anyhow::Result<ExitCode> {
    run(&rt)
}
