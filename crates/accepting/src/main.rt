//! Reads a sheet text and readings of its sheet from two files, and prints the equations, the verdict and the
//! potentials, or what is at fault.
#![tactic(auto)]

use answering::{AnswerFault, answer};
use anyhow::{Context, Result};
use printing::print_fault;
use std::io::Write;
use std::process::ExitCode;
use std::{env, fs};

const USAGE: &str = "two files are wanted: a sheet text and readings of the sheet";

fn run(rt: &HostRuntime, sheet: &str, readings: &str) -> Result<ExitCode> {
    let sheet_text = fs::read(rt, sheet).context("reading the sheet text")?;
    let readings_text = fs::read(rt, readings).context("reading the readings")?;
    let mut printed = Vec::new(rt.alloc());
    let answer = answer(
        rt.alloc(),
        sheet_text.as_slice(),
        readings_text.as_slice(),
        &mut printed,
    )?;
    let status = match answer {
        Ok(_) => ExitCode::SUCCESS,
        Err(AnswerFault::Sheet { fault }) => {
            print_fault(fault, &mut printed)?;
            ExitCode::FAILURE
        }
        Err(AnswerFault::Readings { fault }) => {
            eprintln!(rt; "{fault}")?;
            ExitCode::FAILURE
        }
    };
    rt.stdout().write_all(printed.as_slice())?;
    Ok(status)
}

fn main(rt: HostRuntime) -> Result<ExitCode> {
    let mut arguments = env::args(&rt)?.skip(1);
    let sheet = arguments.next().context(USAGE)?;
    let readings = arguments.next().context(USAGE)?;
    run(&rt, sheet.as_str(), readings.as_str())
}
