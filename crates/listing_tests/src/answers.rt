//! What a call answered, as a line: the number it gave, or the refusal.
use std::fmt::Display;

pub(crate) fn tell<R: Display + Drop>(
    rt: &HostRuntime,
    call: &str,
    answer: Result<usize, R>,
) -> anyhow::Result<()> {
    match answer {
        Ok(given) => println!(rt; "{call}: {given}")?,
        Err(why) => println!(rt; "{call}: {why}")?,
    }
    Ok(())
}
