use anyhow::Result;
use std::rt::Clock;
use std::time::Instant;

/// Prints how long something of so many parts has taken.
pub fn print_seconds(
    rt: &(impl Clock + Eprint),
    name: &str,
    size: u64,
    start: Instant,
) -> Result<()> {
    let seconds = start.elapsed(rt)?.as_secs_f64();
    eprintln!(rt; "{name} of {size}: {seconds:.6} seconds")?;
    Ok(())
}
