//! Measures of nio's groups. The first word names the measure; with no word each does a small run,
//! and `ok` is printed.
#![tactic(auto)]

use anyhow::bail;
use std::env;

mod group;
mod pool;
mod timed;

fn main(rt: HostRuntime) -> anyhow::Result<()> {
    let word = env::args(&rt)?.nth(1);
    match word.as_deref() {
        None => {
            group::run(&rt, 4)?;
            pool::run(&rt)?;
            timed::run(&rt, 4)?;
            println!(rt; "ok")?;
        }
        Some("group") => group::measure(&rt)?,
        Some("pool") => pool::measure(&rt)?,
        Some("timed") => timed::measure(&rt)?,
        Some(other) => bail!("no measure is named {other}"),
    }
    Ok(())
}
