//! Measures of nio's selectors, pipes and relays. The first word names the measure; with no word each does a small run,
//! and `ok` is printed.
#![tactic(auto)]

use anyhow::bail;
use checked::Slow;
use select::Load;
use std::env;

mod channels;
mod checked;
mod pair;
mod pipe;
mod relay;
mod reopening;
mod select;
mod waiting;
mod words;

/// A small load of a selection.
const SMALL: Load = Load {
    indexes: 70,
    live: 3,
    every: 30,
};

/// A small load in which each index has a key.
const EACH: Load = Load {
    indexes: 70,
    live: 70,
    every: 1,
};

fn main(rt: HostRuntime) -> anyhow::Result<()> {
    let word = env::args(&rt)?.nth(1);
    match word.as_deref() {
        None => {
            channels::run(&rt, 4)?;
            reopening::run(&rt, 4)?;
            relay::run(&rt, 4)?;
            select::run(&rt, SMALL, 2)?;
            select::run_by_list(&rt, SMALL, 2)?;
            select::touch_all(&rt, EACH)?;
            waiting::run(&rt)?;
            pipe::run(&rt)?;
            checked::run(&rt, Slow::Reader)?;
            checked::run(&rt, Slow::Writer)?;
            println!(rt; "ok")?;
        }
        Some("channels") => {
            channels::measure(&rt)?;
            reopening::measure(&rt)?;
        }
        Some("pipe") => pipe::measure(&rt)?,
        Some("relay") => relay::measure(&rt)?,
        Some("select") => select::measure(&rt)?,
        Some("waiting") => waiting::measure(&rt)?,
        Some("words") => words::measure(&rt)?,
        Some(other) => bail!("no measure is named {other}"),
    }
    Ok(())
}
