//! Runs each race text of the examples some times, and says whether each output is listed beside it.
#![tactic(auto)]

use nio_base::{Limits, NoGate};
use nio_bytes::{MemorySink, MemorySource};
use nio_race::run_race;
use nio_words::Words;
use std::alloc::{AllocError, Global};
use std::rt::Files;
use std::sync::Wait;
use std::thread::Threads;
use std::{fs, io};

/// The examples, each with how many outputs are listed beside it.
const EXAMPLES: [(&str, u32); 5] = [
    ("block_and_wakeup", 1),
    ("closing_and_registering", 3),
    ("closing_while_blocked", 4),
    ("pipe_between_threads", 1),
    ("registering_and_cancelling", 3),
];

/// How often each is run.
const RUNS: u32 = 20;

const LIMITS: Limits = Limits {
    callers: 4,
    selectors: 1,
    channels: 2,
    keys: 8,
};

/// An output is taken up to this length.
const ROOM: usize = 8_192;

/// A race text, and the outputs that it may have.
#[derive(Drop)]
struct Example {
    text: Vec<u8>,
    listed: Vec<Vec<u8>>,
}

fn main(rt: HostRuntime) -> anyhow::Result<()> {
    for (name, outcomes) in EXAMPLES {
        let example = read_example(&rt, rt.alloc(), name, outcomes)?;
        if are_listed(&rt, rt.alloc(), &example)? {
            println!(rt; "{name}: each of {RUNS} runs gave one of {outcomes} listed outputs")?;
        } else {
            println!(rt; "{name}: an output isn't listed")?;
        }
    }
    Ok(())
}

/// Reads the text and its outputs from the files beside the program.
fn read_example<R: Files + AllocGlobal>(
    rt: &R,
    alloc: Global,
    name: &str,
    outcomes: u32,
) -> io::Result<Example> {
    let text = fs::read(rt, format!(in alloc; "{name}.race")?)?;
    let mut listed = Vec::new(alloc);
    for number in 1..=outcomes {
        listed.push(fs::read(rt, format!(in alloc; "{name}.out{number}")?)?)?;
    }
    Ok(Example { text, listed })
}

/// Whether each of the runs gave a listed output.
fn are_listed<R: Threads + Wait + Sync>(
    rt: &R,
    alloc: Global,
    example: &Example,
) -> Result<bool, AllocError> {
    for _ in 0..RUNS {
        let output = run_once(rt, alloc, &example.text)?;
        if !is_listed(&output, &example.listed) {
            return Ok(false);
        }
    }
    Ok(true)
}

/// The output of the race on a table of its own.
fn run_once<R: Threads + Wait + Sync>(
    rt: &R,
    alloc: Global,
    text: &[u8],
) -> Result<Vec<u8>, AllocError> {
    let mut source = MemorySource::make(text.to_vec(alloc)?, ROOM, Vec::new(alloc));
    let mut sink = MemorySink::make(alloc, ROOM, Vec::new(alloc), ROOM)?;
    let (table, mut pass) = Words::make(alloc, LIMITS)?;
    run_race(
        rt,
        alloc,
        &mut source,
        &mut sink,
        &table,
        &mut pass,
        &NoGate,
    );
    sink.bytes().to_vec(alloc)
}

fn is_listed(output: &[u8], listed: &[Vec<u8>]) -> bool {
    listed.iter().any(|text| text.as_slice() == output)
}
