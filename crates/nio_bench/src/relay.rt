//! Bytes through one direction: read from one buffer, written into another.
use anyhow::ensure;
use nio_relay::{CAPACITY, Direction};
use std::alloc::Global;
use std::rt::Runtime;
use std::time::Instant;

/// How many times a buffer of 16,384 bytes makes a gibibyte.
const GIBIBYTE_TURNS: u32 = 65_536;

/// Passes a gibibyte, and prints how long it took.
pub fn measure<R: Runtime<A = Global>>(rt: &R) -> anyhow::Result<()> {
    let start = Instant::now(rt)?;
    run(rt, GIBIBYTE_TURNS)?;
    println!(rt; "relay {}", start.elapsed(rt)?.as_nanos())?;
    Ok(())
}

/// Passes a buffer so many times, and sees that it came out whole.
pub fn run(rt: &impl Alloc<A = Global>, turns: u32) -> anyhow::Result<()> {
    let source = [7; CAPACITY].to_vec(rt.alloc())?;
    let mut sink = [0; CAPACITY].to_vec(rt.alloc())?;
    let mut direction = Direction::make(rt.alloc())?;
    for _ in 0..turns {
        pass(&mut direction, &source, &mut sink);
    }
    ensure!(direction.room() == CAPACITY, "bytes are left behind");
    ensure!(sink == source, "other bytes came out");
    Ok(())
}

/// Reads what there is room for, and writes all that is buffered, which lies in two pieces at most.
fn pass(direction: &mut Direction, source: &[u8], sink: &mut [u8]) {
    if direction.want().read {
        let count = source.len().min(direction.room());
        direction.on_read(&source[..count]);
    }
    let mut sink = sink;
    for _ in 0..2 {
        let front = direction.front();
        let count = front.len().min(sink.len());
        let (place, rest) = sink.split_at_mut(count);
        place.copy_from_slice(&front[..count]);
        direction.on_written(count);
        sink = rest;
    }
}
