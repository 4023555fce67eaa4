//! The ways of the proxy are told apart by their workers: how many of them come to the test gate, all at once.
use super::many::nets_of;
use super::relays::{SHORT, net_of};
use super::runs_with;
use nio_base::Gate;
use nio_bytes::{MemorySink, MemorySource};
use nio_poller::NoBell;
use std::alloc::{AllocError, AllocGlobal, Global};
use std::random::RandomSource;
use std::sync::Wait;
use std::sync::atomic::{AtomicBool, AtomicU64, Ordering};
use std::test::Fail;
use std::thread::{Threads, sleep};
use std::time::{Clock, Duration};

/// How often a worker looks whether the others have come, a millisecond apart, before it gives up.
const LOOKS: u32 = 20_000;

/// How often it then looks whether one too many comes.
const LOOKS_MORE: u32 = 10;

/// Holds each worker, when it comes for the first time, until as many as are wanted are here, and then for some
/// milliseconds, in which one too many could come. It holds nobody with the piece of work `alone`, which has no other
/// beside it.
#[derive(Drop)]
struct Crew<'a, C> {
    clock: &'a C,
    wanted: u32,
    alone: Option<u64>,
    /// A bit for each worker that came.
    came: AtomicU64,
    given_up: AtomicBool,
}

impl<'a, C: Clock> Crew<'a, C> {
    fn of(clock: &'a C, row: &Row) -> Crew<'a, C> {
        Crew {
            clock,
            wanted: row.workers,
            alone: row.alone,
            came: AtomicU64::new(0),
            given_up: AtomicBool::new(false),
        }
    }

    /// How many workers came.
    fn count(&self) -> u32 {
        self.came.load(Ordering::SeqCst).count_ones()
    }

    /// Whether so many come within so many looks.
    fn awaits(&self, count: u32, looks: u32) -> bool {
        for _ in 0..looks {
            if self.count() >= count {
                return true;
            }
            sleep(self.clock, Duration::from_millis(1));
        }
        false
    }
}

impl<'a, C: Clock> Gate for Crew<'a, C> {
    fn pass<R: Wait>(&self, _rt: &R, who: u32, what: u64) {
        if self.alone == Some(what) {
            return;
        }
        let bit = 1u64.checked_shl(who).unwrap_or(0);
        let came_before = self.came.fetch_or(bit, Ordering::SeqCst) & bit != 0;
        if came_before || self.given_up.load(Ordering::SeqCst) {
            return;
        }
        if !self.awaits(self.wanted, LOOKS) {
            self.given_up.store(true, Ordering::SeqCst);
        }
        let _ = self.awaits(self.wanted.saturating_add(1), LOOKS_MORE);
    }
}

/// The words of a way, how many workers it has at once, and which piece of work comes alone. By operations that is the
/// first accept, operation 0: its handler starts what comes next.
#[derive(Clone, Copy)]
struct Row {
    name: &'static str,
    words: &'static [&'static str],
    workers: u32,
    alone: Option<u64>,
}

const ROWS: &[Row] = &[
    Row {
        name: "select",
        words: &["--way=select"],
        workers: 0,
        alone: None,
    },
    Row {
        name: "future",
        words: &["--way=future"],
        workers: 0,
        alone: None,
    },
    Row {
        name: "group of one",
        words: &["--way=group", "--workers=1"],
        workers: 1,
        alone: Some(0),
    },
    Row {
        name: "group of two",
        words: &["--way=group", "--workers=2"],
        workers: 2,
        alone: Some(0),
    },
    Row {
        name: "many, one",
        words: &["--way=many", "--workers=1"],
        workers: 1,
        alone: None,
    },
    Row {
        name: "many, two",
        words: &["--way=many", "--workers=2"],
        workers: 2,
        alone: None,
    },
];

/// The status of the program that relays three connections in the way of a row, and what it wrote.
fn relays<R, G: Gate + Sync>(
    rt: &R,
    alloc: Global,
    row: &Row,
    gate: &G,
) -> Result<(u8, MemorySink), AllocError>
where
    R: Threads + Wait + RandomSource + AllocGlobal + Sync,
{
    let mut words = vec![in alloc;
        "proxy",
        "--listen=127.0.0.1:8080",
        "--target=127.0.0.1:80",
        "--conns=3",
    ]?;
    words.extend_from_slice(row.words)?;
    let mut source = MemorySource::make(Vec::new(alloc), 1, Vec::new(alloc));
    let mut sink = MemorySink::make(alloc, 5, Vec::new(alloc), 64)?;
    let net = net_of(alloc, &[SHORT; 3], None, None)?;
    let mut more = nets_of(alloc, 2)?;
    let bells = Vec::new(alloc);
    let (status, _net) = runs_with(
        rt,
        alloc,
        &words,
        &mut source,
        &mut sink,
        net,
        &mut more,
        &NoBell,
        bells,
        gate,
    )?;
    Ok((status, sink))
}

#[test]
fn each_way_has_its_workers(rt: HostRuntime) -> Result<(), Fail> {
    for row in ROWS {
        let gate = Crew::of(&rt, row);
        let (status, sink) = relays(&rt, rt.alloc(), row, &gate)?;
        assert_eq!(rt; status, 0, "{}", row.name);
        assert_eq!(rt;
            sink.bytes(),
            "served 3 faults 0\n".as_bytes(),
            "{}",
            row.name
        );
        assert_eq!(rt; gate.count(), row.workers, "{}", row.name);
        assert!(rt; !gate.given_up.load(Ordering::SeqCst), "{}", row.name);
    }
    Ok(())
}
