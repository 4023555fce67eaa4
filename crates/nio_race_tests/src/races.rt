//! Races as a whole, over a source and a sink in memory.
ghost use Rattle.nio_base.specs.Limits.{IsFit};

use nio_base::{Gate, Limits, NoGate};
use nio_bytes::{MemorySink, MemorySource};
use nio_race::run_race;
use nio_words::Words;
use std::alloc::Global;
use std::process::Abort;
use std::sync::Wait;
use std::sync::atomic::{AtomicBool, AtomicUsize, Ordering};
use std::test::Fail;
use std::thread;
use std::thread::Threads;

const LIMITS: Limits = Limits {
    callers: 64,
    selectors: 2,
    channels: 2,
    keys: 2,
};

/// What a race ended with: the exit status and what was written.
#[derive(Drop)]
struct Ended {
    code: u8,
    output: Vec<u8>,
}

/// Runs this text over a table of these limits. The source gives pieces of 12 bytes and the sink takes pieces of 5.
fn end_of<R: Threads + Wait + Sync, G: Gate + Sync>(
    rt: &R,
    alloc: Global,
    limits: Limits,
    text: &[u8],
    gate: &G,
) -> Result<Ended, Fail>
    requires { IsFit limits }
{
    let mut source = MemorySource::make(text.to_vec(alloc)?, 12, Vec::new(alloc));
    let mut sink = MemorySink::make(alloc, 5, Vec::new(alloc), 8_192)?;
    let (table, mut pass) = Words::make(alloc, limits)?;
    let status = run_race(rt, alloc, &mut source, &mut sink, &table, &mut pass, gate);
    Ok(Ended {
        code: status.code(),
        output: sink.bytes().to_vec(alloc)?,
    })
}

/// Whether the output is one of these.
fn is_one_of(output: &[u8], lawful: &[&str]) -> bool {
    lawful.iter().any(|text| output == text.as_bytes())
}

/// How often a line looks whether its turn has come before it gives up.
const TURNS: u32 = 100_000_000;

/// How often a line whose turn has come gives the processor away before it goes on.
const PAUSE: u32 = 20_000;

/// Lets lines go on in this order alone: callers with the numbers of their lines. Each waits a while after its turn has
/// come, so that the line before is practically made, or blocks.
#[derive(Drop)]
struct InOrder<'a> {
    order: &'a [(u32, u64)],
    passed: AtomicUsize,
    given_up: AtomicBool,
}

impl<'a> InOrder<'a> {
    fn over(order: &'a [(u32, u64)]) -> InOrder<'a> {
        InOrder {
            order,
            passed: AtomicUsize::new(0),
            given_up: AtomicBool::new(false),
        }
    }

    /// Whether this line is the next.
    fn is_next(&self, caller: u32, line: u64) -> bool {
        match self.order.get(self.passed.load(Ordering::SeqCst)) {
            Some(next) => next.0 == caller && next.1 == line,
            None => false,
        }
    }

    fn pause(&self) {
        for _ in 0..PAUSE {
            thread::yield_now();
        }
    }
}

impl<'a> Gate for InOrder<'a> {
    fn pass<R: Wait>(&self, _rt: &R, who: u32, what: u64) {
        for _ in 0..TURNS {
            if self.is_next(who, what) {
                self.pause();
                self.passed.fetch_add(1, Ordering::SeqCst);
                return;
            }
            if self.given_up.load(Ordering::SeqCst) {
                return;
            }
            thread::yield_now();
        }
        self.given_up.store(true, Ordering::SeqCst);
    }
}

/// Runs this text with its lines in this order, and compares the status and what was written with what is lawful. Each
/// line of the order has gone on, and no other.
fn ends<R: Threads + Wait + Sync + Abort>(
    rt: &R,
    alloc: Global,
    label: &str,
    (text, order): (&str, &[(u32, u64)]),
    (code, lawful): (u8, &[&str]),
) -> Result<(), Fail> {
    let gate = InOrder::over(order);
    let ended = end_of(rt, alloc, LIMITS, text.as_bytes(), &gate)?;
    assert_eq!(rt; gate.passed.load(Ordering::SeqCst), order.len(), "{label}");
    assert!(rt; !gate.given_up.load(Ordering::SeqCst), "{label}");
    assert_eq!(rt; ended.code, code, "{label}");
    assert!(rt; is_one_of(&ended.output, lawful), "{label}");
    Ok(())
}

/// A text and the order of its lines, and the status and what may be written.
type Race = (
    (&'static str, &'static [(u32, u64)]),
    (u8, &'static [&'static str]),
);

/// Runs each race of the table.
fn all_end<R: Threads + Wait + Sync + Abort>(
    rt: &R,
    alloc: Global,
    rows: &[(&str, Race)],
) -> Result<(), Fail> {
    for (label, (read, expected)) in rows {
        ends(rt, alloc, label, *read, *expected)?;
    }
    Ok(())
}

const BLOCK_AND_WAKEUP: &str =
    "t1 selector\nt1 channel source\nt1 blocking c0 off\nt1 register s0 c0 1\ngo\nt1 block s0\nt2 wakeup s0\n";

const WOKEN: &str =
    "1 t1 selector -> s0\n2 t1 channel source -> c0\n3 t1 blocking c0 off -> ok\n4 t1 register s0 c0 1 -> k0\n\
        t1 1 block s0 -> selected 0 woken\nt2 1 wakeup s0 -> ok\n";

const RACES: &[(&str, Race)] = &[
    (
        "race_block_wakeup",
        ((BLOCK_AND_WAKEUP, &[(1, 1), (2, 1)]), (0, &[WOKEN])),
    ),
    (
        "race_wakeup_block",
        ((BLOCK_AND_WAKEUP, &[(2, 1), (1, 1)]), (0, &[WOKEN])),
    ),
    (
        "woken before go",
        (
            ("t1 selector\nt2 wakeup s0\ngo\nt1 block s0\n", &[(1, 1)]),
            (
                0,
                &["1 t1 selector -> s0\n2 t2 wakeup s0 -> ok\nt1 1 block s0 -> selected 0 woken\n"],
            ),
        ),
    ),
    (
        "a ring that ends another sleep",
        (
            (
                "t1 selector\nt1 selector\ngo\nt1 block s1\nt1 block s0\nt2 wakeup s0\nt2 wakeup s1\n",
                &[(1, 1), (2, 1), (2, 2), (1, 2)],
            ),
            (
                0,
                &[
                    "1 t1 selector -> s0\n2 t1 selector -> s1\nt1 1 block s1 -> selected 0 woken\n\
                        t1 2 block s0 -> selected 0 woken\nt2 1 wakeup s0 -> ok\nt2 2 wakeup s1 -> ok\n",
                ],
            ),
        ),
    ),
    (
        "an interrupted block",
        (
            (
                "t1 selector\ngo\nt1 block s0\nt1 block s0\nt2 interrupt t1\n",
                &[(1, 1), (2, 1), (1, 2)],
            ),
            (
                0,
                &[
                    "1 t1 selector -> s0\nt1 1 block s0 -> selected 0 interrupted\n\
                        t1 2 block s0 -> selected 0 interrupted\nt2 1 interrupt t1 -> ok\n",
                ],
            ),
        ),
    ),
    (
        "a selector closed meanwhile",
        (
            (
                "t1 selector\ngo\nt1 block s0\nt2 close s0\n",
                &[(1, 1), (2, 1)],
            ),
            (
                0,
                &[
                    "1 t1 selector -> s0\nt1 1 block s0 -> selected 0 closed\nt2 1 close s0 -> closing\n",
                    "1 t1 selector -> s0\nt1 1 block s0 -> closed-selector\nt2 1 close s0 -> closing\n",
                ],
            ),
        ),
    ),
    (
        "a selection from before go",
        (
            ("t1 selector\nt1 begin s0 now\ngo\nt1 told s0\n", &[(1, 1)]),
            (
                0,
                &[
                    "1 t1 selector -> s0\n2 t1 begin s0 now -> looked none\nt1 1 told s0 -> selected 0 now\n",
                ],
            ),
        ),
    ),
    (
        "a channel whose number came back",
        (
            (
                "t1 selector\nt1 channel source\nt1 closec c0\nt1 channel sink\nt1 channel source\n\
                    t1 blocking c0.1 off\ngo\nt1 is-open c0\nt1 register s0 c0 1\nt2 register s0 c0.1 1\n\
                    t1 key-for c0 s0\nt1 key-for c0.1 s0\nt1 is-registered c0\nt1 closec c0\n\
                    t2 is-open c0.1\nt2 is-open c0.2\n",
                &[
                    (1, 1),
                    (1, 2),
                    (2, 1),
                    (1, 3),
                    (1, 4),
                    (1, 5),
                    (1, 6),
                    (2, 2),
                    (2, 3),
                ],
            ),
            (
                0,
                &[
                    "1 t1 selector -> s0\n2 t1 channel source -> c0\n3 t1 closec c0 -> ok\n4 t1 channel sink -> c1\n\
                        5 t1 channel source -> c0.1\n6 t1 blocking c0.1 off -> ok\nt1 1 is-open c0 -> no\n\
                        t1 2 register s0 c0 1 -> closed-channel\nt1 3 key-for c0 s0 -> none\n\
                        t1 4 key-for c0.1 s0 -> k0\nt1 5 is-registered c0 -> no\nt1 6 closec c0 -> already\n\
                        t2 1 register s0 c0.1 1 -> k0\nt2 2 is-open c0.1 -> yes\nt2 3 is-open c0.2 -> no-channel\n",
                ],
            ),
        ),
    ),
    ("no lines", (("go\n", &[]), (0, &[""]))),
    (
        "a bad line",
        (
            ("t1 selector\ngo\nt1 selector\n", &[]),
            (3, &["bad line 3\n"]),
        ),
    ),
];

#[test]
fn races(rt: HostRuntime) -> Result<(), Fail> {
    all_end(&rt, rt.alloc(), RACES)
}

const PIPES_IN_RACES: &[(&str, Race)] = &[
    (
        "pipe_parted_with_bytes",
        (
            (
                "t1 pipe t2\nt2 pwrite c1 68\ngo\nt1 pread c0 1\nt1 pread c0 1\nt2 pwrite c1 69\n",
                &[(1, 1), (1, 2), (2, 1)],
            ),
            (
                0,
                &[
                    "1 t1 pipe t2 -> c0 c1\n2 t2 pwrite c1 68 -> 1\nt1 1 pread c0 1 -> 68\nt1 2 pread c0 1 -> 69\n\
                        t2 1 pwrite c1 69 -> 1\n",
                ],
            ),
        ),
    ),
    (
        "a read that waits for the end",
        (
            (
                "t1 pipe t2\ngo\nt1 pread c0 9\nt1 pread c0 9\nt2 pwrite c1 6869\nt2 closec c1\n",
                &[(2, 1), (1, 1), (1, 2), (2, 2)],
            ),
            (
                0,
                &[
                    "1 t1 pipe t2 -> c0 c1\nt1 1 pread c0 9 -> 6869\nt1 2 pread c0 9 -> end\nt2 1 pwrite c1 6869 -> 2\n\
                        t2 2 closec c1 -> ok\n",
                ],
            ),
        ),
    ),
    (
        "an end from before go",
        (
            (
                "t1 pipe t2\nt2 pwrite c1 68\nt2 closec c1\ngo\nt1 pread c0 1\nt1 pread c0 1\nt2 pwrite c1 69\n",
                &[(1, 1), (1, 2), (2, 1)],
            ),
            (
                0,
                &[
                    "1 t1 pipe t2 -> c0 c1\n2 t2 pwrite c1 68 -> 1\n3 t2 closec c1 -> ok\nt1 1 pread c0 1 -> 68\n\
                        t1 2 pread c0 1 -> end\nt2 1 pwrite c1 69 -> closed-channel\n",
                ],
            ),
        ),
    ),
    (
        "ends of others",
        (
            (
                "t1 pipe t2\ngo\nt1 pwrite c1 00\nt2 pread c0 1\nt3 pread c1 1\nt3 pread c2 1\n",
                &[(1, 1), (2, 1), (3, 1), (3, 2)],
            ),
            (
                0,
                &[
                    "1 t1 pipe t2 -> c0 c1\nt1 1 pwrite c1 00 -> not-owner\nt2 1 pread c0 1 -> not-owner\n\
                        t3 1 pread c1 1 -> not-owner\nt3 2 pread c2 1 -> no-channel\n",
                ],
            ),
        ),
    ),
    (
        "a source closed while its owner reads",
        (
            (
                "t1 pipe t2\ngo\nt1 pread c0 1\nt2 closec c0\nt2 pwrite c1 00\n",
                &[(1, 1), (2, 1), (2, 2)],
            ),
            (
                0,
                &[
                    "1 t1 pipe t2 -> c0 c1\nt1 1 pread c0 1 -> async-close\nt2 1 closec c0 -> ok\n\
                        t2 2 pwrite c1 00 -> broken-pipe\n",
                    "1 t1 pipe t2 -> c0 c1\nt1 1 pread c0 1 -> closed-channel\nt2 1 closec c0 -> ok\n\
                        t2 2 pwrite c1 00 -> broken-pipe\n",
                ],
            ),
        ),
    ),
    (
        "a source closed while its owner reads no bytes",
        (
            (
                "t1 pipe t2\ngo\nt1 pread c0 0\nt2 closec c0\n",
                &[(1, 1), (2, 1)],
            ),
            (
                0,
                &[
                    "1 t1 pipe t2 -> c0 c1\nt1 1 pread c0 0 -> 0\nt2 1 closec c0 -> ok\n",
                    "1 t1 pipe t2 -> c0 c1\nt1 1 pread c0 0 -> closed-channel\nt2 1 closec c0 -> ok\n",
                ],
            ),
        ),
    ),
    (
        "an interrupted read",
        (
            (
                "t1 pipe t2\ngo\nt1 pread c0 1\nt1 is-open c0\nt2 interrupt t1\n",
                &[(1, 1), (2, 1), (1, 2)],
            ),
            (
                0,
                &[
                    "1 t1 pipe t2 -> c0 c1\nt1 1 pread c0 1 -> closed-by-interrupt\nt1 2 is-open c0 -> no\n\
                        t2 1 interrupt t1 -> ok\n",
                ],
            ),
        ),
    ),
    (
        "ends whose numbers came back",
        (
            (
                "t1 pipe t2\nt2 pwrite c1 68\nt1 closec c0\nt2 closec c1\nt1 pipe t2\nt2 pwrite c1.1 69\ngo\n\
                    t1 pread c0 1\nt1 pread c0.1 1\nt1 pread c0.1 1\nt2 pwrite c1 68\nt2 pwrite c1.1 6a\n",
                &[(1, 1), (1, 2), (2, 1), (1, 3), (2, 2)],
            ),
            (
                0,
                &[
                    "1 t1 pipe t2 -> c0 c1\n2 t2 pwrite c1 68 -> 1\n3 t1 closec c0 -> ok\n4 t2 closec c1 -> ok\n\
                        5 t1 pipe t2 -> c0.1 c1.1\n6 t2 pwrite c1.1 69 -> 1\nt1 1 pread c0 1 -> closed-channel\n\
                        t1 2 pread c0.1 1 -> 69\nt1 3 pread c0.1 1 -> 6a\nt2 1 pwrite c1 68 -> closed-channel\n\
                        t2 2 pwrite c1.1 6a -> 1\n",
                ],
            ),
        ),
    ),
    (
        "both ends of one caller, not blocking",
        (
            (
                "t1 pipe t1\nt1 blocking c0 off\ngo\nt1 pread c0 1\nt1 pwrite c1 6869\nt1 pread c0 0\nt1 pread c0 9\n",
                &[(1, 1), (1, 2), (1, 3), (1, 4)],
            ),
            (
                0,
                &[
                    "1 t1 pipe t1 -> c0 c1\n2 t1 blocking c0 off -> ok\nt1 1 pread c0 1 -> 0\n\
                        t1 2 pwrite c1 6869 -> 2\nt1 3 pread c0 0 -> 0\nt1 4 pread c0 9 -> 6869\n",
                ],
            ),
        ),
    ),
];

#[test]
fn pipes_in_races(rt: HostRuntime) -> Result<(), Fail> {
    all_end(&rt, rt.alloc(), PIPES_IN_RACES)
}

/// Neither caller's lines all come before the other's, so callers that ran one after the other would wait for ever.
#[test]
fn callers_run_beside_each_other(rt: HostRuntime) -> Result<(), Fail> {
    let text =
        "go\nt1 interrupted\nt1 interrupted\nt1 interrupted\nt2 interrupted\nt2 interrupted\nt2 interrupted\n";
    let output =
        "t1 1 interrupted -> no\nt1 2 interrupted -> no\nt1 3 interrupted -> no\nt2 1 interrupted -> no\n\
            t2 2 interrupted -> no\nt2 3 interrupted -> no\n";
    let order = [(2, 1), (2, 2), (1, 1), (1, 2), (2, 3), (1, 3)];
    ends(
        &rt,
        rt.alloc(),
        "beside each other",
        (text, &order),
        (0, &[output]),
    )
}

#[test]
fn a_caller_that_is_not_below_the_limit(rt: HostRuntime) -> Result<(), Fail> {
    let limits = Limits {
        callers: 2,
        selectors: 1,
        channels: 1,
        keys: 1,
    };
    let text = b"go\nt5 interrupted\nt1 interrupted\nt5 interrupted\n";
    let ended = end_of(&rt, rt.alloc(), limits, text.as_slice(), &NoGate)?;
    let expected =
        b"t1 1 interrupted -> no\nt5 1 interrupted -> no-caller\nt5 2 interrupted -> no-caller\n";
    assert_eq!(rt; ended.output.as_slice(), expected.as_slice());
    Ok(())
}

/// A line for each caller, and the output.
fn line_of_each(alloc: Global) -> Result<(String, String), Fail> {
    let mut text = String::from_str(alloc, "go\n")?;
    let mut output = String::new(alloc);
    for caller in 0..64 {
        text.push_str(&format!(in alloc; "t{caller} interrupted\n")?)?;
        output.push_str(&format!(in alloc; "t{caller} 1 interrupted -> no\n")?)?;
    }
    Ok((text, output))
}

#[test]
fn sixty_four_callers(rt: HostRuntime) -> Result<(), Fail> {
    let (text, output) = line_of_each(rt.alloc())?;
    let ended = end_of(&rt, rt.alloc(), LIMITS, text.as_bytes(), &NoGate)?;
    assert_eq!(rt; ended.output.as_slice(), output.as_bytes());
    Ok(())
}
