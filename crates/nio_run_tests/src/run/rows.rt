//! Worked rows: scripts on the table, each line with the reply that a user of Java's selectors would expect.
ghost use Rattle.nio_base.specs.Limits.{IsFit};

use super::{NOTHING_FAILS, outcome};
use nio_base::Limits;
use nio_bytes::{MemorySink, MemorySource};
use nio_script::run_script;
use nio_sole::Sole;
use nio_words::Words;
use std::alloc::{AllocGlobal, Global};
use std::process::Abort;
use std::random::RandomSource;
use std::sync::Wait;
use std::test::Fail;
use std::thread::Threads;

/// Lines of a script, each with its reply.
pub(super) type Lines = &'static [(&'static str, &'static str)];

const SCRIPT_WORDS: &[&str] = &["script"];

const CHECK_WORDS: &[&str] = &["check"];

/// Nothing before the row's own lines.
const NOTHING: Lines = &[];

/// A channel that is registered for reading.
const READING: Lines = &[
    ("t1 selector", "s0"),
    ("t1 channel source", "c0"),
    ("t1 blocking c0 off", "ok"),
    ("t1 register s0 c0 1", "k0"),
];

/// A channel that is registered for reading and writing.
const BOTH_WAYS: Lines = &[
    ("t1 selector", "s0"),
    ("t1 channel stream", "c0"),
    ("t1 blocking c0 off", "ok"),
    ("t1 register s0 c0 5", "k0"),
];

/// Each row's name, the lines that it begins with, and its own lines.
const ROWS: [(&str, Lines, Lines); 25] = [
    (
        "refusals_before_non_blocking",
        NOTHING,
        &[
            ("t1 selector", "s0"),
            ("t1 channel source", "c0"),
            ("t1 register s0 c0 1", "illegal-blocking-mode"),
            ("t1 register s0 c0 4", "illegal-ops"),
        ],
    ),
    (
        "selecting_again_counts_nothing",
        READING,
        &[
            ("t1 begin s0 now", "looked k0:1"),
            ("t1 told s0 k0:1", "selected 1 ready"),
            ("t1 begin s0 now", "looked k0:1"),
            ("t1 told s0 k0:1", "selected 0 now"),
        ],
    ),
    (
        "unselected_key_starts_afresh",
        BOTH_WAYS,
        &[
            ("t1 begin s0 now", "looked k0:5"),
            ("t1 told s0 k0:1", "selected 1 ready"),
            ("t1 unselect s0 k0", "yes"),
            ("t1 begin s0 now", "looked k0:5"),
            ("t1 told s0 k0:4", "selected 1 ready"),
            ("t1 ready s0 k0", "4"),
        ],
    ),
    (
        "selected_key_gathers_bits",
        BOTH_WAYS,
        &[
            ("t1 begin s0 now", "looked k0:5"),
            ("t1 told s0 k0:1", "selected 1 ready"),
            ("t1 begin s0 now", "looked k0:5"),
            ("t1 told s0 k0:4", "selected 1 ready"),
            ("t1 ready s0 k0", "5"),
        ],
    ),
    (
        "wakeups_act_as_one",
        READING,
        &[
            ("t2 wakeup s0", "ok"),
            ("t2 wakeup s0", "ok"),
            ("t1 begin s0 wait", "looked k0:1"),
            ("t1 told s0", "selected 0 woken"),
            ("t1 begin s0 wait", "looked k0:1"),
            ("t1 told s0", "again"),
        ],
    ),
    (
        "select_now_uses_wakeup_up",
        READING,
        &[
            ("t2 wakeup s0", "ok"),
            ("t1 begin s0 now", "looked k0:1"),
            ("t1 told s0", "selected 0 now"),
            ("t1 begin s0 wait", "looked k0:1"),
            ("t1 told s0", "again"),
        ],
    ),
    (
        "registered_and_cancelled_during_selection",
        READING,
        &[
            ("t1 channel source", "c1"),
            ("t1 blocking c1 off", "ok"),
            ("t1 begin s0 wait", "looked k0:1"),
            ("t2 register s0 c1 1", "k1"),
            ("t2 cancel s0 k1", "ok"),
            ("t1 told s0", "again"),
            ("t1 keys s0", "k0 k1"),
            ("t1 told s0 k0:1", "selected 1 ready"),
            ("t1 keys s0", "k0"),
            ("t2 register s0 c1 1", "k1.1"),
        ],
    ),
    (
        "cancel_during_selection",
        READING,
        &[
            ("t1 begin s0 wait", "looked k0:1"),
            ("t2 cancel s0 k0", "ok"),
            ("t1 told s0 k0:1", "selected 1 ready"),
            ("t1 selected s0", "none"),
            ("t1 keys s0", "none"),
        ],
    ),
    (
        "cancelled_key_until_selection",
        READING,
        &[
            ("t1 cancel s0 k0", "ok"),
            ("t1 key-for c0 s0", "k0"),
            ("t1 register s0 c0 1", "cancelled-key"),
            ("t1 begin s0 now", "looked none"),
            ("t1 told s0", "selected 0 now"),
            ("t1 key-for c0 s0", "none"),
            ("t1 register s0 c0 1", "k0.1"),
        ],
    ),
    (
        "closing_in_two_parts",
        READING,
        &[
            ("t1 begin s0 wait", "looked k0:1"),
            ("t2 close s0", "closing"),
            ("t1 valid s0 k0", "yes"),
            ("t1 told s0", "selected 0 closed"),
            ("t2 close-end s0", "closed"),
            ("t1 valid s0 k0", "no"),
            ("t1 begin s0 now", "closed-selector"),
            ("t2 wakeup s0", "ok"),
            ("t2 close s0", "already"),
            ("t1 is-registered c0", "no"),
        ],
    ),
    (
        "busy_turn",
        READING,
        &[
            ("t1 begin s0 wait", "looked k0:1"),
            ("t2 begin s0 now", "busy"),
            ("t2 close s0", "closing"),
            ("t2 close-end s0", "busy"),
            ("t1 close-end s0", "not-closing"),
            ("t2 begin s0 now", "closed-selector"),
            ("t1 keys s0", "closed-selector"),
        ],
    ),
    (
        "closed_channel_cancels_keys",
        READING,
        &[
            ("t2 closec c0", "ok"),
            ("t1 interest s0 k0", "cancelled-key"),
            ("t1 blocking c0 on", "closed-channel"),
            ("t2 closec c0", "already"),
            ("t1 valid s0 k0", "no"),
        ],
    ),
    (
        "bits_outside_the_kind",
        READING,
        &[
            ("t1 iand s0 k0 254", "1"),
            ("t1 interest s0 k0", "0"),
            ("t1 ior s0 k0 4", "illegal-ops"),
            ("t1 iset s0 k0 1", "ok"),
        ],
    ),
    (
        "datagram_interests",
        NOTHING,
        &[
            ("t1 selector", "s0"),
            ("t1 channel datagram", "c0"),
            ("t1 blocking c0 off", "ok"),
            ("t1 register s0 c0 16", "illegal-ops"),
            ("t1 register s0 c0 5", "k0"),
            ("t1 register s0 c0 8", "illegal-ops"),
            ("t1 ior s0 k0 16", "illegal-ops"),
            ("t1 interest s0 k0", "5"),
            ("t1 blocking c0 on", "illegal-blocking-mode"),
        ],
    ),
    (
        "interrupted_selection",
        READING,
        &[
            ("t2 interrupt t1", "ok"),
            ("t1 begin s0 wait", "looked k0:1"),
            ("t1 told s0", "selected 0 interrupted"),
            ("t1 interrupted", "yes"),
            ("t1 interrupted", "no"),
        ],
    ),
    (
        "names_not_made",
        NOTHING,
        &[
            ("t1 valid s0 k0", "no-selector"),
            ("t1 selector", "s0"),
            ("t1 valid s0 k0", "no-key"),
            ("t1 register s0 c0 1", "no-channel"),
            ("t1 told s0", "not-selecting"),
        ],
    ),
    (
        "told_unasked_bits",
        READING,
        &[
            ("t1 begin s0 now", "looked k0:1"),
            ("t1 told s0 k0:4 k7:1", "selected 0 now"),
            ("t1 ready s0 k0", "0"),
        ],
    ),
    (
        "failed_poll_keeps_wakeup",
        READING,
        &[
            ("t2 wakeup s0", "ok"),
            ("t1 begin s0 wait", "looked k0:1"),
            ("t1 failed s0", "left"),
            ("t1 begin s0 wait", "looked k0:1"),
            ("t1 told s0", "selected 0 woken"),
        ],
    ),
    (
        "attachments",
        READING,
        &[
            ("t1 attach s0 k0 7", "0"),
            ("t1 register s0 c0 0", "k0"),
            ("t1 attachment s0 k0", "7"),
            ("t1 interest s0 k0", "0"),
            ("t1 register s0 c0 1 18446744073709551615", "k0"),
            ("t1 attach s0 k0 0", "18446744073709551615"),
        ],
    ),
    (
        "timeouts",
        READING,
        &[
            ("t1 begin s0 for -1", "negative-timeout"),
            ("t1 begin s0 for 5", "looked k0:1"),
            ("t1 told s0", "again"),
            ("t1 told s0 elapsed", "selected 0 elapsed"),
            ("t1 begin s0 for 0", "looked k0:1"),
            ("t1 told s0 elapsed", "again"),
        ],
    ),
    (
        "names_with_serials",
        READING,
        &[
            ("t1 cancel s0 k0", "ok"),
            ("t1 begin s0 now", "looked none"),
            ("t1 told s0", "selected 0 now"),
            ("t1 register s0 c0 1 7", "k0.1"),
            ("t1 valid s0 k0", "no"),
            ("t1 attachment s0 k0", "0"),
            ("t1 attachment s0 k0.1", "7"),
            ("t1 interest s0 k0", "cancelled-key"),
            ("t1 valid s0 k0.2", "no-key"),
            ("t1 begin s0 now", "looked k0.1:1"),
            ("t1 told s0 k0:1", "selected 0 now"),
            ("t1 keys s0", "k0.1"),
        ],
    ),
    (
        "cancelled_before_told",
        READING,
        &[
            ("t1 cancel s0 k0", "ok"),
            ("t1 begin s0 now", "looked none"),
            ("t1 register s0 c0 1", "k0.1"),
            ("t1 cancel s0 k0.1", "ok"),
            ("t1 register s0 c0 1", "cancelled-key"),
            ("t1 told s0", "selected 0 now"),
            ("t1 register s0 c0 1", "k0.2"),
        ],
    ),
    (
        "pipe_bytes",
        NOTHING,
        &[
            ("t1 pipe t2", "c0 c1"),
            ("t2 pwrite c1 68656c6c6f", "5"),
            ("t1 pwrite c1 00", "not-owner"),
            ("t1 pread c0 3", "68656c"),
            ("t1 pread c0 9", "6c6f"),
            ("t1 pread c0 1", "again"),
            ("t1 blocking c0 off", "ok"),
            ("t1 pread c0 1", "0"),
            ("t2 closec c1", "ok"),
            ("t1 pread c0 1", "end"),
        ],
    ),
    (
        "broken_pipe",
        NOTHING,
        &[
            ("t1 pipe t2", "c0 c1"),
            ("t1 closec c0", "ok"),
            ("t2 pwrite c1 00", "broken-pipe"),
            ("t1 interrupt t2", "ok"),
            ("t2 pwrite c1 00", "closed-by-interrupt"),
            ("t2 pwrite c1 00", "closed-channel"),
            ("t2 interrupted", "yes"),
        ],
    ),
    (
        "group_shutdown_now",
        NOTHING,
        &[
            ("t1 gopen stream", "g0"),
            ("t1 start g0 connect 0", "op 0"),
            ("t1 report 0 connected", "ok"),
            ("t1 take", "op 0 connected"),
            ("t1 done 0", "ok"),
            ("t1 start g0 read 10", "op 1"),
            ("t1 shutdown-now", "ok"),
            ("t1 terminated", "no"),
            ("t1 take", "op 1 async-close"),
            ("t1 done 1", "ok"),
            ("t1 terminated", "yes"),
            ("t1 gopen stream", "shutdown-group"),
        ],
    ),
];

/// More than this table can hold is asked for.
const SMALL_LIMITS: Lines = &[
    ("t1 selector", "s0"),
    ("t1 selector", "selectors-spent"),
    ("t1 channel source", "c0"),
    ("t1 channel source", "c1"),
    ("t1 channel source", "c2"),
    ("t1 channel source", "c3"),
    ("t1 channel source", "channels-spent"),
    ("t1 blocking c0 off", "ok"),
    ("t1 blocking c1 off", "ok"),
    ("t1 blocking c2 off", "ok"),
    ("t1 register s0 c0 1", "k0"),
    ("t1 register s0 c1 1", "k1"),
    ("t1 register s0 c2 1", "full"),
    ("t1 register s0 c0 0", "k0"),
    ("t2 interrupted", "no-caller"),
];

/// The table's only index is given to a second key once a selection has removed the first.
const INDEX_GIVEN_AGAIN: Lines = &[
    ("t1 selector", "s0"),
    ("t1 channel source", "c0"),
    ("t1 channel source", "c1"),
    ("t1 blocking c0 off", "ok"),
    ("t1 blocking c1 off", "ok"),
    ("t0 register s0 c0 1 5", "k0"),
    ("t0 cancel s0 k0", "ok"),
    ("t1 register s0 c1 1", "full"),
    ("t0 begin s0 now", "looked none"),
    ("t0 told s0", "selected 0 now"),
    ("t1 register s0 c1 1", "k0.1"),
    ("t1 valid s0 k0", "no"),
    ("t1 attachment s0 k0", "0"),
    ("t1 ready s0 k0.1", "0"),
];

/// The number of a closed channel is given to one of its kind once a selection has removed its key.
const NUMBER_GIVEN_AGAIN: Lines = &[
    ("t1 selector", "s0"),
    ("t1 channel source", "c0"),
    ("t1 channel sink", "c1"),
    ("t1 channel source", "channels-spent"),
    ("t1 blocking c0 off", "ok"),
    ("t0 register s0 c0 1", "k0"),
    ("t0 closec c0", "ok"),
    ("t1 channel source", "channels-spent"),
    ("t0 begin s0 now", "looked none"),
    ("t0 told s0", "selected 0 now"),
    ("t1 channel sink", "channels-spent"),
    ("t1 channel source", "c0.1"),
    ("t1 is-open c0", "no"),
    ("t0 closec c0", "already"),
    ("t1 is-open c0.1", "yes"),
    ("t1 register s0 c0.1 1", "illegal-blocking-mode"),
    ("t1 blocking c0.1 off", "ok"),
    ("t1 register s0 c0.1 1", "k0.1"),
    ("t0 closec c0", "already"),
    ("t1 valid s0 k0.1", "yes"),
    ("t1 closec c1", "ok"),
    ("t1 channel sink", "c1.1"),
    ("t1 is-open c1.2", "no-channel"),
];

/// A script and its history.
#[derive(Drop)]
pub(super) struct Texts {
    pub(super) script: String,
    pub(super) history: String,
    calls: u64,
}

impl Texts {
    pub(super) fn new(alloc: Global) -> Texts {
        Texts {
            script: String::new(alloc),
            history: String::new(alloc),
            calls: 0,
        }
    }

    /// Adds lines at the end.
    pub(super) fn add(&mut self, alloc: Global, lines: Lines) -> Result<(), Fail> {
        for (line, reply) in lines {
            self.calls = self.calls.saturating_add(1);
            let entry = format!(in alloc; "{} {line} -> {reply}\n", self.calls)?;
            self.history.push_str(&entry)?;
            self.script.push_str(line)?;
            self.script.push('\n')?;
        }
        Ok(())
    }
}

/// Runs a row on the program's table by `script`, and has `check` compare its history with the documented system's.
fn row<R>(rt: &R, alloc: Global, label: &str, opening: Lines, lines: Lines) -> Result<(), Fail>
where
    R: Abort + Threads + Wait + RandomSource + AllocGlobal + Sync,
{
    let mut texts = Texts::new(alloc);
    texts.add(alloc, opening)?;
    texts.add(alloc, lines)?;
    let (status, sink) = outcome(
        rt,
        alloc,
        SCRIPT_WORDS,
        texts.script.as_bytes(),
        NOTHING_FAILS,
    )?;
    assert!(rt;
        status == 0 && sink.bytes() == texts.history.as_bytes(),
        "{label}"
    );
    let legal = format!(in alloc; "legal {}\n", texts.calls)?;
    let (status, sink) = outcome(
        rt,
        alloc,
        CHECK_WORDS,
        texts.history.as_bytes(),
        NOTHING_FAILS,
    )?;
    assert!(rt; status == 0 && sink.bytes() == legal.as_bytes(), "{label}");
    Ok(())
}

#[test]
fn rows_on_the_table(rt: HostRuntime) -> Result<(), Fail> {
    let alloc = rt.alloc();
    for (label, opening, lines) in ROWS {
        row(&rt, alloc, label, opening, lines)?;
    }
    Ok(())
}

/// Runs a row on a table of these limits.
fn row_on(
    rt: &(impl Abort + Threads + Wait + Sync),
    alloc: Global,
    label: &str,
    limits: Limits,
    lines: Lines,
) -> Result<(), Fail>
    requires { IsFit limits }
{
    let mut texts = Texts::new(alloc);
    texts.add(alloc, lines)?;
    let mut source = MemorySource::make(texts.script.into_bytes(), 12, Vec::new(alloc));
    let mut sink = MemorySink::make(alloc, 5, Vec::new(alloc), 1_024)?;
    let (table, mut pass) = Words::make(alloc, limits)?;
    let mut sole = Sole::make(alloc, &table, &mut pass)?;
    let status = run_script(alloc, &mut source, &mut sink, &mut sole);
    let _pass = sole.into_pass();
    assert_eq!(rt; status.code(), 0, "{label}");
    assert_eq!(rt; sink.bytes(), texts.history.as_bytes(), "{label}");
    Ok(())
}

#[test]
fn rows_on_small_tables(rt: HostRuntime) -> Result<(), Fail> {
    let alloc = rt.alloc();
    let small = Limits {
        callers: 2,
        selectors: 1,
        channels: 4,
        keys: 2,
    };
    row_on(&rt, alloc, "small_limits", small, SMALL_LIMITS)?;
    let one_key = Limits {
        callers: 2,
        selectors: 1,
        channels: 2,
        keys: 1,
    };
    row_on(&rt, alloc, "index_given_again", one_key, INDEX_GIVEN_AGAIN)?;
    row_on(
        &rt,
        alloc,
        "number_given_again",
        one_key,
        NUMBER_GIVEN_AGAIN,
    )
}
