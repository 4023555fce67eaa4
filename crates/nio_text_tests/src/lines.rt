//! Lines of scripts, each with the reply that a user of Java's selectors would expect. The worked rows of whole scripts
//! are tests of `run`, in `nio_run_tests`.
use nio_base::{CallerNo, Limits};
use nio_language::{Call, Parsed, parse_line, print_line};
use nio_plain::System;
use std::alloc::Global;
use std::process::Abort;
use std::test::Fail;

/// Lines, each with its reply.
pub(crate) type Lines = &'static [(&'static str, &'static str)];

/// The limits of the systems that make these calls.
pub(crate) const LIMITS: Limits = Limits {
    callers: 3,
    selectors: 2,
    channels: 3,
    keys: 3,
};

/// Each row's name and its lines, which a new system answers.
pub(crate) const ROWS: [(&str, Lines); 12] = [
    ("calls_of_selections", CALLS_OF_SELECTIONS),
    ("new_channel_and_key", NEW_CHANNEL_AND_KEY),
    ("least_free_index", LEAST_FREE_INDEX),
    ("number_comes_back", NUMBER_COMES_BACK),
    ("ends_come_back", ENDS_COME_BACK),
    ("source_comes_back", SOURCE_COMES_BACK),
    ("cancelled_meanwhile", CANCELLED_MEANWHILE),
    ("pipe_bytes", PIPE_BYTES),
    ("broken_pipe", BROKEN_PIPE),
    ("group_shutdown_now", GROUP_SHUTDOWN_NOW),
    ("accept_after_shutdown", ACCEPT_AFTER_SHUTDOWN),
    ("accepted_stream", ACCEPTED_STREAM),
];

const CALLS_OF_SELECTIONS: Lines = &[
    ("t5 selector", "no-caller"),
    ("t0 selector", "s0"),
    ("t0 channel source", "c0"),
    ("t0 is-open c0", "yes"),
    ("t0 is-blocking c0", "yes"),
    ("t0 is-registered c0", "no"),
    ("t0 is-open c1", "no-channel"),
    ("t0 register s0 c0 1", "illegal-blocking-mode"),
    ("t0 blocking c0 off", "ok"),
    ("t0 register s1 c0 1", "no-selector"),
    ("t1 register s0 c0 1 7", "k0"),
    ("t1 key-for c0 s0", "k0"),
    ("t1 valid s0 k0", "yes"),
    ("t1 valid s0 k1", "no-key"),
    ("t1 interest s0 k0", "1"),
    ("t1 iset s0 k0 4", "illegal-ops"),
    ("t1 iand s0 k0 1", "1"),
    ("t1 ior s0 k0 1", "1"),
    ("t1 attachment s0 k0", "7"),
    ("t1 attach s0 k0 9", "7"),
    ("t0 begin s0 for -1", "negative-timeout"),
    ("t0 begin s0 wait", "looked k0:1"),
    ("t1 begin s0 now", "busy"),
    ("t1 told s0", "not-selecting"),
    ("t0 told s0", "again"),
    ("t0 told s0 k0:1 k1:1", "selected 1 ready"),
    ("t0 ready s0 k0", "1"),
    ("t0 keys s0", "k0"),
    ("t0 selected s0", "k0"),
    ("t0 unselect s0 k0", "yes"),
    ("t0 selected s0", "none"),
    ("t0 cancel s0 k0", "ok"),
    ("t1 begin s0 now", "looked none"),
    ("t1 failed s0", "left"),
    ("t0 wakeup s0", "ok"),
    ("t0 interrupt t1", "ok"),
    ("t1 interrupted", "yes"),
    ("t0 closec c0", "ok"),
    ("t0 close s0", "closing"),
    ("t0 close-end s0", "closed"),
];

const NEW_CHANNEL_AND_KEY: Lines = &[
    ("t1 selector", "s0"),
    ("t1 channel source", "c0"),
    ("t1 is-open c0", "yes"),
    ("t1 is-blocking c0", "yes"),
    ("t1 is-registered c0", "no"),
    ("t1 blocking c0 off", "ok"),
    ("t1 register s0 c0 1", "k0"),
    ("t1 ready s0 k0", "0"),
    ("t1 is-registered c0", "yes"),
    ("t1 blocking c0 on", "illegal-blocking-mode"),
    ("t1 is-blocking c0", "no"),
];

const LEAST_FREE_INDEX: Lines = &[
    ("t1 selector", "s0"),
    ("t1 channel source", "c0"),
    ("t1 channel source", "c1"),
    ("t1 channel source", "c2"),
    ("t1 blocking c0 off", "ok"),
    ("t1 blocking c1 off", "ok"),
    ("t1 blocking c2 off", "ok"),
    ("t1 register s0 c0 1", "k0"),
    ("t1 register s0 c1 1", "k1"),
    ("t1 register s0 c2 1", "k2"),
    ("t1 cancel s0 k2", "ok"),
    ("t1 cancel s0 k1", "ok"),
    ("t1 begin s0 now", "looked k0:1"),
    ("t1 told s0", "selected 0 now"),
    ("t1 register s0 c2 1", "k1.1"),
    ("t1 register s0 c1 1", "k2.1"),
    ("t1 selected s0", "none"),
];

/// The number of a closed channel is given to one of its kind once no key of it is in a key set; its first name is a
/// closed channel from then on.
const NUMBER_COMES_BACK: Lines = &[
    ("t1 selector", "s0"),
    ("t1 channel source", "c0"),
    ("t1 channel source", "c1"),
    ("t1 channel sink", "c2"),
    ("t1 channel source", "channels-spent"),
    ("t1 blocking c0 off", "ok"),
    ("t1 register s0 c0 1", "k0"),
    ("t1 closec c0", "ok"),
    ("t1 channel source", "channels-spent"),
    ("t1 begin s0 now", "looked none"),
    ("t1 told s0", "selected 0 now"),
    ("t1 channel sink", "channels-spent"),
    ("t1 is-open c0.1", "no-channel"),
    ("t1 channel source", "c0.1"),
    ("t1 channel source", "channels-spent"),
    ("t1 is-open c0", "no"),
    ("t1 is-blocking c0", "no"),
    ("t1 is-registered c0", "no"),
    ("t1 key-for c0 s0", "none"),
    ("t1 blocking c0 off", "closed-channel"),
    ("t1 register s0 c0 4", "illegal-ops"),
    ("t1 register s0 c0 1", "closed-channel"),
    ("t1 closec c0", "already"),
    ("t1 pread c0 1", "not-owner"),
    ("t1 is-open c0.1", "yes"),
    ("t1 is-blocking c0.1", "yes"),
    ("t1 is-registered c0.1", "no"),
    ("t1 is-open c0.2", "no-channel"),
    ("t1 closec c1.1", "no-channel"),
    ("t1 register s0 c0.1 1", "illegal-blocking-mode"),
    ("t1 blocking c0.1 off", "ok"),
    ("t1 register s0 c0.1 1 7", "k0.1"),
    ("t1 is-registered c0", "no"),
    ("t1 is-registered c0.1", "yes"),
    ("t1 key-for c0 s0", "none"),
    ("t1 key-for c0.1 s0", "k0.1"),
    ("t1 closec c0", "already"),
    ("t1 valid s0 k0.1", "yes"),
    ("t1 closec c0.1", "ok"),
    ("t1 valid s0 k0.1", "no"),
    ("t1 is-open c0.1", "no"),
];

/// A pipe gets the numbers of closed ends. One that finds no second number closes the end that it opened.
const ENDS_COME_BACK: Lines = &[
    ("t1 channel stream", "c0"),
    ("t1 pipe t2", "c1 c2"),
    ("t2 pwrite c2 6f", "1"),
    ("t1 pipe t2", "channels-spent"),
    ("t1 closec c1", "ok"),
    ("t1 pipe t2", "channels-spent"),
    ("t1 is-open c1.1", "no"),
    ("t2 closec c2", "ok"),
    ("t1 pipe t2", "c1.2 c2.1"),
    ("t1 pread c1 1", "closed-channel"),
    ("t1 pread c1.1 1", "not-owner"),
    ("t2 pwrite c2 00", "closed-channel"),
    ("t2 closec c2", "already"),
    ("t2 pwrite c2.1 6162", "2"),
    ("t2 pread c1.2 9", "not-owner"),
    ("t1 pread c1.2 9", "6162"),
    ("t1 pread c1.3 1", "no-channel"),
];

/// A pipe whose source's number was given to another channel is broken.
const SOURCE_COMES_BACK: Lines = &[
    ("t1 channel stream", "c0"),
    ("t1 pipe t2", "c1 c2"),
    ("t1 closec c1", "ok"),
    ("t1 channel source", "c1.1"),
    ("t2 pwrite c2 00", "broken-pipe"),
    ("t1 pread c1.1 1", "not-owner"),
    ("t1 pread c1 1", "closed-channel"),
];

/// A key that is registered and cancelled during a selection is removed where that ends.
const CANCELLED_MEANWHILE: Lines = &[
    ("t1 selector", "s0"),
    ("t1 channel source", "c0"),
    ("t1 channel source", "c1"),
    ("t1 blocking c0 off", "ok"),
    ("t1 blocking c1 off", "ok"),
    ("t1 register s0 c0 1", "k0"),
    ("t1 begin s0 wait", "looked k0:1"),
    ("t2 register s0 c1 1", "k1"),
    ("t2 cancel s0 k1", "ok"),
    ("t2 register s0 c1 1", "cancelled-key"),
    ("t1 told s0", "again"),
    ("t1 keys s0", "k0 k1"),
    ("t1 told s0 k0:1 k1:1", "selected 1 ready"),
    ("t1 keys s0", "k0"),
    ("t1 is-registered c1", "no"),
    ("t2 register s0 c1 1", "k1.1"),
];

const PIPE_BYTES: Lines = &[
    ("t1 pipe t5", "no-caller"),
    ("t1 pipe t2", "c0 c1"),
    ("t1 pipe t2", "channels-spent"),
    ("t2 pwrite c1 68656c6c6f", "5"),
    ("t1 pwrite c1 00", "not-owner"),
    ("t1 pread c0 3", "68656c"),
    ("t2 pwrite c1 6f", "1"),
    ("t1 pread c0 9", "6c6f6f"),
    ("t1 pread c0 1", "again"),
    ("t1 pread c0 0", "0"),
    ("t1 blocking c0 off", "ok"),
    ("t1 pread c0 1", "0"),
    ("t1 closec c1", "ok"),
    ("t1 pread c0 1", "0"),
    ("t2 closec c1", "already"),
    ("t1 pread c0 1", "end"),
    ("t1 closec c0", "ok"),
    ("t1 pread c0 1", "closed-channel"),
];

const BROKEN_PIPE: Lines = &[
    ("t1 pipe t2", "c0 c1"),
    ("t1 closec c0", "ok"),
    ("t2 pwrite c1 00", "broken-pipe"),
    ("t2 pwrite c1 -", "broken-pipe"),
    ("t1 interrupt t2", "ok"),
    ("t2 pwrite c1 00", "closed-by-interrupt"),
    ("t2 pwrite c1 00", "closed-channel"),
    ("t2 interrupted", "yes"),
    ("t1 pread c1 1", "not-owner"),
    ("t1 pread c2 1", "no-channel"),
    ("t1 pread c0 1", "closed-channel"),
    ("t1 pipe t2", "c2 c1.1"),
];

const GROUP_SHUTDOWN_NOW: Lines = &[
    ("t1 gopen stream", "g0"),
    ("t1 start g0 read 10", "not-yet-connected"),
    ("t1 start g0 connect 0", "op 0"),
    ("t1 report 0 connected", "ok"),
    ("t1 take", "op 0 connected"),
    ("t1 done 0", "ok"),
    ("t1 start g0 read 10", "op 1"),
    ("t2 start g0 read 10", "read-pending"),
    ("t2 shutdown-now", "ok"),
    ("t1 terminated", "no"),
    ("t1 take", "op 1 async-close"),
    ("t1 terminated", "no"),
    ("t1 done 1", "ok"),
    ("t1 terminated", "yes"),
    ("t1 start g0 read 1", "shutdown-group"),
    ("t1 take", "none"),
    ("t1 gopen stream", "shutdown-group"),
];

const ACCEPT_AFTER_SHUTDOWN: Lines = &[
    ("t1 gopen listener", "g0"),
    ("t1 start g0 accept 0", "not-yet-bound"),
    ("t1 gbind g1", "no-channel"),
    ("t1 gbind g0", "ok"),
    ("t1 gbind g0", "already-bound"),
    ("t1 start g0 accept 0", "op 0"),
    ("t1 start g0 accept 0", "accept-pending"),
    ("t1 is-shutdown", "no"),
    ("t1 shutdown", "ok"),
    ("t1 is-shutdown", "yes"),
    ("t1 report 0 accepted", "ok"),
    ("t1 take", "op 0 shutdown-group"),
    ("t1 report 0 accepted", "not-pending"),
];

const ACCEPTED_STREAM: Lines = &[
    ("t1 gopen listener", "g0"),
    ("t1 start g0 accept 0", "not-yet-bound"),
    ("t1 gbind g0", "ok"),
    ("t1 start g0 accept 0", "op 0"),
    ("t1 report 0 accepted", "ok"),
    ("t1 take", "op 0 accepted g1"),
    ("t1 start g1 read 0", "op 1"),
    ("t1 take", "op 1 count 0"),
    ("t1 start g1 read 5", "op 2"),
    ("t1 report 2 count 6", "wrong-outcome"),
    ("t1 report 2 end", "ok"),
    ("t1 take", "op 2 end"),
    ("t1 gclose g1", "ok"),
    ("t1 gclose g1", "already"),
    ("t1 start g1 write 3", "op 3"),
    ("t1 take", "op 3 closed-channel"),
    ("t1 done 4", "not-running"),
];

/// The call of a line, and who makes it.
fn call_of(rt: &impl Abort, alloc: Global, line: &str) -> (CallerNo, Call) {
    match parse_line(alloc, line.as_bytes()) {
        Ok(Parsed::Line { caller, call }) => (caller, call),
        _ => panic!(rt; "no call: {line}"),
    }
}

/// Makes the calls, and compares each line of the history with the one that is expected.
pub(crate) fn answers<Y: System>(
    rt: &impl Abort,
    alloc: Global,
    system: &mut Y,
    label: &str,
    lines: Lines,
) -> Result<(), Fail> {
    for (line, reply) in lines {
        let (caller, call) = call_of(rt, alloc, line);
        let answer = system.call(alloc, caller, &call)?;
        let written = print_line(alloc, 1, caller, &call, &answer)?;
        let wanted = format!(in alloc; "1 {line} -> {reply}\n")?;
        assert!(rt;
            written.as_slice() == wanted.as_bytes(),
            "{label}: {line} -> {answer:?}"
        );
    }
    Ok(())
}
