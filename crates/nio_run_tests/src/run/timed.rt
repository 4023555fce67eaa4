//! Worked rows of `timed`: its lines with their replies, and its statuses.
use super::rows::{Lines, Texts};
use super::{Fails, NOTHING_FAILS, Row, SCRIPT, ends, outcome};
use std::test::Fail;

/// A stream is opened and connected by operation 0.
const CONNECTED: Lines = &[
    ("t1 gopen stream", "g0"),
    ("t1 start g0 connect 0", "op 0"),
    ("t1 report 0 connected", "ok"),
    ("t1 take", "op 0 connected"),
    ("t1 done 0", "ok"),
];

/// Nothing before the row's own lines.
const NOTHING: Lines = &[];

/// Each row's name, the lines that it begins with, and its own lines.
const ROWS: [(&str, Lines, Lines); 6] = [
    (
        "operation_times_out",
        CONNECTED,
        &[
            ("t1 start-timed g0 read 10 100 50", "op 1"),
            ("t1 next", "150"),
            ("t1 expire 149", "0"),
            ("t1 expire 150", "1"),
            ("t1 take", "op 1 timeout"),
            ("t1 start-timed g0 read 10 200 0", "timed-out"),
            ("t1 start g0 read 10", "timed-out"),
            ("t1 start-timed g0 write 3 200 5", "op 2"),
            ("t1 report 2 count 3", "ok"),
            ("t1 expire 900", "0"),
            ("t1 take", "op 2 count 3"),
            ("t1 next", "none"),
        ],
    ),
    (
        "limits_that_are_refused",
        NOTHING,
        &[
            ("t1 start-timed g0 connect 0 0 5", "no-channel"),
            ("t1 gopen stream", "g0"),
            ("t1 start-timed g0 connect 0 0 5", "no-limit-here"),
            (
                "t1 start-timed g0 accept 0 18446744073709551615 1",
                "no-limit-here",
            ),
            (
                "t1 start-timed g0 read 1 18446744073709551615 1",
                "limit-too-long",
            ),
            ("t1 start-timed g0 read 1 0 1", "not-yet-connected"),
            ("t1 start-timed g0 accept 0 0 0", "wrong-kind"),
            ("t1 next", "none"),
        ],
    ),
    (
        "the_first_cause_is_told",
        CONNECTED,
        &[
            ("t1 start-timed g0 read 10 0 5", "op 1"),
            ("t1 start-timed g0 read 10 0 5", "read-pending"),
            ("t1 expire 5", "1"),
            (
                "t1 start-timed g0 read 1 18446744073709551615 1",
                "limit-too-long",
            ),
            ("t1 start-timed g0 read 1 0 5", "timed-out"),
            ("t1 gclose g0", "ok"),
            ("t1 start-timed g0 read 1 0 5", "op 2"),
            ("t1 take", "op 1 timeout"),
            ("t1 take", "op 2 closed-channel"),
            ("t1 take", "none"),
        ],
    ),
    (
        "two_with_one_deadline",
        CONNECTED,
        &[
            ("t1 start-timed g0 write 1 0 18446744073709551615", "op 1"),
            ("t2 start-timed g0 read 1 5 18446744073709551610", "op 2"),
            ("t1 next", "18446744073709551615"),
            ("t1 expire 18446744073709551614", "0"),
            ("t1 expire 18446744073709551615", "2"),
            ("t1 take", "op 1 timeout"),
            ("t2 take", "op 2 timeout"),
        ],
    ),
    (
        "reported_at_its_deadline",
        CONNECTED,
        &[
            ("t1 start-timed g0 read 8 10 5", "op 1"),
            ("t1 report 1 count 8", "ok"),
            ("t1 expire 15", "0"),
            ("t1 take", "op 1 count 8"),
            ("t1 start-timed g0 read 8 15 1", "op 2"),
        ],
    ),
    (
        "shutdown_with_deadlines",
        CONNECTED,
        &[
            ("t1 start-timed g0 read 8 0 5", "op 1"),
            ("t1 start-timed g0 write 8 0 6", "op 2"),
            ("t1 shutdown", "ok"),
            ("t1 is-shutdown", "yes"),
            ("t1 expire 5", "1"),
            ("t1 shutdown-now", "ok"),
            ("t1 expire 6", "0"),
            ("t1 take", "op 1 timeout"),
            ("t1 done 1", "ok"),
            ("t1 take", "op 2 async-close"),
            ("t1 terminated", "no"),
            ("t1 done 2", "ok"),
            ("t1 terminated", "yes"),
            ("t1 gopen stream", "shutdown-group"),
        ],
    ),
];

#[test]
fn timed_rows(rt: HostRuntime) -> Result<(), Fail> {
    let alloc = rt.alloc();
    for (label, opening, lines) in ROWS {
        let mut texts = Texts::new(alloc);
        texts.add(alloc, opening)?;
        texts.add(alloc, lines)?;
        let input = texts.script.as_bytes();
        let (status, sink) = outcome(&rt, alloc, &["timed"], input, NOTHING_FAILS)?;
        assert!(rt;
            status == 0 && sink.bytes() == texts.history.as_bytes(),
            "{label}"
        );
    }
    Ok(())
}

const TIMED: Row = Row {
    label: "timed",
    words: &["timed"],
    input: "# blank lines\n\nt1 gopen stream\nt63 next",
    written: "1 t1 gopen stream -> g0\n2 t63 next -> none\n",
    ..SCRIPT
};

const STATUSES: &[Row] = &[
    TIMED,
    Row {
        label: "no_lines",
        input: "",
        written: "",
        ..TIMED
    },
    Row {
        fails: Fails {
            read: Some(1),
            write: None,
        },
        code: 4,
        written: "",
        ..TIMED
    },
    Row {
        fails: Fails {
            read: None,
            write: Some(2),
        },
        code: 5,
        written: "1 t1 gopen",
        ..TIMED
    },
];

/// Lines that aren't in the grammar.
const BAD_LINES: &[&str] = &[
    "t1 selector",
    "t1 is-open c0",
    "t64 next",
    "t1 next ",
    "t1 next 1",
    "t1 expire",
    "t1 expire 01",
    "t1 expire 18446744073709551616",
    "t1 start-timed g0 read 1 0",
    "t1 start-timed g0 read 1 0 0 0",
    "t1 start-timed g0 reads 1 0 0",
    "t1 start-timed g4294967296 read 1 0 0",
    "t1 start-timed g0 read 4294967296 0 0",
    "t1 start-timed g0 read 1 18446744073709551616 0",
    "t1 start-timed g0 read 1 0 -1",
    "t1 start-timed  g0 read 1 0 0",
    "t1 start g0 read 1 0 0",
];

#[test]
fn timed_statuses(rt: HostRuntime) -> Result<(), Fail> {
    let alloc = rt.alloc();
    for row in STATUSES {
        ends(&rt, alloc, row)?;
    }
    for line in BAD_LINES {
        let input = format!(in alloc; "t1 next\n{line}\nt1 selector\n")?;
        let refused = Row {
            label: line,
            input: &input,
            code: 3,
            written: "bad line 2\n",
            ..TIMED
        };
        ends(&rt, alloc, &refused)?;
    }
    Ok(())
}
