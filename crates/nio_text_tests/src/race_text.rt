//! Race texts and the lines of their output, as tables of worked rows.
use nio_base::{CallerNo, ChanId, ChanNo, KeyId, Ops, SelNo};
use nio_history::Why;
use nio_language::{Call, Reply};
use nio_race_text::{RaceCall, RaceLine, parse_race, print_race_line};
use nio_script::ScriptError;
use std::alloc::Global;
use std::test::Fail;

/// A text, and how many calls its setup and its race have, or its first bad line.
type Row = (&'static str, &'static str, Result<(usize, usize), u64>);

const TEXTS: &[Row] = &[
    ("no bytes", "", Ok((0, 0))),
    (
        "a script alone",
        "t1 selector\n#\nt1 begin s0 now",
        Ok((2, 0)),
    ),
    ("go alone", "go", Ok((0, 0))),
    (
        "blank lines in both parts",
        "\n#\ngo\n\n# go\nt1 wakeup s0\n",
        Ok((0, 1)),
    ),
    (
        "a script's calls behind go",
        "t1 selector\ngo\nt2 begin s0 wait\nt2 told s0\n",
        Ok((1, 2)),
    ),
    (
        "the largest numbers",
        "go\nt63 block s4294967295",
        Ok((0, 1)),
    ),
    ("block before go", "t1 selector\nt1 block s0\ngo\n", Err(2)),
    ("a second go", "go\nt1 wakeup s0\n\ngo\n", Err(4)),
    (
        "a selector behind go",
        "t1 selector\ngo\nt1 selector\n",
        Err(3),
    ),
    ("a channel behind go", "go\nt1 channel source\n", Err(2)),
    (
        "a pipe before go",
        "t1 pipe t2\ngo\nt2 closec c1\n",
        Ok((1, 1)),
    ),
    ("a pipe behind go", "go\nt1 pipe t2\n", Err(2)),
    (
        "bytes behind go",
        "t1 pipe t1\ngo\nt1 pwrite c1 00\n",
        Ok((1, 1)),
    ),
    (
        "a read behind go",
        "t1 pipe t1\ngo\nt1 pread c0 1\n",
        Ok((1, 1)),
    ),
    ("the group before go", "t1 gopen stream\ngo\n", Ok((1, 0))),
    (
        "the group behind go",
        "t1 gopen stream\ngo\nt1 take\n",
        Err(3),
    ),
    ("go and a space", "go \n", Err(1)),
    ("bad lines in both parts", "#\nt1\ngo\nt1\n", Err(2)),
    ("a caller too large", "go\nt64 block s0\n", Err(2)),
    ("a selector too large", "go\nt1 block s4294967296\n", Err(2)),
    ("a needless zero", "go\nt1 block s00\n", Err(2)),
    ("two spaces", "go\nt1  block s0\n", Err(2)),
    ("no selector", "go\nt1 block\n", Err(2)),
    ("a further word", "go\nt1 block s0 now\n", Err(2)),
];

/// How many calls the setup and the race have; 0 stands for want of memory.
fn counts(alloc: Global, text: &str) -> Result<(usize, usize), u64> {
    match parse_race(alloc, text.as_bytes()) {
        Ok(calls) => Ok((calls.setup().len(), calls.race().len())),
        Err(ScriptError::BadLine { line }) => Err(line),
        Err(ScriptError::Memory) => Err(0),
    }
}

#[test]
fn race_texts(rt: HostRuntime) {
    for (label, text, expected) in TEXTS {
        assert!(rt; counts(rt.alloc(), text) == *expected, "{label}");
    }
}

/// The selector of `block` or `wakeup`.
fn selector_of(line: &RaceLine) -> Option<SelNo> {
    match &line.call {
        RaceCall::Block(selector) => Some(*selector),
        RaceCall::Script(Call::Wakeup(selector)) => Some(*selector),
        RaceCall::Script(_) => None,
    }
}

#[test]
fn race_block_wakeup(rt: HostRuntime) {
    let text = "t1 selector\nt1 channel source\nt1 blocking c0 off\nt1 register s0 c0 1\n\
        go\nt1 block s0\nt2 wakeup s0\n";
    let calls = parse_race(rt.alloc(), text.as_bytes()).expect(&rt, "a race text");
    assert_eq!(rt; calls.setup().len(), 4);
    let callers = [CallerNo(1), CallerNo(2)];
    assert_eq!(rt; calls.race().len(), callers.len());
    for (line, caller) in calls.race().iter().zip(callers.iter()) {
        assert_eq!(rt; line.caller, *caller);
        assert_eq!(rt; selector_of(line), Some(SelNo(0)));
    }
}

#[test]
fn lines_of_the_output(rt: HostRuntime) -> Result<(), Fail> {
    let alloc = rt.alloc();
    let chan = ChanId {
        number: ChanNo(1),
        serial: 3,
    };
    let register = Call::Register(SelNo(0), chan, Ops::of(1), Some(7));
    let rows = [
        (
            CallerNo(1),
            1,
            RaceCall::Script(Call::Wakeup(SelNo(0))),
            Reply::Ok,
            "t1 1 wakeup s0 -> ok\n",
        ),
        (
            CallerNo(12),
            345,
            RaceCall::Script(register),
            Reply::Key(KeyId {
                index: 2,
                serial: 1,
            }),
            "t12 345 register s0 c1.3 1 7 -> k2.1\n",
        ),
        (
            CallerNo(63),
            18446744073709551615,
            RaceCall::Block(SelNo(4294967295)),
            Reply::Selected(1, Why::Ready),
            "t63 18446744073709551615 block s4294967295 -> selected 1 ready\n",
        ),
    ];
    for (caller, number, call, reply, expected) in &rows {
        let line = print_race_line(alloc, *caller, *number, call, reply)?;
        assert_eq!(rt; line.as_slice(), expected.as_bytes());
    }
    Ok(())
}
