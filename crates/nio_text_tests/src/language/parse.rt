//! The lines of the grammar, and lines that nearly are.
use nio_language::{Call, ParseError, Parsed, Reply, parse_line, print_line};
use std::alloc::{AllocError, Global};
use std::process::Abort;
use std::test::Fail;

/// Lines, with the caller and the call that each says.
const LINES: &[(&str, u32, &str)] = &[
    ("t1 selector", 1, "Selector"),
    ("t0 channel source", 0, "Channel(Source)"),
    ("t1 channel stream", 1, "Channel(Stream)"),
    ("t1 channel listener", 1, "Channel(Listener)"),
    ("t1 channel sink", 1, "Channel(Sink)"),
    ("t1 channel datagram", 1, "Channel(Datagram)"),
    (
        "t63 blocking c0 off",
        63,
        "Blocking(ChanId { number: ChanNo(0), serial: 0 }, false)",
    ),
    (
        "t1 blocking c4294967295 on",
        1,
        "Blocking(ChanId { number: ChanNo(4294967295), serial: 0 }, true)",
    ),
    (
        "t1 is-blocking c3",
        1,
        "IsBlocking(ChanId { number: ChanNo(3), serial: 0 })",
    ),
    (
        "t1 is-open c3",
        1,
        "IsOpen(ChanId { number: ChanNo(3), serial: 0 })",
    ),
    (
        "t1 is-registered c3",
        1,
        "IsRegistered(ChanId { number: ChanNo(3), serial: 0 })",
    ),
    (
        "t1 key-for c2 s1",
        1,
        "KeyFor(ChanId { number: ChanNo(2), serial: 0 }, SelNo(1))",
    ),
    (
        "t1 register s0 c2 5",
        1,
        "Register(SelNo(0), ChanId { number: ChanNo(2), serial: 0 }, Ops { bits: 5 }, None)",
    ),
    (
        "t1 register s15 c0 255 0",
        1,
        "Register(SelNo(15), ChanId { number: ChanNo(0), serial: 0 }, Ops { bits: 255 }, Some(0))",
    ),
    (
        "t1 register s0 c0 1 18446744073709551615",
        1,
        "Register(SelNo(0), ChanId { number: ChanNo(0), serial: 0 }, Ops { bits: 1 }, Some(18446744073709551615))",
    ),
    (
        "t1 closec c3",
        1,
        "Closec(ChanId { number: ChanNo(3), serial: 0 })",
    ),
    (
        "t1 closec c4294967295.4294967295",
        1,
        "Closec(ChanId { number: ChanNo(4294967295), serial: 4294967295 })",
    ),
    (
        "t1 register s0 c2.1 5",
        1,
        "Register(SelNo(0), ChanId { number: ChanNo(2), serial: 1 }, Ops { bits: 5 }, None)",
    ),
    (
        "t1 pread c0.10 1",
        1,
        "Pread(ChanId { number: ChanNo(0), serial: 10 }, 1)",
    ),
    (
        "t1 valid s0 k4294967295",
        1,
        "Valid(SelNo(0), KeyId { index: 4294967295, serial: 0 })",
    ),
    (
        "t1 interest s0 k1",
        1,
        "Interest(SelNo(0), KeyId { index: 1, serial: 0 })",
    ),
    (
        "t1 ready s0 k1",
        1,
        "Ready(SelNo(0), KeyId { index: 1, serial: 0 })",
    ),
    (
        "t1 iset s0 k1 0",
        1,
        "Iset(SelNo(0), KeyId { index: 1, serial: 0 }, Ops { bits: 0 })",
    ),
    (
        "t1 ior s0 k1 4",
        1,
        "Ior(SelNo(0), KeyId { index: 1, serial: 0 }, Ops { bits: 4 })",
    ),
    (
        "t1 iand s0 k1 255",
        1,
        "Iand(SelNo(0), KeyId { index: 1, serial: 0 }, Ops { bits: 255 })",
    ),
    (
        "t1 cancel s0 k1",
        1,
        "Cancel(SelNo(0), KeyId { index: 1, serial: 0 })",
    ),
    (
        "t1 unselect s0 k1",
        1,
        "Unselect(SelNo(0), KeyId { index: 1, serial: 0 })",
    ),
    (
        "t1 attach s0 k1 18446744073709551615",
        1,
        "Attach(SelNo(0), KeyId { index: 1, serial: 0 }, 18446744073709551615)",
    ),
    (
        "t1 attachment s0 k1",
        1,
        "Attachment(SelNo(0), KeyId { index: 1, serial: 0 })",
    ),
    ("t2 begin s0 now", 2, "Begin(SelNo(0), Now)"),
    ("t2 begin s0 wait", 2, "Begin(SelNo(0), Wait)"),
    ("t2 begin s0 for 0", 2, "Begin(SelNo(0), For(0))"),
    ("t2 begin s0 for -1", 2, "Begin(SelNo(0), For(-1))"),
    (
        "t2 begin s0 for 9223372036854775807",
        2,
        "Begin(SelNo(0), For(9223372036854775807))",
    ),
    (
        "t2 begin s0 for -9223372036854775807",
        2,
        "Begin(SelNo(0), For(-9223372036854775807))",
    ),
    (
        "t1 told s0",
        1,
        "Told(SelNo(0), false, Pairs { pairs: [] })",
    ),
    (
        "t1 told s3 k7:1 k0:4",
        1,
        "Told(SelNo(3), false, Pairs { pairs: [(KeyId { index: 7, serial: 0 }, Ops { bits: 1 }), \
            (KeyId { index: 0, serial: 0 }, Ops { bits: 4 })] })",
    ),
    (
        "t1 valid s0 k4294967295.4294967295",
        1,
        "Valid(SelNo(0), KeyId { index: 4294967295, serial: 4294967295 })",
    ),
    (
        "t1 iset s0 k0.1 4",
        1,
        "Iset(SelNo(0), KeyId { index: 0, serial: 1 }, Ops { bits: 4 })",
    ),
    (
        "t1 told s0 k0:1 k0.1:1",
        1,
        "Told(SelNo(0), false, Pairs { pairs: [(KeyId { index: 0, serial: 0 }, Ops { bits: 1 }), \
            (KeyId { index: 0, serial: 1 }, Ops { bits: 1 })] })",
    ),
    (
        "t1 told s0 elapsed",
        1,
        "Told(SelNo(0), true, Pairs { pairs: [] })",
    ),
    (
        "t1 told s0 elapsed k7:1",
        1,
        "Told(SelNo(0), true, Pairs { pairs: [(KeyId { index: 7, serial: 0 }, Ops { bits: 1 })] })",
    ),
    ("t1 failed s0", 1, "Failed(SelNo(0))"),
    ("t1 wakeup s0", 1, "Wakeup(SelNo(0))"),
    ("t1 close s0", 1, "Close(SelNo(0))"),
    ("t1 close-end s0", 1, "CloseEnd(SelNo(0))"),
    ("t1 keys s0", 1, "Keys(SelNo(0))"),
    ("t1 selected s0", 1, "Selected(SelNo(0))"),
    ("t1 interrupt t63", 1, "Interrupt(CallerNo(63))"),
    ("t1 interrupted", 1, "Interrupted"),
    ("t1 pipe t63", 1, "Pipe(CallerNo(63))"),
    (
        "t2 pwrite c1 680aff",
        2,
        "Pwrite(ChanId { number: ChanNo(1), serial: 0 }, Bytes { bytes: [104, 10, 255] })",
    ),
    (
        "t2 pwrite c1 -",
        2,
        "Pwrite(ChanId { number: ChanNo(1), serial: 0 }, Bytes { bytes: [] })",
    ),
    (
        "t1 pread c0 0",
        1,
        "Pread(ChanId { number: ChanNo(0), serial: 0 }, 0)",
    ),
    (
        "t1 pread c0 2048",
        1,
        "Pread(ChanId { number: ChanNo(0), serial: 0 }, 2048)",
    ),
    ("t1 gopen stream", 1, "Group(Gopen(Stream))"),
    ("t1 gopen listener", 1, "Group(Gopen(Listener))"),
    (
        "t1 gbind g4294967295",
        1,
        "Group(Gbind(GChan { number: 4294967295, serial: 0 }))",
    ),
    (
        "t1 start g0 accept 0",
        1,
        "Group(Start(GChan { number: 0, serial: 0 }, Accept, 0))",
    ),
    (
        "t1 start g1 connect 0",
        1,
        "Group(Start(GChan { number: 1, serial: 0 }, Connect, 0))",
    ),
    (
        "t1 start g1 read 10",
        1,
        "Group(Start(GChan { number: 1, serial: 0 }, Read, 10))",
    ),
    (
        "t1 start g1 write 4294967295",
        1,
        "Group(Start(GChan { number: 1, serial: 0 }, Write, 4294967295))",
    ),
    (
        "t1 report 0 count 4294967295",
        1,
        "Group(Report(OpNo(0), Count(4294967295)))",
    ),
    ("t1 report 0 end", 1, "Group(Report(OpNo(0), End))"),
    (
        "t1 report 4294967295 connected",
        1,
        "Group(Report(OpNo(4294967295), Connected))",
    ),
    (
        "t1 report 0 accepted",
        1,
        "Group(Report(OpNo(0), Accepted))",
    ),
    ("t1 report 0 fault", 1, "Group(Report(OpNo(0), Fault))"),
    ("t1 take", 1, "Group(Take)"),
    ("t1 done 3", 1, "Group(Done(OpNo(3)))"),
    (
        "t1 gclose g0.1",
        1,
        "Group(Gclose(GChan { number: 0, serial: 1 }))",
    ),
    (
        "t1 gclose g0",
        1,
        "Group(Gclose(GChan { number: 0, serial: 0 }))",
    ),
    ("t1 shutdown", 1, "Group(Shutdown)"),
    ("t1 shutdown-now", 1, "Group(ShutdownNow)"),
    ("t1 is-shutdown", 1, "Group(IsShutdown)"),
    ("t1 terminated", 1, "Group(Terminated)"),
];

/// Reads the line, and prints it again with a reply.
fn reads(
    rt: &impl Abort,
    alloc: Global,
    text: &str,
    number: u32,
    wanted: &str,
) -> Result<(), Fail> {
    let Parsed::Line { caller, call } = parse_line(alloc, text.as_bytes())? else {
        return Err(Fail::from("a line is blank"));
    };
    let shown = format!(in alloc; "{call:?}")?;
    assert!(rt;
        caller.0 == number && shown.as_str() == wanted,
        "{text}: {call:?}"
    );
    let printed = print_line(alloc, 1, caller, &call, &Reply::Ok)?;
    let history = format!(in alloc; "1 {text} -> ok\n")?;
    assert!(rt; printed.as_slice() == history.as_bytes(), "{text}");
    Ok(())
}

#[test]
fn reads_lines(rt: HostRuntime) -> Result<(), Fail> {
    for (text, number, wanted) in LINES {
        reads(&rt, rt.alloc(), text, *number, wanted)?;
    }
    Ok(())
}

/// Lines that nearly are in the grammar.
const OTHER_LINES: &[&str] = &[
    "t64 selector",
    "t01 selector",
    "t1  selector",
    "t1 selector ",
    " t1 selector",
    "T1 selector",
    "selector",
    "t selector",
    "t1",
    "t+1 selector",
    "t1 selectors",
    "t1 Selector",
    "t1 selector s0",
    "t1 channel",
    "t1 channel socket",
    "t1 blocking c0 ON",
    "t1 blocking c4294967296 on",
    "t1 register s0 c0 256",
    "t1 register s0 c0 01",
    "t1 register s0 c0 -1",
    "t1 register s0 c0",
    "t1 register s0 c0 1 01",
    "t1 register s0 c0 1 2 3",
    "t1 register s0 c0 1 18446744073709551616",
    "t1 register c0 s0 1",
    "t1 told s0 k0:1 k0:4",
    "t1 told s0 k0:1 k00:4",
    "t1 told s0 k0:256",
    "t1 told s0 k0",
    "t1 told s0 0:1",
    "t1 told",
    "t1 told s0 elapsed elapsed",
    "t1 told s0 k0:1 elapsed",
    "t1 told elapsed s0",
    "t1 begin s0",
    "t1 begin s0 now wait",
    "t1 begin s0 for",
    "t1 begin s0 for -",
    "t1 begin s0 for -0",
    "t1 begin s0 for +1",
    "t1 begin s0 for 01",
    "t1 begin s0 for -01",
    "t1 begin s0 for 9223372036854775808",
    "t1 begin s0 for -9223372036854775808",
    "t1 key-for s0 c0",
    "t1 valid s0 k4294967296",
    "t1 is-open c0.0",
    "t1 is-open c0.01",
    "t1 is-open c0.4294967296",
    "t1 is-open c0.",
    "t1 is-open c.1",
    "t1 is-open c0.1.1",
    "t1 is-open c0.1 ",
    "t1 channel c0.1",
    "t1 valid s0 k0.0",
    "t1 valid s0 k0.01",
    "t1 valid s0 k0.4294967296",
    "t1 valid s0 k0.",
    "t1 valid s0 k.1",
    "t1 valid s0 k0.1.1",
    "t1 told s0 k0.1:1 k0.1:4",
    "t1 told s0 k0:1.1",
    "t1 iset s0 k0 256",
    "t1 iand s0 k0 -5",
    "t1 attach s0 k0",
    "t1 attach s0 k0 18446744073709551616",
    "t1 close c0",
    "t1 closec s0",
    "t1 interrupt t64",
    "t1 interrupt 1",
    "t1 interrupted t1",
    "t1 gopen source",
    "t1 gopen",
    "t1 gbind c0",
    "t1 gbind g4294967296",
    "t1 gclose g0.0",
    "t1 gclose g0.01",
    "t1 gclose g0.4294967296",
    "t1 gclose g0.",
    "t1 gclose g.1",
    "t1 gclose g0.1.1",
    "t1 start g0 read",
    "t1 start g0 close 1",
    "t1 start g0 read 4294967296",
    "t1 start g0 read 01",
    "t1 report op 0 end",
    "t1 report 0",
    "t1 report 0 count",
    "t1 report 0 count 4294967296",
    "t1 report 0 end 1",
    "t1 report 0 accepted g1",
    "t1 report 4294967296 end",
    "t1 take 0",
    "t1 done g0",
    "t1 done",
    "t1 shutdown now",
    "t1 is-terminated",
    "t1 pipe t64",
    "t1 pipe",
    "t1 pwrite c0",
    "t1 pwrite c0 6",
    "t1 pwrite c0 686",
    "t1 pwrite c0 6G",
    "t1 pwrite c0 0A",
    "t1 pwrite c0 --",
    "t1 pwrite c0 68 68",
    "t1 pwrite s0 68",
    "t1 pread c0",
    "t1 pread c0 2049",
    "t1 pread c0 01",
    "t1 pread c0 -",
    "t1 block s0",
    "go",
];

#[test]
fn refuses_lines(rt: HostRuntime) {
    for line in OTHER_LINES {
        assert!(rt; is_malformed(rt.alloc(), line.as_bytes()), "{line}");
    }
    assert!(rt; is_malformed(rt.alloc(), &[255]));
}

#[test]
fn reads_lines_of_every_length(rt: HostRuntime) -> Result<(), Fail> {
    let longest = told_line(rt.alloc(), "t1 told s0 k10:1")?;
    assert_eq!(rt; longest.len(), 4096);
    let Parsed::Line {
        call: Call::Told(_, _, pairs),
        ..
    } = parse_line(rt.alloc(), longest.as_bytes())?
    else {
        return Err(Fail::from("the longest line isn't told"));
    };
    assert_eq!(rt; pairs.as_slice().len(), 511);
    let longer = told_line(rt.alloc(), "t1 told s0 k100:1")?;
    assert_eq!(rt; longer.len(), 4097);
    assert!(rt; is_malformed(rt.alloc(), longer.as_bytes()));
    let most = write_line(rt.alloc(), 2000)?;
    assert!(rt; !is_malformed(rt.alloc(), most.as_bytes()));
    let more = write_line(rt.alloc(), 2001)?;
    assert!(rt; is_malformed(rt.alloc(), more.as_bytes()));
    let comment = format!(in rt.alloc(); "#{longer}")?;
    assert!(rt; is_blank_line(rt.alloc(), comment.as_bytes()));
    assert!(rt; is_blank_line(rt.alloc(), b"#"));
    assert!(rt; is_blank_line(rt.alloc(), b""));
    Ok(())
}

/// The line that begins so, and has 510 further pairs.
fn told_line(alloc: Global, begin: &str) -> Result<String, AllocError> {
    let mut line = String::from_str(alloc, begin)?;
    for key in 1000..1510 {
        line.push_str(format!(in alloc; " k{key}:1")?.as_str())?;
    }
    Ok(line)
}

/// The line that writes so many bytes into a pipe.
fn write_line(alloc: Global, bytes: usize) -> Result<String, AllocError> {
    let mut line = String::from_str(alloc, "t1 pwrite c0 ")?;
    for _ in 0..bytes {
        line.push_str("0f")?;
    }
    Ok(line)
}

fn is_malformed(alloc: Global, line: &[u8]) -> bool {
    matches!(parse_line(alloc, line), Err(ParseError::Malformed))
}

fn is_blank_line(alloc: Global, line: &[u8]) -> bool {
    matches!(parse_line(alloc, line), Ok(Parsed::Blank))
}
