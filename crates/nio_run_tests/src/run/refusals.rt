//! Refusals at every place: lines that aren't in the grammar, a script that is cut anywhere, and each read and each
//! write failing in turn.
use super::{Fails, NOTHING_FAILS, ONE_SELECTION, outcome};
use std::alloc::Global;
use std::test::Fail;

const SCRIPT: &[&str] = &["script"];

const BAD_LINE: &str = "bad line 1\n";

const MALFORMED: [&str; 22] = [
    "t64 selector",
    "t01 selector",
    "t1  selector",
    "t1 selector ",
    "T1 selector",
    "selector",
    "t1 channel",
    "t1 channel socket",
    "t1 channel Datagram",
    "t1 blocking c0 ON",
    "t1 register s0 c0 256",
    "t1 register s0 c0 01",
    "t1 register s0 c0 1 18446744073709551616",
    "t1 begin s0 for -0",
    "t1 begin s0 for 9223372036854775808",
    "t1 told s0 k0:1 k0:4",
    "t1 pread c0 2049",
    "t1 pwrite c1 6",
    "t1 pwrite c1 AA",
    "t1 start g0 send 1",
    "go",
    "t1 block s0",
];

#[test]
fn malformed_lines(rt: HostRuntime) -> Result<(), Fail> {
    let alloc = rt.alloc();
    for line in MALFORMED {
        let (status, sink) = outcome(&rt, alloc, SCRIPT, line.as_bytes(), NOTHING_FAILS)?;
        assert!(rt;
            status == 3 && sink.bytes() == BAD_LINE.as_bytes(),
            "malformed_lines: {line}"
        );
    }
    let (status, sink) = outcome(&rt, alloc, SCRIPT, &[255], NOTHING_FAILS)?;
    assert!(rt;
        status == 3 && sink.bytes() == BAD_LINE.as_bytes(),
        "malformed_lines: 255"
    );
    Ok(())
}

/// The lines of the script of one selection, with the lines of its history. The last but one is the last line cut where
/// it is a line too.
const LINES: [(&str, &str); 7] = [
    ("t1 selector", "1 t1 selector -> s0\n"),
    ("t1 channel source", "2 t1 channel source -> c0\n"),
    ("t1 blocking c0 off", "3 t1 blocking c0 off -> ok\n"),
    ("t1 register s0 c0 1", "4 t1 register s0 c0 1 -> k0\n"),
    ("t1 begin s0 now", "5 t1 begin s0 now -> looked k0:1\n"),
    ("t1 told s0", "6 t1 told s0 -> selected 0 now\n"),
    ("t1 told s0 k0:1", "6 t1 told s0 k0:1 -> selected 1 ready\n"),
];

/// What `script` answers to a text: the lines of its history, or its bad line.
fn answer(alloc: Global, text: &str) -> Result<(u8, String), Fail> {
    let mut history = String::new(alloc);
    let mut number: u64 = 0;
    for line in text.split('\n') {
        number = number.saturating_add(1);
        if line.is_empty() {
            continue;
        }
        match LINES.iter().find(|(whole, _)| *whole == line) {
            Some((_, entry)) => history.push_str(entry)?,
            None => return Ok((3, format!(in alloc; "bad line {number}\n")?)),
        }
    }
    Ok((0, history))
}

#[test]
fn cut_after_each_byte(rt: HostRuntime) -> Result<(), Fail> {
    let alloc = rt.alloc();
    for (cut, _) in ONE_SELECTION.char_indices() {
        let left = ONE_SELECTION.get(..cut).unwrap_or("");
        let (code, written) = answer(alloc, left)?;
        let (status, sink) = outcome(&rt, alloc, SCRIPT, left.as_bytes(), NOTHING_FAILS)?;
        assert!(rt;
            status == code && sink.bytes() == written.as_bytes(),
            "cut_after_each_byte: {cut}"
        );
    }
    Ok(())
}

const CANCELLING: &str =
    "t1 selector\nt1 channel source\nt1 blocking c0 off\nt1 register s0 c0 1\nt1 begin s0 wait\n\
    t2 cancel s0 k0\nt1 told s0 k0:1\nt1 selected s0\nt1 keys s0\n";

const ITS_HISTORY: &str =
    "1 t1 selector -> s0\n2 t1 channel source -> c0\n3 t1 blocking c0 off -> ok\n\
    4 t1 register s0 c0 1 -> k0\n5 t1 begin s0 wait -> looked k0:1\n6 t2 cancel s0 k0 -> ok\n\
    7 t1 told s0 k0:1 -> selected 1 ready\n8 t1 selected s0 -> none\n9 t1 keys s0 -> none\n";

#[test]
fn each_read_and_write_fails(rt: HostRuntime) -> Result<(), Fail> {
    let alloc = rt.alloc();
    // Each read gives 12 bytes, and the last one finds the end. Each write takes 5, and a flush comes last.
    let reads = CANCELLING.len().div_ceil(12) as u64 + 1;
    let writes = ITS_HISTORY.len().div_ceil(5) as u64 + 1;
    for at in 0..reads {
        let fails = Fails {
            read: Some(at),
            ..NOTHING_FAILS
        };
        let (status, sink) = outcome(&rt, alloc, SCRIPT, CANCELLING.as_bytes(), fails)?;
        assert!(rt;
            status == 4 && sink.bytes().is_empty(),
            "each_read_and_write_fails: read {at}"
        );
    }
    for at in 0..writes {
        let fails = Fails {
            write: Some(at),
            ..NOTHING_FAILS
        };
        let (status, sink) = outcome(&rt, alloc, SCRIPT, CANCELLING.as_bytes(), fails)?;
        let is_begun = ITS_HISTORY.as_bytes().starts_with(sink.bytes());
        assert!(rt;
            status == 5 && is_begun,
            "each_read_and_write_fails: write {at}"
        );
    }
    // One more of either isn't made, so none was left out.
    let later = Fails {
        read: Some(reads),
        write: Some(writes),
    };
    let (status, sink) = outcome(&rt, alloc, SCRIPT, CANCELLING.as_bytes(), later)?;
    assert!(rt;
        status == 0 && sink.bytes() == ITS_HISTORY.as_bytes(),
        "each_read_and_write_fails"
    );
    Ok(())
}
