//! The program as a whole, over sources and sinks in memory.
ghost use Rattle.std.specs.Prelude.{◌≡◌, All};
ghost use Rattle.nio_datagram.specs.Packets.{no_traffic};
ghost use Rattle.nio_datagram.specs.Places.{IsFree};
ghost use Rattle.nio_datagram.specs.Serving.{client_chan, target_chan};
ghost use Rattle.nio_link.specs.Nets.{view_of};
ghost use Rattle.nio_serve.specs.Serving.{IsFresh};

use nio_base::{Gate, NoGate};
use nio_bytes::{MemorySink, MemorySource, Sink, Source};
use nio_datagram::{MemoryPackets, PacketNet};
use nio_link::Passable;
use nio_poller::{Bell, NoBell};
use nio_run::{PROGRAM_LIMITS, run};
use nio_words::Words;
use std::alloc::{AllocError, AllocGlobal, Global};
use std::process::Abort;
use std::random::RandomSource;
use std::sync::Wait;
use std::test::Fail;
use std::thread::Threads;

mod loopback;
mod many;
mod packets;
mod refusals;
mod relays;
mod rows;
mod timed;
mod ways;

const ONE_SELECTION: &str =
    "t1 selector\nt1 channel source\nt1 blocking c0 off\nt1 register s0 c0 1\nt1 begin s0 now\nt1 told s0 k0:1\n";

const ONE_SELECTION_CUT: &str =
    "t1 selector\nt1 channel source\nt1 blocking c0 off\nt1 register s0 c0 1\nt1 begin s0 now\nt1 told s0 k0:1";

const ITS_HISTORY: &str =
    "1 t1 selector -> s0\n2 t1 channel source -> c0\n3 t1 blocking c0 off -> ok\n4 t1 register s0 c0 1 -> k0\n\
        5 t1 begin s0 now -> looked k0:1\n6 t1 told s0 k0:1 -> selected 1 ready\n";

const ANOTHER_HISTORY: &str =
    "1 t1 selector -> s0\n2 t1 channel source -> c0\n3 t1 blocking c0 off -> ok\n4 t1 register s0 c0 1 -> k0\n\
        5 t1 begin s0 now -> looked k0:1\n6 t1 told s0 k0:1 -> selected 0 now\n";

/// A history by the first rules: the key that is made after a cancelled one has a new index.
const FIRST_RULES: &str =
    "1 t1 selector -> s0\n2 t1 channel source -> c0\n3 t1 blocking c0 off -> ok\n4 t1 register s0 c0 1 -> k0\n\
        5 t1 cancel s0 k0 -> ok\n6 t1 key-for c0 s0 -> k0\n7 t1 register s0 c0 1 -> cancelled-key\n\
        8 t1 begin s0 now -> looked none\n9 t1 told s0 -> selected 0 now\n10 t1 key-for c0 s0 -> none\n\
        11 t1 register s0 c0 1 -> k1\n";

/// A script whose last line gives a negative number where a set of operations stands: it isn't in the grammar.
const SIGNED_SET: &str =
    "t1 selector\nt1 channel source\nt1 blocking c0 off\nt1 register s0 c0 1\nt1 iand s0 k0 -5\n";

const USAGE: &str =
    "usage: nio script | check | check-1 | race | proxy --way select|group|future|many --listen ADDR --target ADDR \
        --conns N [--workers W] | load N | packets --listen ADDR --local ADDR --target ADDR --count N | timed\n";

/// Which call of the source fails and which of the sink, counted from 0.
#[derive(Clone, Copy)]
struct Fails {
    read: Option<u64>,
    write: Option<u64>,
}

const NOTHING_FAILS: Fails = Fails {
    read: None,
    write: None,
};

/// A run of the program: its words and its input, what fails, and how the program ends.
#[derive(Clone, Copy)]
struct Row<'a> {
    label: &'a str,
    words: &'a [&'a str],
    input: &'a str,
    fails: Fails,
    code: u8,
    written: &'a str,
}

const SCRIPT: Row = Row {
    label: "one_selection",
    words: &["script"],
    input: ONE_SELECTION,
    fails: NOTHING_FAILS,
    code: 0,
    written: ITS_HISTORY,
};

const CHECK: Row = Row {
    label: "check_row",
    words: &["check"],
    input: ITS_HISTORY,
    written: "legal 6\n",
    ..SCRIPT
};

const CHECK_FIRST: Row = Row {
    label: "check_by_both_rules",
    words: &["check-1"],
    input: FIRST_RULES,
    written: "legal 11\n",
    ..SCRIPT
};

const LOAD: Row = Row {
    label: "load_nine",
    words: &["load", "9"],
    input: "",
    written: "lines 222\nselections 9\nupdates 9\n",
    ..SCRIPT
};

const IS_USAGE: Row = Row {
    label: "usage",
    words: &[],
    code: 2,
    written: USAGE,
    ..SCRIPT
};

const SCRIPTS: &[Row] = &[
    SCRIPT,
    Row {
        label: "faults_and_long_lines",
        input: ONE_SELECTION_CUT,
        ..SCRIPT
    },
    Row {
        label: "faults_and_long_lines",
        fails: Fails {
            read: Some(1),
            write: None,
        },
        code: 4,
        written: "",
        ..SCRIPT
    },
    Row {
        label: "faults_and_long_lines",
        fails: Fails {
            read: None,
            write: Some(2),
        },
        code: 5,
        written: "1 t1 selec",
        ..SCRIPT
    },
    Row {
        label: "datagram_interests",
        input: "1 t1 selector -> s0\n2 t1 channel datagram -> c0\n",
        code: 3,
        written: "bad line 2\n",
        ..CHECK_FIRST
    },
    Row {
        label: "no_lines",
        input: "",
        written: "",
        ..SCRIPT
    },
    Row {
        label: "bad_line",
        input: "# none\n\nt1 send\n",
        code: 3,
        written: "bad line 3\n",
        ..SCRIPT
    },
    Row {
        label: "bits_outside_the_kind",
        input: SIGNED_SET,
        code: 3,
        written: "bad line 5\n",
        ..SCRIPT
    },
];

const HISTORIES: &[Row] = &[
    CHECK,
    Row {
        input: ANOTHER_HISTORY,
        code: 8,
        written: "illegal 6: selected 1 ready\n",
        ..CHECK
    },
    Row {
        label: "check_by_both_rules",
        input: FIRST_RULES,
        code: 8,
        written: "illegal 11: k0.1\n",
        ..CHECK
    },
    CHECK_FIRST,
    Row {
        label: "names_with_serials",
        input: "1 t1 valid s0 k0.1 -> no-selector\n",
        written: "legal 1\n",
        ..CHECK
    },
    Row {
        label: "names_with_serials",
        input: "1 t1 valid s0 k0.1 -> no-selector\n",
        code: 3,
        written: "bad line 1\n",
        ..CHECK_FIRST
    },
    Row {
        label: "channels_with_serials",
        input: "1 t1 is-open c0.1 -> no-channel\n",
        written: "legal 1\n",
        ..CHECK
    },
    Row {
        label: "channels_with_serials",
        input: "1 t1 is-open c0.1 -> no-channel\n",
        code: 3,
        written: "bad line 1\n",
        ..CHECK_FIRST
    },
    Row {
        label: "no_lines",
        input: "",
        written: "legal 0\n",
        ..CHECK
    },
    Row {
        label: "no_last_newline",
        input: "1 t1 selector -> s0",
        written: "legal 1\n",
        ..CHECK
    },
    Row {
        label: "blank_lines",
        input: "# one selector\n1 t1 selector -> s0\n\n2 t1 wakeup s0 -> ok\n",
        written: "legal 2\n",
        ..CHECK
    },
    Row {
        label: "first_wrong_reply",
        input: "1 t1 selector -> s\n2 t1 wakeup s0 -> no\n",
        code: 8,
        written: "illegal 1: s0\n",
        ..CHECK
    },
    Row {
        label: "wrong_number",
        input: "1 t1 selector -> s0\n3 t1 wakeup s0 -> ok\n",
        code: 3,
        written: "bad line 2\n",
        ..CHECK
    },
    Row {
        label: "no_arrow",
        input: "1 t1 selector -> s0\n\n2 t1 wakeup s0 ok\n",
        code: 3,
        written: "bad line 3\n",
        ..CHECK
    },
    Row {
        label: "bad_line_comes_first",
        input: "1 t1 selector -> s1\n2 t1 wake s0 -> ok\n",
        code: 3,
        written: "bad line 2\n",
        ..CHECK
    },
];

const OTHER_COMMANDS: &[Row] = &[
    Row {
        label: "race_block_wakeup",
        words: &["race"],
        input: "t1 selector\nt1 channel source\nt1 blocking c0 off\nt1 register s0 c0 1\ngo\nt1 block s0\n\
            t2 wakeup s0\n",
        written: "1 t1 selector -> s0\n2 t1 channel source -> c0\n3 t1 blocking c0 off -> ok\n\
            4 t1 register s0 c0 1 -> k0\nt1 1 block s0 -> selected 0 woken\nt2 1 wakeup s0 -> ok\n",
        ..SCRIPT
    },
    Row {
        label: "second_go",
        words: &["race"],
        input: "go\ngo\n",
        code: 3,
        written: "bad line 2\n",
        ..SCRIPT
    },
    Row {
        label: "datagram_interests",
        words: &["race"],
        input: "t1 channel datagram\ngo\nt2 is-open c0\n",
        written: "1 t1 channel datagram -> c0\nt2 1 is-open c0 -> yes\n",
        ..SCRIPT
    },
    Row {
        label: "load_one",
        words: &["load", "1"],
        written: "lines 197\nselections 1\nupdates 1\n",
        ..LOAD
    },
    LOAD,
    Row {
        fails: Fails {
            read: None,
            write: Some(2),
        },
        code: 5,
        written: "lines 222\n",
        ..LOAD
    },
    IS_USAGE,
    Row {
        words: &["proxy"],
        ..IS_USAGE
    },
    Row {
        words: &[
            "proxy",
            "--way=many",
            "--workers=16",
            "--listen=127.0.0.1:1",
            "--target=127.0.0.1:2",
            "--conns=1",
        ],
        ..IS_USAGE
    },
    Row {
        words: &["packets"],
        ..IS_USAGE
    },
    Row {
        words: &["script", "script"],
        ..IS_USAGE
    },
    Row {
        words: &["load", "0"],
        ..IS_USAGE
    },
];

/// Runs these words on a new table, without packets, and with no nets for workers. Gives the status, and the net that
/// is left.
fn runs<R, S: Source, K: Sink, N: Passable + Send + Drop, B: Bell + Sync + Drop>(
    rt: &R,
    alloc: Global,
    words: &[&str],
    input: &mut S,
    output: &mut K,
    net: N,
    bell: &B,
) -> Result<(u8, N), AllocError>
where
    R: Threads + Wait + RandomSource + AllocGlobal + Sync,
    requires { IsFresh (view_of N.Net net) }
{
    let mut more = Vec::new(alloc);
    runs_with(
        rt,
        alloc,
        words,
        input,
        output,
        net,
        &mut more,
        bell,
        Vec::new(alloc),
        &NoGate,
    )
}

/// Runs these words on a new table, without packets. The workers have the nets `more`, with these bells, and pass this
/// gate. Gives the status, and the net that is left.
fn runs_with<
    R,
    S: Source,
    K: Sink,
    N: Passable + Send + Drop,
    B: Bell + Sync + Drop,
    G: Gate + Sync,
>(
    rt: &R,
    alloc: Global,
    words: &[&str],
    input: &mut S,
    output: &mut K,
    net: N,
    more: &mut Vec<N>,
    bell: &B,
    bells: Vec<B>,
    gate: &G,
) -> Result<(u8, N), AllocError>
where
    R: Threads + Wait + RandomSource + AllocGlobal + Sync,
    requires fresh { IsFresh (view_of N.Net net) }
    requires more { All (λ x. IsFresh (view_of N.Net x)) more.old.items }
{
    let mut packets = MemoryPackets::make(alloc, Vec::new(alloc), Vec::new(alloc), None)?;
    runs_over(
        rt,
        alloc,
        words,
        input,
        output,
        net,
        more,
        &mut packets,
        bell,
        bells,
        gate,
    )
}

/// Runs these words on a new table, over these nets.
fn runs_over<R, S: Source, K: Sink, N, D: PacketNet, B: Bell + Sync + Drop, G: Gate + Sync>(
    rt: &R,
    alloc: Global,
    words: &[&str],
    input: &mut S,
    output: &mut K,
    net: N,
    more: &mut Vec<N>,
    packets: &mut D,
    bell: &B,
    bells: Vec<B>,
    gate: &G,
) -> Result<(u8, N), AllocError>
where
    R: Threads + Wait + RandomSource + AllocGlobal + Sync,
    N: Passable + Send + Drop,
    requires fresh { IsFresh (view_of N.Net net) }
    requires more { All (λ x. IsFresh (view_of N.Net x)) more.old.items }
    requires client_unused { D.traffic packets.old client_chan ≡ no_traffic }
    requires target_unused { D.traffic packets.old target_chan ≡ no_traffic }
    requires client_free { IsFree (D.place packets.old) client_chan }
    requires target_free { IsFree (D.place packets.old) target_chan }
{
    let mut given = Vec::new(alloc);
    for word in words {
        given.push(String::from_str(alloc, word)?)?;
    }
    let (table, mut pass) = Words::make(alloc, PROGRAM_LIMITS)?;
    let ended = run(
        rt, alloc, &given, input, output, &table, &mut pass, net, more, packets, bell, bells, gate,
    );
    Ok((ended.status.code(), ended.net))
}

/// The call that fails, if any, as a list.
fn faults(alloc: Global, at: Option<u64>) -> Result<Vec<u64>, Fail> {
    match at {
        Some(at) => Ok(vec![in alloc; at]?),
        None => Ok(Vec::new(alloc)),
    }
}

/// Runs these words on this input. Gives the status and what was written. The source gives pieces of 12 bytes, and the
/// sink takes pieces of 5.
fn outcome<R>(
    rt: &R,
    alloc: Global,
    words: &[&str],
    input: &[u8],
    fails: Fails,
) -> Result<(u8, MemorySink), Fail>
where
    R: Threads + Wait + RandomSource + AllocGlobal + Sync,
{
    let mut source = MemorySource::make(input.to_vec(alloc)?, 12, faults(alloc, fails.read)?);
    let mut sink = MemorySink::make(alloc, 5, faults(alloc, fails.write)?, 8_192)?;
    let net = relays::net_of(alloc, &[], None, None)?;
    let (status, _net) = runs(rt, alloc, words, &mut source, &mut sink, net, &NoBell)?;
    Ok((status, sink))
}

/// Runs a row, and compares the status and what was written.
fn ends<R>(rt: &R, alloc: Global, row: &Row) -> Result<(), Fail>
where
    R: Abort + Threads + Wait + RandomSource + AllocGlobal + Sync,
{
    let (status, sink) = outcome(rt, alloc, row.words, row.input.as_bytes(), row.fails)?;
    assert!(rt;
        status == row.code && sink.bytes() == row.written.as_bytes(),
        "{}",
        row.label
    );
    Ok(())
}

#[test]
fn commands_end_as_written_down(rt: HostRuntime) -> Result<(), Fail> {
    for rows in [SCRIPTS, HISTORIES, OTHER_COMMANDS] {
        for row in rows {
            ends(&rt, rt.alloc(), row)?;
        }
    }
    Ok(())
}

/// The line that tells a selector of one key and of the 510 keys from 1,000 on.
fn long_line(alloc: Global, first: u32) -> Result<String, Fail> {
    let mut line = format!(in alloc; "t1 told s0 k{first}:1")?;
    for key in 1_000..1_510 {
        line.push_str(&format!(in alloc; " k{key}:1")?)?;
    }
    Ok(line)
}

#[test]
fn long_lines(rt: HostRuntime) -> Result<(), Fail> {
    let alloc = rt.alloc();
    let longest = long_line(alloc, 10)?;
    assert_eq!(rt; longest.len(), 4_096);
    let history = format!(in alloc; "1 {longest} -> no-selector\n")?;
    let answered = Row {
        label: "faults_and_long_lines",
        input: &longest,
        written: &history,
        ..SCRIPT
    };
    ends(&rt, alloc, &answered)?;

    let longer = long_line(alloc, 100)?;
    let refused = Row {
        input: &longer,
        code: 3,
        written: "bad line 1\n",
        ..answered
    };
    ends(&rt, alloc, &refused)
}
