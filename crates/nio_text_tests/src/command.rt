//! Command lines, and the commands that are read from them, as tables.
use nio_base::Addr;
use nio_command::*;
use nio_relay::{PacketPlan, ProxyPlan};
use std::alloc::{AllocError, Global};
use std::test::Fail;

/// Splits a line at each space. Two spaces in a row make an empty word.
fn words_of(alloc: Global, line: &str) -> Result<Vec<String>, AllocError> {
    let mut words = Vec::new(alloc);
    for word in line.split(' ') {
        words.push(String::from_str(alloc, word)?)?;
    }
    Ok(words)
}

/// Reads a command line.
fn command_in(alloc: Global, line: &str) -> Result<Command, WordsError> {
    let words = words_of(alloc, line)?;
    command_of(alloc, words.as_slice())
}

const PLAN: ProxyPlan = ProxyPlan {
    listen: Addr {
        ip: [127, 0, 0, 1],
        port: 8080,
    },
    target: Addr {
        ip: [10, 0, 0, 2],
        port: 80,
    },
    conns: 3,
    at_once: 16_000,
};

const ENDS: ProxyPlan = ProxyPlan {
    listen: Addr {
        ip: [0, 0, 0, 0],
        port: 1,
    },
    target: Addr {
        ip: [255, 255, 255, 255],
        port: 65_535,
    },
    conns: u32::MAX,
    at_once: 16_000,
};

/// As many connections as a group's ways serve.
const MOST_OF_GROUP: ProxyPlan = ProxyPlan {
    conns: 16_000,
    ..ENDS
};

const PACKETS: PacketPlan = PacketPlan {
    listen: Addr {
        ip: [127, 0, 0, 1],
        port: 7000,
    },
    local: Addr {
        ip: [127, 0, 0, 1],
        port: 7001,
    },
    target: Addr {
        ip: [10, 0, 0, 2],
        port: 9000,
    },
    count: 1_000_000,
};

const COMMANDS: &[(&str, Command)] = &[
    ("script", Command::Script),
    ("check", Command::Check),
    ("check-1", Command::CheckFirst),
    ("race", Command::Race),
    ("timed", Command::Timed),
    ("load 1", Command::Load(1)),
    ("load 100000", Command::Load(100_000)),
    (
        "proxy --way select --listen 127.0.0.1:8080 --target 10.0.0.2:80 --conns 3",
        Command::Proxy(PLAN, ProxyWay::Select),
    ),
    (
        "proxy --way=select --listen=127.0.0.1:8080 --target=10.0.0.2:80 --conns=3",
        Command::Proxy(PLAN, ProxyWay::Select),
    ),
    (
        "proxy --conns 3 --target=10.0.0.2:80 --way=select --listen 127.0.0.1:8080",
        Command::Proxy(PLAN, ProxyWay::Select),
    ),
    (
        "proxy --way select --listen 0.0.0.0:1 --target 255.255.255.255:65535 --conns 4294967295",
        Command::Proxy(ENDS, ProxyWay::Select),
    ),
    (
        "proxy --way group --listen 127.0.0.1:8080 --target 10.0.0.2:80 --conns 3",
        Command::Proxy(PLAN, ProxyWay::Group(4)),
    ),
    (
        "proxy --way group --workers 1 --listen 127.0.0.1:8080 --target 10.0.0.2:80 --conns 3",
        Command::Proxy(PLAN, ProxyWay::Group(1)),
    ),
    (
        "proxy --workers=64 --conns=3 --listen 127.0.0.1:8080 --target 10.0.0.2:80 --way=group",
        Command::Proxy(PLAN, ProxyWay::Group(64)),
    ),
    (
        "proxy --way future --listen 127.0.0.1:8080 --target 10.0.0.2:80 --conns 3",
        Command::Proxy(PLAN, ProxyWay::Future),
    ),
    (
        "proxy --way many --listen 127.0.0.1:8080 --target 10.0.0.2:80 --conns 3",
        Command::Proxy(PLAN, ProxyWay::Many(4)),
    ),
    (
        "proxy --way many --workers 1 --listen 127.0.0.1:8080 --target 10.0.0.2:80 --conns 3",
        Command::Proxy(PLAN, ProxyWay::Many(1)),
    ),
    (
        "proxy --workers=15 --conns=3 --listen 127.0.0.1:8080 --target 10.0.0.2:80 --way=many",
        Command::Proxy(PLAN, ProxyWay::Many(15)),
    ),
    (
        "proxy --way many --listen 0.0.0.0:1 --target 255.255.255.255:65535 --conns 4294967295",
        Command::Proxy(ENDS, ProxyWay::Many(4)),
    ),
    (
        "proxy --way group --listen 0.0.0.0:1 --target 255.255.255.255:65535 --conns 16000",
        Command::Proxy(MOST_OF_GROUP, ProxyWay::Group(4)),
    ),
    (
        "proxy --way future --listen 0.0.0.0:1 --target 255.255.255.255:65535 --conns 16000",
        Command::Proxy(MOST_OF_GROUP, ProxyWay::Future),
    ),
    (
        "packets --listen 127.0.0.1:7000 --local 127.0.0.1:7001 --target 10.0.0.2:9000 --count 1000000",
        Command::Packets(PACKETS),
    ),
    (
        "packets --count=1000000 --target=10.0.0.2:9000 --local 127.0.0.1:7001 --listen=127.0.0.1:7000",
        Command::Packets(PACKETS),
    ),
];

/// Lines that are no command.
const OTHER_LINES: &[&str] = &[
    "",
    "scripts",
    "check-2",
    "script script",
    "timed 1",
    "load",
    "load ",
    "load 0",
    "load 01",
    "load +1",
    "load -1",
    "load 100001",
    "load 1 1",
    "loads 1",
    "proxy",
    "proxy --help",
    "proxy --listen 127.0.0.1:1 --target 127.0.0.1:2 --conns 1",
    "proxy --way select --target 127.0.0.1:2 --conns 1",
    "proxy --way select --listen 127.0.0.1:1 --conns 1",
    "proxy --way select --listen 127.0.0.1:1 --target 127.0.0.1:2",
    "proxy --way select --listen 127.0.0.1:1 --target 127.0.0.1:2 --conns",
    "proxy --way select --listen 127.0.0.1:1 --target 127.0.0.1:2 --conns 1 --conns 1",
    "proxy --way select --listen 127.0.0.1:1 --target 127.0.0.1:2 --conns 1 --workers 2",
    "proxy --way select --listen 127.0.0.1:1 --target 127.0.0.1:2 --conns 1 --help",
    "proxy --way select --listen 127.0.0.1:1 --target 127.0.0.1:2 --conns 1 --",
    "proxy --way select --listen 127.0.0.1:1 --target 127.0.0.1:2 -- --conns 1",
    "proxy --way select --listen 127.0.0.1:1 --target 127.0.0.1:2 --conns 1 more",
    "proxy --way select --listen 127.0.0.1:1 --target 127.0.0.1:2 --conns 1 -x",
    "proxy --way select --listen 127.0.0.1:1 --target 127.0.0.1:2 --conns -1",
    "proxy --way select --listen 127.0.0.1:1 --target 127.0.0.1:2 --conns=-1",
    "proxy --way select --listen 127.0.0.1:1 --target 127.0.0.1:2 --conns=",
    "proxy --way select --listen 127.0.0.1:1 --target 127.0.0.1:2 --conns ",
    "proxy --way select --listen 127.0.0.1:1 --target 127.0.0.1:2 --conns 0",
    "proxy --way select --listen 127.0.0.1:1 --target 127.0.0.1:2 --conns 4294967296",
    "proxy --way many --listen 127.0.0.1:1 --target 127.0.0.1:2 --conns 4294967296",
    "proxy --way group --listen 127.0.0.1:1 --target 127.0.0.1:2 --conns 16001",
    "proxy --way future --listen 127.0.0.1:1 --target 127.0.0.1:2 --conns 16001",
    "proxy --way select --listen 127.0.0.1:1 --target 127.0.0.1:2 --conns 01",
    "proxy --way select --listen 127.0.0.1:1 --target 127.0.0.1:2 --conns +1",
    "proxy --way groups --listen 127.0.0.1:1 --target 127.0.0.1:2 --conns 1",
    "proxy --way group --listen 127.0.0.1:1 --target 127.0.0.1:2 --conns 1 --workers",
    "proxy --way group --listen 127.0.0.1:1 --target 127.0.0.1:2 --conns 1 --workers=",
    "proxy --way group --listen 127.0.0.1:1 --target 127.0.0.1:2 --conns 1 --workers 0",
    "proxy --way group --listen 127.0.0.1:1 --target 127.0.0.1:2 --conns 1 --workers 04",
    "proxy --way group --listen 127.0.0.1:1 --target 127.0.0.1:2 --conns 1 --workers 65",
    "proxy --way group --listen 127.0.0.1:1 --target 127.0.0.1:2 --conns 1 --workers 4 --workers 4",
    "proxy --way future --listen 127.0.0.1:1 --target 127.0.0.1:2 --conns 1 --workers 4",
    "proxy --way many --listen 127.0.0.1:1 --target 127.0.0.1:2 --conns 1 --workers 0",
    "proxy --way many --listen 127.0.0.1:1 --target 127.0.0.1:2 --conns 1 --workers 16",
    "proxy --way many --listen 127.0.0.1:1 --target 127.0.0.1:2 --conns 1 --workers 04",
    "packets",
    "packets --help",
    "packets --listen 127.0.0.1:1 --target 127.0.0.1:2 --count 1",
    "packets --listen 127.0.0.1:1 --local 127.0.0.1:3 --target 127.0.0.1:2 --count 0",
    "packets --listen 127.0.0.1:1 --local 127.0.0.1:3 --target 127.0.0.1:2 --count 1000001",
    "packets --listen 127.0.0.1:1 --local 127.0.0.1:0 --target 127.0.0.1:2 --count 1",
    "packets --listen 127.0.0.1:1 --local 127.0.0.1:3 --target 127.0.0.1:2 --count 1 --count 1",
    "packets --listen 127.0.0.1:1 --local 127.0.0.1:3 --target 127.0.0.1:2 --count 1 --workers 1",
    "packets --listen 127.0.0.1:1 --local 127.0.0.1:3 --target 127.0.0.1:2 --conns 1",
    "proxy --workers 4 --way select --listen 127.0.0.1:1 --target 127.0.0.1:2 --conns 1",
    "proxy --way select --listen 127.0.0.1:0 --target 127.0.0.1:2 --conns 1",
    "proxy --way select --listen 127.0.0.1:65536 --target 127.0.0.1:2 --conns 1",
    "proxy --way select --listen 127.0.0.256:1 --target 127.0.0.1:2 --conns 1",
    "proxy --way select --listen 127.0.0.01:1 --target 127.0.0.1:2 --conns 1",
    "proxy --way select --listen 127.0.0.1 --target 127.0.0.1:2 --conns 1",
    "proxy --way select --listen localhost:1 --target 127.0.0.1:2 --conns 1",
];

#[test]
fn reads_commands(rt: HostRuntime) -> Result<(), Fail> {
    for (line, command) in COMMANDS {
        assert!(&rt; command_in(rt.alloc(), line) == Ok(*command), "{line}");
    }
    Ok(())
}

#[test]
fn refuses_other_words(rt: HostRuntime) -> Result<(), Fail> {
    for line in OTHER_LINES {
        assert!(&rt;
            command_in(rt.alloc(), line) == Err(WordsError::Usage),
            "{line}"
        );
    }
    assert!(&rt; command_of(rt.alloc(), &[]) == Err(WordsError::Usage));
    Ok(())
}
