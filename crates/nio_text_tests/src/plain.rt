//! Lines of scripts on a plain system.
use crate::lines::{LIMITS, Lines, ROWS, answers};
use nio_base::{CallerNo, GKind};
use nio_language::{Call, GroupCall};
use nio_plain::{GROUP_LIMITS, Plain, System};
use std::test::Fail;

#[test]
fn lines_on_a_plain_system(rt: HostRuntime) -> Result<(), Fail> {
    for (label, lines) in ROWS {
        let mut plain = Plain::make(rt.alloc(), LIMITS)?;
        answers(&rt, rt.alloc(), &mut plain, label, lines)?;
    }
    Ok(())
}

/// By the first rules no number and no index comes back, and a key that is registered and cancelled during a selection
/// stays in the key set where that ends.
const BY_THE_FIRST_RULES: Lines = &[
    ("t1 selector", "s0"),
    ("t1 channel source", "c0"),
    ("t1 channel source", "c1"),
    ("t1 channel source", "c2"),
    ("t1 closec c2", "ok"),
    ("t1 channel source", "channels-spent"),
    ("t1 pipe t2", "channels-spent"),
    ("t1 blocking c0 off", "ok"),
    ("t1 blocking c1 off", "ok"),
    ("t1 register s0 c0 1", "k0"),
    ("t1 begin s0 now", "looked k0:1"),
    ("t1 register s0 c1 1", "k1"),
    ("t1 cancel s0 k1", "ok"),
    ("t1 told s0", "selected 0 now"),
    ("t1 keys s0", "k0 k1"),
    ("t1 begin s0 now", "looked k0:1"),
    ("t1 keys s0", "k0"),
    ("t1 register s0 c1 1", "k2"),
];

#[test]
fn lines_by_the_first_rules(rt: HostRuntime) -> Result<(), Fail> {
    let mut plain = Plain::make_first(rt.alloc(), LIMITS)?;
    let lines = BY_THE_FIRST_RULES;
    answers(&rt, rt.alloc(), &mut plain, "by_the_first_rules", lines)
}

/// A group that gave each number, of which a stream is closed then, by the first rules: no number comes back, be it for
/// a channel that is opened or for a connection.
const FULL_GROUP_BY_THE_FIRST_RULES: Lines = &[
    ("t1 gopen listener", "channels-spent"),
    ("t1 gclose g1", "ok"),
    ("t1 gopen stream", "channels-spent"),
    ("t1 report 0 accepted", "channels-spent"),
    ("t1 take", "none"),
    ("t1 report 0 fault", "ok"),
    ("t1 take", "op 0 fault"),
    ("t1 shutdown", "ok"),
    ("t1 gopen stream", "shutdown-group"),
];

/// The same group by the rules of now: the number of the closed stream comes back.
const FULL_GROUP: Lines = &[
    ("t1 gopen listener", "channels-spent"),
    ("t1 gclose g1", "ok"),
    ("t1 gopen stream", "g1.1"),
    ("t1 gclose g1.1", "ok"),
    ("t1 report 0 accepted", "ok"),
    ("t1 take", "op 0 accepted g1.2"),
];

/// Lines of a group with a bound listener, on which an accept is pending.
const ACCEPTING: Lines = &[
    ("t1 gopen listener", "g0"),
    ("t1 gbind g0", "ok"),
    ("t1 start g0 accept 0", "op 0"),
];

#[test]
fn lines_of_a_full_group(rt: HostRuntime) -> Result<(), Fail> {
    let rows = [
        (
            "full_group_by_the_first_rules",
            Plain::make_first(rt.alloc(), LIMITS)?,
            FULL_GROUP_BY_THE_FIRST_RULES,
        ),
        ("full_group", Plain::make(rt.alloc(), LIMITS)?, FULL_GROUP),
    ];
    for (label, mut plain, lines) in rows {
        answers(&rt, rt.alloc(), &mut plain, label, ACCEPTING)?;
        for _ in 1..GROUP_LIMITS.channels {
            plain.call(
                rt.alloc(),
                CallerNo(1),
                &Call::Group(GroupCall::Gopen(GKind::Stream)),
            )?;
        }
        answers(&rt, rt.alloc(), &mut plain, label, lines)?;
    }
    Ok(())
}
