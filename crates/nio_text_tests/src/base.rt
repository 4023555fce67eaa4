//! What no clause says: Java's numbers, and that a test gate is open.
use nio_base::*;

#[test]
fn operations_have_javas_bits(rt: HostRuntime) {
    let kinds = [
        (Kind::Stream, 13, [true, true, true, false]),
        (Kind::Listener, 16, [false, false, false, true]),
        (Kind::Source, 1, [true, false, false, false]),
        (Kind::Sink, 4, [false, true, false, false]),
        (Kind::Datagram, 5, [true, true, false, false]),
    ];
    for (kind, bits, supports) in kinds {
        let valid = kind.valid_ops();
        assert_eq!(rt; valid.bits(), bits, "{kind:?}");
        let found = [
            Ops::READ.within(valid),
            Ops::WRITE.within(valid),
            Ops::CONNECT.within(valid),
            Ops::ACCEPT.within(valid),
        ];
        assert_eq!(rt; found, supports, "{kind:?}");
    }
}

#[test]
fn sets_unite_and_meet(rt: HostRuntime) {
    let read_write = Ops::READ.union(Ops::WRITE);
    let sets = [
        (read_write, 5),
        (read_write.union(read_write), 5),
        (read_write.meet(Ops::of(254)), 4),
        (read_write.meet(Ops::ACCEPT), 0),
    ];
    for (set, bits) in sets {
        assert_eq!(rt; set.bits(), bits);
    }
    assert!(rt; Ops::NONE.within(Ops::NONE) && !Ops::of(254).within(Kind::Stream.valid_ops()));
}

/// Limits that fit, up to the greatest, and limits of which one doesn't: callers, selectors, channels and keys.
const LIMITS: [([u32; 4], bool); 10] = [
    ([64, 16, 262_144, 262_144], true),
    ([1, 1, 1, 1], true),
    ([0, 1, 1, 1], false),
    ([65, 16, 262_144, 262_144], false),
    ([1, 0, 1, 1], false),
    ([64, 17, 262_144, 262_144], false),
    ([1, 1, 0, 1], false),
    ([64, 16, 262_145, 262_144], false),
    ([1, 1, 1, 0], false),
    ([64, 16, 262_144, 262_145], false),
];

#[test]
fn limits_fit_at_their_ends(rt: HostRuntime) {
    for ([callers, selectors, channels, keys], fits) in LIMITS {
        let limits = Limits {
            callers,
            selectors,
            channels,
            keys,
        };
        assert_eq!(rt; limits.fits(), fits, "{limits:?}");
    }
}

#[test]
fn an_open_gate_lets_pass(rt: HostRuntime) {
    NoGate.pass(&rt, 1, 2);
}
