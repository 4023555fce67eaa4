//! The text of each reply.
use nio_base::{
    CallerNo, ChanId, ChanNo, Finished, GChan, KeyId, OpNo, Ops, SelNo, Why as Failure,
};
use nio_history::Why;
use nio_language::{Bytes, Call, GroupReply, Names, Pairs, Reply, print_line, print_reply};
use std::alloc::Global;
use std::process::Abort;
use std::test::Fail;

fn channel(number: u32, serial: u32) -> ChanId {
    ChanId {
        number: ChanNo(number),
        serial,
    }
}

/// Prints the reply alone, and in a line of a history.
fn prints(rt: &impl Abort, alloc: Global, reply: &Reply, wanted: &str) -> Result<(), Fail> {
    let text = print_reply(alloc, reply)?;
    assert!(rt; text.as_slice() == wanted.as_bytes(), "{wanted}");
    let number = 18446744073709551615;
    let printed = print_line(alloc, number, CallerNo(7), &Call::Selector, reply)?;
    let line = format!(in alloc; "{number} t7 selector -> {wanted}\n")?;
    assert!(rt; printed.as_slice() == line.as_bytes(), "{wanted}");
    Ok(())
}

#[test]
fn prints_each_reply(rt: HostRuntime) -> Result<(), Fail> {
    let first = KeyId {
        index: 3,
        serial: 0,
    };
    let last = KeyId {
        index: 4294967295,
        serial: 4294967295,
    };
    let some = vec![in rt.alloc(); (first, Ops::READ), (last, Ops::of(21))]?;
    let none = Vec::new(rt.alloc());
    let bytes = vec![in rt.alloc(); 0, 15, 109, 255]?;
    let names = vec![in rt.alloc(); first, last]?;
    let replies = [
        (Reply::Selector(SelNo(0)), "s0"),
        (Reply::Channel(channel(12, 0)), "c12"),
        (
            Reply::Channel(channel(4294967295, 4294967295)),
            "c4294967295.4294967295",
        ),
        (Reply::Key(first), "k3"),
        (Reply::Key(last), "k4294967295.4294967295"),
        (Reply::Number(18446744073709551615), "18446744073709551615"),
        (
            Reply::Names(Names::from_vec(names)),
            "k3 k4294967295.4294967295",
        ),
        (Reply::Ok, "ok"),
        (Reply::Yes, "yes"),
        (Reply::No, "no"),
        (Reply::None, "none"),
        (
            Reply::Looked(Pairs::from_vec(some)),
            "looked k3:1 k4294967295.4294967295:21",
        ),
        (Reply::Looked(Pairs::from_vec(none)), "looked none"),
        (Reply::Selected(2, Why::Ready), "selected 2 ready"),
        (Reply::Selected(0, Why::Closed), "selected 0 closed"),
        (Reply::Selected(0, Why::Now), "selected 0 now"),
        (Reply::Selected(0, Why::Woken), "selected 0 woken"),
        (
            Reply::Selected(0, Why::Interrupted),
            "selected 0 interrupted",
        ),
        (Reply::Selected(0, Why::Elapsed), "selected 0 elapsed"),
        (Reply::Again, "again"),
        (Reply::Left, "left"),
        (Reply::Already, "already"),
        (Reply::Closing, "closing"),
        (Reply::Closed, "closed"),
        (Reply::SelectorsSpent, "selectors-spent"),
        (Reply::ChannelsSpent, "channels-spent"),
        (Reply::ClosedChannel, "closed-channel"),
        (Reply::IllegalBlockingMode, "illegal-blocking-mode"),
        (Reply::IllegalOps, "illegal-ops"),
        (Reply::CancelledKey, "cancelled-key"),
        (Reply::ClosedSelector, "closed-selector"),
        (Reply::Full, "full"),
        (Reply::Busy, "busy"),
        (Reply::NegativeTimeout, "negative-timeout"),
        (Reply::NotSelecting, "not-selecting"),
        (Reply::NotClosing, "not-closing"),
        (Reply::NoCaller, "no-caller"),
        (Reply::NoSelector, "no-selector"),
        (Reply::NoChannel, "no-channel"),
        (Reply::NoKey, "no-key"),
        (Reply::Ends(channel(3, 0), channel(14, 0)), "c3 c14"),
        (Reply::Ends(channel(3, 1), channel(14, 20)), "c3.1 c14.20"),
        (Reply::Bytes(Bytes::from_vec(bytes)), "000f6dff"),
        (Reply::End, "end"),
        (Reply::NotOwner, "not-owner"),
        (Reply::ClosedByInterrupt, "closed-by-interrupt"),
        (Reply::AsyncClose, "async-close"),
        (Reply::BrokenPipe, "broken-pipe"),
        (
            Reply::Group(GroupReply::Channel(GChan {
                number: 7,
                serial: 0,
            })),
            "g7",
        ),
        (
            Reply::Group(GroupReply::Channel(GChan {
                number: 7,
                serial: 2,
            })),
            "g7.2",
        ),
        (Reply::Group(GroupReply::Op(OpNo(7))), "op 7"),
        (
            Reply::Group(GroupReply::Completed(OpNo(7), Finished::Count(5))),
            "op 7 count 5",
        ),
        (
            Reply::Group(GroupReply::Completed(OpNo(7), Finished::End)),
            "op 7 end",
        ),
        (
            Reply::Group(GroupReply::Completed(OpNo(7), Finished::Connected)),
            "op 7 connected",
        ),
        (
            Reply::Group(GroupReply::Completed(
                OpNo(7),
                Finished::Accepted(GChan {
                    number: 1,
                    serial: 0,
                }),
            )),
            "op 7 accepted g1",
        ),
        (
            Reply::Group(GroupReply::Completed(OpNo(7), Finished::Failed(Failure::Fault))),
            "op 7 fault",
        ),
        (
            Reply::Group(GroupReply::Completed(
                OpNo(7),
                Finished::Failed(Failure::AsynchronousClose),
            )),
            "op 7 async-close",
        ),
        (
            Reply::Group(GroupReply::Completed(OpNo(7), Finished::Failed(Failure::ClosedChannel))),
            "op 7 closed-channel",
        ),
        (
            Reply::Group(GroupReply::Completed(OpNo(7), Finished::Failed(Failure::ShutdownGroup))),
            "op 7 shutdown-group",
        ),
        (
            Reply::Group(GroupReply::Completed(OpNo(7), Finished::Failed(Failure::ChannelsSpent))),
            "op 7 channels-spent",
        ),
        (Reply::Group(GroupReply::ShutdownGroup), "shutdown-group"),
        (Reply::Group(GroupReply::WrongKind), "wrong-kind"),
        (Reply::Group(GroupReply::AlreadyBound), "already-bound"),
        (
            Reply::Group(GroupReply::AlreadyConnected),
            "already-connected",
        ),
        (
            Reply::Group(GroupReply::ConnectionPending),
            "connection-pending",
        ),
        (
            Reply::Group(GroupReply::NotYetConnected),
            "not-yet-connected",
        ),
        (Reply::Group(GroupReply::NotYetBound), "not-yet-bound"),
        (Reply::Group(GroupReply::ReadPending), "read-pending"),
        (Reply::Group(GroupReply::WritePending), "write-pending"),
        (Reply::Group(GroupReply::AcceptPending), "accept-pending"),
        (Reply::Group(GroupReply::OpsSpent), "ops-spent"),
        (Reply::Group(GroupReply::FlightFull), "flight-full"),
        (Reply::Group(GroupReply::NotPending), "not-pending"),
        (Reply::Group(GroupReply::WrongOutcome), "wrong-outcome"),
        (Reply::Group(GroupReply::NotRunning), "not-running"),
    ];
    for (reply, wanted) in replies {
        prints(&rt, rt.alloc(), &reply, wanted)?;
    }
    Ok(())
}
