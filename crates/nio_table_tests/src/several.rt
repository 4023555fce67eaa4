//! The two calls of a caller that are several calls, with each answer and each refusal that one thread can bring about.
//! (`IllegalBlockingMode` takes a second one, which makes the channel blocking in between.)
use crate::calls::{Reply, listed, told};
use crate::tables::{C0, C1, S};
use nio_base::{ChanId, ChanNo, KeyNo, Kind, Limits, Ops, SelNo};
use nio_caller::{CallError, Caller};
use nio_channel::ChannelError;
use nio_history::Why;
use nio_poller::NoBell;
use nio_select::{BeginError, Mode};
use nio_words::Words;
use std::alloc::Global;
use std::sync::Wait;
use std::test::Fail;

const LIMITS: Limits = Limits {
    callers: 1,
    selectors: 1,
    channels: 3,
    keys: 1,
};

const KEY: KeyNo = KeyNo {
    sel: S,
    index: 0,
    serial: 0,
};

/// One of the two calls, or another one.
#[derive(Clone, Copy)]
enum Call {
    TakeSelected(u32),
    /// A call on the channel with this number.
    OnChannel(u32, OnChannel),
    Open(Kind),
    /// A selection that is told that the only key is ready to be read.
    Select,
    SelectedKeys,
    /// Cancels the only key.
    Cancel,
    CloseSelector,
}

#[derive(Clone, Copy)]
enum OnChannel {
    RegisterNonBlocking(u8),
    IsBlocking,
    Close,
}

const ROWS: &[(Call, Reply)] = &[
    (Call::Open(Kind::Source), Reply::OpenedChannel(Ok(C0))),
    (Call::Open(Kind::Sink), Reply::OpenedChannel(Ok(C1))),
    // there is no such channel; it has no key
    (Call::TakeSelected(2), Reply::Key(None)),
    (Call::TakeSelected(0), Reply::Key(None)),
    // it is non-blocking after a refusal too
    (
        Call::OnChannel(0, OnChannel::RegisterNonBlocking(4)),
        Reply::Registered(Err(ChannelError::IllegalOps)),
    ),
    (
        Call::OnChannel(0, OnChannel::IsBlocking),
        Reply::Flag(false),
    ),
    (
        Call::OnChannel(0, OnChannel::RegisterNonBlocking(0)),
        Reply::Registered(Ok(KEY)),
    ),
    (
        Call::OnChannel(0, OnChannel::RegisterNonBlocking(1)),
        Reply::Registered(Ok(KEY)),
    ),
    (
        Call::OnChannel(1, OnChannel::RegisterNonBlocking(4)),
        Reply::Registered(Err(ChannelError::Full)),
    ),
    (
        Call::OnChannel(1, OnChannel::IsBlocking),
        Reply::Flag(false),
    ),
    (Call::Select, Reply::Done(1, Why::Ready)),
    (Call::SelectedKeys, Reply::Listed(Ok((1, Some(KEY))))),
    (Call::TakeSelected(0), Reply::Key(Some(KEY))),
    (Call::SelectedKeys, Reply::Listed(Ok((0, None)))),
    // it isn't selected any more; then it is, and is cancelled
    (Call::TakeSelected(0), Reply::Key(None)),
    (Call::Select, Reply::Done(1, Why::Ready)),
    (Call::Cancel, Reply::Nothing),
    (
        Call::OnChannel(0, OnChannel::RegisterNonBlocking(1)),
        Reply::Registered(Err(ChannelError::CancelledKey)),
    ),
    (Call::TakeSelected(0), Reply::Key(Some(KEY))),
    (Call::CloseSelector, Reply::Flag(true)),
    (
        Call::OnChannel(0, OnChannel::RegisterNonBlocking(1)),
        Reply::Registered(Err(ChannelError::ClosedSelector)),
    ),
    (Call::TakeSelected(0), Reply::Key(None)),
    (Call::OnChannel(0, OnChannel::Close), Reply::Flag(true)),
    (
        Call::OnChannel(0, OnChannel::RegisterNonBlocking(1)),
        Reply::Registered(Err(ChannelError::ClosedChannel)),
    ),
];

fn answer_on_channel<R: Wait>(
    rt: &R,
    caller: &mut Caller<&Words>,
    sel: SelNo,
    number: u32,
    call: OnChannel,
) -> Reply {
    let Some(chan) = caller.find_channel(number, 0) else {
        return Reply::Missing;
    };
    match call {
        OnChannel::RegisterNonBlocking(ops) => {
            registered(caller.register_non_blocking(rt, sel, chan, Ops::of(ops), 0))
        }
        OnChannel::IsBlocking => Reply::Flag(caller.is_blocking(chan)),
        OnChannel::Close => Reply::Flag(caller.close_channel(chan)),
    }
}

fn registered(answer: Result<KeyNo, CallError<ChannelError>>) -> Reply {
    match answer {
        Ok(key) => Reply::Registered(Ok(key)),
        Err(CallError::Refused(error)) => Reply::Registered(Err(error)),
        Err(_missing) => Reply::Missing,
    }
}

/// A selection that is told once, that the only key is ready to be read. Where it would go on, it is left.
pub(crate) fn selects(alloc: Global, caller: &mut Caller<&Words>, sel: SelNo, mode: Mode) -> Reply {
    let Ok(told) = told(alloc, ((0, 1), (9, 1), (9, 4)), false) else {
        return Reply::NotBegun(BeginError::Memory);
    };
    match caller.begin(alloc, sel, mode) {
        Ok(()) => {}
        Err(CallError::Refused(error)) => return Reply::NotBegun(error),
        Err(_missing) => return Reply::Missing,
    }
    match caller.told(sel, &told) {
        Ok(Some(answer)) => Reply::Done(answer.count, answer.why),
        Ok(None) => {
            let _ = caller.leave(sel);
            Reply::Again
        }
        Err(_not_selecting) => Reply::Missing,
    }
}

fn cancels(caller: &mut Caller<&Words>, sel: SelNo) -> Reply {
    if caller.cancel(KeyNo { sel, ..KEY }) {
        Reply::Nothing
    } else {
        Reply::Missing
    }
}

fn answer<R: Wait>(
    rt: &R,
    alloc: Global,
    caller: &mut Caller<&Words>,
    sel: SelNo,
    call: Call,
) -> Reply {
    match call {
        Call::TakeSelected(number) => Reply::Key(caller.take_selected(
            ChanId::first(ChanNo(number)),
            sel,
        )),
        Call::OnChannel(number, call) => answer_on_channel(rt, caller, sel, number, call),
        Call::Open(kind) => Reply::OpenedChannel(caller.open_channel(kind)),
        Call::Select => selects(alloc, caller, sel, Mode::Now),
        Call::SelectedKeys => match caller.selected_keys(alloc, sel) {
            Ok(keys) => listed(Ok(keys)),
            Err(CallError::Refused(error)) => listed(Err(error)),
            Err(_missing) => Reply::Missing,
        },
        Call::Cancel => cancels(caller, sel),
        Call::CloseSelector => Reply::Flag(caller.close(rt, sel, &NoBell)),
    }
}

#[test]
fn calls_that_are_several(rt: HostRuntime) -> Result<(), Fail> {
    let (words, pass) = Words::make(rt.alloc(), LIMITS)?;
    let mut caller = Caller::first(&words, pass);
    let sel = caller.open_selector()?;
    for (at, (call, reply)) in ROWS.iter().enumerate() {
        assert_eq!(rt;
            answer(&rt, rt.alloc(), &mut caller, sel, *call),
            *reply,
            "row {at}"
        );
    }
    Ok(())
}
