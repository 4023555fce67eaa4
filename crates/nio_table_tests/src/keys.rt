//! Each call on a key with its answer and with each refusal: on a key that is selected, and on a key whose index was
//! given to another.
use crate::calls::{Call, NOTHING, OnChannel, OnKey, Reply, follow};
use crate::tables::{C0, C1, C2, S};
use nio_base::{KeyNo, Kind, Limits, SelNo};
use nio_channel::ChannelError;
use nio_history::Why;
use nio_keys::KeyError;
use nio_select::{Mode, SelectorsSpent};
use std::test::Fail;

const SMALL: Limits = Limits {
    callers: 2,
    selectors: 2,
    channels: 2,
    keys: 2,
};

const EARLIER: KeyNo = KeyNo {
    sel: S,
    index: 0,
    serial: 0,
};

const PRESENT: KeyNo = KeyNo {
    sel: S,
    index: 0,
    serial: 1,
};

const GONE: Reply = Reply::Operations(Err(KeyError::CancelledKey));

/// The calls on a source's key that is registered for nothing.
const ON_A_KEY: &[(Call, Reply)] = &[
    (
        Call::OpenChannel(Kind::Source),
        Reply::OpenedChannel(Ok(C0)),
    ),
    (
        Call::OnChannel(C0, OnChannel::SetBlocking(false)),
        Reply::Mode(Ok(())),
    ),
    (
        Call::OnChannel(C0, OnChannel::Register(0, 0)),
        Reply::Registered(Ok(EARLIER)),
    ),
    (Call::OnKey(0, 0, OnKey::IsValid), Reply::Flag(true)),
    (Call::OnKey(0, 0, OnKey::Interest), Reply::Operations(Ok(0))),
    (Call::OnKey(0, 0, OnKey::Set(1)), Reply::Interest(Ok(()))),
    (
        Call::OnKey(0, 0, OnKey::Set(4)),
        Reply::Interest(Err(KeyError::IllegalOps)),
    ),
    (
        Call::OnKey(0, 0, OnKey::Or(4)),
        Reply::Operations(Err(KeyError::IllegalOps)),
    ),
    (Call::OnKey(0, 0, OnKey::And(254)), Reply::Operations(Ok(1))),
    (Call::OnKey(0, 0, OnKey::Or(1)), Reply::Operations(Ok(0))),
    (Call::OnKey(0, 0, OnKey::Interest), Reply::Operations(Ok(1))),
    (
        Call::Select(Mode::Now, ((0, 1), (9, 1), (9, 4)), false),
        Reply::Done(1, Why::Ready),
    ),
    (Call::OnKey(0, 0, OnKey::Ready), Reply::Operations(Ok(1))),
    (Call::OnKey(0, 0, OnKey::Unselect), Reply::Flag(true)),
    (Call::OnKey(0, 0, OnKey::Unselect), Reply::Flag(false)),
    (Call::OnKey(0, 0, OnKey::Attach(7)), Reply::Number(0)),
    (Call::OnKey(0, 0, OnKey::Attachment), Reply::Number(7)),
    (Call::OnKey(0, 0, OnKey::Cancel), Reply::Nothing),
    (Call::OnKey(0, 0, OnKey::IsValid), Reply::Flag(false)),
    (Call::OnKey(0, 0, OnKey::Interest), GONE),
    (
        Call::OnKey(0, 0, OnKey::Set(1)),
        Reply::Interest(Err(KeyError::CancelledKey)),
    ),
    (Call::OnKey(0, 0, OnKey::Or(4)), GONE),
    (Call::OnKey(0, 0, OnKey::And(1)), GONE),
    (Call::OnKey(0, 0, OnKey::Ready), GONE),
    (Call::OnKey(0, 0, OnKey::Attachment), Reply::Number(7)),
];

/// The first key of an index is removed, and a second one is made. Then what is found by its number, and the calls on
/// both keys.
const ON_AN_INDEX_WITH_ANOTHER_KEY: &[(Call, Reply)] = &[
    (
        Call::OpenChannel(Kind::Source),
        Reply::OpenedChannel(Ok(C0)),
    ),
    (
        Call::OnChannel(C0, OnChannel::SetBlocking(false)),
        Reply::Mode(Ok(())),
    ),
    (
        Call::OnChannel(C0, OnChannel::Register(0, 0)),
        Reply::Registered(Ok(EARLIER)),
    ),
    (Call::OnKey(0, 0, OnKey::Cancel), Reply::Nothing),
    (
        Call::Select(Mode::Now, NOTHING, false),
        Reply::Done(0, Why::Now),
    ),
    (
        Call::OnChannel(C0, OnChannel::Register(0, 0)),
        Reply::Registered(Ok(PRESENT)),
    ),
    (Call::FindSelector(0), Reply::Selector(Some(S))),
    (Call::FindSelector(1), Reply::Selector(None)),
    (Call::FindSelector(2), Reply::Selector(None)),
    (Call::FindChannel(C0), Reply::Channel(Some(C0))),
    (Call::FindChannel(C1), Reply::Channel(None)),
    (Call::FindChannel(C2), Reply::Channel(None)),
    (Call::FindKey(0, 0), Reply::Key(Some(EARLIER))),
    (Call::FindKey(0, 1), Reply::Key(Some(PRESENT))),
    (Call::FindKey(0, 2), Reply::Key(None)),
    (Call::FindKey(1, 0), Reply::Key(None)),
    (Call::FindKey(2, 0), Reply::Key(None)),
    (Call::OnKey(0, 1, OnKey::Attach(7)), Reply::Number(0)),
    (Call::OnKey(0, 0, OnKey::IsValid), Reply::Flag(false)),
    (Call::OnKey(0, 0, OnKey::Interest), GONE),
    (
        Call::OnKey(0, 0, OnKey::Set(1)),
        Reply::Interest(Err(KeyError::CancelledKey)),
    ),
    (Call::OnKey(0, 0, OnKey::Or(1)), GONE),
    (Call::OnKey(0, 0, OnKey::And(1)), GONE),
    (Call::OnKey(0, 0, OnKey::Ready), GONE),
    (Call::OnKey(0, 0, OnKey::Cancel), Reply::Nothing),
    (Call::OnKey(0, 0, OnKey::Unselect), Reply::Flag(false)),
    (Call::OnKey(0, 0, OnKey::Attachment), Reply::Number(0)),
    (Call::OnKey(0, 0, OnKey::Attach(9)), Reply::Number(0)),
    (Call::OnKey(0, 1, OnKey::Attachment), Reply::Number(7)),
    (Call::OnKey(0, 1, OnKey::Interest), Reply::Operations(Ok(0))),
    (Call::OnKey(0, 1, OnKey::IsValid), Reply::Flag(true)),
    (Call::OpenSelector, Reply::OpenedSelector(Ok(SelNo(1)))),
    (
        Call::OpenSelector,
        Reply::OpenedSelector(Err(SelectorsSpent)),
    ),
    (Call::FindSelector(1), Reply::Selector(Some(SelNo(1)))),
    (Call::OpenChannel(Kind::Sink), Reply::OpenedChannel(Ok(C1))),
    (
        Call::OpenChannel(Kind::Sink),
        Reply::OpenedChannel(Err(ChannelError::ChannelsSpent)),
    ),
];

#[test]
fn calls_on_a_key(rt: HostRuntime) -> Result<(), Fail> {
    follow(&rt, SMALL, ON_A_KEY)
}

#[test]
fn calls_on_a_key_whose_index_has_another(rt: HostRuntime) -> Result<(), Fail> {
    follow(&rt, SMALL, ON_AN_INDEX_WITH_ANOTHER_KEY)
}
