//! Rows of tests: calls of the first caller on a table, each with its reply.
ghost use Rattle.std.specs.Prelude.{IfOk, IfSome};
ghost use Rattle.nio_base.specs.Limits.{IsFit};
ghost use Rattle.nio_base.specs.declared.numbers.SelNo.{SelNo as Selector};
ghost use Rattle.nio_channel.specs.Idle.{AreIdle, zero, one};
ghost use Rattle.nio_history.specs.PassViews.{HasChannel, HasKey};
ghost use Rattle.nio_select.specs.InHand.{selection_of};
ghost use Rattle.nio_select.specs.InProgress.{Selects, HasShut};
ghost use Rattle.nio_steps.specs.SelectCalls.{Selection};
ghost use Rattle.nio_words.specs.Views.{view};

use crate::tables::{ONE, S, ZERO, table};
use nio_base::{ChanId, ChanNo, KeyNo, Kind, Limits, Ops, SelNo};
use nio_channel::{
    ChannelError, ReopenError, close_channel, is_blocking, is_open, is_registered, key_for,
    open_channel, reopen_channel, try_register, try_set_blocking,
};
use nio_history::Why;
use nio_keys::{
    KeyError, attach, attachment, cancel, find, find_channel, find_selector, interest,
    interest_and, interest_or, is_valid, ready, set_interest, unselect,
};
use nio_select::{
    After, Asked, BeginError, ListError, Mode, Selecting, SelectorsSpent, Told, keys,
    open_selector, selected_keys, try_begin,
};
use nio_words::{Pass, Words};
use std::alloc::{AllocError, Global};
use std::process::Abort;
use std::test::Fail;

/// What a poller tells, as three indexes with bits. Index 9 isn't asked.
pub(crate) type Pairs = ((u32, u8), (u32, u8), (u32, u8));

pub(crate) const NOTHING: Pairs = ((9, 1), (9, 4), (9, 5));

/// A call of the first caller, or what goes before one.
#[derive(Clone, Copy)]
pub(crate) enum Call {
    OpenSelector,
    FindSelector(u32),
    OpenChannel(Kind),
    /// Opens so many streams and makes them non-blocking.
    OpenStreams(u32),
    FindChannel(ChanId),
    OnChannel(ChanId, OnChannel),
    /// The two calls on the key with this index and serial.
    FindKey(u32, u32),
    OnKey(u32, u32, OnKey),
    Keys,
    SelectedKeys,
    /// Begins a selection and leaves it.
    Begin,
    /// A selection that waits so and is told this, by a poller that says whether the time is over. Where it would
    /// go on, it is left.
    Select(Mode, Pairs, bool),
    /// The other caller wakes the selector.
    Wake,
    /// The other caller interrupts the first, or the first takes its status.
    Interrupt,
    TakeInterrupt,
    /// Closing the selector begins.
    Shut,
}

#[derive(Clone, Copy)]
pub(crate) enum OnChannel {
    IsOpen,
    IsBlocking,
    IsRegistered,
    KeyFor,
    SetBlocking(bool),
    Register(u8, u64),
    Close,
    Reopen,
    /// The other caller takes the hold of the channel.
    Hold,
}

#[derive(Clone, Copy)]
pub(crate) enum OnKey {
    IsValid,
    Interest,
    Set(u8),
    Or(u8),
    And(u8),
    Ready,
    Cancel,
    Unselect,
    Attach(u64),
    Attachment,
    /// The channel is registered while the other caller has a pin on the key's index.
    RegisterBesidePin(ChanId),
}

#[derive(Clone, Copy, Debug, PartialEq, Eq)]
pub(crate) enum Reply {
    Nothing,
    Flag(bool),
    Number(u64),
    Selector(Option<SelNo>),
    Channel(Option<ChanId>),
    Key(Option<KeyNo>),
    OpenedSelector(Result<SelNo, SelectorsSpent>),
    OpenedChannel(Result<ChanId, ChannelError>),
    Mode(Result<(), ChannelError>),
    Registered(Result<KeyNo, ChannelError>),
    Reopened(Result<ChanId, ReopenError>),
    Operations(Result<u8, KeyError>),
    Interest(Result<(), KeyError>),
    /// How many keys, and the last of them.
    Listed(Result<(usize, Option<KeyNo>), ListError>),
    /// How many keys are asked, and the last of them with its channel, operations and serial.
    Asked(usize, Option<(u32, ChanNo, u8, u32)>),
    NotBegun(BeginError),
    Done(u32, Why),
    Again,
    /// There is no such channel or key.
    Missing,
}

/// Opens streams and makes them non-blocking.
fn open_streams(w: &Words, p: &mut Pass, count: u32) -> Result<(), ChannelError>
    requires { AreIdle w.now p.old }
    ensures { AreIdle w.now p.new }
{
    for _ in 0..count {
        open_stream(w, p)?;
    }
    Ok(())
}

pub(crate) fn open_stream(w: &Words, p: &mut Pass) -> Result<ChanId, ChannelError>
    requires { AreIdle w.now p.old }
    ensures idle { AreIdle w.now p.new }
    ensures made { IfOk result (HasChannel (view w.now p.new)) }
{
    let chan = opened(w, p, Kind::Stream)?;
    try_set_blocking(w, p, ZERO, chan, false)?;
    Ok(chan)
}

pub(crate) fn opened(w: &Words, p: &mut Pass, kind: Kind) -> Result<ChanId, ChannelError>
    requires { AreIdle w.now p.old }
    ensures idle { AreIdle w.now p.new }
    ensures made { IfOk result (HasChannel (view w.now p.new)) }
{
    open_channel(w, p, ZERO, kind)
}

pub(crate) fn channel_with(w: &Words, p: &mut Pass, chan: ChanId) -> Option<ChanId>
    requires { AreIdle w.now p.old }
    ensures idle { AreIdle w.now p.new }
    ensures found { IfSome result (HasChannel (view w.now p.new)) }
    ensures selecting { (selection : Selection) → Selects (view w.now p.old) zero selection
        → Selects (view w.now p.new) zero selection }
{
    find_channel(w, p, ZERO, chan.number.0, chan.serial)
}

fn answer_on_channel(w: &Words, p: &mut Pass, chan: ChanId, call: OnChannel) -> Reply
    requires { AreIdle w.now p.old }
    ensures { AreIdle w.now p.new }
{
    match channel_with(w, p, chan) {
        Some(chan) => on_channel(w, p, chan, call),
        None => Reply::Missing,
    }
}

fn on_channel(w: &Words, p: &mut Pass, chan: ChanId, call: OnChannel) -> Reply
    requires idle { AreIdle w.now p.old }
    requires channel { HasChannel (view w.now p.old) chan }
    ensures { AreIdle w.now p.new }
{
    match call {
        OnChannel::IsOpen => Reply::Flag(is_open(w, p, ZERO, chan)),
        OnChannel::IsBlocking => Reply::Flag(is_blocking(w, p, ZERO, chan)),
        OnChannel::IsRegistered => Reply::Flag(is_registered(w, p, ZERO, chan)),
        OnChannel::KeyFor => Reply::Key(key_for(w, p, ZERO, chan, S)),
        OnChannel::SetBlocking(on) => Reply::Mode(try_set_blocking(w, p, ZERO, chan, on)),
        OnChannel::Register(ops, att) => {
            Reply::Registered(try_register(w, p, ZERO, S, chan, Ops::of(ops), att))
        }
        OnChannel::Close => Reply::Flag(close_channel(w, p, ZERO, chan)),
        OnChannel::Reopen => Reply::Reopened(reopen_channel(w, p, ZERO, chan)),
        OnChannel::Hold => {
            w.try_hold_bit(p, ONE, chan.number);
            Reply::Nothing
        }
    }
}

pub(crate) fn key_with(w: &Words, p: &mut Pass, index: u32, serial: u32) -> Option<KeyNo>
    requires { AreIdle w.now p.old }
    ensures idle { AreIdle w.now p.new }
    ensures found { IfSome result (HasKey (view w.now p.new)) }
    ensures selecting { (selection : Selection) → Selects (view w.now p.old) zero selection
        → Selects (view w.now p.new) zero selection }
{
    find(w, p, ZERO, S, index, serial)
}

fn answer_on_key(w: &Words, p: &mut Pass, index: u32, serial: u32, call: OnKey) -> Reply
    requires { AreIdle w.now p.old }
    ensures { AreIdle w.now p.new }
{
    match key_with(w, p, index, serial) {
        Some(key) => on_key(w, p, key, call),
        None => Reply::Missing,
    }
}

fn operations(set: Result<Ops, KeyError>) -> Reply {
    match set {
        Ok(ops) => Reply::Operations(Ok(ops.bits())),
        Err(error) => Reply::Operations(Err(error)),
    }
}

fn on_key(w: &Words, p: &mut Pass, key: KeyNo, call: OnKey) -> Reply
    requires idle { AreIdle w.now p.old }
    requires key { HasKey (view w.now p.old) key }
    ensures { AreIdle w.now p.new }
{
    match call {
        OnKey::IsValid => Reply::Flag(is_valid(w, p, ZERO, key)),
        OnKey::Interest => operations(interest(w, p, ZERO, key)),
        OnKey::Set(ops) => Reply::Interest(set_interest(w, p, ZERO, key, Ops::of(ops))),
        OnKey::Or(ops) => operations(interest_or(w, p, ZERO, key, Ops::of(ops))),
        OnKey::And(ops) => operations(interest_and(w, p, ZERO, key, Ops::of(ops))),
        OnKey::Ready => operations(ready(w, p, ZERO, key)),
        OnKey::Cancel => {
            cancel(w, p, ZERO, key);
            Reply::Nothing
        }
        OnKey::Unselect => Reply::Flag(unselect(w, p, ZERO, key)),
        OnKey::Attach(att) => Reply::Number(attach(w, p, ZERO, key, att)),
        OnKey::Attachment => Reply::Number(attachment(w, p, ZERO, key)),
        OnKey::RegisterBesidePin(chan) => register_beside_pin(w, p, chan, key),
    }
}

fn register_beside_pin(w: &Words, p: &mut Pass, chan: ChanId, key: KeyNo) -> Reply
    requires idle { AreIdle w.now p.old }
    requires key { HasKey (view w.now p.old) key }
    ensures { AreIdle w.now p.new }
{
    match find_channel(w, p, ZERO, chan.number.0, chan.serial) {
        Some(chan) => Reply::Registered(registered_beside_pin(w, p, chan, key)),
        None => Reply::Missing,
    }
}

/// Registers the channel for reading while the other caller has a pin on the key's index.
fn registered_beside_pin(
    w: &Words,
    p: &mut Pass,
    chan: ChanId,
    key: KeyNo,
) -> Result<KeyNo, ChannelError>
    requires idle { AreIdle w.now p.old }
    requires channel { HasChannel (view w.now p.old) chan }
    requires key { HasKey (view w.now p.old) key }
    ensures { AreIdle w.now p.new }
{
    w.pin(p, ONE, key.sel, key.index);
    let answer = try_register(w, p, ZERO, S, chan, Ops::READ, 5);
    w.unpin(p, ONE, key.sel, key.index);
    answer
}

/// How many keys there are in a list, and the last of them.
pub(crate) fn listed(list: Result<Vec<KeyNo>, ListError>) -> Reply {
    match list {
        Ok(keys) => Reply::Listed(Ok((keys.len(), keys.last().copied()))),
        Err(error) => Reply::Listed(Err(error)),
    }
}

/// How many keys a selection asks, and the last of them.
pub(crate) fn asked(asked: &Asked) -> Reply {
    let mut last = None;
    for index in 0..asked.bound() {
        if let Some(key) = asked.key(index) {
            last = Some((index, key.channel, key.interest.bits(), key.serial));
        }
    }
    Reply::Asked(asked.len(), last)
}

fn begins(alloc: Global, w: &Words, p: &mut Pass) -> Reply
    requires { AreIdle w.now p.old }
    ensures { AreIdle w.now p.new }
{
    match try_begin(alloc, w, p, ZERO, S, Mode::Wait) {
        Ok(selection) => {
            let reply = asked(selection.asked());
            selection.leave(w, p, ZERO);
            reply
        }
        Err(error) => Reply::NotBegun(error),
    }
}

fn selects(alloc: Global, w: &Words, p: &mut Pass, mode: Mode, pairs: Pairs, elapsed: bool) -> Reply
    requires { AreIdle w.now p.old }
    ensures { AreIdle w.now p.new }
{
    let Ok(told) = told(alloc, pairs, elapsed) else {
        return Reply::NotBegun(BeginError::Memory);
    };
    match try_begin(alloc, w, p, ZERO, S, mode) {
        Ok(selection) => is_told(w, p, selection, &told),
        Err(error) => Reply::NotBegun(error),
    }
}

/// Tells the selection this. Where it would go on, it is left.
pub(crate) fn is_told(w: &Words, p: &mut Pass, selection: Selecting, told: &Told) -> Reply
    requires idle { AreIdle w.now p.old }
    requires begun { Selects (view w.now p.old) zero (selection_of selection) }
    ensures idle { AreIdle w.now p.new }
    ensures closing { (s : Selector) → HasShut (view w.now p.old) one s → HasShut (view w.now p.new) one s }
{
    match selection.told(w, p, ZERO, told) {
        After::Done(answer, _list) => Reply::Done(answer.count, answer.why),
        After::Again(selection) => {
            selection.leave(w, p, ZERO);
            Reply::Again
        }
    }
}

/// What a poller tells of these.
pub(crate) fn told(alloc: Global, pairs: Pairs, elapsed: bool) -> Result<Told, AllocError> {
    let mut told = Vec::with_capacity(alloc, 3)?;
    for (index, bits) in [pairs.0, pairs.1, pairs.2] {
        told.push((index, Ops::of(bits)))?;
    }
    Ok(Told {
        pairs: told,
        elapsed,
    })
}

pub(crate) fn answer(alloc: Global, w: &Words, p: &mut Pass, call: Call) -> Reply
    requires { AreIdle w.now p.old }
    ensures { AreIdle w.now p.new }
{
    match call {
        Call::OpenSelector => Reply::OpenedSelector(open_selector(w, p, ZERO)),
        Call::FindSelector(number) => Reply::Selector(find_selector(w, p, ZERO, number)),
        Call::OpenChannel(kind) => Reply::OpenedChannel(opened(w, p, kind)),
        Call::OpenStreams(count) => Reply::Mode(open_streams(w, p, count)),
        Call::FindChannel(chan) => Reply::Channel(channel_with(w, p, chan)),
        Call::OnChannel(chan, call) => answer_on_channel(w, p, chan, call),
        Call::FindKey(index, serial) => Reply::Key(key_with(w, p, index, serial)),
        Call::OnKey(index, serial, call) => answer_on_key(w, p, index, serial, call),
        Call::Keys => listed(keys(alloc, w, p, ZERO, S)),
        Call::SelectedKeys => listed(selected_keys(alloc, w, p, ZERO, S)),
        Call::Begin => begins(alloc, w, p),
        Call::Select(mode, pairs, elapsed) => selects(alloc, w, p, mode, pairs, elapsed),
        Call::Wake => Reply::Flag(w.wake(p, ONE, S)),
        Call::Interrupt => Reply::Flag(w.set_interrupt(p, ONE, ZERO)),
        Call::TakeInterrupt => Reply::Flag(w.take_interrupt(p, ZERO)),
        Call::Shut => Reply::Flag(w.shut_bit(p, ONE, S)),
    }
}

/// Makes the calls on a table, and compares each reply.
pub(crate) fn follow<R: Alloc<A = Global> + Abort>(
    rt: &R,
    limits: Limits,
    rows: &[(Call, Reply)],
) -> Result<(), Fail>
    requires { IsFit limits }
{
    let (words, mut p) = table(rt.alloc(), limits)?;
    for (at, (call, reply)) in rows.iter().enumerate() {
        assert_eq!(rt;
            answer(rt.alloc(), &words, &mut p, *call),
            *reply,
            "row {at}"
        );
    }
    Ok(())
}
