//! The words with which calls begin, found by their texts.
ghost use Rattle.std.specs.Prelude.{◌≡◌, ⊤};
ghost use Rattle.nio_language.specs.Arguments.{nothing, one_caller, one_channel, one_selector, selector_key, key_ops};
ghost use Rattle.nio_language.specs.CallWords.{arguments, call_word, call_word_text};
ghost use Rattle.nio_language.specs.Reading.{Reads};

use crate::call::Call;
use crate::group_word::GroupWord;
use nio_base::{CallerNo, ChanId, KeyId, Ops, SelNo};

/// A call without its arguments. Words whose calls have the same arguments have a type of their own.
/// A new word needs a variant there or here, and a line in `CALL_WORDS`, in `of`, in `text` and in the
/// `call` of its type.
#[derive(Clone, Copy)]
pub enum CallWord {
    Alone(LoneWord),
    OnCaller(CallerWord),
    OnSelector(SelectorWord),
    OnChannel(ChannelWord),
    OnKey(KeyWord),
    OnKeyOps(KeyOpsWord),
    Channel,
    Blocking,
    KeyFor,
    Register,
    Attach,
    Begin,
    Told,
    Pwrite,
    Pread,
    OnGroup(GroupWord),
}

/// The words without arguments.
#[derive(Clone, Copy)]
pub enum LoneWord {
    Selector,
    Interrupted,
}

/// The words of calls that name another caller.
#[derive(Clone, Copy)]
pub enum CallerWord {
    Interrupt,
    Pipe,
}

/// The words of calls on a selector.
#[derive(Clone, Copy)]
pub enum SelectorWord {
    Failed,
    Wakeup,
    Close,
    CloseEnd,
    Keys,
    Selected,
}

/// The words of calls on a channel.
#[derive(Clone, Copy)]
pub enum ChannelWord {
    IsBlocking,
    IsOpen,
    IsRegistered,
    Closec,
}

/// The words of calls on a key.
#[derive(Clone, Copy)]
pub enum KeyWord {
    Valid,
    Interest,
    Ready,
    Cancel,
    Unselect,
    Attachment,
}

/// The words of calls on a key with operations.
#[derive(Clone, Copy)]
pub enum KeyOpsWord {
    Iset,
    Ior,
    Iand,
}

const CALL_WORDS: [CallWord; 43] = [
    CallWord::Alone(LoneWord::Selector),
    CallWord::Channel,
    CallWord::Blocking,
    CallWord::OnChannel(ChannelWord::IsBlocking),
    CallWord::OnChannel(ChannelWord::IsOpen),
    CallWord::OnChannel(ChannelWord::IsRegistered),
    CallWord::KeyFor,
    CallWord::Register,
    CallWord::OnChannel(ChannelWord::Closec),
    CallWord::OnKey(KeyWord::Valid),
    CallWord::OnKey(KeyWord::Interest),
    CallWord::OnKey(KeyWord::Ready),
    CallWord::OnKeyOps(KeyOpsWord::Iset),
    CallWord::OnKeyOps(KeyOpsWord::Ior),
    CallWord::OnKeyOps(KeyOpsWord::Iand),
    CallWord::OnKey(KeyWord::Cancel),
    CallWord::OnKey(KeyWord::Unselect),
    CallWord::Attach,
    CallWord::OnKey(KeyWord::Attachment),
    CallWord::Begin,
    CallWord::Told,
    CallWord::OnSelector(SelectorWord::Failed),
    CallWord::OnSelector(SelectorWord::Wakeup),
    CallWord::OnSelector(SelectorWord::Close),
    CallWord::OnSelector(SelectorWord::CloseEnd),
    CallWord::OnSelector(SelectorWord::Keys),
    CallWord::OnSelector(SelectorWord::Selected),
    CallWord::OnCaller(CallerWord::Interrupt),
    CallWord::Alone(LoneWord::Interrupted),
    CallWord::OnCaller(CallerWord::Pipe),
    CallWord::Pwrite,
    CallWord::Pread,
    CallWord::OnGroup(GroupWord::Gopen),
    CallWord::OnGroup(GroupWord::Gbind),
    CallWord::OnGroup(GroupWord::Start),
    CallWord::OnGroup(GroupWord::Report),
    CallWord::OnGroup(GroupWord::Take),
    CallWord::OnGroup(GroupWord::Done),
    CallWord::OnGroup(GroupWord::Gclose),
    CallWord::OnGroup(GroupWord::Shutdown),
    CallWord::OnGroup(GroupWord::ShutdownNow),
    CallWord::OnGroup(GroupWord::IsShutdown),
    CallWord::OnGroup(GroupWord::Terminated),
];

impl CallWord {
    /// The word of a call.
    pub fn of(call: &Call) -> CallWord
        ensures { result ≡ call_word call.now }
    {
        match call {
            Call::Selector => CallWord::Alone(LoneWord::Selector),
            Call::Channel(..) => CallWord::Channel,
            Call::Blocking(..) => CallWord::Blocking,
            Call::IsBlocking(..) => CallWord::OnChannel(ChannelWord::IsBlocking),
            Call::IsOpen(..) => CallWord::OnChannel(ChannelWord::IsOpen),
            Call::IsRegistered(..) => CallWord::OnChannel(ChannelWord::IsRegistered),
            Call::KeyFor(..) => CallWord::KeyFor,
            Call::Register(..) => CallWord::Register,
            Call::Closec(..) => CallWord::OnChannel(ChannelWord::Closec),
            Call::Valid(..) => CallWord::OnKey(KeyWord::Valid),
            Call::Interest(..) => CallWord::OnKey(KeyWord::Interest),
            Call::Ready(..) => CallWord::OnKey(KeyWord::Ready),
            Call::Iset(..) => CallWord::OnKeyOps(KeyOpsWord::Iset),
            Call::Ior(..) => CallWord::OnKeyOps(KeyOpsWord::Ior),
            Call::Iand(..) => CallWord::OnKeyOps(KeyOpsWord::Iand),
            Call::Cancel(..) => CallWord::OnKey(KeyWord::Cancel),
            Call::Unselect(..) => CallWord::OnKey(KeyWord::Unselect),
            Call::Attach(..) => CallWord::Attach,
            Call::Attachment(..) => CallWord::OnKey(KeyWord::Attachment),
            Call::Begin(..) => CallWord::Begin,
            Call::Told(..) => CallWord::Told,
            Call::Failed(..) => CallWord::OnSelector(SelectorWord::Failed),
            Call::Wakeup(..) => CallWord::OnSelector(SelectorWord::Wakeup),
            Call::Close(..) => CallWord::OnSelector(SelectorWord::Close),
            Call::CloseEnd(..) => CallWord::OnSelector(SelectorWord::CloseEnd),
            Call::Keys(..) => CallWord::OnSelector(SelectorWord::Keys),
            Call::Selected(..) => CallWord::OnSelector(SelectorWord::Selected),
            Call::Interrupt(..) => CallWord::OnCaller(CallerWord::Interrupt),
            Call::Interrupted => CallWord::Alone(LoneWord::Interrupted),
            Call::Pipe(..) => CallWord::OnCaller(CallerWord::Pipe),
            Call::Pwrite(..) => CallWord::Pwrite,
            Call::Pread(..) => CallWord::Pread,
            Call::Group(call) => CallWord::OnGroup(GroupWord::of(call)),
        }
    }

    /// The word, as it stands in a line.
    pub fn text(self) -> &'static [u8]
        ensures { result.now ≡ call_word_text self }
    {
        match self {
            CallWord::Alone(LoneWord::Selector) => b"selector",
            CallWord::Channel => b"channel",
            CallWord::Blocking => b"blocking",
            CallWord::OnChannel(ChannelWord::IsBlocking) => b"is-blocking",
            CallWord::OnChannel(ChannelWord::IsOpen) => b"is-open",
            CallWord::OnChannel(ChannelWord::IsRegistered) => b"is-registered",
            CallWord::KeyFor => b"key-for",
            CallWord::Register => b"register",
            CallWord::OnChannel(ChannelWord::Closec) => b"closec",
            CallWord::OnKey(KeyWord::Valid) => b"valid",
            CallWord::OnKey(KeyWord::Interest) => b"interest",
            CallWord::OnKey(KeyWord::Ready) => b"ready",
            CallWord::OnKeyOps(KeyOpsWord::Iset) => b"iset",
            CallWord::OnKeyOps(KeyOpsWord::Ior) => b"ior",
            CallWord::OnKeyOps(KeyOpsWord::Iand) => b"iand",
            CallWord::OnKey(KeyWord::Cancel) => b"cancel",
            CallWord::OnKey(KeyWord::Unselect) => b"unselect",
            CallWord::Attach => b"attach",
            CallWord::OnKey(KeyWord::Attachment) => b"attachment",
            CallWord::Begin => b"begin",
            CallWord::Told => b"told",
            CallWord::OnSelector(SelectorWord::Failed) => b"failed",
            CallWord::OnSelector(SelectorWord::Wakeup) => b"wakeup",
            CallWord::OnSelector(SelectorWord::Close) => b"close",
            CallWord::OnSelector(SelectorWord::CloseEnd) => b"close-end",
            CallWord::OnSelector(SelectorWord::Keys) => b"keys",
            CallWord::OnSelector(SelectorWord::Selected) => b"selected",
            CallWord::OnCaller(CallerWord::Interrupt) => b"interrupt",
            CallWord::Alone(LoneWord::Interrupted) => b"interrupted",
            CallWord::OnCaller(CallerWord::Pipe) => b"pipe",
            CallWord::Pwrite => b"pwrite",
            CallWord::Pread => b"pread",
            CallWord::OnGroup(word) => word.text(),
        }
    }

    /// The call word of this text; none where it isn't one.
    pub fn read(text: &[u8]) -> Option<CallWord>
        ensures { Reads (λ _. ⊤) call_word_text text.now result }
    {
        CALL_WORDS.iter().copied().find(|word| word.text() == text)
    }
}

impl LoneWord {
    /// The call.
    pub fn call(self) -> Call
        ensures word { call_word result ≡ CallWord.Alone self }
        ensures arguments { arguments result ≡ nothing }
    {
        match self {
            LoneWord::Selector => Call::Selector,
            LoneWord::Interrupted => Call::Interrupted,
        }
    }
}

impl CallerWord {
    /// The call on this caller.
    pub fn call(self, caller: CallerNo) -> Call
        ensures word { call_word result ≡ CallWord.OnCaller self }
        ensures arguments { arguments result ≡ one_caller caller }
    {
        match self {
            CallerWord::Interrupt => Call::Interrupt(caller),
            CallerWord::Pipe => Call::Pipe(caller),
        }
    }
}

impl SelectorWord {
    /// The call on this selector.
    pub fn call(self, selector: SelNo) -> Call
        ensures word { call_word result ≡ CallWord.OnSelector self }
        ensures arguments { arguments result ≡ one_selector selector }
    {
        match self {
            SelectorWord::Failed => Call::Failed(selector),
            SelectorWord::Wakeup => Call::Wakeup(selector),
            SelectorWord::Close => Call::Close(selector),
            SelectorWord::CloseEnd => Call::CloseEnd(selector),
            SelectorWord::Keys => Call::Keys(selector),
            SelectorWord::Selected => Call::Selected(selector),
        }
    }
}

impl ChannelWord {
    /// The call on this channel.
    pub fn call(self, channel: ChanId) -> Call
        ensures word { call_word result ≡ CallWord.OnChannel self }
        ensures arguments { arguments result ≡ one_channel channel }
    {
        match self {
            ChannelWord::IsBlocking => Call::IsBlocking(channel),
            ChannelWord::IsOpen => Call::IsOpen(channel),
            ChannelWord::IsRegistered => Call::IsRegistered(channel),
            ChannelWord::Closec => Call::Closec(channel),
        }
    }
}

impl KeyWord {
    /// The call on this key.
    pub fn call(self, selector: SelNo, key: KeyId) -> Call
        ensures word { call_word result ≡ CallWord.OnKey self }
        ensures arguments { arguments result ≡ selector_key selector key }
    {
        match self {
            KeyWord::Valid => Call::Valid(selector, key),
            KeyWord::Interest => Call::Interest(selector, key),
            KeyWord::Ready => Call::Ready(selector, key),
            KeyWord::Cancel => Call::Cancel(selector, key),
            KeyWord::Unselect => Call::Unselect(selector, key),
            KeyWord::Attachment => Call::Attachment(selector, key),
        }
    }
}

impl KeyOpsWord {
    /// The call on this key with these operations.
    pub fn call(self, selector: SelNo, key: KeyId, ops: Ops) -> Call
        ensures word { call_word result ≡ CallWord.OnKeyOps self }
        ensures arguments { arguments result ≡ key_ops selector key ops }
    {
        match self {
            KeyOpsWord::Iset => Call::Iset(selector, key, ops),
            KeyOpsWord::Ior => Call::Ior(selector, key, ops),
            KeyOpsWord::Iand => Call::Iand(selector, key, ops),
        }
    }
}
