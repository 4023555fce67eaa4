//! Callers that are parted and joined, their calls on pipes, and what one finds as another rings a bell.
ghost use Rattle.std.specs.Arc.{arc_value};
ghost use Rattle.std.specs.Prelude.{◌≡◌, IfOk};

use crate::calls::{NOTHING, Reply, told};
use crate::several::selects;
use crate::tables::S;
use nio_base::{CallerNo, ChanId, ChanNo, KeyNo, Kind, Limits, Ops};
use nio_caller::{CallError, Caller, NotClosing, NotSelecting};
use nio_history::Why;
use nio_pipe::{PipeRead, PipeWrite};
use nio_poller::{Bell, NoBell};
use nio_select::{BeginError, ChangeList, KeyChange, Mode, Selected, Told};
use nio_words::Words;
use std::alloc::{AllocError, Global};
use std::sync::{Arc, Mutex};
use std::test::Fail;
use std::thread::join;

const LIMITS: Limits = Limits {
    callers: 2,
    selectors: 1,
    channels: 2,
    keys: 64,
};

#[test]
fn a_caller_is_parted_and_joined(rt: HostRuntime) -> Result<(), Fail> {
    let (words, pass) = Words::make(rt.alloc(), LIMITS)?;
    let mut first = Caller::first(&words, pass);
    let mut second = first.split(CallerNo(1))?;
    let sel = second.open_selector()?;
    let given_twice = first.split(CallerNo(1)).is_ok();
    first.join(second);
    // The first caller may use what the second one made, and holds both numbers.
    let pending = first.wakeup(sel, &NoBell);
    let second = first.split(CallerNo(1))?;
    let mut again = Caller::new(&words, second.into_pass(), CallerNo(1));
    let found = again.find_selector(0);
    assert!(rt; !given_twice);
    assert!(rt; pending == Some(false));
    assert!(rt; found == Some(sel));
    Ok(())
}

/// A call on what may be missing.
#[derive(Clone, Copy)]
enum Ask {
    /// Registers the channel with this number with the selector.
    Register(u32),
    Interest,
    Begin,
    Told,
    Leave,
    Shut,
    TryFinish,
}

/// What the call answered, but for the values.
#[derive(Clone, Copy, Debug, PartialEq, Eq)]
enum Found {
    NoSuchSelector,
    NoSuchChannel,
    NoSuchKey,
    NotSelecting,
    NotClosing,
    Refused,
    Done,
    /// The selection goes on; the selector was shut before.
    GoesOn,
}

/// Before a selector was opened, and after.
const MISSING: &[(Ask, Found)] = &[
    (Ask::Register(0), Found::NoSuchSelector),
    (Ask::Begin, Found::NoSuchSelector),
    (Ask::Shut, Found::NoSuchSelector),
    (Ask::Told, Found::NotSelecting),
    (Ask::Leave, Found::NotSelecting),
    (Ask::TryFinish, Found::NotClosing),
];

const THERE: &[(Ask, Found)] = &[
    (Ask::Register(0), Found::NoSuchChannel),
    (Ask::Interest, Found::NoSuchKey),
    (Ask::Told, Found::NotSelecting),
    (Ask::Leave, Found::NotSelecting),
    (Ask::TryFinish, Found::NotClosing),
    (Ask::Begin, Found::Done),
    (Ask::Begin, Found::Refused),
    (Ask::Told, Found::GoesOn),
    (Ask::Leave, Found::Done),
    (Ask::Leave, Found::NotSelecting),
    (Ask::Begin, Found::Done),
    (Ask::Shut, Found::Done),
    (Ask::Shut, Found::GoesOn),
    (Ask::TryFinish, Found::GoesOn),
    (Ask::Told, Found::Done),
    (Ask::Told, Found::NotSelecting),
    (Ask::TryFinish, Found::Done),
    (Ask::TryFinish, Found::NotClosing),
    (Ask::Begin, Found::Refused),
];

/// What a call answered that may miss a name.
fn what_came_of<T: Drop, E: Drop>(answer: Result<T, CallError<E>>) -> Found {
    match answer {
        Ok(_value) => Found::Done,
        Err(CallError::NoSuchSelector) => Found::NoSuchSelector,
        Err(CallError::NoSuchChannel) => Found::NoSuchChannel,
        Err(CallError::NoSuchKey) => Found::NoSuchKey,
        Err(CallError::Refused(_error)) => Found::Refused,
    }
}

fn asks(alloc: Global, caller: &mut Caller<&Words>, nothing: &Told, ask: Ask) -> Found {
    match ask {
        Ask::Register(number) => {
            what_came_of(caller.try_register(S, ChanId::first(ChanNo(number)), Ops::READ, 0))
        }
        Ask::Interest => what_came_of(caller.interest(KeyNo {
            sel: S,
            index: 0,
            serial: 0,
        })),
        Ask::Begin => what_came_of(caller.begin(alloc, S, Mode::Wait)),
        Ask::Told => match caller.told(S, nothing) {
            Ok(Some(_answer)) => Found::Done,
            Ok(None) => Found::GoesOn,
            Err(NotSelecting) => Found::NotSelecting,
        },
        Ask::Leave => match caller.leave(S) {
            Ok(()) => Found::Done,
            Err(NotSelecting) => Found::NotSelecting,
        },
        Ask::Shut => match caller.shut(S) {
            Some(true) => Found::Done,
            Some(false) => Found::GoesOn,
            None => Found::NoSuchSelector,
        },
        Ask::TryFinish => match caller.try_finish(S) {
            Ok(true) => Found::Done,
            Ok(false) => Found::GoesOn,
            Err(NotClosing) => Found::NotClosing,
        },
    }
}

#[test]
fn what_is_missing_is_refused(rt: HostRuntime) -> Result<(), Fail> {
    let (words, pass) = Words::make(rt.alloc(), LIMITS)?;
    let mut caller = Caller::first(&words, pass);
    let nothing = told(rt.alloc(), NOTHING, false)?;
    for (at, (ask, answer)) in MISSING.iter().enumerate() {
        assert_eq!(rt;
            asks(rt.alloc(), &mut caller, &nothing, *ask),
            *answer,
            "row {at}"
        );
    }
    caller.open_selector()?;
    for (at, (ask, answer)) in THERE.iter().enumerate() {
        assert_eq!(rt;
            asks(rt.alloc(), &mut caller, &nothing, *ask),
            *answer,
            "row {at}"
        );
    }
    Ok(())
}

/// The mark of one key and the removal of the other one, in a list that has room for one of the two.
#[test]
fn changes_are_listed(rt: HostRuntime) -> Result<(), Fail> {
    let (words, pass) = Words::make(rt.alloc(), LIMITS)?;
    let mut caller = Caller::first(&words, pass);
    let sel = caller.open_selector()?;
    let first = caller.open_channel(Kind::Stream)?;
    let second = caller.open_channel(Kind::Stream)?;
    let key = caller.register_non_blocking(&rt, sel, first, Ops::READ, 0)?;
    let cancelled = caller.register_non_blocking(&rt, sel, second, Ops::READ, 0)?;
    caller.begin(rt.alloc(), sel, Mode::Wait)?;
    let mut list = ChangeList::with_room(rt.alloc(), 1)?;
    let nothing = told(rt.alloc(), NOTHING, false)?;
    assert!(rt; caller.told_listing(sel, &nothing, &mut list)?.is_none());
    assert!(rt; list.count() == 0);
    caller.cancel(cancelled);
    let both = told(rt.alloc(), ((key.index, 5), (9, 1), (9, 4)), false)?;
    let selected = caller.told_listing(sel, &both, &mut list)?;
    assert!(rt;
        selected
            == Some(Selected {
                count: 1,
                why: Why::Ready
            })
    );
    let marked = KeyChange {
        index: key.index,
        serial: key.serial,
        channel: first.number,
        ready: Ops::READ,
        removed: false,
    };
    let listed = match list.changes() {
        [only] => *only == marked,
        _ => false,
    };
    assert!(rt; listed && list.count() == 2);
    list.clear();
    assert!(rt; list.count() == 0);
    Ok(())
}

/// A caller that shares its table moves to another thread.
#[test]
fn a_shared_table_is_called_from_two_threads(rt: HostRuntime) -> Result<(), Fail> {
    let (words, pass) = Words::make(rt.alloc(), LIMITS)?;
    let mut first = Caller::first(share(rt.alloc(), words)?, pass);
    let second = first.split(CallerNo(1))?;
    let (one, other) = join(&rt, || opens(first), || opens(second));
    assert!(rt; one != other);
    Ok(())
}

fn share(alloc: Global, words: Words) -> Result<Arc<Words, Global>, AllocError>
    ensures { IfOk result (λ shared. arc_value shared ≡ words) }
{
    Ok(Arc::new(alloc, words)?)
}

fn opens(caller: Caller<Arc<Words, Global>>) -> bool {
    let mut caller = caller;
    caller.open_selector().is_ok()
}

#[test]
fn a_caller_reads_what_it_wrote(rt: HostRuntime) -> Result<(), Fail> {
    let (words, pass) = Words::make(rt.alloc(), LIMITS)?;
    let mut caller = Caller::first(&words, pass);
    let (mut source, mut sink) = caller.pipe(rt.alloc())?;
    let mut bytes = [0; 4];
    let none = caller.try_read(&mut source, &mut bytes)?;
    let written = caller.write(&rt, &mut sink, b"pi")?;
    let more = caller.try_write(&mut sink, b"pe")?;
    let read = caller.read(&rt, &mut source, &mut bytes)?;
    let closes = caller.close_sink(&mut sink);
    let end = caller.read(&rt, &mut source, &mut bytes)?;
    assert!(rt; none == PipeRead::NotYet && end == PipeRead::End);
    assert!(rt; written == PipeWrite::Bytes(2) && more == PipeWrite::Bytes(2));
    assert!(rt; read == PipeRead::Bytes(4) && bytes == *b"pipe");
    assert!(rt; closes && caller.close_source(&mut source));
    Ok(())
}

/// A caller, and what the selection answered that it made at the last ring.
#[derive(Drop)]
struct Listener<'a> {
    caller: Caller<&'a Words>,
    heard: Option<Reply>,
}

impl<'a> Listener<'a> {
    /// Selects at the first selector, where no key is: it ends only by what was done before.
    fn listen(&mut self, alloc: Global) {
        if let Some(sel) = self.caller.find_selector(0) {
            self.heard = Some(selects(alloc, &mut self.caller, sel, Mode::Wait));
        }
    }
}

/// A bell at whose rings a caller listens: it finds what was done before.
#[derive(Drop)]
struct Listening<'a> {
    alloc: Global,
    listener: Mutex<Listener<'a>>,
}

impl<'a> Listening<'a> {
    /// What was heard since the last call of this.
    fn heard(&self) -> Option<Reply> {
        self.listener.try_lock()?.heard.take()
    }
}

impl<'a> Bell for Listening<'a> {
    fn ring(&self) {
        if let Some(mut listener) = self.listener.try_lock() {
            listener.listen(self.alloc);
        }
    }
}

#[test]
fn bells_are_rung_after_the_step(rt: HostRuntime) -> Result<(), Fail> {
    let (words, pass) = Words::make(rt.alloc(), LIMITS)?;
    let mut first = Caller::first(&words, pass);
    let mut second = first.split(CallerNo(1))?;
    let sel = second.open_selector()?;
    let bell = Listening {
        alloc: rt.alloc(),
        listener: Mutex::new(Listener {
            caller: first,
            heard: None,
        }),
    };
    second.wakeup(sel, &bell);
    assert!(rt; bell.heard() == Some(Reply::Done(0, Why::Woken)));
    second.interrupt(CallerNo(0), &bell);
    assert!(rt; bell.heard() == Some(Reply::Done(0, Why::Interrupted)));
    second.close(&rt, sel, &bell);
    assert!(rt; bell.heard() == Some(Reply::NotBegun(BeginError::ClosedSelector)));
    Ok(())
}
