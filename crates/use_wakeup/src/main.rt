//! A selector that another thread wakes. The first caller registers a channel, and selects it when a poller tells that
//! it is ready. Then it waits in a selection until the second caller, in a thread of its own, wakes it.
#![tactic(auto)]

use nio::select::{Scripted, SelectError, Selected, Sleeper, SleeperBell, Told};
use nio::{CallError, Caller, CallerNo, Kind, Ops, SelNo, USUAL_LIMITS, Words};
use std::alloc::Global;
use std::sync::Wait;
use std::thread::join;

fn main(rt: HostRuntime) -> anyhow::Result<()> {
    // The table, and a caller for each thread.
    let (words, pass) = Words::make(rt.alloc(), USUAL_LIMITS)?;
    let mut first = Caller::first(&words, pass);
    let sel = first.open_selector()?;
    let chan = first.open_channel(Kind::Source)?;
    let key = first.register_non_blocking(&rt, sel, chan, Ops::READ, 0)?;
    println!(rt; "registered: key {} with serial {}", key.index, key.serial)?;

    // A poller says which channels are ready. This one says it of the key just made, and then of none.
    let told = Told {
        pairs: vec![in rt.alloc(); (key.index, Ops::READ)]?,
        elapsed: false,
    };
    let mut script = Scripted::make(vec![in rt.alloc(); told]?, Vec::new(rt.alloc()));
    first.take_list(rt.alloc(), sel);
    let selected = first.select(&rt, rt.alloc(), sel, &mut script)?;
    println!(rt; "selected: {} ({:?})", selected.count, selected.why)?;

    // The second caller is for another thread. The first sleeps in its selection until it is woken.
    let (sleeper, bell) = Sleeper::pair(rt.alloc())?;
    let second = first.split(CallerNo(1))?;
    let (answer, ()) = join(
        &rt,
        || sleeps(&rt, rt.alloc(), first, sel, sleeper),
        || wakes(second, sel, &bell),
    );
    let selected = answer?;
    println!(rt; "selected: {} ({:?})", selected.count, selected.why)?;
    Ok(())
}

fn sleeps<R: Wait>(
    rt: &R,
    alloc: Global,
    caller: Caller<&Words>,
    sel: SelNo,
    sleeper: Sleeper,
) -> Result<Selected, CallError<SelectError>> {
    let mut caller = caller;
    let mut sleeper = sleeper;
    caller.select(rt, alloc, sel, &mut sleeper)
}

fn wakes(caller: Caller<&Words>, sel: SelNo, bell: &SleeperBell) {
    let mut caller = caller;
    caller.wakeup(sel, bell);
}
