//! The state after the events so far, each part in a table of its own.
ghost use Rattle.std.specs.Prelude.{◌≡◌, ◌<◌, ◌*◌, OnOk, ℕ, Bool, false, ◌&&◌};
ghost use Rattle.nio_base.specs.declared.numbers.CallerNo.{CallerNo};
ghost use Rattle.nio_history.specs.Acts.{closed_from, effect, frees_index, new_channel, new_key, taken_by};
ghost use Rattle.nio_base.specs.Numbers.{last_serial};
ghost use Rattle.nio_history.specs.State.{opening};
ghost use Rattle.nio_history.specs.declared.found.Stage.{Stage};

use crate::table::{Cube, Grid, Row};
use nio_base::{CallerNo, ChanNo, KeyId, Kind, Ops, SelNo};
use nio_history::{Act, Chan, GateWord, Mark, Stage};
use std::alloc::{AllocError, Global};

mod answers;
mod holders;

/// The last serial that a key and a channel can have.
pub(crate) const LAST_SERIAL: u32 = 4_294_967_295;

const UNMADE: Chan = Chan {
    made: false,
    kind: Kind::Stream,
    closed: false,
    blocking: true,
    serial: 0,
};

const OPEN_GATE: GateWord = GateWord {
    woken: false,
    shut: false,
};

/// An index that isn't claimed.
pub(crate) const UNCLAIMED: Stage = Stage {
    claimed: false,
    published: false,
    cancelled: false,
    removed: false,
    chan: ChanNo(0),
    serial: 0,
};

const UNMARKED: Mark = Mark {
    selected: false,
    ready: Ops::NONE,
};

/// The parts of the state, by the numbers of callers, channels, selectors and indexes.
#[derive(Drop)]
pub(crate) struct StateTables {
    drawn: Row<bool>,
    interrupted: Row<bool>,
    selector: Row<bool>,
    channels_high: u32,
    chan: Row<Chan>,
    hold: Row<Option<CallerNo>>,
    enrolled: Grid<Option<KeyId>>,
    gate: Row<GateWord>,
    turn: Row<Option<CallerNo>>,
    keys_high: Row<u32>,
    key: Grid<Stage>,
    interest: Grid<Ops>,
    mark: Grid<Mark>,
    note: Grid<u64>,
    pinned: Cube<bool>,
    free: Grid<bool>,
    touched: Grid<bool>,
    lister: Row<Option<CallerNo>>,
    begun: Row<bool>,
    closer: Row<Option<CallerNo>>,
    entered: Row<bool>,
    taker: Grid<Option<CallerNo>>,
    amid: Cube<bool>,
}

impl StateTables {
    ghost use Rattle.nio_audit.specs.Bounds.{IsBounded};
    ghost use Rattle.nio_audit.specs.StateOf.{due_after, state_with};
    ghost use Rattle.nio_audit.specs.StepNumbers.{number_of};
    ghost use Rattle.nio_audit.specs.TableWords.{grid, row};

    /// The opening state: nothing is drawn, made, shut, claimed or interrupted.
    pub(crate) fn new(alloc: Global) -> StateTables
        ensures { state_with result (λ _ _. false) ≡ opening }
    {
        StateTables {
            drawn: Row::new(alloc, false),
            interrupted: Row::new(alloc, false),
            selector: Row::new(alloc, false),
            channels_high: 0,
            chan: Row::new(alloc, UNMADE),
            hold: Row::new(alloc, None),
            enrolled: Grid::new(alloc, None),
            gate: Row::new(alloc, OPEN_GATE),
            turn: Row::new(alloc, None),
            keys_high: Row::new(alloc, 0),
            key: Grid::new(alloc, UNCLAIMED),
            interest: Grid::new(alloc, Ops::NONE),
            mark: Grid::new(alloc, UNMARKED),
            note: Grid::new(alloc, 0),
            pinned: Cube::new(alloc, false),
            free: Grid::new(alloc, false),
            touched: Grid::new(alloc, false),
            lister: Row::new(alloc, None),
            begun: Row::new(alloc, false),
            closer: Row::new(alloc, None),
            entered: Row::new(alloc, false),
            taker: Grid::new(alloc, None),
            amid: Cube::new(alloc, false),
        }
    }

    /// Changes the state as this step does.
    pub(crate) fn apply(&mut self, me: CallerNo, act: &Act) -> Result<(), AllocError>
        requires { (due : ℕ → ℕ → Bool) → IsBounded (state_with self.old due) (number_of act.now) }
        ensures { OnOk result ((due : ℕ → ℕ → Bool) → state_with self.new (due_after self.old due me act.now)
            ≡ effect (state_with self.old due) me act.now) }
    {
        match *act {
            Act::DrawBit(number, _) => self.drawn.set(number.0, true),
            Act::MakeSelector(sel, _) => self.selector.set(sel.0, true),
            Act::Wake(sel, _) => self.gate.update(sel.0, |gate| gate.woken = true),
            Act::SetInterrupt(number, _) => self.interrupted.set(number.0, true),
            Act::TakeInterrupt(_) => self.interrupted.set(me.0, false),
            Act::CancelKey(sel, index, _) => self
                .key
                .update(sel.0, index, |key| key.cancelled = true),
            Act::SwapInterest(sel, index, ops, _) => self.interest.set(sel.0, index, ops),
            Act::OrInterest(sel, index, ops, _) => self
                .interest
                .update(sel.0, index, |interest| *interest = interest.union(ops)),
            Act::AndInterest(sel, index, ops, _) => self
                .interest
                .update(sel.0, index, |interest| *interest = interest.meet(ops)),
            Act::SwapNote(sel, index, note, _) => self.note.set(sel.0, index, note),
            Act::MakeChannel(chan, kind, found) => self.make_channel(chan, kind, found),
            Act::Claim(sel, index, chan, found) => self.claim(me, sel, index, chan, found),
            Act::RaiseKeys(sel, n, _) => self
                .keys_high
                .update(sel.0, |mark| *mark = (*mark).max(n)),
            Act::Publish(sel, index, _) => self
                .key
                .update(sel.0, index, |key| key.published = true),
            Act::Enrol(chan, sel, index, serial, _) => {
                self.enrolled
                    .set(chan.0, sel.0, Some(KeyId { index, serial }))
            }
            Act::TakeTurn(sel, found) => self.take_turn(me, sel, found),
            Act::BeginLook(sel, found) => self
                .begun
                .update(sel.0, |begun| *begun = *begun || !found.shut),
            Act::GiveTurn(sel) => self.give_turn(sel),
            Act::Remove(sel, index, _) => self.key.update(sel.0, index, |key| key.removed = true),
            Act::Mark(sel, index, from, told, found) => self.mark(sel, index, from, told, found),
            Act::UnselectBit(sel, index, _) => self
                .mark
                .update(sel.0, index, |mark| mark.selected = false),
            Act::EndWake(sel, _) => self.gate.update(sel.0, |gate| gate.woken = false),
            Act::RaiseChannels(n, _) => {
                self.channels_high = self.channels_high.max(n);
                Ok(())
            }
            Act::TryHoldBit(chan, found) => self.hold.set(chan.0, taken_by(me, found)),
            Act::Release(chan) => self.hold.set(chan.0, None),
            Act::SetMode(chan, blocking, _) => self
                .chan
                .update(chan.0, |was| was.blocking = blocking),
            Act::CloseBit(chan, from, _) => self
                .chan
                .update(chan.0, |was| *was = closed_from(from, *was)),
            Act::ShutBit(sel, found) => self.shut(me, sel, found),
            Act::Enter(sel, found) => self
                .entered
                .update(sel.0, |entered| *entered = *entered || found.is_none()),
            Act::Pin(sel, index, _) => self.pinned.set(sel.0, index, me.0, true),
            Act::Unpin(sel, index) => self.unpin(me, sel, index),
            Act::ClearMark(sel, index, _) => self.mark.set(sel.0, index, UNMARKED),
            Act::ClaimAgain(sel, index, chan, _, found) => {
                self.claim_again(me, sel, index, chan, found)
            }
            Act::PutFree(sel, index) => self.put_free(sel, index),
            Act::TakeFree(sel, index, found) => self.take_free(me, sel, index, found),
            Act::Reopen(chan, from, found) => self.reopen(chan, from, found),
            Act::Touch(sel, index, _) => self.touch(me, sel, index),
            Act::TakeTouched(sel, part, _) => self.take_touched(sel, part),
            Act::TakeList(sel, found) => self.lister.set(sel.0, taken_by(me, found)),
            Act::LookSelectors(..)
            | Act::LookGate(..)
            | Act::LookInterrupt(..)
            | Act::LookKey(..)
            | Act::LookInterest(..)
            | Act::LookNote(..)
            | Act::LookChannel(..)
            | Act::LookKeys(..)
            | Act::LookReg(..)
            | Act::LookMark(..)
            | Act::LookChannels(..)
            | Act::LookFree(..)
            | Act::LookTouched(..)
            | Act::LookIndex(..) => Ok(()),
        }
    }

    /// Whether the removal of a key, which found this stage, leaves the selection in progress there an index to put
    /// among the free ones.
    pub(crate) fn frees_index(&self, sel: SelNo, found: Stage) -> bool
        ensures { result ≡ (row self.now.begun sel.0 && frees_index found) }
    {
        self.begun.get(sel.0) && !found.removed && found.serial < LAST_SERIAL
    }

    fn make_channel(&mut self, chan: ChanNo, kind: Kind, found: bool) -> Result<(), AllocError>
        ensures { (me : CallerNo) → OnOk result ((due : ℕ → ℕ → Bool)
            → state_with self.new (due_after self.old due me (Act.MakeChannel chan kind found))
            ≡ effect (state_with self.old due) me (Act.MakeChannel chan kind found)) }
    {
        let was = self.chan.get(chan.0);
        self.chan
            .set(chan.0, if found { was } else { new_channel(kind, 0) })
    }

    fn reopen(&mut self, chan: ChanNo, from: Chan, found: bool) -> Result<(), AllocError>
        requires { from.serial < last_serial }
        ensures { (me : CallerNo) → OnOk result ((due : ℕ → ℕ → Bool)
            → state_with self.new (due_after self.old due me (Act.Reopen chan from found))
            ≡ effect (state_with self.old due) me (Act.Reopen chan from found)) }
    {
        let was = self.chan.get(chan.0);
        let new = new_channel(from.kind, from.serial + 1);
        self.chan.set(chan.0, if found { was } else { new })
    }

    fn claim(
        &mut self,
        me: CallerNo,
        sel: SelNo,
        index: u32,
        chan: ChanNo,
        found: bool,
    ) -> Result<(), AllocError>
        ensures { OnOk result ((due : ℕ → ℕ → Bool) → state_with self.new
            (due_after self.old due me (Act.Claim sel index chan found))
            ≡ effect (state_with self.old due) me (Act.Claim sel index chan found)) }
    {
        let key = self.key.get(sel.0, index);
        let pinned = self.pinned.get(sel.0, index, me.0);
        self.key
            .set(sel.0, index, if found { key } else { new_key(chan, 0) })?;
        self.pinned.set(sel.0, index, me.0, pinned || !found)
    }

    fn claim_again(
        &mut self,
        me: CallerNo,
        sel: SelNo,
        index: u32,
        chan: ChanNo,
        found: bool,
    ) -> Result<(), AllocError>
        requires { (grid self.old.key sel.0 index).serial < last_serial }
        ensures { (from : Stage) → OnOk result ((due : ℕ → ℕ → Bool)
            → state_with self.new (due_after self.old due me (Act.ClaimAgain sel index chan from found))
            ≡ effect (state_with self.old due) me (Act.ClaimAgain sel index chan from found)) }
    {
        let key = self.key.get(sel.0, index);
        let pinned = self.pinned.get(sel.0, index, me.0);
        let taker = self.taker.get(sel.0, index);
        self.key.set(
            sel.0,
            index,
            if found {
                key
            } else {
                new_key(chan, key.serial + 1)
            },
        )?;
        self.pinned.set(sel.0, index, me.0, pinned || !found)?;
        self.taker
            .set(sel.0, index, if found { taker } else { None })
    }

    fn unpin(&mut self, me: CallerNo, sel: SelNo, index: u32) -> Result<(), AllocError>
        ensures { OnOk result ((due : ℕ → ℕ → Bool) → state_with self.new
            (due_after self.old due me (Act.Unpin sel index))
            ≡ effect (state_with self.old due) me (Act.Unpin sel index)) }
    {
        self.pinned.set(sel.0, index, me.0, false)?;
        self.amid.set(sel.0, index, me.0, false)
    }

    fn touch(&mut self, me: CallerNo, sel: SelNo, index: u32) -> Result<(), AllocError>
        ensures { (found : Bool) → OnOk result ((due : ℕ → ℕ → Bool)
            → state_with self.new (due_after self.old due me (Act.Touch sel index found))
            ≡ effect (state_with self.old due) me (Act.Touch sel index found)) }
    {
        let pinned = self.pinned.get(sel.0, index, me.0);
        self.touched.set(sel.0, index, true)?;
        self.amid.set(sel.0, index, me.0, pinned)
    }

    fn take_touched(&mut self, sel: SelNo, part: u32) -> Result<(), AllocError>
        requires { 64 * part < 262144 }
        ensures { (me : CallerNo) (found : ℕ) → OnOk result ((due : ℕ → ℕ → Bool)
            → state_with self.new (due_after self.old due me (Act.TakeTouched sel part found))
            ≡ effect (state_with self.old due) me (Act.TakeTouched sel part found)) }
    {
        for bit in 0..64 {
            self.touched.set(sel.0, 64 * part + bit, false)?;
        }
        Ok(())
    }

    fn take_turn(
        &mut self,
        me: CallerNo,
        sel: SelNo,
        found: Option<CallerNo>,
    ) -> Result<(), AllocError>
        ensures { OnOk result ((due : ℕ → ℕ → Bool) → state_with self.new
            (due_after self.old due me (Act.TakeTurn sel found))
            ≡ effect (state_with self.old due) me (Act.TakeTurn sel found)) }
    {
        let begun = self.begun.get(sel.0);
        self.turn.set(sel.0, taken_by(me, found))?;
        self.begun.set(sel.0, found.is_some() && begun)
    }

    fn give_turn(&mut self, sel: SelNo) -> Result<(), AllocError>
        ensures { (me : CallerNo) → OnOk result ((due : ℕ → ℕ → Bool)
            → state_with self.new (due_after self.old due me (Act.GiveTurn sel))
            ≡ effect (state_with self.old due) me (Act.GiveTurn sel)) }
    {
        self.turn.set(sel.0, None)?;
        self.begun.set(sel.0, false)
    }

    fn mark(
        &mut self,
        sel: SelNo,
        index: u32,
        from: Mark,
        told: Ops,
        found: Result<(), Mark>,
    ) -> Result<(), AllocError>
        ensures { (me : CallerNo) → OnOk result ((due : ℕ → ℕ → Bool)
            → state_with self.new (due_after self.old due me (Act.Mark sel index from told found))
            ≡ effect (state_with self.old due) me (Act.Mark sel index from told found)) }
    {
        let was = self.mark.get(sel.0, index);
        let ready = if from.selected {
            from.ready.union(told)
        } else {
            told
        };
        let marked = Mark {
            selected: true,
            ready,
        };
        self.mark
            .set(sel.0, index, if found.is_ok() { marked } else { was })
    }

    fn shut(&mut self, me: CallerNo, sel: SelNo, found: bool) -> Result<(), AllocError>
        ensures { OnOk result ((due : ℕ → ℕ → Bool) → state_with self.new
            (due_after self.old due me (Act.ShutBit sel found))
            ≡ effect (state_with self.old due) me (Act.ShutBit sel found)) }
    {
        let gate = self.gate.get(sel.0);
        let closer = self.closer.get(sel.0);
        self.gate.set(sel.0, GateWord { shut: true, ..gate })?;
        self.closer
            .set(sel.0, if found { closer } else { Some(me) })
    }

    fn put_free(&mut self, sel: SelNo, index: u32) -> Result<(), AllocError>
        ensures { (me : CallerNo) → OnOk result ((due : ℕ → ℕ → Bool)
            → state_with self.new (due_after self.old due me (Act.PutFree sel index))
            ≡ effect (state_with self.old due) me (Act.PutFree sel index)) }
    {
        self.free.set(sel.0, index, true)?;
        self.taker.set(sel.0, index, None)
    }

    fn take_free(
        &mut self,
        me: CallerNo,
        sel: SelNo,
        index: u32,
        found: bool,
    ) -> Result<(), AllocError>
        ensures { OnOk result ((due : ℕ → ℕ → Bool) → state_with self.new
            (due_after self.old due me (Act.TakeFree sel index found))
            ≡ effect (state_with self.old due) me (Act.TakeFree sel index found)) }
    {
        let taker = self.taker.get(sel.0, index);
        self.free.set(sel.0, index, false)?;
        self.taker
            .set(sel.0, index, if found { Some(me) } else { taker })
    }
}

/// A new channel: open and in blocking mode.
fn new_channel(kind: Kind, serial: u32) -> Chan
    ensures { result ≡ new_channel kind serial }
{
    Chan {
        made: true,
        kind,
        closed: false,
        blocking: true,
        serial,
    }
}

/// The channel that a closing of `from` leaves.
fn closed_from(from: Chan, found: Chan) -> Chan
    ensures { result ≡ closed_from from found }
{
    if found.serial == from.serial && (found.blocking || !from.blocking) {
        Chan {
            closed: true,
            blocking: from.blocking,
            ..found
        }
    } else {
        found
    }
}

/// Who has a turn, a hold or a list after `me` tried to take it.
fn taken_by(me: CallerNo, found: Option<CallerNo>) -> Option<CallerNo>
    ensures { result ≡ taken_by me found }
{
    match found {
        None => Some(me),
        Some(caller) => Some(caller),
    }
}

/// An index that is claimed for a key of a channel, and no more.
fn new_key(chan: ChanNo, serial: u32) -> Stage
    ensures { result ≡ new_key chan serial }
{
    Stage {
        claimed: true,
        published: false,
        cancelled: false,
        removed: false,
        chan,
        serial,
    }
}
