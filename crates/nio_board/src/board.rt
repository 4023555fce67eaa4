//! What one caller of a table serves by.
ghost use Rattle.std.specs.Prelude.{◌≡◌, ◌++◌, [], ◌∷◌, None, IfErr, IfOk, IfSome, OnErr, OnOk, is_some};
ghost use Rattle.nio_history.specs.PassViews.{HasNoPin};
ghost use Rattle.nio_poller.specs.Polls.{CountsFaults, told_of_channel};
ghost use Rattle.nio_poller.specs.declared.poller.PollError.TheVariants.{Fault};
ghost use Rattle.nio_select.specs.InHand.{empty_list, list_of, selection_of, TakesOnList};
ghost use Rattle.nio_select.specs.InProgress.{poll_of};
ghost use Rattle.nio_steps.specs.Calls.{CallClause};
ghost use Rattle.nio_steps.specs.Runs.{Completes};
ghost use Rattle.nio_steps.specs.SelectCalls.{take_list_plan};
ghost use Rattle.nio_words.specs.Passes.{IsReady, acts_seen, limits_of};
ghost use Rattle.nio_words.specs.Views.{view};
ghost use Rattle.nio_board.specs.Called.{HasCalled, IsUnregistered};

use self::selection::{begin, end, leave, poll, tell};
use self::table::{set_interest_of, unwatch_port, watch_channel};
use crate::deal::Deal;
use crate::polls::Polls;
use nio_base::{CallerNo, ChanId, ChanNo, KeyNo, Kind, Ops, SelNo};
use nio_poller::PollError;
use nio_select::{Selecting, Selector, Told, open_selector};
use nio_trace::Trace;
use nio_words::{Pass, Words};
use std::alloc::{AllocError, Global};
use std::marker::Model;
use std::sync::Wait;

mod selection;
mod table;

/// The caller of a board, its selector, its deal, and, in proofs alone, which channels it has registered.
#[derive(Drop)]
pub(crate) struct Station {
    caller: CallerNo,
    selector: Selector,
    deal: Option<Deal>,
    registered: Trace<ChanId>,
}

/// A table, on which other callers may make calls too, with what one of its callers serves by: a pass that has the
/// caller's number, and a selector. Between two calls the caller has no pin, and no selection in progress.
///
/// A new board takes the list of its selector, where nobody has that. Its selections then look only at the keys that
/// were touched since the selection before. The list is lent to a selection, and comes back when that ends or is left.
///
/// Without a deal the board's channels are those of the table. It opens the first channel of a number as the table's next
/// one, so these have to be watched in the order of the table's numbers. With a deal another caller has opened the first
/// ones, and the deal says which numbers of the table the board's are. A number serves again by its next channel, once the
/// one before is closed and no key of it is in a key set.
#[derive(Drop)]
pub struct Board<'a> {
    words: &'a Words,
    pass: Pass,
    station: Station,
}

impl<'a> Model for Board<'a> {
    ghost use Rattle.nio_board.specs.Board.{BoardView, IsAtRest, board_of};

    ghost Value = { BoardView };

    ghost view = { λ b. board_of b.words.now b.pass b.station };

    ghost invariant = { λ b. IsAtRest (board_of b.words.now b.pass b.station) };
}

/// A channel that is watched, and its key.
#[derive(Clone, Copy, Debug, PartialEq, Eq)]
pub struct Port {
    /// The key.
    pub key: KeyNo,
    /// The channel.
    pub chan: ChanId,
}

/// The table refused a call.
#[derive(Clone, Copy, Debug, PartialEq, Eq)]
pub struct Refused;

impl<'a> Board<'a> {
    ghost use Rattle.nio_board.specs.Board.{AreOrdered, AreReady, IsIdle, IsSameBoard, IsSameSeat, IsSelecting};
    ghost use Rattle.nio_board.specs.Board.{ListsTold, selector_of};
    ghost use Rattle.nio_board.specs.BoardCalls.{BeginsSelection, FailsToBegin, FailsToSet, FailsToWatch, HasMade};
    ghost use Rattle.nio_board.specs.BoardCalls.{LeavesSelection, SetsInterest, TellsPoll};
    ghost use Rattle.nio_board.specs.BoardCalls.{Unwatches, WatchesChannel};
    ghost use Rattle.nio_board.specs.Called.{table_channel};
    ghost use Rattle.nio_board.specs.Polling.{FailsToSelect, SelectsOnce};

    /// A board with a selector that was opened before, by a caller that has registered nothing.
    pub fn over(
        alloc: Global,
        words: &'a Words,
        pass: Pass,
        caller: CallerNo,
        selector: SelNo,
        deal: Option<Deal>,
    ) -> Board<'a>
        requires idle { IsIdle words.now pass caller selector }
        requires called { IsUnregistered (limits_of words.now) (acts_seen pass caller) }
        ensures words { result.words ≡ words.now }
        ensures caller { result.caller ≡ caller }
        ensures selector { result.selector ≡ selector }
        ensures deal { result.deal ≡ deal }
        ensures registered { result.registered ≡ [] }
        ensures list { IfSome result.list (λ list. list ≡ empty_list selector) }
        ensures call { CallClause caller (Completes (take_list_plan selector)) (view words.now pass)
            (view words.now result.pass) (is_some result.list) }
    {
        let mut pass = pass;
        let selector = Selector::take(alloc, words, &mut pass, caller, selector);
        Board {
            words,
            pass,
            station: Station {
                caller,
                selector,
                deal,
                registered: Trace::new(),
            },
        }
    }

    /// A board without a deal, with the next selector of the table, which it opens. Refused where the table has none
    /// left.
    pub fn open(
        alloc: Global,
        words: &'a Words,
        pass: Pass,
        caller: CallerNo,
    ) -> Result<Board<'a>, Refused>
        requires ready { IsReady words.now pass caller }
        requires unpinned { HasNoPin (view words.now pass) caller }
        requires called { IsUnregistered (limits_of words.now) (acts_seen pass caller) }
        ensures words { IfOk result (λ board. board.words ≡ words.now) }
        ensures caller { IfOk result (λ board. board.caller ≡ caller) }
        ensures deal { IfOk result (λ board. board.deal ≡ None) }
        ensures registered { IfOk result (λ board. board.registered ≡ []) }
        ensures list { IfOk result (λ board. IfSome board.list (λ list. list ≡ empty_list board.selector)) }
    {
        let mut pass = pass;
        match open_selector(words, &mut pass, caller) {
            Ok(selector) => Ok(Board::over(alloc, words, pass, caller, selector, None)),
            Err(_spent) => Err(Refused),
        }
    }

    /// Gives the pass back.
    pub fn into_pass(self) -> Pass
        ensures pass { result ≡ self.entry.pass }
        ensures idle { IsIdle self.entry.words result self.entry.caller self.entry.selector }
        ensures called { HasCalled (limits_of self.entry.words) (acts_seen result self.entry.caller) self.entry.deal
            self.entry.selector self.entry.registered }
    {
        self.pass
    }

    /// Registers a channel for these operations. The first channel of a number is opened, of this kind; with a deal
    /// another caller has opened it. A later one is opened by giving the number again, whose kind stays: refused where the
    /// channel before it isn't closed, or a key of it is still in a key set. (A selection on the board removes the keys that
    /// were cancelled before it began.) Refused too where the table hasn't such a channel, or numbers the one that it opens
    /// otherwise, or where the selector has no key left.
    pub fn watch<R: Wait>(
        &mut self,
        rt: &R,
        chan: ChanId,
        kind: Kind,
        ops: Ops,
    ) -> Result<Port, Refused>
        ensures seat { IsSameSeat self.old self.new }
        ensures its { IfOk result (λ port. port.chan ≡ chan) }
        ensures more { OnOk result (self.new.registered ≡ self.old.registered ++ chan ∷ []) }
        ensures list { self.new.list ≡ self.old.list }
        ensures same { OnErr result (self.new.registered ≡ self.old.registered) }
        ensures made { IfOk result (λ port. HasMade self.old self.new (WatchesChannel self.old.deal self.old.selector
            kind (table_channel self.old.deal chan) ops port.key)) }
        ensures refused { OnErr result (HasMade self.old self.new (FailsToWatch self.old.deal self.old.selector kind
            (table_channel self.old.deal chan) ops)) }
    {
        let key = watch_channel(
            rt,
            self.words,
            &mut self.pass,
            &self.station,
            chan,
            kind,
            ops,
        )?;
        self.station.registered.push(&chan);
        Ok(Port { key, chan })
    }

    /// Sets for which operations the channel is watched. Refused where the table has no such key, or the key isn't
    /// valid any more.
    pub fn set(&mut self, port: Port, ops: Ops) -> Result<(), Refused>
        ensures same { IsSameBoard self.old self.new }
        ensures list { self.new.list ≡ self.old.list }
        ensures made { OnOk result (HasMade self.old self.new (SetsInterest self.old.selector port.key ops)) }
        ensures refused { OnErr result (HasMade self.old self.new (FailsToSet self.old.selector port.key ops)) }
    {
        set_interest_of(self.words, &mut self.pass, &self.station, port.key, ops)
    }

    /// Cancels the key, and closes the channel. Does nothing where the table has no such key or channel.
    pub fn unwatch(&mut self, port: Port)
        ensures same { IsSameBoard self.old self.new }
        ensures list { self.new.list ≡ self.old.list }
        ensures made { HasMade self.old self.new (Unwatches self.old.deal self.old.selector port.key port.chan) }
    {
        unwatch_port(self.words, &mut self.pass, &self.station, port)
    }

    /// Begins a selection that waits until a watched channel is ready, by the selector's list where the board has that.
    /// Who begins one polls for it, and then ends it, or leaves it where the poll had no answer. A refusal of the table
    /// is answered as want of memory.
    pub fn begin(&mut self, alloc: Global) -> Result<Selecting, AllocError>
        ensures same { IsSameBoard self.old self.new }
        ensures begun { IfOk result (λ s. IsSelecting self.new (selection_of s)) }
        ensures taken_on { IfOk result (TakesOnList (selector_of self.old)) }
        ensures kept { OnErr result (self.new.list ≡ self.old.list) }
        ensures made { IfOk result (λ s. HasMade self.old self.new
            (BeginsSelection (selector_of self.old) (selection_of s))) }
        ensures refused { OnErr result (HasMade self.old self.new (FailsToBegin (selector_of self.old))) }
    {
        begin(alloc, self.words, &mut self.pass, &mut self.station)
    }

    /// Ends a selection with what a poller answered for it. `told` then lists which channels are ready for what, as far
    /// as they are watched for it, in the order of their numbers; it can be empty, and a channel can stand there twice.
    /// They are numbered as the table numbers them. Its memory is used again. Nothing but the selection's own steps
    /// goes with the channels of which nothing was told.
    pub fn end(
        &mut self,
        selection: Selecting,
        answer: &Told,
        told: &mut Vec<(ChanNo, Ops)>,
    ) -> Result<(), AllocError>
        requires { IsSelecting self.old (selection_of selection) }
        ensures same { IsSameBoard self.old self.new }
        ensures back { self.new.list ≡ list_of selection }
        ensures made { OnOk result (HasMade self.old self.new
            (TellsPoll (selection_of selection) (poll_of answer.now))) }
        ensures left { OnErr result (HasMade self.old self.new (LeavesSelection (selection_of selection))) }
        ensures ready { IfOk result (λ _. AreReady (told_of_channel selection.asked.keys answer.now.pairs.items)
            told.new.items) }
        ensures listed { IfOk result (λ _. ListsTold selection.asked.keys answer.now.pairs.items told.new.items) }
        ensures ordered { IfOk result (λ _. AreOrdered told.new.items) }
    {
        end(
            self.words,
            &mut self.pass,
            &mut self.station,
            selection,
            answer,
            told,
        )
    }

    /// Leaves a selection.
    pub fn leave(&mut self, selection: Selecting)
        requires { IsSelecting self.old (selection_of selection) }
        ensures same { IsSameBoard self.old self.new }
        ensures back { self.new.list ≡ list_of selection }
        ensures made { HasMade self.old self.new (LeavesSelection (selection_of selection)) }
    {
        leave(self.words, &mut self.pass, &mut self.station, selection)
    }

    /// One selection, with one poll, which the way makes: waits until a watched channel is ready, or until the poll
    /// returns early. The selection is told the answer of that poll, and no other. `told` then lists what `end` says, as
    /// the board numbers its channels; so the poll is asked too.
    pub fn select<R: Wait, N, W: Polls<N>>(
        &mut self,
        rt: &R,
        alloc: Global,
        way: &mut W,
        net: &mut N,
        told: &mut Vec<(ChanNo, Ops)>,
    ) -> Result<(), PollError>
        ensures same { IsSameBoard self.old self.new }
        ensures list { is_some self.new.list ≡ is_some self.old.list }
        ensures made { IfOk result (λ _. SelectsOnce self.old self.new (W.polls net.old) (W.polls net.new)
            (W.ready net.new) told.new.items) }
        ensures failed { IfErr result (FailsToSelect self.old self.new (W.polls net.old) (W.polls net.new)
            (W.ready net.new)) }
        ensures kept { W.kept net.old net.new }
        ensures cause { CountsFaults Fault (W.poll_faults net.old) (W.poll_faults net.new) result }
        ensures ready { IfOk result (λ _. AreReady (W.ready net.new) told.new.items) }
        ensures ordered { IfOk result (λ _. AreOrdered told.new.items) }
    {
        let Ok(selection) = self.begin(alloc) else {
            return Err(PollError::Memory);
        };
        let deal = self.station.deal;
        match poll(rt, alloc, way, net, &selection, deal, told) {
            Ok(answer) => {
                self.tell(selection, &answer);
                Ok(())
            }
            Err(error) => {
                self.leave(selection);
                Err(error)
            }
        }
    }

    // Tells a selection what a poller answered, which ends it.
    fn tell(&mut self, selection: Selecting, answer: &Told)
        requires { IsSelecting self.old (selection_of selection) }
        ensures same { IsSameBoard self.old self.new }
        ensures back { self.new.list ≡ list_of selection }
        ensures made { HasMade self.old self.new (TellsPoll (selection_of selection) (poll_of answer.now)) }
    {
        tell(
            self.words,
            &mut self.pass,
            &mut self.station,
            selection,
            answer,
        )
    }
}
