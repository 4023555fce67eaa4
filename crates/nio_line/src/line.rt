//! The two ends of a line.
ghost use Rattle.std.specs.Prelude.{◌≡◌, ◌<◌, ◌≤◌, ◌+◌, ◌↔◌, [], ◌∷◌, ◌++◌, length, Some, None};
ghost use Rattle.std.specs.Prelude.{IfOk, IfErr, IfSome, IsNone, OnOk, OnErr, MatchOption};
ghost use mathlib.Core.List.{IsPrefix};
ghost use Rattle.nio_line.specs.Lines.{End};

use crate::hand::{Ends, Hand, Order, Receiving, Sending};
use crossbeam_channel::{Pass, RuledReceiver, RuledSender, bounded_with};
use std::alloc::{AllocError, Global};
use std::marker::{Brand, Model};
use std::sync::Wait;

/// The end of a line that sends. Messages that no one has received are let go with the last of the two ends.
#[derive(Drop)]
pub struct LineIn<T: Drop> {
    sender: RuledSender<T, Hand<T>, Order>,
    pass: Pass<T, Hand<T>>,
}

/// The end of a line that receives.
#[derive(Drop)]
pub struct LineOut<T: Drop> {
    receiver: RuledReceiver<T, Hand<T>, Order>,
    pass: Pass<T, Hand<T>>,
}

impl<T: Drop> Model for LineIn<T> {
    ghost use Rattle.std.specs.Prelude.{◌≡◌, true};
    ghost use Rattle.crossbeam_channel.specs.Claims.{view as view_of, IsSeatAt};
    ghost use Rattle.crossbeam_channel.specs.Ends.{sends_on, ruled_capacity};
    ghost use Rattle.nio_line.specs.Hands.{sends};
    ghost use Rattle.nio_line.specs.Lines.{End};

    ghost Value = { End T };

    ghost view = { λ l. record {
      line = record { table = l.pass.table_id; key = l.pass.me.0.of };
      room = (view_of l.pass).room;
      carried = (view_of l.pass).sent;
    } };

    ghost invariant = { λ l. IsSeatAt (sends_on l.sender) l.pass × (sends (view_of l.pass).part ≡ true)
        × ((view_of l.pass).room ≡ ruled_capacity (sends_on l.sender)) };
}

impl<T: Drop> Model for LineOut<T> {
    ghost use Rattle.std.specs.Prelude.{◌≡◌, true};
    ghost use Rattle.crossbeam_channel.specs.Claims.{view as view_of, IsSeatAt};
    ghost use Rattle.crossbeam_channel.specs.Ends.{receives_on};
    ghost use Rattle.nio_line.specs.Hands.{receives, all_known};
    ghost use Rattle.nio_line.specs.Lines.{Exit};

    ghost Value = { Exit T };

    ghost view = { λ l. record {
      line = record { table = l.pass.table_id; key = l.pass.me.0.of };
      room = (view_of l.pass).room;
      carried = (view_of l.pass).received;
      all = all_known (view_of l.pass).part (view_of l.pass).sent;
    } };

    ghost invariant = { λ l. IsSeatAt (receives_on l.receiver) l.pass × (receives (view_of l.pass).part ≡ true) };
}

/// A line with room for so many messages that were sent and not yet received.
pub fn open<T: Drop>(alloc: Global, room: usize) -> Result<(LineIn<T>, LineOut<T>), AllocError>
    requires { 0 < room }
    ensures line { IfOk result (λ ends. ends.0.line ≡ ends.1.line) }
    ensures room_in { IfOk result (λ ends. ends.0.room ≡ room) }
    ensures room_out { IfOk result (λ ends. ends.1.room ≡ room) }
    ensures sent { IfOk result (λ ends. ends.0.carried ≡ []) }
    ensures received { IfOk result (λ ends. ends.1.carried ≡ []) }
    ensures untold { IfOk result (λ ends. ends.1.all ≡ None) }
{
    let (sender, receiver, mut first) = bounded_with::<T, Hand<T>, Order, Global>(alloc, room)?;
    let second = sender.another::<Brand>(&mut first);
    let line_in = LineIn {
        sender,
        pass: first,
    };
    let line_out = LineOut {
        receiver,
        pass: second,
    };
    Ok((line_in, line_out))
}

impl<T: Drop> LineIn<T> {
    /// Sends a message. Waits while the line has no room, and for ever where the other end is gone.
    pub fn send<R: Wait>(&mut self, rt: &R, message: T)
        ensures { self.new ≡ record self.old { carried = self.old.carried ++ message ∷ [] } }
    {
        let mut message = message;
        for _ in rt.forever() {
            match self.offer(rt, message) {
                Ok(()) => return,
                Err(back) => message = back,
            }
        }
        unreachable!()
    }

    // Sends a message, or gives it back.
    fn offer<R: Wait>(&mut self, rt: &R, message: T) -> Result<(), T>
        ensures sent { OnOk result (self.new ≡ record self.old { carried = self.old.carried ++ message ∷ [] }) }
        ensures same { OnErr result (self.new ≡ self.old) }
        ensures back { IfErr result (λ back. back ≡ message) }
    {
        match self
            .sender
            .send_as::<Sending, R>(rt, &mut self.pass, message)
        {
            Ok(()) => Ok(()),
            Err(error) => Err(error.into_inner()),
        }
    }
}

impl<T: Drop> LineOut<T> {
    /// Receives the next message. Waits while there is none, and for ever where the other end is gone.
    pub fn receive<R: Wait>(&mut self, rt: &R) -> T
        ensures received { self.new ≡ record self.old { carried = self.old.carried ++ result ∷ [] } }
        ensures next { IfSome self.old.all (λ all. IsPrefix (self.old.carried ++ result ∷ []) all) }
    {
        for _ in rt.forever() {
            if let Some(message) = self.await_one(rt) {
                return message;
            }
        }
        unreachable!()
    }

    // Receives the next message, unless it is told before that none will come.
    fn await_one<R: Wait>(&mut self, rt: &R) -> Option<T>
        ensures received { MatchOption result (self.new ≡ self.old)
            (λ message. self.new ≡ record self.old { carried = self.old.carried ++ message ∷ [] }) }
        ensures next { IfSome result (λ message.
            IfSome self.old.all (λ all. IsPrefix (self.old.carried ++ message ∷ []) all)) }
    {
        match self.receiver.recv_as::<Receiving, R>(rt, &mut self.pass) {
            Ok(message) => Some(message),
            Err(_refused) => None,
        }
    }

    /// Receives the next message, where there is one. None only where the line was empty at a moment of this call. Of
    /// an end that has taken in the other one contracts say exactly when that is. Before, no clause refuses None, since
    /// the other thread may have filled the line since.
    pub fn try_receive<R: Wait>(&mut self, rt: &R) -> Option<T>
        ensures received { MatchOption result (self.new ≡ self.old)
            (λ message. self.new ≡ record self.old { carried = self.old.carried ++ message ∷ [] }) }
        ensures next { IfSome result (λ message.
            IfSome self.old.all (λ all. IsPrefix (self.old.carried ++ message ∷ []) all)) }
        ensures exact { IfSome self.old.all (λ all. IsNone result ↔ self.old.carried ≡ all) }
    {
        let pass = &mut self.pass;
        self.receiver.try_recv_as::<Receiving, R>(rt, pass).ok()
    }

    /// Takes in the other end of the same line, with which nothing can be sent then. What was sent and not received
    /// yet can still be received.
    pub fn settle(&mut self, entry: LineIn<T>)
        requires { entry.line ≡ self.old.line }
        ensures all { self.new ≡ record self.old { all = Some entry.carried } }
        ensures prefix { IsPrefix self.old.carried entry.carried }
        ensures room { length entry.carried ≤ length self.old.carried + self.old.room }
    {
        let LineIn { sender, pass } = entry;
        sender.absorb::<Ends>(&mut self.pass, pass);
        sender.learn_as::<Receiving>(&mut self.pass);
    }
}
