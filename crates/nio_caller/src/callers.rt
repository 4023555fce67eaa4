//! Callers: a number, a pass that acts for it, and the table.
ghost use Rattle.std.specs.Prelude.{◌≡◌, ◌≢◌, ◌↔◌, ◌+◌, ◌<◌, Err, IsFalse, IsTrue, IfOk, OnErr};
ghost use Rattle.nio_base.specs.declared.numbers.CallerNo.{CallerNo as Number};
ghost use Rattle.nio_history.specs.Conditions.{IsCaller};
ghost use Rattle.nio_history.specs.PassViews.{Holds};
ghost use Rattle.nio_words.specs.Passes.{IsFirstPass, limits_of};
ghost use Rattle.nio_caller.specs.Callers.{GivesNumber, HasDrawn, HasNothing, IsSameCaller, Joins, MayCall, StillHas};
ghost use Rattle.nio_caller.specs.Callers.{draws, sees};
ghost use Rattle.nio_caller.specs.declared.refusal.SplitError.TheVariants.{NoHandle, NotHeld};

use crate::lists::Lists;
use crate::progress::InProgress;
use crate::refusal::SplitError;
use crate::table::Table;
use nio_base::CallerNo;
use nio_words::{Pass, Words};
use std::marker::Model;

mod channels;
mod keys;
mod looks;
mod pipes;
mod selections;
mod selectors;

/// What makes calls at a table: a number, as a thread has in Java, and a pass that acts for it. Each thread has a
/// caller of its own, which borrows the table (`Caller<&Words>`) or has a share in it (`Caller<Arc<Words, Global>>`). The
/// interrupt status of a number is kept in the table. The caller keeps the selectors' lists that it took, and what it has
/// in progress: selections that it began, and closings.
///
/// Contracts see the table, the number, what the pass has seen, the lists, and what is in progress. That the pass is one of
/// the table and acts for the number, that the caller has no pin, that it has its lists, and may go on with what is in
/// progress, holds of every value: no call asks for it.
///
/// Where a caller is dropped, joined to another one, or turned into its pass, what it has in progress is lost: the turn of a
/// selection stays taken for good, and the keys of a selector that it was closing stay in it.
#[derive(Drop)]
pub struct Caller<T: Table> {
    table: T,
    pass: Pass,
    number: CallerNo,
    lists: Lists,
    progress: InProgress,
}

impl<T: Table> Model for Caller<T> {
    ghost use Rattle.nio_caller.specs.Callers.{Acting, IsActing};

    ghost Value = { Acting };

    ghost view = { λ c. record {
      table = T.table c.table;
      pass = c.pass;
      number = c.number;
      selectors = c.lists;
      progress = c.progress;
    } };

    ghost invariant = { λ c. IsActing (T.table c.table) c.pass c.number c.lists c.progress };
}

impl<T: Table> Caller<T> {
    /// A caller with a pass that is at hand. It has no list, and nothing in progress.
    pub fn new(table: T, pass: Pass, number: CallerNo) -> Caller<T>
        requires { MayCall (T.table table) pass number }
        ensures table { result.table ≡ T.table table }
        ensures pass { result.pass ≡ pass }
        ensures number { result.number ≡ number }
        ensures nothing { HasNothing result }
    {
        Caller {
            table,
            pass,
            number,
            lists: Lists::none(),
            progress: InProgress::none(),
        }
    }

    /// The first caller at a new table, with the table's first pass. It draws the number of every caller; its own is
    /// 0, and it holds the others until it gives them away.
    pub fn first(table: T, pass: Pass) -> Caller<T>
        requires { IsFirstPass (T.table table) pass }
        ensures table { result.table ≡ T.table table }
        ensures number { result.number.0 ≡ 0 }
        ensures holds { (n : Number) → IsCaller (limits_of result.table) n → Holds (sees result) n }
        ensures sight { (sees result).seen ≡ draws (limits_of result.table).callers }
        ensures only { IsTrue (sees result).only }
        ensures nothing { HasNothing result }
    {
        let mut pass = pass;
        draw_all(table.words(), &mut pass);
        Caller {
            table,
            pass,
            number: CallerNo(0),
            lists: Lists::none(),
            progress: InProgress::none(),
        }
    }

    /// The number of the caller.
    pub fn number(&self) -> CallerNo
        ensures { result ≡ self.now.number }
    {
        self.number
    }

    /// The table.
    pub fn words(&self) -> &Words
        ensures { result.now ≡ self.now.table }
    {
        self.table.words()
    }

    /// A caller with another number, which this one gives away, for another thread. It has no list. `NoHandle` is answered
    /// of a shared table alone, with so many handles as no memory holds.
    pub fn split(&mut self, number: CallerNo) -> Result<Caller<T>, SplitError>
        ensures held { (result ≢ Err NotHeld) ↔ (Holds (sees self.old) number × (number ≢ self.old.number)) }
        ensures handle { result ≡ Err NoHandle → IsFalse T.always }
        ensures gives { IfOk result (GivesNumber number self.old self.new) }
        ensures same { IsSameCaller self.old self.new }
        ensures lists { self.new.selectors ≡ self.old.selectors }
        ensures progress { self.new.progress ≡ self.old.progress }
        ensures still { StillHas (sees self.old) (sees self.new) }
        ensures given { IfOk result (λ given. HasNothing given × StillHas (sees self.old) (sees given)) }
        ensures err { OnErr result (self.new ≡ self.old) }
    {
        if !self.can_give(number) {
            return Err(SplitError::NotHeld);
        }
        let Some(table) = self.table.share() else {
            return Err(SplitError::NoHandle);
        };
        match self.table.words().hand_over(&mut self.pass, number) {
            Ok(pass) => Ok(Caller {
                table,
                pass,
                number,
                lists: Lists::none(),
                progress: InProgress::none(),
            }),
            Err(_error) => unreachable!(),
        }
    }

    // Whether it can give this number away.
    fn can_give(&self, number: CallerNo) -> bool
        ensures { IsTrue result ↔ (Holds (sees self.now) number × (number ≢ self.now.number)) }
    {
        number.0 != self.number.0 && self.pass.holds(number)
    }

    /// Takes over what another caller has seen, and the numbers that it holds. The table is that of both. The other's lists
    /// are lost, and what it has in progress: a list is its number's for good, and nobody takes it again.
    pub fn join(&mut self, other: Caller<T>)
        requires { other.table ≡ self.old.table }
        ensures joins { Joins (sees self.old) (sees other) (sees self.new) }
        ensures same { IsSameCaller self.old self.new }
        ensures lists { self.new.selectors ≡ self.old.selectors }
        ensures progress { self.new.progress ≡ self.old.progress }
        ensures still { StillHas (sees self.old) (sees self.new) }
        ensures other { StillHas (sees other) (sees self.new) }
    {
        let Caller {
            table: _table,
            pass,
            number: _number,
            lists: _lists,
            progress: _progress,
        } = other;
        self.table.words().join(&mut self.pass, pass);
    }

    /// The pass, which acts for the caller's number and the others that it holds. The caller's lists are lost, and what it
    /// has in progress.
    pub fn into_pass(self) -> Pass
        ensures pass { result ≡ self.pass }
        ensures may { MayCall self.table result self.number }
    {
        let Caller {
            table: _table,
            pass,
            number: _number,
            lists: _lists,
            progress: _progress,
        } = self;
        pass
    }
}

// Draws every number.
fn draw_all(w: &Words, p: &mut Pass)
    requires { IsFirstPass w.now p.old }
    ensures { HasDrawn w.now p.new (limits_of w.now).callers }
{
    for number in 0..w.limits().callers {
        draw_next(w, p, CallerNo(number));
    }
}

fn draw_next(w: &Words, p: &mut Pass, number: CallerNo)
    requires drawn { HasDrawn w.now p.old number.0 }
    requires below { number.0 < (limits_of w.now).callers }
    ensures { HasDrawn w.now p.new (number.0 + 1) }
{
    let _found = w.draw_bit(p, number, number);
}
