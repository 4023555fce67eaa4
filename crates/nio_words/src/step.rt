//! The one function that makes every step.
ghost use Rattle.std.specs.Prelude.{◌≡◌, ◌<◌};
ghost use Rattle.nio_words.specs.Instructions.{applied, IsInWord};
ghost use Rattle.nio_words.specs.Passes.{IsReady, limits_of};
ghost use Rattle.nio_words.specs.Telling.{Doing, MayDo, any_step};
ghost use Rattle.nio_words.specs.Moves.{Moves};
ghost use Rattle.nio_words.specs.Steps.{Steps};
ghost use Rattle.nio_words.specs.Rule.{IsKept};
ghost use Rattle.atomic_table.specs.Table.{Allows};

use crate::instruction::Instruction;
use crate::part::{Part, place_of};
use crate::view::View;
use crate::words::{Pass, Words};
use atomic_table::{Play, Seat};
use nio_base::{CallerNo, ChanNo, KeyId, Kind, Ops};
use nio_history::{Chan, Stage};
use std::marker::Brand;

/// What the part and the instruction of a step leave out of the event that it adds.
#[derive(Clone, Copy)]
pub enum Details {
    /// The kind of a channel that is made.
    OfKind(Kind),
    /// The channel for which an index is claimed.
    ForChannel(ChanNo),
    /// The channel, and the stage from which an index is claimed again.
    Again(ChanNo, Stage),
    /// An index of a selector, or a high-water mark.
    Number(u32),
    /// The key that is enrolled for a channel.
    Enrolled(KeyId),
    /// Whether a channel is blocking from now on.
    Mode(bool),
    /// The channel that was found, which is closed, or whose number is given to a new one.
    Found(Chan),
    /// Whether the key was selected, its ready set, and what was told of it.
    Told(bool, Ops, Ops),
}

// What a step tells is picked where the step is made.
impl Play<(), View> for Brand {
    ghost then = { λ step before found after. Unit {0} };
}

impl Words {
    /// Carries out an instruction on a word. What it tells is `M`.
    #[inline(always)]
    pub(crate) fn perform<M: Play<(), View>>(
        &self,
        seat: &mut Seat<(), View>,
        word: usize,
        instruction: Instruction,
    ) -> u64
        requires table { seat.old.table_id ≡ self.now.table.shared.table_id }
        requires inside { word < self.now.table.shared.table_id.words }
        requires bit { IsInWord instruction }
        requires rule { Allows (IsKept self.now.table.shared.key) self.now.table.shared.table_id.slots seat.old.id
            seat.old.me word (applied instruction) (M.then any_step seat.old.me) }
        ensures seat { (seat.new.table_id ≡ seat.old.table_id) × (seat.new.id ≡ seat.old.id) }
        ensures told { M.then any_step seat.old.me result seat.new.me }
    {
        let shared = &self.table.shared;
        match instruction {
            Instruction::Load => shared.load::<Brand>(seat, word),
            Instruction::SetBit(k) => shared.fetch_or::<Brand>(seat, word, 1 << k),
            Instruction::ClearBit(k) => shared.fetch_and::<Brand>(seat, word, !(1 << k)),
            Instruction::Or(bits) => shared.fetch_or::<Brand>(seat, word, bits),
            Instruction::And(bits) => shared.fetch_and::<Brand>(seat, word, bits),
            Instruction::Add(number) => shared.fetch_add::<Brand>(seat, word, number),
            Instruction::Subtract(number) => shared.fetch_sub::<Brand>(seat, word, number),
            Instruction::Max(number) => shared.fetch_max::<Brand>(seat, word, number),
            Instruction::Swap(new) => shared.swap::<Brand>(seat, word, new),
            Instruction::Exchange(old, new) => {
                shared.compare_exchange::<Brand>(seat, word, old, new)
            }
        }
    }

    /// Makes one step of `_me`, whom the proof alone needs. `doing` says which event it adds, by the
    /// word that it finds, and each caller of this function picks it.
    #[inline(always)]
    pub(crate) fn step(
        &self,
        p: &mut Pass,
        _me: CallerNo,
        part: Part,
        instruction: Instruction,
    ) -> u64
        ghost doing: { Doing }
        requires ready { IsReady self.now p.old doing.who }
        requires moves { Moves (limits_of self.now) doing.who part instruction doing.act }
        requires condition { MayDo self.now p.old doing }
        ensures step { Steps self.now p.old p.new doing.who (doing.act result) }
    {
        let word = place_of(&self.limits, &self.starts, part);
        self.perform::<Brand>(&mut p.seat, word, instruction)
    }

    /// The same for a step that its part and its instruction don't tell whole. `_details` is what they
    /// leave out, and the proof alone needs it.
    #[inline(always)]
    pub(crate) fn step_that(
        &self,
        p: &mut Pass,
        me: CallerNo,
        part: Part,
        instruction: Instruction,
        _details: Details,
    ) -> u64
        ghost doing: { Doing }
        requires ready { IsReady self.now p.old doing.who }
        requires moves { Moves (limits_of self.now) doing.who part instruction doing.act }
        requires condition { MayDo self.now p.old doing }
        ensures step { Steps self.now p.old p.new doing.who (doing.act result) }
    {
        self.step(p, me, part, instruction)
    }
}
