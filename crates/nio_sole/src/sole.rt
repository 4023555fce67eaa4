//! The table as the system of a script.
ghost use Rattle.nio_sole.specs.OneProof.{stands_prop};
ghost use Rattle.nio_sole.specs.Stands.{Stands};

use crate::desk::Desk;
use crate::line::say_line;
use crate::making::open_desk;
use nio_base::CallerNo;
use nio_language::{Call, Reply};
use nio_plain::System;
use nio_words::{Pass, Words};
use std::alloc::{AllocError, Global};

/// A table that callers use one after the other, and nobody else at the same time.
pub struct Sole<'a> {
    words: &'a Words,
    desk: Desk,
    ghost stands: { Stands words.now desk } by { stands_prop words.now desk },
}

impl<'a> Sole<'a> {
    ghost use Rattle.std.specs.Prelude.{◌≡◌, ◌<◌, [], IfOk, OnErr};
    ghost use Rattle.nio_base.specs.declared.numbers.CallerNo.{CallerNo};
    ghost use Rattle.nio_history.specs.PassViews.{HasNoPin};
    ghost use Rattle.nio_orderly.specs.Orderly.{IsWhole};
    ghost use Rattle.nio_plain.specs.ScriptState.{script_opening};
    ghost use Rattle.nio_words.specs.Passes.{IsFirstPass, IsPassOf, IsReady, seen, state_seen};
    ghost use Rattle.nio_words.specs.Views.{view};
    ghost use Rattle.nio_sole.specs.Drawn.{AreAllDrawn};
    ghost use Rattle.nio_sole.specs.Sole.{HasMadeLines, limits_of, pass_of, state_of, words_of};

    /// Draws every number with the pass, and hands all of them over to a pass of its own. The pass that is left acts
    /// for nobody. Want of memory leaves the pass as it was.
    pub fn make(alloc: Global, words: &'a Words, pass: &mut Pass) -> Result<Sole<'a>, AllocError>
        requires { IsFirstPass words.now pass.old }
        ensures table { IfOk result (λ sole. words_of sole ≡ words.entry.now) }
        ensures opening { IfOk result (λ sole. state_of sole ≡ script_opening) }
        ensures drawn { IfOk result (λ sole. AreAllDrawn (limits_of sole) (state_seen (pass_of sole))) }
        ensures none { IfOk result (λ sole. HasMadeLines sole []) }
        ensures pass { IsPassOf words.entry.now pass.new }
        ensures sight { IfOk result (λ sole. seen pass.new ≡ seen (pass_of sole)) }
        ensures memory { OnErr result (pass.new ≡ pass.old) }
    {
        let desk = open_desk(alloc, words, pass)?;
        Ok(Sole { words, desk })
    }

    /// Forgets the selections and closings in progress, without a step, and gives the pass, which acts
    /// for each caller.
    pub fn into_pass(self) -> Pass
        ensures pass { result ≡ pass_of self.entry }
        ensures ready { (n : CallerNo) → n.0 < (limits_of self.entry).callers → IsReady (words_of self.entry) result n }
        ensures unpinned { (n : CallerNo) → HasNoPin (view (words_of self.entry) result) n }
        ensures whole { ∥ IsWhole (limits_of self.entry) (seen result) ∥₁ }
    {
        let Sole {
            words: _words,
            desk,
        } = self;
        desk.into_pass()
    }
}

impl<'a> System for Sole<'a> {
    ghost use Rattle.std.proofs.Common.{ap, ◌∙◌};
    ghost use Rattle.std.specs.Prelude.{refl};
    ghost use Rattle.nio_history.proofs.Clauses.{prefix_trans};
    ghost use Rattle.nio_words.proofs.Beginnings.{prefix_self};
    ghost use Rattle.nio_words.specs.Passes as passes;
    ghost use Rattle.nio_sole.specs.Sole.{Does, Kept, limits_of, rules_of, state_of};

    ghost limits = { limits_of };

    ghost rules = { rules_of };

    ghost state = { state_of };

    ghost kept = { Kept };

    ghost does = { Does };

    fn call(&mut self, alloc: Global, caller: CallerNo, call: &Call) -> Result<Reply, AllocError> {
        say_line(alloc, self.words, &mut self.desk, caller, call)
    }

    ghost kept_same = { λ y. record { table = refl; later = prefix_self _ } };

    ghost kept_on = { λ x y z h k. record { table = k.table ∙ h.table; later = prefix_trans _ _ _ h.later k.later } };

    ghost kept_limits = { λ y z h. ap passes.limits_of h.table };

    ghost kept_rules = { λ y z h. refl };
}
