//! The plain system: the documented system over vectors, for one thread.
//!
//! Selectors and channels stand by their numbers, since the least number that isn't made comes
//! next, and the keys of a selector by their indexes.
ghost use Rattle.std.specs.Prelude.{◌≡◌, ◌≤◌, vec_len};

use self::channel::Channel;
use self::pipe::Pipe;
use self::selector::Selector;
use crate::rules::Rules;
use crate::system::System;
use nio_base::{CallerNo, Limits};
use nio_group::{GroupCore, GroupLimits};
use nio_language::{Call, Reply};
use std::alloc::{AllocError, Global};

mod blocking;
mod calling;
mod channel;
mod channels;
mod closing;
mod grouping;
mod interest;
mod keys;
mod looking;
mod marking;
mod naming;
mod opening;
mod pipe;
mod piping;
mod registering;
mod selecting;
mod selector;
mod sets;
mod telling;
mod waking;

pub use self::grouping::call_group;
pub use self::selecting::mode_of;

/// How much a script's group can hold.
pub const GROUP_LIMITS: GroupLimits = GroupLimits {
    channels: 1_024,
    flight: 4_096,
    ops: 4_611_686_018_427_387_904,
};

/// A system of selectors, keys and channels, kept in vectors, with its group and its pipes.
#[derive(Drop)]
pub struct Plain {
    limits: Limits,
    rules: Rules,
    /// Whether each caller's interrupt status is set.
    interrupted: Vec<bool>,
    channels: Vec<Channel>,
    selectors: Vec<Selector>,
    group: GroupCore,
    pipes: Vec<Pipe>,
    ghost each_caller: { vec_len interrupted ≡ limits.callers },
    ghost few_selectors: { vec_len selectors ≤ limits.selectors },
}

impl Plain {
    ghost use Rattle.std.specs.Prelude.{IfOk};
    ghost use Rattle.nio_base.specs.Limits.{IsFit};
    ghost use Rattle.nio_plain.specs.PlainState.{limits_of, rules_of, state_of};
    ghost use Rattle.nio_plain.specs.ScriptState.{script_opening};

    /// A system in which nothing is made, by the rules of now.
    pub fn make(alloc: Global, limits: Limits) -> Result<Plain, AllocError>
        requires { IsFit limits }
        ensures limits { IfOk result (λ plain. limits_of plain ≡ limits) }
        ensures rules { IfOk result (λ plain. rules_of plain ≡ Rules.Now) }
        ensures opening { IfOk result (λ plain. state_of plain ≡ script_opening) }
    {
        Plain::make_by(alloc, limits, Rules::Now)
    }

    /// A system in which nothing is made, by the first rules.
    pub fn make_first(alloc: Global, limits: Limits) -> Result<Plain, AllocError>
        requires { IsFit limits }
        ensures limits { IfOk result (λ plain. limits_of plain ≡ limits) }
        ensures rules { IfOk result (λ plain. rules_of plain ≡ Rules.First) }
        ensures opening { IfOk result (λ plain. state_of plain ≡ script_opening) }
    {
        Plain::make_by(alloc, limits, Rules::First)
    }

    fn make_by(alloc: Global, limits: Limits, rules: Rules) -> Result<Plain, AllocError>
        ensures limits { IfOk result (λ plain. limits_of plain ≡ limits) }
        ensures rules { IfOk result (λ plain. rules_of plain ≡ rules) }
        ensures opening { IfOk result (λ plain. state_of plain ≡ script_opening) }
    {
        Ok(Plain {
            limits,
            rules,
            interrupted: Vec::from_elem(alloc, false, limits.callers as usize)?,
            channels: Vec::new(alloc),
            selectors: Vec::new(alloc),
            group: GroupCore::make(alloc, GROUP_LIMITS)?,
            pipes: Vec::new(alloc),
        })
    }
}

impl System for Plain {
    ghost use Rattle.std.proofs.Common.{◌∙◌};
    ghost use Rattle.nio_plain.specs.Plain.{Kept};
    ghost use Rattle.nio_plain.specs.PlainState.{limits_of, rules_of, state_of};
    ghost use Rattle.std.specs.Prelude.{refl, ⊤};

    ghost limits = { limits_of };

    ghost rules = { rules_of };

    ghost state = { state_of };

    ghost kept = { Kept };

    ghost does = { λ _ _ _ _. ⊤ };

    fn call(&mut self, alloc: Global, caller: CallerNo, call: &Call) -> Result<Reply, AllocError> {
        if caller.0 >= self.limits.callers {
            return Ok(Reply::NoCaller);
        }
        self.call_of(alloc, caller, call)
    }

    ghost kept_same = { λ _. record { limits = refl; rules = refl } };

    ghost kept_on = { λ x y z h k. record { limits = k.limits ∙ h.limits; rules = k.rules ∙ h.rules } };

    ghost kept_limits = { λ y z h. h.limits };

    ghost kept_rules = { λ y z h. h.rules };
}
