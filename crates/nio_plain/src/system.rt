//! What runs the calls of a script.
ghost use Rattle.std.specs.Prelude.{◌≡◌, IfOk, OnErr};

use nio_base::CallerNo;
use nio_language::{Call, Reply};
use std::alloc::{AllocError, Global};

/// A system of selectors, keys and channels, a group and pipes, which replies as the documented one.
pub trait System {
    ghost use Rattle.std.specs.Prelude.{Result};
    ghost use Rattle.std.specs.declared.alloc.AllocError.{AllocError};
    ghost use Rattle.nio_base.specs.declared.limits.Limits.{Limits};
    ghost use Rattle.nio_language.specs.declared.call.ScriptCall.{ScriptCall};
    ghost use Rattle.nio_language.specs.declared.reply.Reply.{Reply};
    ghost use Rattle.nio_plain.specs.declared.rules.Rules.{Rules};
    ghost use Rattle.nio_plain.specs.ScriptState.{ScriptState};
    ghost use Rattle.nio_plain.specs.Seq.{seq};

    // How much the system can hold.
    ghost limits: { Self → Limits };

    // The rules by which it replies.
    ghost rules: { Self → Rules };

    // What it holds.
    ghost state: { Self → ScriptState };

    // What every call keeps: a relation between the system before some calls and after them.
    ghost kept: { Self → Self → Type 0 };

    // What a call did that had this result, from the system before it to the one after.
    ghost does: { Self → Self → ScriptCall → Result Reply AllocError → Type 0 };

    /// Makes one call. Want of memory leaves all as it was.
    fn call(&mut self, alloc: Global, caller: CallerNo, call: &Call) -> Result<Reply, AllocError>
        ensures reply { IfOk result (λ reply. reply ≡ (seq (rules self.old) (limits self.old) (state self.old) caller
            call.now).reply) }
        ensures left { IfOk result (λ _. state self.new ≡ (seq (rules self.old) (limits self.old) (state self.old)
            caller call.now).left) }
        ensures memory { OnErr result (state self.new ≡ state self.old) }
        ensures kept { kept self.old self.new }
        ensures does { does self.old self.new (record { caller = caller; call = call.now }) result };

    ghost kept_same: { (y : Self) → kept y y };

    ghost kept_on: { (x y z : Self) → kept x y → kept y z → kept x z };

    ghost kept_limits: { (y z : Self) → kept y z → limits z ≡ limits y };

    ghost kept_rules: { (y z : Self) → kept y z → rules z ≡ rules y };
}
