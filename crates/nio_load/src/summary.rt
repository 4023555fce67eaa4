//! What the replies to a script come to.
ghost use Rattle.std.specs.Prelude.{◌≡◌, ◌+◌, ◌≤◌, ◌^◌, List, [], ◌∷◌, IfOk, OnOk, OnErr, length, sum};
ghost use Rattle.std.specs.String.{string_bytes};
ghost use Rattle.nio_language.specs.declared.call.ScriptCall.{ScriptCall};
ghost use Rattle.nio_plain.specs.Answer.{left_by_script};
ghost use Rattle.nio_plain.specs.ScriptState.{script_opening};
ghost use Rattle.nio_plain.specs.Seq.{seq};
ghost use Rattle.nio_script.specs.Run.{LacksNext, MakesAll, MakesOne, StopsWithin};
ghost use Rattle.nio_load.specs.Summary.{count_of, counts_from, summary_of};
ghost use Rattle.nio_load.specs.Tally.{with_count};

use nio_language::{Reply, ScriptCall};
use nio_plain::System;
use std::alloc::{AllocError, Global};

/// How many selections ended, and how many keys they updated.
#[derive(Clone, Copy, Debug, PartialEq, Eq)]
struct Tally {
    selections: u64,
    updates: u64,
}

/// Makes the calls in turn, and sums up their replies.
pub fn summarize<Y: System>(
    alloc: Global,
    calls: &[ScriptCall],
    system: &mut Y,
) -> Result<String, AllocError>
    requires opening { Y.state system.old ≡ script_opening }
    requires few { length calls.now ≤ 2 ^ 30 }

    ensures summary { IfOk result (λ text. string_bytes text
        ≡ summary_of (Y.rules system.old) (Y.limits system.old) calls.now) }
    ensures left { OnOk result (Y.state system.new
        ≡ left_by_script (Y.rules system.old) (Y.limits system.old) calls.now) }
    ensures makes { OnOk result (MakesAll Y.System system.old system.new calls.now) }
    ensures memory { OnErr result ((made : List ScriptCall) ×
        StopsWithin Y.System system.old system.new calls.now made) }
    ensures kept { Y.kept system.old system.new }
{
    let tally = tally_calls(alloc, calls, system)?;
    format!(in alloc;
        "lines {}\nselections {}\nupdates {}\n",
        calls.len(),
        tally.selections,
        tally.updates
    )
}

// Makes the calls in turn.
fn tally_calls<Y: System>(
    alloc: Global,
    calls: &[ScriptCall],
    system: &mut Y,
) -> Result<Tally, AllocError>
    requires opening { Y.state system.old ≡ script_opening }
    requires few { length calls.now ≤ 2 ^ 30 }

    ensures selections { IfOk result (λ tally. tally.selections ≡ length
        (counts_from (Y.rules system.old) (Y.limits system.old) script_opening calls.now)) }
    ensures updates { IfOk result (λ tally. tally.updates ≡ sum
        (counts_from (Y.rules system.old) (Y.limits system.old) script_opening calls.now)) }
    ensures left { OnOk result (Y.state system.new
        ≡ left_by_script (Y.rules system.old) (Y.limits system.old) calls.now) }
    ensures makes { OnOk result (MakesAll Y.System system.old system.new calls.now) }
    ensures memory { OnErr result ((made : List ScriptCall) ×
        LacksNext Y.System system.old system.new calls.now made) }
    ensures kept { Y.kept system.old system.new }
{
    let mut tally = Tally {
        selections: 0,
        updates: 0,
    };
    for line in calls {
        tally_call(alloc, line, &mut tally, system)?;
    }
    Ok(tally)
}

// Makes one call.
fn tally_call<Y: System>(
    alloc: Global,
    line: &ScriptCall,
    tally: &mut Tally,
    system: &mut Y,
) -> Result<(), AllocError>
    requires few_selections { tally.old.selections ≤ 2 ^ 62 }
    requires few_updates { tally.old.updates ≤ 2 ^ 62 }

    ensures tally { OnOk result (tally.new ≡ with_count tally.old (count_of
        (seq (Y.rules system.old) (Y.limits system.old) (Y.state system.old) line.now.caller line.now.call).reply)) }
    ensures selections { tally.new.selections ≤ tally.old.selections + 1 }
    ensures updates { tally.new.updates ≤ tally.old.updates + 2 ^ 32 }
    ensures makes { OnOk result (MakesOne Y.System system.old system.new line.now) }
    ensures memory { OnErr result (LacksNext Y.System system.old system.new (line.now ∷ []) []) }
    ensures kept { Y.kept system.old system.new }
{
    let reply = system.call(alloc, line.caller, &line.call)?;
    if let Some(count) = count(&reply) {
        tally.selections += 1;
        tally.updates += u64::from(count);
    }
    Ok(())
}

// How many keys a selection updated, where the reply ends one.
fn count(reply: &Reply) -> Option<u32>
    ensures { result ≡ count_of reply.now }
{
    match reply {
        Reply::Selected(count, _) => Some(*count),
        _ => None,
    }
}
