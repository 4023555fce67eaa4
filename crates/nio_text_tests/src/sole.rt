//! Lines of scripts on a table. The pass that comes back acts for each caller.
use crate::lines::{LIMITS, Lines, ROWS, answers};
use nio_base::CallerNo;
use nio_sole::Sole;
use nio_words::Words;
use std::alloc::Global;
use std::process::Abort;
use std::test::Fail;

/// Makes the calls on a table of its own.
fn on_a_table(rt: &impl Abort, alloc: Global, label: &str, lines: Lines) -> Result<(), Fail> {
    let (words, mut pass) = Words::make(alloc, LIMITS)?;
    let mut sole = Sole::make(alloc, &words, &mut pass)?;
    let outcome = answers(rt, alloc, &mut sole, label, lines);
    let own = sole.into_pass();
    assert!(rt; own.holds(CallerNo(1)) && !pass.holds(CallerNo(1)));
    outcome
}

#[test]
fn lines_on_a_table(rt: HostRuntime) -> Result<(), Fail> {
    for (label, lines) in ROWS {
        on_a_table(&rt, rt.alloc(), label, lines)?;
    }
    Ok(())
}
