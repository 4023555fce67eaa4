//! Passes in one hand and in several, and two callers who do on a table what the worked history of
//! `nio_history` says, in which each kind of step stands.
use crate::tables::{ONE, ZERO};
use nio_base::{CallerNo, Limits};
use nio_words::{DrawError, Words};
use std::test::Fail;

pub(crate) mod history;
mod threads;
mod worked;

/// The limits of the worked history.
pub(crate) const SMALL: Limits = Limits {
    callers: 2,
    selectors: 1,
    channels: 1,
    keys: 1,
};

#[test]
fn table_passes(rt: HostRuntime) -> Result<(), Fail> {
    let (words, mut p) = Words::make(rt.alloc(), SMALL)?;
    assert_eq!(rt; words.limits(), SMALL);
    assert_eq!(rt; words.draw(&mut p, ZERO), Ok(()));
    assert_eq!(rt; words.draw(&mut p, ZERO), Err(DrawError::CallerTaken));
    assert_eq!(rt;
        words.draw(&mut p, CallerNo(2)),
        Err(DrawError::NoSuchCaller)
    );
    let mut q = words.split(&mut p)?;
    assert!(rt; !q.holds(ZERO) && !q.holds(ONE));
    assert_eq!(rt; words.draw(&mut q, ONE), Ok(()));
    words.join(&mut p, q);
    assert!(rt; p.holds(ZERO) && p.holds(ONE) && !p.holds(CallerNo(2)));
    Ok(())
}
