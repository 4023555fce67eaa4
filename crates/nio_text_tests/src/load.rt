//! The generated script, and loads over a plain system.
ghost use Rattle.std.specs.Prelude.{◌≤◌};

use nio_base::Limits;
use nio_bytes::MemorySink;
use nio_load::*;
use nio_plain::Plain;
use nio_script::Status;
use std::alloc::Global;
use std::process::Abort;
use std::test::Fail;

const LIMITS: Limits = Limits {
    callers: 64,
    selectors: 16,
    channels: 1_024,
    keys: 1_024,
};

/// How the script begins.
const FIRST_LINES: &str =
    "t1 selector\nt1 channel source\nt1 blocking c0 off\nt1 register s0 c0 1\nt1 channel source\nt1 blocking c1 off\n";

/// Its last channel, and one round.
const ONE_ROUND: &str =
    "t1 channel source\nt1 blocking c63 off\nt1 register s0 c63 1\nt2 wakeup s0\nt1 begin s0 now\n\
        t1 told s0 k6:1\nt1 unselect s0 k6\n";

/// Nine rounds, behind the last line of the channels.
const NINE_ROUNDS: &str =
    "t1 register s0 c63 1\nt2 wakeup s0\nt1 begin s0 now\nt1 told s0 k6:1\nt1 unselect s0 k6\n\
        t1 begin s0 now\nt1 told s0 k62:1\nt1 unselect s0 k62\nt1 begin s0 now\nt1 told s0 k1:1\n\
        t1 unselect s0 k1\nt1 begin s0 now\nt1 told s0 k43:1\nt1 unselect s0 k43\nt1 begin s0 now\n\
        t1 told s0 k11:1\nt1 unselect s0 k11\nt1 begin s0 now\nt1 told s0 k59:1\nt1 unselect s0 k59\n\
        t1 begin s0 now\nt1 told s0 k34:1\nt1 unselect s0 k34\nt1 begin s0 now\nt1 told s0 k59:1\n\
        t1 unselect s0 k59\nt2 wakeup s0\nt1 begin s0 now\nt1 told s0 k20:1\nt1 unselect s0 k20\n";

#[test]
fn scripts_are_generated(rt: HostRuntime) -> Result<(), Fail> {
    let rows = [(1, 3_831, ONE_ROUND), (9, 4_258, NINE_ROUNDS)];
    for (rounds, bytes, end) in rows {
        let text = generate(rt.alloc(), rounds)?;
        assert_eq!(&rt; text.len(), bytes, "{rounds}");
        assert!(&rt; text.starts_with(FIRST_LINES.as_bytes()), "{rounds}");
        assert!(&rt; text.ends_with(end.as_bytes()), "{rounds}");
    }
    Ok(())
}

/// Runs so many rounds on a plain system, and compares the status and what was written. The sink
/// takes pieces of 5 bytes, and fails at its calls with these numbers.
fn loads(
    rt: &impl Abort,
    alloc: Global,
    rounds: u32,
    fail_at: Vec<u64>,
    expected: (Status, &str),
) -> Result<(), Fail>
    requires { rounds ≤ 100000 }
{
    let (status, written) = expected;
    let mut system = Plain::make(alloc, LIMITS)?;
    let mut sink = MemorySink::make(alloc, 5, fail_at, 64)?;
    assert_eq!(rt;
        run_load(alloc, rounds, &mut sink, &mut system),
        status,
        "{rounds}"
    );
    assert_eq!(rt; sink.bytes(), written.as_bytes(), "{rounds}");
    Ok(())
}

#[test]
fn loads_are_summed_up(rt: HostRuntime) -> Result<(), Fail> {
    let alloc = rt.alloc();
    let one = (Status::Done, "lines 197\nselections 1\nupdates 1\n");
    loads(&rt, alloc, 1, Vec::new(alloc), one)?;
    let nine = (Status::Done, "lines 222\nselections 9\nupdates 9\n");
    loads(&rt, alloc, 9, Vec::new(alloc), nine)?;
    let cut = (Status::WriteFault, "lines 222\n");
    loads(&rt, alloc, 9, vec![in alloc; 2]?, cut)
}
