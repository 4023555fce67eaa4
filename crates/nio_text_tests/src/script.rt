//! Reading and writing at their limits, and scripts over a system that knows no caller.
ghost use Rattle.std.specs.Prelude.{◌≡◌, ◌-◌, ◌^◌, ◌≤◌, ◌⊎◌, ⊤, List, None, length};
ghost use Rattle.nio_bytes.specs.Cause.{Rose};
ghost use Rattle.nio_language.specs.Script.{IsScript};
ghost use Rattle.nio_language.specs.declared.call.ScriptCall.{ScriptCall};
ghost use Rattle.nio_plain.specs.ScriptState.{script_opening};
ghost use Rattle.nio_plain.specs.declared.rules.Rules.TheVariants.{Now};

use nio_base::{CallerNo, Limits};
use nio_bytes::{Failed, MemorySink, MemorySource, Sink, Source, SteadySource};
use nio_language::{Call, Reply};
use nio_plain::{Rules, System};
use nio_script::*;
use std::alloc::{AllocError, Global};
use std::process::Abort;
use std::test::Fail;

const SELECTOR: &[u8] = b"1 t1 selector -> s0\n";

#[test]
fn statuses_have_their_codes(rt: HostRuntime) {
    let statuses = [
        (Status::Done, 0),
        (Status::Usage, 2),
        (Status::BadScript { line: 7 }, 3),
        (Status::ReadFault, 4),
        (Status::WriteFault, 5),
        (Status::Memory, 6),
        (Status::NetFault, 7),
        (Status::Illegal { line: 7 }, 8),
        (Status::TooLong, 9),
    ];
    for (status, code) in statuses {
        assert_eq!(rt; status.code(), code, "{status:?}");
    }
}

/// How a reading ended, and how many bytes were read.
fn reading<S: Source>(alloc: Global, source: &mut S) -> (Status, usize) {
    match read_input(alloc, source) {
        Ok(input) => (Status::Done, input.len()),
        Err(status) => (status, 0),
    }
}

#[test]
fn inputs_are_read_up_to_the_longest(rt: HostRuntime) -> Result<(), Fail> {
    let alloc = rt.alloc();
    let text = b"t1 selector\nt1 channel source\n";
    let mut source = MemorySource::make(text.to_vec(alloc)?, 12, Vec::new(alloc));
    let input = read_input(alloc, &mut source).expect(&rt, "an input");
    assert_eq!(rt; input.as_slice(), text.as_slice());

    let second = vec![in alloc; 1]?;
    let mut source = MemorySource::make(text.to_vec(alloc)?, 12, second);
    assert_eq!(rt; reading(alloc, &mut source), (Status::ReadFault, 0));
    let longest = [
        (LONGEST_INPUT, (Status::Done, LONGEST_INPUT)),
        (LONGEST_INPUT + 1, (Status::TooLong, 0)),
    ];
    for (count, ended) in longest {
        let mut source = SteadySource::make(vec![in alloc; b'#'; count]?);
        assert_eq!(rt; reading(alloc, &mut source), ended);
    }
    Ok(())
}

#[test]
fn output_is_written_to_the_first_fault(rt: HostRuntime) -> Result<(), Fail> {
    let alloc = rt.alloc();
    // The third call is a write, and the fifth the flush.
    let faults: [(&[u64], _, &[u8]); 3] = [
        (&[], Ok(()), SELECTOR),
        (&[2], Err(Status::WriteFault), b"1 t1 selec"),
        (&[4], Err(Status::WriteFault), SELECTOR),
    ];
    for (fail_at, ended, written) in faults {
        let mut sink = MemorySink::make(alloc, 5, fail_at.to_vec(alloc)?, 20)?;
        assert!(rt;
            write_out(&mut sink, SELECTOR) == ended && sink.bytes() == written,
            "{fail_at:?}"
        );
    }
    Ok(())
}

/// Keeps the lengths of what it is offered, and takes seven bytes at most a write. It shows contracts neither bytes nor
/// flushes, and its count of faults is always the greatest `u64`.
#[derive(Drop)]
struct Recorder {
    offers: Vec<usize>,
    flushes: usize,
}

impl Sink for Recorder {
    ghost taken = { λ _. None };

    ghost flushed = { λ _. None };

    ghost faults = { λ _. 2 ^ 64 - 1 };

    fn write(&mut self, from: &[u8]) -> Result<usize, Failed> {
        if self.offers.push(from.len()).is_err() {
            return Err(Failed);
        }
        Ok(from.len().min(7))
    }

    fn flush(&mut self) -> Result<(), Failed> {
        self.flushes = self.flushes.saturating_add(1);
        Ok(())
    }
}

#[test]
fn each_write_is_offered_the_rest_and_one_flush_comes_last(rt: HostRuntime) -> Result<(), Fail> {
    let alloc = rt.alloc();
    let mut sink = Recorder {
        offers: Vec::new(alloc),
        flushes: 0,
    };
    assert_eq!(rt; write_out(&mut sink, SELECTOR), Ok(()));
    assert_eq!(rt; sink.offers.as_slice(), [20, 13, 6].as_slice());
    assert_eq!(rt; sink.flushes, 1);

    let mut sink = Recorder {
        offers: Vec::new(alloc),
        flushes: 0,
    };
    let text = b"t1 selector\n# no call\nt1 selector";
    let mut source = SteadySource::make(text.to_vec(alloc)?);
    let status = run_script(alloc, &mut source, &mut sink, &mut Deaf);
    assert_eq!(rt; status, Status::Done);
    assert_eq!(rt; sink.offers.first().copied(), Some(54), "both lines");
    assert_eq!(rt; sink.flushes, 1);
    Ok(())
}

/// A system of no callers, which refuses all calls.
#[derive(Drop)]
struct Deaf;

impl System for Deaf {
    ghost limits = { λ _. record { callers = 0; selectors = 0; channels = 0; keys = 0 } };

    ghost rules = { λ _. Now };

    ghost state = { λ _. script_opening };

    ghost kept = { λ _ _. ⊤ };

    ghost does = { λ _ _ _ _. ⊤ };

    ghost kept_same = { λ _. tt };

    ghost kept_on = { λ _ _ _ _ _. tt };

    ghost kept_limits = { λ _ _ _. Rattle.std.specs.Prelude.refl };

    ghost kept_rules = { λ _ _ _. Rattle.std.specs.Prelude.refl };

    fn call(
        &mut self,
        _alloc: Global,
        _caller: CallerNo,
        _call: &Call,
    ) -> Result<Reply, AllocError> {
        Ok(Reply::NoCaller)
    }
}

/// A text, the bytes that the sink takes a write, which of its calls fail, and the status and the output that are
/// expected.
type Ending = (&'static str, usize, &'static [u64], Status, &'static str);

const SCRIPTS: &[Ending] = &[
    ("", 5, &[], Status::Done, ""),
    ("t1 selector\n", 5, &[], Status::Done, ANSWERED),
    ("t1 selector", 5, &[], Status::Done, ANSWERED),
    ("#\n\nt1 selector\n", 5, &[], Status::Done, ANSWERED),
    (
        "#\n\nt1 selecto\n\n",
        5,
        &[],
        Status::BadScript { line: 3 },
        "bad line 3\n",
    ),
    (
        "t1 selector\nt64 selector",
        5,
        &[],
        Status::BadScript { line: 2 },
        "bad line 2\n",
    ),
    // The third call is in turn a write, no call at all, the flush, and a write of the bad line.
    ("t1 selector\n", 5, &[2], Status::WriteFault, "1 t1 selec"),
    ("t1 selector\n", 27, &[2], Status::Done, ANSWERED),
    ("t1 selector\n", 14, &[2], Status::WriteFault, ANSWERED),
    ("t1", 4, &[2], Status::BadScript { line: 1 }, "bad line"),
];

const ANSWERED: &str = "1 t1 selector -> no-caller\n";

/// Runs a script over a system of no callers.
fn script_ends(
    rt: &impl Abort,
    alloc: Global,
    source: &mut impl Source,
    (text, piece, fail_at, status, written): Ending,
) -> Result<(), Fail> {
    let mut sink = MemorySink::make(alloc, piece.max(1), fail_at.to_vec(alloc)?, 100)?;
    let ended = run_script(alloc, source, &mut sink, &mut Deaf);
    assert!(rt;
        ended == status && sink.bytes() == written.as_bytes(),
        "{text:?}, {piece}"
    );
    Ok(())
}

#[test]
fn scripts_end_with_their_status(rt: HostRuntime) -> Result<(), Fail> {
    let alloc = rt.alloc();
    for ending in SCRIPTS {
        let mut source = SteadySource::make(ending.0.as_bytes().to_vec(alloc)?);
        script_ends(&rt, alloc, &mut source, *ending)?;
    }
    let text = "t1 selector\n#";
    let mut source = MemorySource::make(text.as_bytes().to_vec(alloc)?, 12, vec![in alloc; 1]?);
    script_ends(
        &rt,
        alloc,
        &mut source,
        (text, 5, &[], Status::ReadFault, ""),
    )
}

/// The sink fails at its third call: in turn no call at all, the flush, and a write of the illegal line.
const HISTORIES: &[Ending] = &[
    (
        "1 t1 selector -> s0\n2 t2 selector -> no-caller\n",
        9,
        &[2],
        Status::Done,
        "legal 2\n",
    ),
    (
        "1 t1 selector -> s0\n",
        4,
        &[2],
        Status::WriteFault,
        "legal 1\n",
    ),
    (
        "1 t1 selector -> s1\n",
        5,
        &[2],
        Status::Illegal { line: 1 },
        "illegal 1:",
    ),
];

#[test]
fn histories_are_checked(rt: HostRuntime) -> Result<(), Fail> {
    let alloc = rt.alloc();
    let limits = Limits {
        callers: 2,
        selectors: 1,
        channels: 1,
        keys: 1,
    };
    for (text, piece, fail_at, status, written) in HISTORIES {
        let mut source = SteadySource::make(text.as_bytes().to_vec(alloc)?);
        let mut sink = MemorySink::make(alloc, *piece, fail_at.to_vec(alloc)?, 100)?;
        let ended = run_check(alloc, &mut source, &mut sink, limits, Rules::Now);
        assert!(rt;
            ended == *status && sink.bytes() == written.as_bytes(),
            "{text:?}"
        );
    }
    Ok(())
}

#[test]
fn a_reply_is_what_stands_behind_the_first_arrow(rt: HostRuntime) -> Result<(), Fail> {
    let alloc = rt.alloc();
    let text =
        b"1 t1 selector -> s0\n\n# 2 t1 selector\n2 t2 interrupted -> no -> \xff\n3 t1 wakeup s0 -> ";
    let calls = parse_history(alloc, text, Rules::Now).expect(&rt, "a history");
    let replies = [b"s0".as_slice(), b"no -> \xff".as_slice(), b"".as_slice()];
    assert_eq!(rt; calls.len(), replies.len());
    for (call, reply) in calls.iter().zip(replies.iter()) {
        assert_eq!(rt; call.reply, *reply);
    }
    Ok(())
}

/// With a source that never fails, a script is answered unless memory lacks or the sink fails.
fn answered<K: Sink, Y: System>(
    alloc: Global,
    text: Vec<u8>,
    output: &mut K,
    system: &mut Y,
) -> Status
    requires { Y.state system.old ≡ script_opening }
    ensures { (calls : List ScriptCall) → length text.items ≤ LONGEST_INPUT
        → IsScript text.items calls → ¬ Rose (K.faults output.old) (K.faults output.new)
        → (result ≡ Status.Done) ⊎ (result ≡ Status.Memory) }
{
    run_script(alloc, &mut SteadySource::make(text), output, system)
}

#[test]
fn a_steady_source_is_answered(rt: HostRuntime) -> Result<(), Fail> {
    let alloc = rt.alloc();
    let mut sink = MemorySink::make(alloc, 5, Vec::new(alloc), 100)?;
    let text = b"t1 selector\n".to_vec(alloc)?;
    assert_eq!(rt; answered(alloc, text, &mut sink, &mut Deaf), Status::Done);
    Ok(())
}
