//! What no clause says: that a trace has no bytes, and that it crosses into threads.
ghost use Rattle.std.specs.Prelude.{◌≡◌, [], ◌∷◌, ◌++◌, IfOk};

use nio_trace::*;
use std::alloc::AllocError;
use std::test::Fail;

/// Reads the two bytes of a number, the high one first.
struct Bytes;

impl Reading<u16, u8> for Bytes {
    ghost use Rattle.std.specs.Prelude.{◌/◌, ◌%◌, [], ◌∷◌};

    ghost items = { λ n. n / 256 ∷ n % 256 ∷ [] };
}

fn gathered(bytes: &[u8], last: &u8) -> Result<Trace<u8>, AllocError>
    ensures { IfOk result (λ t. t ≡ bytes.now ++ last.now ∷ 2 ∷ 3 ∷ []) }
{
    let mut trace = Trace::new();
    trace.extend(bytes);
    trace.push(last);
    trace.extend_from::<u16, Bytes>(&0x0203);
    trace.clone()
}

fn sent<T: Send>(value: T) -> T
    ensures { result ≡ value }
{
    value
}

fn shared<T: Sync>(_value: &T) {}

#[test]
fn a_trace_has_no_bytes(rt: HostRuntime) {
    assert_eq!(rt; size_of::<Trace<u64>>(), 0);
    assert_eq!(rt; size_of::<(u8, Trace<u64>)>(), 1);
}

#[test]
fn a_trace_crosses_into_threads(rt: HostRuntime) -> Result<(), Fail> {
    let trace = sent(gathered(b"ab", &b'c')?);
    shared(&trace);
    shared(&trace.again());
    Ok(())
}
