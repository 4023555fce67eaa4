//! A source over std's `Read`.
ghost use Rattle.std.specs.Prelude.{◌≡◌, ◌≤◌, length, None, IfOk};
ghost use Rattle.std.specs.Io.KnownBytes.{ReadConsumes};
ghost use Rattle.nio_bytes.specs.Cause.{HasCause};

use crate::failed::Failed;
use crate::fault_count::FaultCount;
use crate::source::Source;
use std::io::{ErrorKind, Read};

/// Reads from a reader, as a file or standard input. Its clauses as a `Source` don't show the bytes
/// that are still to come. A read that is interrupted is tried again; every other error is a fault.
#[derive(Drop)]
pub struct StdSource<R> {
    inner: R,
    faults: FaultCount,
}

impl<R: Read> StdSource<R> {
    ghost use Rattle.nio_bytes.specs.StdSource.{reader, faults_of};

    /// A source over this reader.
    pub fn over(inner: R) -> StdSource<R>
        ensures reader { reader result ≡ inner }
        ensures faults { faults_of result ≡ 0 }
    {
        StdSource {
            inner,
            faults: FaultCount::new(),
        }
    }
}

impl<R: Read> Source for StdSource<R> {
    ghost use Rattle.nio_bytes.specs.StdSource.{reader, faults_of};

    ghost left = { λ _. None };

    ghost faults = { faults_of };

    fn read(&mut self, into: &mut [u8]) -> Result<usize, Failed>
        ensures within { IfOk result (λ count. count ≤ length into.new) }
        ensures cause { HasCause (faults_of self.old) (faults_of self.new) result }

        // As the reader, where that shows its bytes.
        ensures bytes { ReadConsumes (R.remaining (reader self.old)) (R.remaining (reader self.new))
            result into.new }
    {
        for _ in 0..u64::MAX {
            match self.inner.read(into) {
                Ok(count) => return Ok(count),
                Err(error) if error.kind() == ErrorKind::Interrupted => {}
                Err(_) => break,
            }
        }
        Err(self.faults.fail())
    }
}
