//! A sink over std's `Write`.
ghost use Rattle.std.specs.Prelude.{◌≡◌, ◌<◌, ◌≤◌, length, None, IfOk};
ghost use Rattle.std.specs.Io.KnownBytes.{WriteAppends, Keeps};
ghost use Rattle.nio_bytes.specs.Cause.{HasCause};

use crate::failed::Failed;
use crate::fault_count::FaultCount;
use crate::sink::Sink;
use std::io::{ErrorKind, Write};

/// Writes to a writer, as a file or standard output. Its clauses as a `Sink` show neither the bytes
/// that it took nor whether it was flushed. A call that is interrupted is tried again; every other
/// error is a fault, and so is a write that takes nothing of what it was given.
#[derive(Drop)]
pub struct StdSink<T> {
    inner: T,
    faults: FaultCount,
}

impl<T: Write> StdSink<T> {
    ghost use Rattle.nio_bytes.specs.StdSink.{writer, faults_of};

    /// A sink over this writer.
    pub fn over(inner: T) -> StdSink<T>
        ensures writer { writer result ≡ inner }
        ensures faults { faults_of result ≡ 0 }
    {
        StdSink {
            inner,
            faults: FaultCount::new(),
        }
    }
}

impl<T: Write> Sink for StdSink<T> {
    ghost use Rattle.nio_bytes.specs.StdSink.{writer, faults_of};

    ghost taken = { λ _. None };

    ghost flushed = { λ _. None };

    ghost faults = { faults_of };

    fn write(&mut self, from: &[u8]) -> Result<usize, Failed>
        ensures within { IfOk result (λ count. count ≤ length from.now) }
        ensures some { IfOk result (λ count. 0 < length from.now → 0 < count) }
        ensures cause { HasCause (faults_of self.old) (faults_of self.new) result }

        // As the writer, where that shows its bytes.
        ensures bytes { WriteAppends (T.contents (writer self.old)) (T.contents (writer self.new))
            result from.now }
    {
        for _ in 0..u64::MAX {
            match self.inner.write(from) {
                Ok(0) if !from.is_empty() => break,
                Ok(count) => return Ok(count),
                Err(error) if error.kind() == ErrorKind::Interrupted => {}
                Err(_) => break,
            }
        }
        Err(self.faults.fail())
    }

    fn flush(&mut self) -> Result<(), Failed>
        ensures cause { HasCause (faults_of self.old) (faults_of self.new) result }
        ensures bytes { Keeps (T.contents (writer self.old)) (T.contents (writer self.new)) }
    {
        for _ in 0..u64::MAX {
            match self.inner.flush() {
                Ok(()) => return Ok(()),
                Err(error) if error.kind() == ErrorKind::Interrupted => {}
                Err(_) => break,
            }
        }
        Err(self.faults.fail())
    }
}
