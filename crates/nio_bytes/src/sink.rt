//! Where bytes go.
ghost use Rattle.std.specs.Prelude.{◌≡◌, ℕ, ◌<◌, ◌≤◌, Bool, true, false, List, Option, length, take, IfOk, OnOk, OnErr};
ghost use Rattle.std.specs.Io.KnownBytes.{append_known};
ghost use Rattle.nio_bytes.specs.Cause.{HasCause};
ghost use Rattle.nio_bytes.specs.Sink.{shown};

use crate::failed::Failed;

/// Where bytes go, in order and each once.
pub trait Sink {
    /// The bytes taken so far, where contracts know them: those of a sink in memory.
    ghost taken: { Self → Option (List ℕ) };

    /// Whether a flush has succeeded since the last write, where contracts know that.
    ghost flushed: { Self → Option Bool };

    /// How often a write or a flush has failed.
    ghost faults: { Self → ℕ };

    /// Takes bytes from the front of `from`, and returns how many: at least 1, unless `from` is
    /// empty.
    fn write(&mut self, from: &[u8]) -> Result<usize, Failed>
        ensures within { IfOk result (λ count. count ≤ length from.now) }
        ensures some { IfOk result (λ count. 0 < length from.now → 0 < count) }
        ensures taken { IfOk result (λ count.
            taken self.new ≡ append_known (taken self.old) (take count from.now)) }
        ensures kept { OnErr result (taken self.new ≡ taken self.old) }
        ensures unflushed { flushed self.new ≡ shown (flushed self.old) false }
        ensures cause { HasCause (faults self.old) (faults self.new) result };

    /// Passes on the bytes that the sink has buffered.
    fn flush(&mut self) -> Result<(), Failed>
        ensures kept { taken self.new ≡ taken self.old }
        ensures flushed { OnOk result (flushed self.new ≡ shown (flushed self.old) true) }
        ensures failed { OnErr result (flushed self.new ≡ flushed self.old) }
        ensures cause { HasCause (faults self.old) (faults self.new) result };
}
