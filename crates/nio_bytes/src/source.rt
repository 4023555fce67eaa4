//! Where bytes come from.
ghost use Rattle.std.specs.Prelude.{◌≡◌, ℕ, ◌<◌, ◌≤◌, ◌↔◌, List, [], Option, length, take, IfOk, IfSome, OnErr};
ghost use Rattle.std.specs.Io.KnownBytes.{prepend_known};
ghost use Rattle.nio_bytes.specs.Cause.{HasCause};

use crate::failed::Failed;

/// Where bytes come from, in order and each once.
pub trait Source {
    /// The bytes still to come, where contracts know them: those of a source in memory.
    ghost left: { Self → Option (List ℕ) };

    /// How often a read has failed.
    ghost faults: { Self → ℕ };

    /// Copies the next bytes to the front of `into`, and returns how many: 0 only at the end, or
    /// where `into` is empty. The rest of `into` may be overwritten with any bytes.
    fn read(&mut self, into: &mut [u8]) -> Result<usize, Failed>
        ensures within { IfOk result (λ count. count ≤ length into.new) }
        ensures next { IfOk result (λ count.
            left self.old ≡ prepend_known (take count into.new) (left self.new)) }
        ensures end { IfOk result (λ count. 0 < length into.new →
            IfSome (left self.old) (λ bytes. (count ≡ 0) ↔ (bytes ≡ []))) }
        ensures kept { OnErr result (left self.new ≡ left self.old) }
        ensures cause { HasCause (faults self.old) (faults self.new) result };
}
