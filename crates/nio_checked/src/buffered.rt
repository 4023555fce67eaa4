//! The calls of a checked net that take a buffer.
ghost use Rattle.std.specs.Prelude.{◌≡◌, ◌≢◌, ◌↔◌, ◌-◌, ◌<◌, ◌≤◌, [], Err, IfOk, IsTrue, Ok, OnErr, length, take};
ghost use Rattle.nio_link.specs.Nets.{view_of, Reads, Writes};
ghost use Rattle.nio_link.specs.Places.{IsLinked};
ghost use Rattle.nio_link.specs.Readiness.{ready_after_read, ready_after_write};
ghost use Rattle.nio_link.specs.declared.net.Got.TheVariants as got;
ghost use Rattle.nio_link.specs.declared.net.Put.TheVariants as put;
ghost use Rattle.nio_link.specs.declared.place.Standing.TheVariants as standing;
ghost use Rattle.nio_checked.specs.Buffered.{Gains, IsGotBy, Loses, came_to, count_got, count_put};
ghost use Rattle.nio_checked.specs.Checked.{as_failed};
ghost use Rattle.nio_checked.specs.Listed.{IsTold, told_after};
ghost use Rattle.nio_checked.specs.declared.calls.NetError.TheVariants.{NotAllowed};

use crate::buffer::ByteBuffer;
use crate::calls::NetError;
use crate::checked::CheckedNet;
use nio_base::ChanId;
use nio_link::{Got, Net, Put};

// How many bytes one read takes at most.
const BLOCK: usize = 4_096;

impl<N: Net + Drop> CheckedNet<N> {
    /// Reads what has come on a link into the buffer, as far as it has room: Java's `read`. `NotYet` where `read` says
    /// it, and where the buffer is full. One call reads at most 4,096 bytes.
    pub fn read_buf(&mut self, chan: ChanId, buffer: &mut ByteBuffer) -> Result<Got, NetError>
        ensures allowed { result ≢ Err NotAllowed ↔ IsLinked (N.place self.old.net chan).standing }
        ensures refused { result ≡ Err NotAllowed → self.new ≡ self.old }
        ensures untold { result ≢ Err NotAllowed → ¬ IsTold self.old.told chan.number 1
            → (result ≡ Ok got.NotYet) × (self.new ≡ self.old) }
        ensures full { result ≢ Err NotAllowed → buffer.old.capacity ≤ length buffer.old.items
            → (result ≡ Ok got.NotYet) × (self.new ≡ self.old) }

        // What comes to the buffer, or goes from it.
        ensures gains { IfOk result (λ got. Gains buffer.old buffer.new (count_got got)) }
        ensures err { OnErr result (buffer.new ≡ buffer.old) }

        // As every net: what came to the buffer was read.
        ensures got { IfOk result (IsGotBy (buffer.old.capacity - length buffer.old.items)) }
        ensures call { result ≢ Err NotAllowed → IsTold self.old.told chan.number 1
            → length buffer.old.items < buffer.old.capacity
            → Reads chan (view_of N.Net self.old.net) (view_of N.Net self.new.net) (came_to buffer.old buffer.new)
            (came_to buffer.old buffer.new) (as_failed result) }

        // What is told from then on.
        ensures told { result ≢ Err NotAllowed → IsTold self.old.told chan.number 1
            → length buffer.old.items < buffer.old.capacity
            → self.new.told ≡ told_after chan.number (ready_after_read (as_failed result)) self.old.told }
        ensures rest { self.new ≡ record self.old { net = self.new.net; told = self.new.told } }
    {
        let size = buffer.room().min(BLOCK);
        if size == 0 {
            return nothing_got(self.may_read(chan));
        }
        let mut block = [0; BLOCK];
        let got = self.read_front(chan, &mut block, size)?;
        match got {
            Got::Bytes(count) => {
                buffer.put(&block[..count]);
                Ok(Got::Bytes(count))
            }
            Got::End => Ok(Got::End),
            Got::NotYet => Ok(Got::NotYet),
        }
    }

    // Reads into the front of the block.
    fn read_front(&mut self, chan: ChanId, block: &mut [u8], size: usize) -> Result<Got, NetError>
        requires some { 1 ≤ size }
        requires fits { size ≤ length block.old }
        ensures allowed { result ≢ Err NotAllowed ↔ IsLinked (N.place self.old.net chan).standing }
        ensures refused { result ≡ Err NotAllowed → self.new ≡ self.old }
        ensures untold { result ≢ Err NotAllowed → ¬ IsTold self.old.told chan.number 1
            → (result ≡ Ok got.NotYet) × (self.new ≡ self.old) }
        ensures got { IfOk result (IsGotBy size) }
        ensures call { result ≢ Err NotAllowed → IsTold self.old.told chan.number 1
            → Reads chan (view_of N.Net self.old.net) (view_of N.Net self.new.net) (take size block.old)
            (take size block.new) (as_failed result) }
        ensures told { result ≢ Err NotAllowed → IsTold self.old.told chan.number 1
            → self.new.told ≡ told_after chan.number (ready_after_read (as_failed result)) self.old.told }
        ensures rest { self.new ≡ record self.old { net = self.new.net; told = self.new.told } }
    {
        self.read(chan, &mut block[..size])
    }

    /// Writes bytes of the buffer on a link, from the first on, as many as it takes: Java's `write`. They leave the
    /// buffer. `NotYet` where `write` says it, and where the buffer is empty.
    pub fn write_buf(&mut self, chan: ChanId, buffer: &mut ByteBuffer) -> Result<Put, NetError>
        ensures allowed { result ≢ Err NotAllowed ↔ ((N.place self.old.net chan).standing ≡ standing.Linked) }
        ensures refused { result ≡ Err NotAllowed → self.new ≡ self.old }
        ensures untold { result ≢ Err NotAllowed → ¬ IsTold self.old.told chan.number 4
            → (result ≡ Ok put.NotYet) × (self.new ≡ self.old) }
        ensures empty { result ≢ Err NotAllowed → buffer.old.items ≡ []
            → (result ≡ Ok put.NotYet) × (self.new ≡ self.old) }

        // What comes to the buffer, or goes from it.
        ensures loses { IfOk result (λ put. Loses buffer.old buffer.new (count_put put)) }
        ensures err { OnErr result (buffer.new ≡ buffer.old) }

        // As every net.
        ensures call { result ≢ Err NotAllowed → IsTold self.old.told chan.number 4 → buffer.old.items ≢ []
            → Writes chan (view_of N.Net self.old.net) (view_of N.Net self.new.net) buffer.old.items
            (as_failed result) }

        // What is told from then on.
        ensures told { result ≢ Err NotAllowed → IsTold self.old.told chan.number 4 → buffer.old.items ≢ []
            → self.new.told ≡ told_after chan.number (ready_after_write (as_failed result)) self.old.told }
        ensures rest { self.new ≡ record self.old { net = self.new.net; told = self.new.told } }
    {
        if buffer.is_empty() {
            return nothing_put(self.may_write(chan));
        }
        let put = self.write(chan, buffer.front())?;
        if let Put::Bytes(count) = put {
            buffer.advance(count);
        }
        Ok(put)
    }
}

// The answer of a read that takes nothing.
fn nothing_got(allowed: bool) -> Result<Got, NetError>
    ensures allowed { result ≢ Err NotAllowed ↔ IsTrue allowed }
    ensures nothing { result ≢ Err NotAllowed → result ≡ Ok got.NotYet }
    ensures refused { OnErr result (result ≡ Err NotAllowed) }
{
    if allowed {
        Ok(Got::NotYet)
    } else {
        Err(NetError::NotAllowed)
    }
}

// The answer of a write that gives nothing.
fn nothing_put(allowed: bool) -> Result<Put, NetError>
    ensures allowed { result ≢ Err NotAllowed ↔ IsTrue allowed }
    ensures nothing { result ≢ Err NotAllowed → result ≡ Ok put.NotYet }
    ensures refused { OnErr result (result ≡ Err NotAllowed) }
{
    if allowed {
        Ok(Put::NotYet)
    } else {
        Err(NetError::NotAllowed)
    }
}
