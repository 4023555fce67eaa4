//! What is due in a direction of a connection, which goes from a stream to its peer, by the bytes that it holds: they
//! were read from the stream, and not yet written to the peer.
ghost use Rattle.std.specs.Prelude.{◌≡◌};
ghost use Rattle.nio_jobs.specs.Directions.{held_after_read, held_after_write, read_after_read};
ghost use Rattle.nio_jobs.specs.Directions.{read_after_write, write_after_read, write_after_write};
ghost use Rattle.nio_jobs.specs.Directions.{StaysFlowing};

use nio_relay::CAPACITY;

/// How many bytes a direction holds, and a read that is in flight may add, together at most: two buffers. With one,
/// each read after a short one would be for the rest of a buffer.
pub(crate) const ROOM: u64 = 2 * CAPACITY as u64;

/// How many bytes a direction holds, and the lengths of the operations that are due in it: a write to the peer and a
/// read from the stream. None is due where the length is 0.
#[derive(Clone, Copy, Debug, PartialEq, Eq)]
pub(crate) struct Due {
    pub held: u64,
    pub write: u64,
    pub read: u64,
}

/// What is due once more bytes were read into a direction that held so many.
pub(crate) fn after_read(held: u64, count: u64) -> Due
    ensures held { result.held ≡ held_after_read held count }
    ensures write { result.write ≡ write_after_read held count }
    ensures read { result.read ≡ read_after_read held count }
{
    let now = held.saturating_add(count).min(ROOM);
    Due {
        held: now,
        write: if held == 0 { count } else { 0 },
        read: ROOM - now,
    }
}

/// What is due once bytes were written of a direction that held so many.
pub(crate) fn after_write(held: u64, count: u64) -> Due
    ensures held { result.held ≡ held_after_write held count }
    ensures write { result.write ≡ write_after_write held count }
    ensures read { result.read ≡ read_after_write held count }
{
    let now = held.saturating_sub(count);
    Due {
        held: now,
        write: now,
        read: if held == ROOM { count } else { 0 },
    }
}

/// Where a read is in flight exactly where there is room, and a write exactly where bytes are held, what is due after a
/// read or a write keeps that. So it begins, with one read; so some operation is in flight, until the stream has ended
/// or a start was refused. What is held and what a due read may read fit together.
pub fn directions_law()
    ensures { StaysFlowing }
{}
