//! The output of a command.
ghost use Rattle.std.specs.Prelude.{◌≡◌, ◌<◌, ◌≤◌, ◌⊎◌, ◌++◌, [], false, length, IfErr, IsErrOf, OnOk, OnErr};
ghost use Rattle.nio_bytes.specs.Cause.{HasCause};
ghost use Rattle.nio_bytes.specs.Sink.{shown};
ghost use Rattle.nio_script.specs.Input.{CausesFault};
ghost use Rattle.nio_script.specs.Output.{Writes, WritesPrefix, IsWritten, WritesOrFails, Gathers};

use crate::status::Status;
use nio_bytes::Sink;

/// Writes all the bytes. Each write is offered all that is left of them. At `WriteFault`, the only
/// error, the sink may have taken some from their front.
pub fn write_all<K: Sink>(sink: &mut K, bytes: &[u8]) -> Result<(), Status>
    ensures ok { OnOk result (Writes K.Sink sink.old sink.new bytes.now) }
    ensures err { OnErr result (WritesPrefix K.Sink sink.old sink.new bytes.now) }
    ensures none { bytes.now ≡ [] → sink.new ≡ sink.old }
    ensures unflushed { 0 < length bytes.now →
        K.flushed sink.new ≡ shown (K.flushed sink.old) false }
    ensures cause { HasCause (K.faults sink.old) (K.faults sink.new) result }
    ensures fault { IfErr result (λ status. status ≡ Status.WriteFault) }
{
    let mut taken = 0;
    while taken < bytes.len() {
        let Ok(count) = sink.write(&bytes[taken..]) else {
            return Err(Status::WriteFault);
        };
        taken += count;
    }
    Ok(())
}

/// Writes all the bytes, and then flushes once. At `WriteFault`, the only error, the sink may have
/// taken some from their front.
pub fn write_out<K: Sink>(sink: &mut K, bytes: &[u8]) -> Result<(), Status>
    ensures ok { OnOk result (IsWritten K.Sink sink.old sink.new bytes.now) }
    ensures err { OnErr result (WritesPrefix K.Sink sink.old sink.new bytes.now) }
    ensures cause { HasCause (K.faults sink.old) (K.faults sink.new) result }
    ensures fault { IfErr result (λ status. status ≡ Status.WriteFault) }
{
    write_all(sink, bytes)?;
    let Ok(()) = sink.flush() else {
        return Err(Status::WriteFault);
    };
    Ok(())
}

/// Writes all the bytes, and then flushes once. A failure of the sink is ignored.
pub fn offer<K: Sink>(output: &mut K, bytes: &[u8])
    ensures said { WritesOrFails K.Sink output.old output.new bytes.now }
    ensures later { K.faults output.old ≤ K.faults output.new }
{
    let _ = write_out(output, bytes);
}

/// From so many bytes on, the lines that are kept back are written.
const GATHERED: usize = 65_536;

/// Appends a line to those that are kept back, and writes them all once they are 65,536 bytes or more. At
/// `WriteFault` and `Memory`, the only errors, the sink may have taken some from their front.
pub fn put_line<K: Sink>(sink: &mut K, kept: &mut Vec<u8>, line: &[u8]) -> Result<(), Status>
    ensures ok { OnOk result (Gathers K.Sink sink.old sink.new
        kept.old.items kept.new.items line.now) }
    ensures err { OnErr result (WritesPrefix K.Sink sink.old sink.new
        (kept.old.items ++ line.now)) }
    ensures cause { CausesFault (K.faults sink.old) (K.faults sink.new)
        (IsErrOf result Status.WriteFault) }
    ensures others { IfErr result (λ status. (status ≡ Status.WriteFault)
        ⊎ (status ≡ Status.Memory)) }
{
    kept.extend_from_slice(line)?;
    if kept.len() >= GATHERED {
        write_all(sink, kept)?;
        kept.clear();
    }
    Ok(())
}
