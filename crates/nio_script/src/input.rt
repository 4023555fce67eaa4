//! The input of a command, read whole before anything is done.
ghost use Rattle.std.specs.Prelude.{◌≡◌, ◌⊎◌, IfOk, IfErr, IsErrOf, vec_len};
ghost use Rattle.nio_script.specs.Input.{IsReadWhole, StopsPastLongest, CausesFault};

use crate::status::Status;
use nio_bytes::Source;
use std::alloc::{AllocError, Global};

/// The longest input that a command reads, in bytes.
pub const LONGEST_INPUT: usize = 16_777_216;

/// How many bytes a read asks for at most.
const PIECE: usize = 65_536;

/// Reads the input to its end. Past the longest input it takes one byte and stops, with `TooLong`,
/// before it asks for memory to keep that byte. The other errors are `ReadFault` and `Memory`.
pub fn read_input<S: Source>(alloc: Global, source: &mut S) -> Result<Vec<u8>, Status>
    ensures whole { IfOk result (λ input.
        IsReadWhole S.Source source.old source.new input.items) }
    ensures too_long { StopsPastLongest S.Source source.old source.new
        (IsErrOf result Status.TooLong) }
    ensures fault { CausesFault (S.faults source.old) (S.faults source.new)
        (IsErrOf result Status.ReadFault) }
    ensures others { IfErr result (λ status. (status ≡ Status.TooLong)
        ⊎ (status ≡ Status.ReadFault) ⊎ (status ≡ Status.Memory)) }
{
    let mut buffer = zeros(alloc, PIECE)?;
    let piece = buffer.as_mut_slice();
    let mut input = Vec::new(alloc);
    loop {
        let room = PIECE.min(LONGEST_INPUT + 1 - input.len());
        let Ok(count) = source.read(&mut piece[..room]) else {
            return Err(Status::ReadFault);
        };
        if count == 0 {
            return Ok(input);
        }
        if count > LONGEST_INPUT - input.len() {
            return Err(Status::TooLong);
        }
        input.extend_from_slice(&piece[..count])?;
    }
}

/// So many bytes to read into.
fn zeros(alloc: Global, count: usize) -> Result<Vec<u8>, AllocError>
    ensures { IfOk result (λ bytes. vec_len bytes ≡ count) }
{
    vec![in alloc; 0; count]
}
