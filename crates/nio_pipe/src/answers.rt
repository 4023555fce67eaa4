//! What reading and writing answer.
ghost use Rattle.std.specs.Prelude.{◌≡◌, ◌&&◌, Ok, Err};
ghost use Rattle.nio_pipe.specs.Answers.{leaves_seal as answer_leaves_seal, read_answer as answer_of_read, read_waits};
ghost use Rattle.nio_pipe.specs.Answers.{refusal_after as refusal_of_wait, write_answer as answer_of_write};
ghost use Rattle.nio_pipe.specs.Answers.{write_waits};

use nio_steps::PipeError;

/// What a read answers.
#[derive(Clone, Copy, Debug, PartialEq, Eq, Hash)]
pub enum PipeRead {
    /// So many bytes were read. It is 0 only for a slice without a place.
    Bytes(usize),
    /// All bytes were read, and no more come.
    End,
    /// No byte waits, and more may come.
    NotYet,
}

/// What a write answers.
#[derive(Clone, Copy, Debug, PartialEq, Eq, Hash)]
pub enum PipeWrite {
    /// So many bytes were written. It is 0 only for an empty slice.
    Bytes(usize),
    /// There is no free place.
    NotYet,
}

// What a read answers that gave so many bytes into a slice of this length.
pub(crate) fn read_answer(length: usize, given: usize, sealed: bool) -> PipeRead
    ensures { result ≡ answer_of_read length given sealed }
{
    if length == 0 {
        PipeRead::Bytes(0)
    } else if 0 < given {
        PipeRead::Bytes(given)
    } else if sealed {
        PipeRead::End
    } else {
        PipeRead::NotYet
    }
}

// What a write answers that took so many bytes from a slice of this length.
pub(crate) fn write_answer(length: usize, taken: usize) -> PipeWrite
    ensures { result ≡ answer_of_write length taken }
{
    if length == 0 {
        PipeWrite::Bytes(0)
    } else if 0 < taken {
        PipeWrite::Bytes(taken)
    } else {
        PipeWrite::NotYet
    }
}

// Whether a write that is refused so leaves the seal.
pub(crate) fn leaves_seal(refusal: PipeError) -> bool
    ensures { result ≡ answer_leaves_seal (Err refusal) }
{
    match refusal {
        PipeError::ClosedChannel | PipeError::ClosedByInterrupt | PipeError::AsynchronousClose =>
            true,
        PipeError::BrokenPipe => false,
    }
}

// Whether a read that waits has to be tried again.
pub(crate) fn read_goes_on(answer: PipeRead, blocking: bool) -> bool
    ensures { result ≡ (read_waits (Ok answer) && blocking) }
{
    match answer {
        PipeRead::Bytes(_) | PipeRead::End => false,
        PipeRead::NotYet => blocking,
    }
}

// Whether a write that waits has to be tried again.
pub(crate) fn write_goes_on(answer: PipeWrite, blocking: bool) -> bool
    ensures { result ≡ (write_waits (Ok answer) && blocking) }
{
    match answer {
        PipeWrite::Bytes(_) => false,
        PipeWrite::NotYet => blocking,
    }
}

// How a call is refused that waited, or didn't.
pub(crate) fn refusal_after(waited: bool, refusal: PipeError) -> PipeError
    ensures { result ≡ refusal_of_wait waited refusal }
{
    match refusal {
        PipeError::ClosedChannel if waited => PipeError::AsynchronousClose,
        _ => refusal,
    }
}
