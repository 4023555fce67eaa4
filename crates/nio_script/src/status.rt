//! How a command ends.
ghost use Rattle.std.specs.Prelude.{◌≡◌};
ghost use Rattle.nio_script.specs.declared.status.Status.TheVariants.{Memory};

use std::alloc::AllocError;

/// How a command ends. Each layer passes it on as it is.
#[derive(Clone, Copy, Debug, PartialEq, Eq)]
pub enum Status {
    /// All was done, and all output was written.
    Done,
    /// The command's words are not in the grammar of the command line.
    Usage,
    /// The line with this number, counted from 1, is the first that is not in the grammar of the input.
    BadScript { line: u64 },
    /// A read of the input failed.
    ReadFault,
    /// A write of the output failed.
    WriteFault,
    /// An allocation failed.
    Memory,
    /// The poller or the listener failed.
    NetFault,
    /// The call with this number, counted from 1, is the first of a history whose reply is wrong.
    Illegal { line: u64 },
    /// The input is longer than the command reads.
    TooLong,
}

impl Status {
    ghost use Rattle.nio_script.specs.Status.{code_of};

    /// The exit status of the process.
    pub fn code(self) -> u8
        ensures { result ≡ code_of self }
    {
        match self {
            Status::Done => 0,
            Status::Usage => 2,
            Status::BadScript { .. } => 3,
            Status::ReadFault => 4,
            Status::WriteFault => 5,
            Status::Memory => 6,
            Status::NetFault => 7,
            Status::Illegal { .. } => 8,
            Status::TooLong => 9,
        }
    }
}

impl From<AllocError> for Status {
    ghost from_gives = { λ _ status. status ≡ Memory };

    fn from(_: AllocError) -> Status {
        Status::Memory
    }
}
