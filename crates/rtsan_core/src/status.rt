//! The outcome of a command.

ghost use Rattle.std.specs.Prelude.{◌≡◌, None};
ghost use Rattle.rtsan_core.specs.Statuses.{number_of};

use crate::finished::Finished;

/// How a command ended.
#[derive(Clone, Copy, Debug, PartialEq, Eq)]
pub enum Status {
    /// no other status applies
    Clean,
    /// a warning was given
    Warned,
    /// a thread of the run reported a blocking call
    Reported,
    /// the source is refused: its spelling, its grammar or its types; or it isn't of the form that is built
    Refused,
    /// the words are no command
    Usage,
    /// the source file could not be read
    ReadFault,
    /// the text could not be written whole
    WriteFault,
    /// memory did not suffice
    NoMemory,
    /// the source has more than 1,048,576 bytes, its unit passes a limit, or its definitions have more than 262,144 nodes
    Limit,
    /// `main` or a called function has no definition
    Unlinked,
    /// a thread of the run was trapped
    Trapped,
    /// a thread of the run came to the event limit or to the wait limit
    Stopped,
}

impl Status {
    /// The number with which the program ends.
    pub fn number(self) -> u8
        ensures { result ≡ number_of self }
    {
        match self {
            Status::Clean => 0,
            Status::Warned => 1,
            Status::Reported => 2,
            Status::Refused => 3,
            Status::Usage => 4,
            Status::ReadFault => 5,
            Status::WriteFault => 6,
            Status::NoMemory => 7,
            Status::Limit => 8,
            Status::Unlinked => 9,
            Status::Trapped => 10,
            Status::Stopped => 11,
        }
    }
}

/// The status of a command, and what its run left, where there was one.
#[derive(Drop)]
pub struct Outcome {
    pub status: Status,
    pub finished: Option<Finished>,
}

/// A command that ended with this status and left no run.
pub fn ended(status: Status) -> Outcome
    ensures status { result.status ≡ status }
    ensures finished { result.finished ≡ None }
{
    Outcome {
        status,
        finished: None,
    }
}
