ghost use Rattle.std.specs.Prelude.{◌≡◌};
ghost use Rattle.al_answers.specs.Plans as spec;
ghost use Rattle.al_answers.specs.Statuses as statuses;

use sqlite_items::Items;
use std::alloc::Global;

/// How a call ends.
#[derive(Clone, Copy, Debug, PartialEq, Eq)]
pub enum Status {
    Done,
    ProgramRefused,
    WordsRefused,
    Trapped,
    NotRead,
    NotWritten,
    NoMemory,
    InputRefused,
    /// A word of the command line is no text.
    NotText,
}

impl Status {
    /// The status of the process.
    pub fn code(self) -> u8
        ensures { result ≡ statuses.code self }
    {
        match self {
            Status::Done => 0,
            Status::ProgramRefused => 1,
            Status::WordsRefused => 2,
            Status::Trapped => 3,
            Status::NotRead => 4,
            Status::NotWritten => 5,
            Status::NoMemory => 6,
            Status::InputRefused => 7,
            Status::NotText => 10,
        }
    }
}

/// What is to be written, and the status to end with.
#[derive(Drop)]
pub struct Answer {
    pub status: u8,
    pub out: Items<u8>,
    pub err: Items<u8>,
}

/// One line to standard error, and nothing to standard output.
pub fn failed(alloc: Global, status: Status, line: Items<u8>) -> Answer
    ensures { result ≡ spec.failed (statuses.code status) line }
{
    Answer {
        status: status.code(),
        out: Items::new(alloc),
        err: line,
    }
}
