use crate::values::Trap;
use al_source::Bytes;
use sqlite_items::Items;

/// How a run ends.
#[derive(Clone, Copy, Debug, PartialEq, Eq)]
pub enum Ending {
    Done,
    /// By a trap, at this line.
    Trap(Trap, u32),
}

/// What a round says of one of its chunks.
#[derive(Clone, Copy, Debug, PartialEq, Eq)]
pub enum Verdict {
    Commit,
    /// It commits, and its trap ends the program.
    CommitTrap,
    /// It clashes, and stays pending.
    Fail,
    /// It comes after what stops the round, and stays pending.
    After,
}

/// A chunk of a round, by its number, with its verdict.
#[derive(Clone, Copy, Debug, PartialEq, Eq)]
pub struct Judged {
    pub chunk: u64,
    pub verdict: Verdict,
}

/// What happens in a run, as a trace tells it.
#[derive(Drop)]
pub enum Event {
    /// An annotated loop begins to run in rounds.
    Enter {
        number: u32,
        execution: u32,
        line: u32,
        trips: u64,
        chunks: u64,
    },
    /// The chunks of a round, in order.
    Round(Items<Judged>),
}

/// A whole run.
#[derive(Drop)]
pub struct Report {
    pub output: Bytes,
    pub ending: Ending,
    /// Executions of annotated loops that ran in rounds.
    pub loops: u32,
    pub rounds: u64,
    /// Runs of chunks.
    pub attempts: u64,
    /// Verdicts `Fail` and `After`.
    pub aborted: u64,
    /// Steps outside rounds, and for each round those of its longest chunk.
    pub span: u128,
    pub events: Items<Event>,
}
