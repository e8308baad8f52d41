ghost use Rattle.std.specs.Prelude.{◌≡◌};
ghost use Rattle.al_core.specs.Lines.{by_words, is_line_size};

use crate::values::Addr;
use al_source::limits::DEFAULT_LINE;
use al_source::{CommitOrder, Policy, RedOp};
use sqlite_items::Items;

/// A reduction variable: a local as `Local(k)`, a global as `Word(Global(k), 0)`.
#[derive(Clone, Copy, Debug, PartialEq, Eq)]
pub struct Red {
    pub op: RedOp,
    pub at: Addr,
}

/// How an annotated loop runs in rounds.
#[derive(Drop)]
pub struct Choice {
    pub policy: Policy,
    pub order: CommitOrder,
    pub reds: Items<Red>,
    /// The words of a line, by which conflicts are found: 1, 2, 4, 8 or 16.
    pub line: u32,
}

impl Choice {
    /// A choice whose conflicts are found word by word.
    pub fn by_words(policy: Policy, order: CommitOrder, reds: Items<Red>) -> Choice
        ensures { result ≡ by_words policy order reds }
    {
        Choice {
            policy,
            order,
            reds,
            line: DEFAULT_LINE,
        }
    }
}

/// Whether a number is the words of a line.
pub fn is_line_size(words: u32) -> bool
    ensures { result ≡ is_line_size words }
{
    matches!(words, 1 | 2 | 4 | 8 | 16)
}

/// What a loop's counter is compared with.
#[derive(Clone, Copy, Debug, PartialEq, Eq)]
pub enum Bound {
    Number(i64),
    Local(u32),
}

/// An annotated loop. Its body declares the locals from `first` to below `last`; `own` is its written annotation.
#[derive(Drop)]
pub struct LoopInfo {
    pub number: u32,
    pub func: u32,
    pub line: u32,
    pub counter: u32,
    pub bound: Bound,
    pub first: u32,
    pub last: u32,
    pub own: Choice,
}

/// The numbers of a run.
#[derive(Clone, Copy, Debug, PartialEq, Eq)]
pub struct Knobs {
    /// Chunks in a round, 1 to 64.
    pub lanes: u32,
    /// Iterations in a chunk, 1 to 65,536.
    pub chunk: u32,
    /// Worker threads, 1 to 64.
    pub threads: u32,
    /// Words of a line: 1, 2, 4, 8 or 16.
    pub line: u32,
    /// Steps of one iteration of an annotated loop, 1 to 1,000,000,000.
    pub iter_steps: u64,
    /// Steps of all code outside such iterations, 1 to 1,000,000,000.
    pub serial_steps: u64,
}
