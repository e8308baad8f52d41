use crate::operators::RedOp;
use crate::texts::Name;
use sqlite_items::Items;

/// Which earlier writes of its round a chunk may not meet.
#[derive(Clone, Copy, Debug, PartialEq, Eq)]
pub enum Policy {
    /// Neither its reads nor its writes may meet them.
    Full,
    /// Its reads may not meet them.
    Raw,
    /// Its writes may not meet them.
    Waw,
    /// It may meet any of them.
    None,
}

/// In which order the chunks of a round may commit.
#[derive(Clone, Copy, Debug, PartialEq, Eq)]
pub enum CommitOrder {
    /// After a chunk that failed no later one of its round commits.
    InOrder,
    /// A chunk that failed holds back none of those after it.
    OutOfOrder,
}

/// An annotation as it is written before a loop.
#[derive(Drop)]
pub struct LoopNote {
    pub policy: Policy,
    pub order: CommitOrder,
    pub reduce: Items<NamedRed>,
}

/// One variable of an annotation's `reduce`.
#[derive(Drop)]
pub struct NamedRed {
    pub op: RedOp,
    pub name: Name,
}
