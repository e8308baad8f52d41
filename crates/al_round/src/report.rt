use al_core::{Ending, Verdict};
use al_source::Bytes;
use sqlite_items::Items;

/// What a round comes to.
#[derive(Drop)]
pub struct RoundReport {
    /// The verdict on each chunk, in their order.
    pub verdicts: Items<Verdict>,
    /// What the committed chunks printed.
    pub printed: Bytes,
    /// How the last committed chunk ended.
    pub ending: Ending,
    /// The most steps of a chunk.
    pub longest: u64,
}
