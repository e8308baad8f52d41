//! What tests showed of candidates.
use sqlite_items::Items;

/// Why a test refuses a candidate: it prints or ends otherwise than the plain run, more than half of its runs of chunks
/// were not kept, or its span is more than ten times that of the plain run. The first of these that holds counts.
#[derive(Clone, Copy, Debug, PartialEq, Eq)]
pub enum Why {
    Output,
    Conflicts,
    Steps,
}

/// What the tests showed of a candidate.
#[derive(Clone, Copy, Debug, PartialEq, Eq)]
pub enum Found {
    /// No test refused it. The sum of its spans.
    Accepted(u128),
    /// The first test that refused it, from 0, and why.
    Refused { test: u32, why: Why },
}

/// What the tests showed of all candidates, and the number of the accepted one of least span, of equal ones the
/// earliest.
#[derive(Drop)]
pub struct Table {
    pub rows: Items<Found>,
    pub best: Option<u32>,
}
