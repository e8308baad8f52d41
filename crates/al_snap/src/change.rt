use al_core::{Ending, Obj};
use al_heap::Slots;
use al_sets::{AddrMap, AddrSet};
use al_values::PackedValue;
use sqlite_items::Items;

/// What a chunk did.
#[derive(Drop)]
pub struct Change {
    /// The addresses that were read before they were written.
    pub reads: AddrSet,
    /// The addresses that were written: words and locals, and the heads of objects that were made or freed.
    pub touched: AddrSet,
    /// The last value of each word and local that was written, also of words of objects that were freed then.
    pub writes: AddrMap,
    /// The objects that the chunk made; the slot of one that it freed again is empty.
    pub made: Slots,
    /// The other objects that it freed, in order.
    pub freed: Items<Obj>,
    /// What each reduction gathered.
    pub accumulators: Items<PackedValue>,
    pub printed: Items<u8>,
    /// How the chunk ended.
    pub ending: Ending,
    /// The steps that its iterations spent.
    pub steps: u64,
}
