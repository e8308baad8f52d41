//! A gate that counts its calls.

use crate::held::bit;
use al_batch::PoolGate;
use al_workers::Gate;
use std::sync::atomic::{AtomicU64, Ordering};

/// Counts the calls for lanes or jobs below 64, and notes which came. It notes as a fault an `after` whose `before` has
/// not come, and a number that comes twice.
#[derive(Drop)]
pub(crate) struct Counter {
    began: AtomicU64,
    ended: AtomicU64,
    faults: AtomicU64,
}

impl Counter {
    pub(crate) fn new() -> Counter {
        Counter {
            began: AtomicU64::new(0),
            ended: AtomicU64::new(0),
            faults: AtomicU64::new(0),
        }
    }

    fn note_before(&self, number: u32) {
        if self.began.fetch_or(bit(number), Ordering::SeqCst) & bit(number) != 0 {
            self.faults.fetch_add(1, Ordering::SeqCst);
        }
    }

    fn note_after(&self, number: u32) {
        if self.began.load(Ordering::SeqCst) & bit(number) == 0 {
            self.faults.fetch_add(1, Ordering::SeqCst);
        }
        if self.ended.fetch_or(bit(number), Ordering::SeqCst) & bit(number) != 0 {
            self.faults.fetch_add(1, Ordering::SeqCst);
        }
    }

    /// Whether each `before` has its one `after`.
    pub(crate) fn is_even(&self) -> bool {
        self.faults.load(Ordering::SeqCst) == 0
            && self.began.load(Ordering::SeqCst) == self.ended.load(Ordering::SeqCst)
    }

    /// Whether the number came.
    pub(crate) fn has(&self, number: u32) -> bool {
        self.ended.load(Ordering::SeqCst) & bit(number) != 0
    }

    /// How many numbers came.
    pub(crate) fn count(&self) -> u32 {
        self.ended.load(Ordering::SeqCst).count_ones()
    }
}

impl Gate for Counter {
    fn before(&self, lane: u32) {
        self.note_before(lane);
    }

    fn after(&self, lane: u32) {
        self.note_after(lane);
    }
}

impl PoolGate for Counter {
    fn before(&self, job: u32) {
        self.note_before(job);
    }

    fn after(&self, job: u32) {
        self.note_after(job);
    }
}
