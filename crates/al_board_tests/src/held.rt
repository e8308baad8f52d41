//! A gate that one thread, or two with fixed shares, cannot pass.

use al_batch::PoolGate;
use al_workers::Gate;
use std::sync::atomic::{AtomicU64, Ordering};
use std::thread;

/// The number of lanes or jobs that pass the gate.
pub const MANY: u32 = 4;

const ALL: u64 = 15;

/// A bit for each of 64 numbers.
pub(crate) fn bit(number: u32) -> u64 {
    1u64.wrapping_shl(number)
}

/// Holds one of four lanes or jobs until the three others are done, and each other until the held one has come. A wait
/// gives the processor away, looks again at most so often, and is noted where it did not end. An `after` whose `before`
/// has not returned is noted too.
#[derive(Drop)]
pub struct Held {
    held: u32,
    looks: u64,
    came: AtomicU64,
    passed: AtomicU64,
    done: AtomicU64,
    noted: AtomicU64,
}

impl Held {
    pub fn new(held: u32, looks: u64) -> Held {
        Held {
            held,
            looks,
            came: AtomicU64::new(0),
            passed: AtomicU64::new(0),
            done: AtomicU64::new(0),
            noted: AtomicU64::new(0),
        }
    }

    fn await_all(&self, word: &AtomicU64, bits: u64) {
        for _ in 0..self.looks {
            if word.load(Ordering::SeqCst) & bits == bits {
                return;
            }
            thread::yield_now();
        }
        self.noted.store(1, Ordering::SeqCst);
    }

    fn enter(&self, number: u32) {
        self.came.fetch_or(bit(number), Ordering::SeqCst);
        if number == self.held {
            self.await_all(&self.done, ALL & !bit(number));
        } else {
            self.await_all(&self.came, bit(self.held));
        }
        self.passed.fetch_or(bit(number), Ordering::SeqCst);
    }

    fn leave(&self, number: u32) {
        if self.passed.load(Ordering::SeqCst) & bit(number) == 0 {
            self.noted.store(1, Ordering::SeqCst);
        }
        self.done.fetch_or(bit(number), Ordering::SeqCst);
    }

    /// Whether all four came and went, and nothing was noted.
    pub fn is_well(&self) -> bool {
        self.noted.load(Ordering::SeqCst) == 0
            && self.passed.load(Ordering::SeqCst) == ALL
            && self.done.load(Ordering::SeqCst) == ALL
    }
}

impl Gate for Held {
    fn before(&self, lane: u32) {
        self.enter(lane);
    }

    fn after(&self, lane: u32) {
        self.leave(lane);
    }
}

impl PoolGate for Held {
    fn before(&self, job: u32) {
        self.enter(job);
    }

    fn after(&self, job: u32) {
        self.leave(job);
    }
}
