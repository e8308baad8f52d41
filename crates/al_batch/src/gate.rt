//! What is called round each job.
use al_workers::Gate;

/// What a worker calls before and after it does a job.
pub trait PoolGate: Sync {
    fn before(&self, job: u32);

    /// It comes also where no memory was found.
    fn after(&self, job: u32);
}

/// A gate that does nothing.
#[derive(Clone, Copy)]
pub struct FreePool;

impl PoolGate for FreePool {
    fn before(&self, _job: u32) {}

    fn after(&self, _job: u32) {}
}

/// The gate of the lanes: the job of a lane has its number.
#[derive(Drop)]
pub(crate) struct Lanes<'a, G> {
    pub(crate) gate: &'a G,
}

impl<'a, G: PoolGate> Gate for Lanes<'a, G> {
    fn before(&self, lane: u32) {
        self.gate.before(lane);
    }

    fn after(&self, lane: u32) {
        self.gate.after(lane);
    }
}
