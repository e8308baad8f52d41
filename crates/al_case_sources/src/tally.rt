//! What was compared, and what did not hold.
use std::alloc::{AllocError, Global};

/// Counts of what was compared, and a line for each comparison that does not hold.
#[derive(Drop)]
pub struct Tally {
    pub machine_runs: u64,
    pub loops: u64,
    pub chunks: u64,
    pub round_loops: u64,
    pub rounds: u64,
    pub engine_runs: u64,
    pub faults: Vec<String>,
}

impl Tally {
    pub fn new(alloc: Global) -> Tally {
        Tally {
            machine_runs: 0,
            loops: 0,
            chunks: 0,
            round_loops: 0,
            rounds: 0,
            engine_runs: 0,
            faults: Vec::new(alloc),
        }
    }

    /// Keeps what does not hold, with a number that tells where.
    pub fn expect(
        &mut self,
        alloc: Global,
        holds: bool,
        what: &str,
        number: u64,
    ) -> Result<(), AllocError> {
        if !holds {
            self.faults.push(format!(in alloc; "{what} {number}")?)?;
        }
        Ok(())
    }
}
