ghost use Rattle.std.specs.Prelude.{◌≡◌, ◌+ℤ◌, ◌<◌, pos, FitsSigned};
ghost use Rattle.std.specs.Int.{w64};
ghost use Rattle.al_chunk.specs.Loops.{IsBounded};

use al_core::Ending;

/// An execution of an annotated loop, and the numbers of the run on which it depends.
#[derive(Clone, Copy, Debug, PartialEq, Eq)]
pub struct LoopEnv {
    /// The execution's number.
    pub execution: u32,
    /// The counter of the first iteration.
    pub lo: i64,
    /// How many iterations there are, at most 16,777,216.
    pub trips: u64,
    /// The chunk factor: the iterations of a chunk, at least 1.
    pub chunk: u32,
    /// The steps that one iteration may spend, at most 1,000,000,000.
    pub iter_steps: u64,
}

/// How iterations ended, and the steps that they spent.
#[derive(Clone, Copy, Debug, PartialEq, Eq)]
pub struct Run {
    pub ending: Ending,
    pub steps: u64,
}

impl LoopEnv {
    /// The counter of an iteration.
    pub(crate) fn counter(&self, j: u64) -> i64
        requires bounded { IsBounded self.now }
        requires within { j < self.now.trips }
        ensures value { result ≡ self.now.lo +ℤ pos j }
        ensures fits { FitsSigned w64 result }
    {
        self.lo + j as i64
    }
}
