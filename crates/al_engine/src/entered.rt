use crate::job::Job;
use al_chunk::LoopEnv;
use al_core::LoopInfo;

/// An execution of an annotated loop.
#[derive(Clone, Copy)]
pub(crate) struct Entered<'a> {
    pub job: Job<'a>,
    pub info: &'a LoopInfo,
    pub env: LoopEnv,
    /// The loop's bound.
    pub hi: i64,
}
