//! What a run shows, and what can be tried.
ghost use Rattle.std.specs.Prelude.{ℕ, ◌≡◌, ◌<◌, ◌^◌, Option, IfOk};
ghost use Rattle.al_infer.specs.Findings.{reason};
ghost use Rattle.al_infer.specs.Endings.{is_same_ending};

use crate::tables::Why;
use al_core::{Bytes, Ending};
use std::alloc::AllocError;

/// What is compared of a run.
#[derive(Drop)]
pub struct Outcome {
    pub output: Bytes,
    pub ending: Ending,
    /// Runs of chunks.
    pub attempts: u64,
    /// Those of them that were not kept.
    pub aborted: u64,
    pub span: u128,
}

/// What can be tried: the candidates for a loop, each at tests.
pub trait Trial: Sync {
    ghost use Rattle.al_infer.specs.declared.outcomes.Outcome.{Outcome};

    /// The outcome of a candidate, or of the plain run, at a test.
    ghost told: { Self → Option ℕ → ℕ → Outcome };

    /// Trials can be run.
    ghost can_try: { Self → Type 0 };

    /// Runs a candidate, or where there is none the plain loop, at a test. The error is want of memory.
    fn outcome(&self, candidate: Option<u32>, test: u32) -> Result<Outcome, AllocError>
        requires can { can_try self.now }
        ensures told { IfOk result (λ o. o ≡ told self.now candidate test) }
        ensures small { IfOk result (λ o. o.span < 2 ^ 100) };
}

fn is_same_ending(a: Ending, b: Ending) -> bool
    ensures { result ≡ is_same_ending a b }
{
    a == b
}

impl Outcome {
    /// Why a run that came to this is refused beside the plain run, if it is.
    pub(crate) fn refused_beside(&self, plain: &Outcome) -> Option<Why>
        requires { plain.now.span < 2 ^ 100 }
        ensures { result ≡ reason plain.now self.now }
    {
        if plain.output.as_slice() != self.output.as_slice()
            || !is_same_ending(plain.ending, self.ending)
        {
            Some(Why::Output)
        } else if self.attempts / 2 < self.aborted {
            Some(Why::Conflicts)
        } else if 10 * plain.span < self.span {
            Some(Why::Steps)
        } else {
            None
        }
    }
}
