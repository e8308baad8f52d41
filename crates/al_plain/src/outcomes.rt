ghost use Rattle.std.specs.Prelude.{◌≡◌, ◌+◌, ◌^◌, ◌<◌, ◌≤◌, IfOk};
ghost use Rattle.al_core.specs.Chunk as spec;
ghost use Rattle.al_core.specs.Clash as clash;
ghost use Rattle.al_plain.specs.Outcomes.{or_fresh};
ghost use Rattle.al_plain.specs.Executions.{execution_of, IsBounded};

use crate::accesses::Accesses;
use crate::addresses::Addresses;
use crate::content::{Content, Maker};
use crate::iterations::{Execution, Finished, iterations};
use crate::memory::Memory;
use al_core::{Ending, Policy, Red};
use sqlite_items::Items;
use std::alloc::{AllocError, Global};
use std::marker::Model;

/// What comes of a chunk: what it recorded, its private memory, what it printed, how it ended, and the steps that it
/// spent.
#[derive(Drop)]
pub struct Outcome {
    pub accesses: Accesses,
    pub memory: Memory,
    pub printed: Items<u8>,
    pub ending: Ending,
    pub steps: u128,
}

impl Model for Outcome {
    ghost use Rattle.std.specs.Prelude.{◌<◌, ◌^◌};
    ghost use Rattle.al_core.specs.Chunk.{Outcome};
    ghost use Rattle.al_plain.specs.Codes.{outcome_code};
    ghost use Rattle.al_plain.specs.Outcomes.{outcome_from};

    ghost Value = { Outcome };

    ghost coded = { outcome_code };

    ghost view = { λ o. outcome_from o.accesses o.memory o.printed o.ending o.steps };

    ghost invariant = { λ o. o.steps < 2 ^ 89 };
}

/// The chunk's first iteration, and how many it has.
fn range(x: &Execution<'_>, c: u64) -> (u64, u64)
    ensures within { result.0 + result.1 ≤ x.now.trips }
    ensures count { result.1 ≡ spec.chunk_trips (execution_of x.now) c }
    ensures first { 0 < result.1 → result.0 ≡ spec.chunk_start (execution_of x.now) c }
{
    let size = u128::from(x.on.knobs.chunk);
    let trips = u128::from(x.trips);
    let start = u128::from(c) * size;
    let end = ((u128::from(c) + 1) * size).min(trips);
    let first = start.min(trips);
    (first as u64, end.saturating_sub(start) as u64)
}

/// What was recorded. A chunk always has a record.
fn or_fresh(alloc: Global, accesses: Option<Accesses>) -> Result<Accesses, AllocError>
    ensures { IfOk result (λ a. a ≡ or_fresh accesses) }
{
    match accesses {
        Some(accesses) => Ok(accesses),
        None => Accesses::fresh(alloc, &[]),
    }
}

impl Outcome {
    #[tactic(auto, using(crate::proofs::ChunkRuns::outcome_told))]
    fn of(alloc: Global, r: Finished) -> Result<Outcome, AllocError>
        requires { r.steps < 2 ^ 89 }
        ensures { IfOk result (λ o. o ≡ spec.outcome_of r r.content.accesses) }
    {
        let Finished {
            ending,
            steps,
            content,
        } = r;
        let (memory, printed, accesses) = content.into_parts();
        Ok(Outcome {
            accesses: or_fresh(alloc, accesses)?,
            memory,
            printed,
            ending,
            steps,
        })
    }

    /// Runs a chunk of iterations on a private copy of a memory.
    pub fn run(
        alloc: Global,
        x: &Execution<'_>,
        reds: &[Red],
        memory: &Memory,
        c: u64,
    ) -> Result<Outcome, AllocError>
        requires { IsBounded x.now }
        ensures { IfOk result (λ o. o ≡ spec.outcome (execution_of x.now) reds.now memory.now c) }
    {
        let (first, count) = range(x, c);
        let maker = Maker::Iteration {
            execution: x.number,
            iteration: first,
        };
        let accesses = Accesses::fresh(alloc, reds)?;
        let content = Content::recording(alloc, memory.copy(alloc)?, maker, accesses);
        Outcome::of(alloc, iterations(alloc, x, count, first, content)?)
    }

    /// Whether it clashes with what the committed chunks of its round wrote.
    pub fn clashes(
        &self,
        alloc: Global,
        policy: Policy,
        line: u32,
        written: &Addresses,
    ) -> Result<bool, AllocError>
        ensures { IfOk result (λ r. r ≡ clash.clashes policy line self.now written.now) }
    {
        let (reads, touched) = (&self.accesses.reads, &self.accesses.touched);
        match policy {
            Policy::Full => Ok(
                reads.meets_lines(alloc, line, written)?
                    || touched.meets_lines(alloc, line, written)?,
            ),
            Policy::Raw => reads.meets_lines(alloc, line, written),
            Policy::Waw => touched.meets_lines(alloc, line, written),
            Policy::None => Ok(false),
        }
    }
}
