ghost use Rattle.std.specs.Prelude.{◌≡◌, ◌+◌, ◌^◌, ◌<◌, ◌≤◌, ◌++◌, length, take, drop, IfOk, OnOk};
ghost use Rattle.al_core.specs.Chunk.{chunk_count};
ghost use Rattle.al_core.specs.Lockstep as spec;
ghost use Rattle.al_plain.specs.Pending.{left_after, next_round};
ghost use Rattle.al_plain.specs.Executions.{execution_of, IsBounded};

use crate::iterations::Execution;
use crate::judging::is_committed;
use crate::memory::Memory;
use crate::round::Round;
use al_core::{Choice, Ending, Judged};
use sqlite_items::Items;
use std::alloc::{AllocError, Global};
use std::marker::Model;

/// What the rounds of an execution have come to.
#[derive(Drop)]
pub struct Rounds {
    pub memory: Memory,
    pub printed: Items<u8>,
    pub ending: Ending,
    /// The verdicts of each round.
    pub rounds: Items<Items<Judged>>,
    /// For each round the steps of its longest chunk, added up.
    pub span: u128,
}

impl Model for Rounds {
    ghost use Rattle.std.specs.Prelude.{◌≤◌, ◌*◌, ◌^◌, length};
    ghost use Rattle.al_core.specs.Lockstep.{Rounds};
    ghost use Rattle.al_plain.specs.Codes.{rounds_code};

    ghost Value = { Rounds };

    ghost coded = { rounds_code };

    ghost view = { λ r. record {
      memory = r.memory;
      printed = r.printed;
      ending = r.ending;
      rounds = r.rounds;
      span = r.span;
    } };

    ghost invariant = { λ r. r.span ≤ length r.rounds * 2 ^ 89 };
}

/// The chunks of a round that stay pending.
pub fn not_committed(alloc: Global, verdicts: &[Judged]) -> Result<Items<u64>, AllocError>
    ensures { IfOk result (λ left. left ≡ spec.not_committed verdicts.now) }
{
    let mut left = Items::new(alloc);
    for j in verdicts {
        if !is_committed(j.verdict) {
            left.push(j.chunk)?;
        }
    }
    Ok(left)
}

fn first_of(pending: &[u64], lanes: usize) -> &[u64]
    ensures { result.now ≡ take lanes pending.now }
{
    if lanes < pending.len() {
        &pending[..lanes]
    } else {
        pending
    }
}

fn rest_of(pending: &[u64], lanes: usize) -> &[u64]
    ensures { result.now ≡ drop lanes pending.now }
{
    if lanes < pending.len() {
        &pending[lanes..]
    } else {
        &[]
    }
}

/// What is pending after a round: the committed chunks are taken away.
fn still_pending(
    alloc: Global,
    lanes: usize,
    pending: &[u64],
    r: &Round,
) -> Result<Items<u64>, AllocError>
    ensures { IfOk result (λ left. left ≡ spec.still_pending lanes pending.now r.now) }
{
    let mut left = not_committed(alloc, r.verdicts.as_slice())?;
    left.append(Items::from_slice(alloc, rest_of(pending, lanes))?)?;
    Ok(left)
}

/// What is pending after a round, and nothing where a trap was committed.
fn left_after(
    alloc: Global,
    lanes: usize,
    pending: &[u64],
    r: &Round,
) -> Result<Option<Items<u64>>, AllocError>
    ensures { IfOk result (λ left. left ≡ left_after lanes pending.now r.now) }
{
    match r.ending {
        Ending::Done => Ok(Some(still_pending(alloc, lanes, pending, r)?)),
        Ending::Trap(_, _) => Ok(None),
    }
}

/// All chunks, in ascending order.
fn all_chunks(alloc: Global, count: u64) -> Result<Items<u64>, AllocError>
    ensures { IfOk result (λ all. all ≡ spec.up_from count 0) }
{
    let mut all = Items::new(alloc);
    for c in 0..count {
        all.push(c)?;
    }
    Ok(all)
}

/// The chunks of an execution.
pub fn chunks(x: &Execution<'_>) -> u64
    ensures exact { result ≡ chunk_count (execution_of x.now) }
    ensures few { result ≤ x.now.trips + 1 }
{
    let size = u64::from(x.on.knobs.chunk);
    if size == 0 {
        x.trips.min(1)
    } else {
        x.trips.div_ceil(size)
    }
}

impl Rounds {
    fn none(alloc: Global, memory: Memory) -> Rounds
        ensures { result ≡ spec.no_rounds memory }
    {
        Rounds {
            memory,
            printed: Items::new(alloc),
            ending: Ending::Done,
            rounds: Items::new(alloc),
            span: 0,
        }
    }

    /// The memory that they left, and what was printed.
    pub fn into_memory(self) -> (Memory, Items<u8>)
        ensures { result ≡ (self.memory, self.printed) }
    {
        (self.memory, self.printed)
    }

    fn add(&mut self, r: Round) -> Result<(), AllocError>
        requires { length self.old.rounds < 2 ^ 32 }
        ensures { OnOk result (self.new ≡ spec.with_round r self.old) }
    {
        let Round {
            verdicts,
            memory,
            printed,
            ending,
            longest,
        } = r;
        self.memory = memory;
        self.printed.append(printed)?;
        self.ending = ending;
        self.rounds.push(verdicts)?;
        self.span += longest;
        Ok(())
    }

    /// One round of the first pending chunks.
    fn next(
        &self,
        alloc: Global,
        x: &Execution<'_>,
        choice: &Choice,
        pending: &[u64],
    ) -> Result<Round, AllocError>
        requires { IsBounded x.now }
        ensures { IfOk result (λ r. r ≡ next_round x.now choice.now pending.now self.now.memory) }
    {
        let chunks = first_of(pending, x.on.knobs.lanes as usize);
        Round::run(alloc, x, choice, chunks, &self.memory)
    }

    /// One more round. It answers what is pending after it, and nothing where a trap was committed.
    fn go_on(
        &mut self,
        alloc: Global,
        x: &Execution<'_>,
        choice: &Choice,
        pending: &[u64],
    ) -> Result<Option<Items<u64>>, AllocError>
        requires bounded { IsBounded x.now }
        requires room { length self.old.rounds < 2 ^ 32 }
        ensures left { let r = next_round x.now choice.now pending.now self.old.memory in
            IfOk result (λ left. left ≡ left_after x.now.on.knobs.lanes pending.now r) }
        ensures rounds { let r = next_round x.now choice.now pending.now self.old.memory in
            OnOk result (self.new ≡ spec.with_round r self.old) }
    {
        let r = self.next(alloc, x, choice, pending)?;
        let left = left_after(alloc, x.on.knobs.lanes as usize, pending, &r)?;
        self.add(r)?;
        Ok(left)
    }
}

/// An execution in rounds, until no chunk is pending or a trap was committed.
#[tactic(auto, unfolding(al_core::specs::Lockstep::lockstep))]
pub fn lockstep(
    alloc: Global,
    x: &Execution<'_>,
    choice: &Choice,
    memory: Memory,
) -> Result<Rounds, AllocError>
    requires { IsBounded x.now }
    ensures { IfOk result (λ r. r ≡ spec.lockstep (execution_of x.now) choice.now x.now.on.knobs.lanes memory) }
{
    let count = chunks(x);
    let mut pending = all_chunks(alloc, count)?;
    let mut so_far = Rounds::none(alloc, memory);
    for _round in 0..count {
        if pending.is_empty() {
            return Ok(so_far);
        }
        match so_far.go_on(alloc, x, choice, pending.as_slice())? {
            Some(left) => pending = left,
            None => return Ok(so_far),
        }
    }
    Ok(so_far)
}
