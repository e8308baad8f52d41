ghost use Rattle.std.specs.Prelude.{◌≡◌, ◌+◌, IfOk, OnOk};
ghost use Rattle.al_core.specs.Run as spec;
ghost use Rattle.al_engine.specs.Counting.{entered, with_round, with_rounds, with_steps};
ghost use Rattle.al_core.specs.Memory.{Memory};
ghost use Rattle.al_engine.specs.Executions.{counts_of, rounds_of, event_of, InTrees, MayEnter};

use crate::entered::Entered;
use crate::rounds::{Rounds, chunks, failed};
use al_core::{Event, Judged};
use sqlite_items::Items;
use std::alloc::{AllocError, Global};

/// The counts of a run, and what happened in it. Where a count would pass its type, that counts as want of memory; with
/// the numbers of a run in range none does.
#[derive(Drop)]
pub(crate) struct Counts {
    /// Executions of annotated loops that ran in rounds.
    pub loops: u32,
    pub rounds: u64,
    /// Runs of chunks.
    pub attempts: u64,
    /// Verdicts `Fail` and `After`.
    pub aborted: u64,
    /// Steps of all iterations that ran outside rounds, and for each round those of its longest chunk.
    pub span: u128,
    pub events: Items<Event>,
}

fn sum(a: u64, b: usize) -> Result<u64, AllocError>
    ensures { IfOk result (λ n. n ≡ a + b) }
{
    a.checked_add(b as u64).ok_or(AllocError)
}

impl Counts {
    pub fn none(alloc: Global) -> Counts
        ensures { counts_of result ≡ spec.no_counts }
    {
        Counts {
            loops: 0,
            rounds: 0,
            attempts: 0,
            aborted: 0,
            span: 0,
            events: Items::new(alloc),
        }
    }

    fn count_round(&mut self, alloc: Global, round: &Items<Judged>) -> Result<(), AllocError>
        ensures { OnOk result (counts_of self.new ≡ with_round round.now (counts_of self.old)) }
    {
        let round = round.as_slice();
        self.rounds = sum(self.rounds, 1)?;
        self.attempts = sum(self.attempts, round.len())?;
        self.aborted = sum(self.aborted, failed(round))?;
        self.events
            .push(Event::Round(Items::from_slice(alloc, round)?))
    }

    fn count_each(&mut self, alloc: Global, rounds: &[Items<Judged>]) -> Result<(), AllocError>
        ensures { OnOk result (counts_of self.new ≡ with_rounds rounds.now (counts_of self.old)) }
    {
        for round in rounds {
            self.count_round(alloc, round)?;
        }
        Ok(())
    }

    fn count_steps(&mut self, steps: u128) -> Result<(), AllocError>
        ensures { OnOk result (counts_of self.new ≡ with_steps steps (counts_of self.old)) }
    {
        self.span = self.span.checked_add(steps).ok_or(AllocError)?;
        Ok(())
    }

    /// An execution begins to run in rounds.
    fn enter(&mut self, x: &Entered<'_>, chunks: u64) -> Result<(), AllocError>
        ensures { OnOk result (counts_of self.new ≡ entered (event_of x.now chunks) (counts_of self.old)) }
    {
        self.loops = self.loops.checked_add(1).ok_or(AllocError)?;
        self.events.push(Event::Enter {
            number: x.info.number,
            execution: x.env.execution,
            line: x.info.line,
            trips: x.env.trips,
            chunks,
        })
    }

    /// The counts of an execution that spent so many steps outside rounds.
    pub fn of_steps(alloc: Global, steps: u64) -> Counts
        ensures { counts_of result ≡ spec.counts_of_steps steps }
    {
        let mut n = Counts::none(alloc);
        n.span = u128::from(steps);
        n
    }

    /// The counts of an execution in rounds.
    pub fn of_rounds(alloc: Global, x: &Entered<'_>, r: &Rounds) -> Result<Counts, AllocError>
        requires { MayEnter x.now }
        ensures { IfOk result (λ n. (m : Memory) → InTrees x.now (λ e.
            counts_of n ≡ spec.counts_of_rounds e (rounds_of m r.now))) }
    {
        let mut n = Counts::none(alloc);
        n.enter(x, chunks(x))?;
        n.count_each(alloc, r.rounds.as_slice())?;
        n.count_steps(r.span)?;
        Ok(n)
    }

    /// Adds the counts of what came next.
    pub fn add(&mut self, more: Counts) -> Result<(), AllocError>
        ensures { OnOk result (counts_of self.new ≡ spec.counts_with (counts_of self.old) (counts_of more)) }
    {
        let Counts {
            loops,
            rounds,
            attempts,
            aborted,
            span,
            events,
        } = more;
        self.loops = self.loops.checked_add(loops).ok_or(AllocError)?;
        self.rounds = self.rounds.checked_add(rounds).ok_or(AllocError)?;
        self.attempts = self.attempts.checked_add(attempts).ok_or(AllocError)?;
        self.aborted = self.aborted.checked_add(aborted).ok_or(AllocError)?;
        self.count_steps(span)?;
        self.events.append(events)
    }
}
