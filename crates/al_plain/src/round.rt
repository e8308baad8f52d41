ghost use Rattle.std.specs.Prelude.{◌≡◌, ◌++◌, ◌^◌, ◌<◌, [], IfOk, OnOk};
ghost use Rattle.al_core.specs.declared.reports.Ending.TheVariants as ending;
ghost use Rattle.al_core.specs.Verdicts.{committed};
ghost use Rattle.al_core.specs.Applied.{applied};
ghost use Rattle.al_core.specs.Round as spec;
ghost use Rattle.al_plain.specs.Executions.{execution_of, IsBounded};
ghost use Rattle.al_plain.specs.Keeping.{kept, all_kept};

use crate::iterations::Execution;
use crate::judging::{is_committed, verdicts};
use crate::memory::Memory;
use crate::outcomes::Outcome;
use al_core::{Choice, Ending, Judged, Red, Verdict};
use sqlite_items::Items;
use std::alloc::{AllocError, Global};
use std::marker::Model;

/// What a round comes to.
#[derive(Drop)]
pub struct Round {
    /// Each chunk with its verdict.
    pub verdicts: Items<Judged>,
    pub memory: Memory,
    pub printed: Items<u8>,
    pub ending: Ending,
    /// The most steps of a chunk.
    pub longest: u128,
}

impl Model for Round {
    ghost use Rattle.std.specs.Prelude.{◌<◌, ◌^◌};
    ghost use Rattle.al_core.specs.Round.{Round};
    ghost use Rattle.al_plain.specs.Codes.{round_code};

    ghost Value = { Round };

    ghost coded = { round_code };

    ghost view = { λ r. record {
      verdicts = r.verdicts;
      memory = r.memory;
      printed = r.printed;
      ending = r.ending;
      longest = r.longest;
    } };

    ghost invariant = { λ r. r.longest < 2 ^ 89 };
}

/// Adds each chunk with its verdict.
#[tactic(auto, using(crate::proofs::RoundsKept::one_more, crate::proofs::RoundsKept::none_more))]
fn add_verdicts(
    chunks: &[u64],
    verdicts: &[Verdict],
    all: &mut Items<Judged>,
) -> Result<(), AllocError>
    ensures { OnOk result (all.new ≡ all.old ++ spec.with_chunks chunks.now verdicts.now) }
{
    match (chunks, verdicts) {
        ([chunk, chunks @ ..], [verdict, verdicts @ ..]) => {
            all.push(Judged {
                chunk: *chunk,
                verdict: *verdict,
            })?;
            add_verdicts(chunks, verdicts, all)
        }
        ([], _) => Ok(()),
        (_, []) => Ok(()),
    }
}

/// The most steps of an outcome.
fn most_steps(outcomes: &[Outcome]) -> u128
    ensures exact { result ≡ spec.most_steps outcomes.now 0 }
    ensures few { result < 2 ^ 89 }
{
    let mut most = 0;
    for o in outcomes {
        most = most.max(o.steps);
    }
    most
}

/// The outcomes of some chunks, each on the memory at the round's start.
fn outcomes(
    alloc: Global,
    x: &Execution<'_>,
    reds: &[Red],
    memory: &Memory,
    chunks: &[u64],
) -> Result<Items<Outcome>, AllocError>
    requires { IsBounded x.now }
    ensures { IfOk result (λ os. os ≡ spec.outcomes (execution_of x.now) reds.now memory.now chunks.now) }
{
    let mut all = Items::new(alloc);
    for c in chunks {
        all.push(Outcome::run(alloc, x, reds, memory, *c)?)?;
    }
    Ok(all)
}

impl Round {
    /// Keeps the memory, the bytes and the ending of an outcome that is committed.
    fn keep(&mut self, alloc: Global, reds: &[Red], o: &Outcome) -> Result<(), AllocError>
        ensures { OnOk result (self.new ≡ kept reds.now o.now self.old) }
    {
        o.apply(alloc, reds, &mut self.memory)?;
        self.printed
            .append(Items::from_slice(alloc, o.printed.as_slice())?)?;
        self.ending = o.ending;
        Ok(())
    }

    /// Keeps what the committed outcomes come to, one after another.
    #[tactic(auto, using(crate::proofs::RoundsKept::none_kept))]
    fn keep_committed(
        &mut self,
        alloc: Global,
        reds: &[Red],
        outcomes: &[Outcome],
        verdicts: &[Verdict],
    ) -> Result<(), AllocError>
        ensures { OnOk result (self.new ≡ all_kept reds.now (committed outcomes.now verdicts.now) self.old) }
    {
        match (outcomes, verdicts) {
            ([o, outcomes @ ..], [verdict, verdicts @ ..]) => {
                if is_committed(*verdict) {
                    self.keep(alloc, reds, o)?;
                }
                self.keep_committed(alloc, reds, outcomes, verdicts)
            }
            ([], _) => Ok(()),
            (_, []) => Ok(()),
        }
    }

    /// What a round comes to, from the outcomes of its chunks and their verdicts.
    #[tactic(auto, using(crate::proofs::RoundsKept::round_kept))]
    fn of(
        alloc: Global,
        choice: &Choice,
        chunks: &[u64],
        memory: Memory,
        outcomes: &[Outcome],
        verdicts: &[Verdict],
    ) -> Result<Round, AllocError>
        ensures { IfOk result (λ r. r ≡ spec.round_of choice.now chunks.now memory outcomes.now verdicts.now) }
    {
        let mut judged = Items::new(alloc);
        add_verdicts(chunks, verdicts, &mut judged)?;
        let mut r = Round {
            verdicts: judged,
            memory,
            printed: Items::new(alloc),
            ending: Ending::Done,
            longest: most_steps(outcomes),
        };
        r.keep_committed(alloc, choice.reds.as_slice(), outcomes, verdicts)?;
        Ok(r)
    }

    /// Runs a round: each chunk on the memory at its start, and their outcomes are judged and committed in order.
    #[tactic(auto, unfolding(al_core::specs::Round::round))]
    pub fn run(
        alloc: Global,
        x: &Execution<'_>,
        choice: &Choice,
        chunks: &[u64],
        memory: &Memory,
    ) -> Result<Round, AllocError>
        requires { IsBounded x.now }
        ensures { IfOk result (λ r. r ≡ spec.round (execution_of x.now) choice.now chunks.now memory.now) }
    {
        let all = outcomes(alloc, x, choice.reds.as_slice(), memory, chunks)?;
        let judged = verdicts(alloc, choice, all.as_slice())?;
        let start = memory.copy(alloc)?;
        Round::of(
            alloc,
            choice,
            chunks,
            start,
            all.as_slice(),
            judged.as_slice(),
        )
    }
}
