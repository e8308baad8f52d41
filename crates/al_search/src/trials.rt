//! What is tried: the code of a program, with a candidate for one of its loops, on inputs.
ghost use Rattle.std.specs.Prelude.{ℕ, Option, ◌≡◌, ◌<◌, ◌^◌, IfOk};
ghost use Rattle.al_core.specs.Report.{report};
ghost use Rattle.al_core.specs.Run.{sizes_of};
ghost use Rattle.al_engine.specs.Jobs.{HaveLineSizes};
ghost use Rattle.al_search.specs.Search as spec;
ghost use Rattle.al_search.specs.Trials.{MayTry, told_by};

use crate::choices::{choices_for, with_line};
use al_code::Code;
use al_core::{Choice, Knobs, LoopInfo, Typed};
use al_engine::{Gate, run};
use al_infer::{Outcome, Trial};
use sqlite_items::Items;
use std::alloc::{AllocError, Global};
use std::snapshot::Snapshot;
use std::thread::Threads;

/// A typed tree and its loops.
pub(crate) type Program = (Typed, Items<LoopInfo>);

/// A program with the candidates for one of its loops, and the inputs on which each runs. All trials share its code.
#[derive(Drop)]
pub(crate) struct Search<'a> {
    pub program: Snapshot<Program>,
    pub infos: &'a [LoopInfo],
    pub code: &'a Code,
    pub number: u32,
    pub tried: &'a [Choice],
    pub tests: &'a [Items<i64>],
    pub knobs: Knobs,
}

impl<'a> Search<'a> {
    /// Runs a candidate, or where there is none the plain loop, at a test.
    pub fn outcome<R: Threads + Sync, G: Gate>(
        &self,
        rt: &R,
        alloc: Global,
        candidate: Option<u32>,
        test: u32,
        gate: &G,
    ) -> Result<Outcome, AllocError>
        requires { MayTry self.now }
        ensures told { IfOk result (λ o. o ≡ told_by self.now candidate test) }
        ensures small { IfOk result (λ o. o.span < 2 ^ 100) }
    {
        let choice = self.choice(alloc, candidate)?;
        let choices = choices_for(alloc, self.infos, self.number, choice)?;
        outcome_of(rt, alloc, self, self.input(test), choices.as_slice(), gate)
    }

    /// The input of a test.
    fn input(&self, test: u32) -> &[i64]
        ensures { result.now ≡ spec.input_of self.now.tests.now test }
    {
        match self.tests.get(test as usize) {
            Some(input) => input.as_slice(),
            None => &[],
        }
    }

    /// A candidate by its number, again.
    fn choice(&self, alloc: Global, candidate: Option<u32>) -> Result<Option<Choice>, AllocError>
        ensures { IfOk result (λ c. c ≡ spec.candidate self.now.tried.now candidate) }
    {
        let Some(k) = candidate else {
            return Ok(None);
        };
        match self.tried.get(k as usize) {
            Some(choice) => Ok(Some(with_line(alloc, choice.line, choice)?)),
            None => Ok(None),
        }
    }
}

/// What is compared of a run with these choices.
fn outcome_of<R: Threads + Sync, G: Gate>(
    rt: &R,
    alloc: Global,
    search: &Search<'_>,
    input: &[i64],
    choices: &[Option<Choice>],
    gate: &G,
) -> Result<Outcome, AllocError>
    requires may { MayTry search.now }
    requires lines { HaveLineSizes choices.now }
    ensures exact { let r = report search.now.program.value.0 input.now (sizes_of search.now.knobs) choices.now in
        IfOk result (λ o. o ≡ spec.outcome_of r) }
    ensures small { IfOk result (λ o. o.span < 2 ^ 100) }
{
    let report = run(
        rt,
        alloc,
        search.code,
        input,
        &search.knobs,
        choices,
        false,
        gate,
    )?;
    Ok(Outcome {
        output: report.output,
        ending: report.ending,
        attempts: report.attempts,
        aborted: report.aborted,
        span: report.span,
    })
}

/// The trials of a search, each a call of a closure: a method could not hold the threads that it needs.
#[derive(Drop)]
pub(crate) struct Trials<'a, 'b, F> {
    pub search: &'b Search<'a>,
    pub outcome: F,
}

impl<'a, 'b, F: Fn(Option<u32>, u32) -> Result<Outcome, AllocError> + Sync> Trial
    for Trials<'a, 'b, F> {
    ghost told = { λ s. told_by s.search.now };

    ghost can_try = { λ s. F.IsAlwaysCallable s.outcome × ((k : Option ℕ) (t : ℕ) (r : _) → F.post s.outcome k t r
        → IfOk r (λ o. (o ≡ told_by s.search.now k t) × (o.span < 2 ^ 100))) };

    fn outcome(&self, candidate: Option<u32>, test: u32) -> Result<Outcome, AllocError> {
        (self.outcome)(candidate, test)
    }
}
