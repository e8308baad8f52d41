//! Running the chunks of a round on threads.
ghost use Rattle.std.specs.Prelude.{◌≡◌, ◌<◌, ◌≤◌, true, All, IfOk, Some, length, map, slice_get};
ghost use Rattle.std.specs.Int.{div_ceil};
ghost use Rattle.al_chunk.specs.Loops.{IsBounded, InEachTree};
ghost use Rattle.al_code.specs.Checks.{is_valid};
ghost use Rattle.al_core.specs.Lines.{IsLineSize};
ghost use Rattle.al_core.specs.Round.{outcomes};
ghost use Rattle.al_core.specs.Verdicts as spec;
ghost use Rattle.al_snap.specs.Changes.{told};
ghost use Rattle.al_round.specs.Rounds.{MayRun};

use crate::piece::{Done, Plan, Task};
use al_board::Maker;
use al_book::Book;
use al_chunk::run_chunk;
use al_core::Verdict;
use al_heap::Store;
use al_workers::{Gate, work_all};
use sqlite_items::Items;
use std::alloc::{AllocError, Global};
use std::marker::PhantomData;
use std::snapshot::Snapshot;
use std::thread::Threads;

// Runs the chunk of a lane on the store.
#[derive(Drop)]
struct Runner<'a, 'b, S: Store + Sync> {
    alloc: Global,
    store: &'b S,
    task: Task<'a, S>,
    ghost same: { task.store.value ≡ store.now },
    ghost valid: { is_valid task.plan.code.now ≡ true },
    ghost one: { slice_get task.plan.code.now.loops task.plan.info.now.number ≡ Some task.plan.info.now },
    ghost bounded: { IsBounded task.plan.env.now },
    ghost there: { All (λ c. c < div_ceil task.plan.env.now.trips task.plan.env.now.chunk) task.plan.chunks.now },
}

impl<'a, 'b, S: Store + Sync> Maker<Done<'a, S>> for Runner<'a, 'b, S> {
    ghost task = { λ m. m.task };

    ghost lanes = { λ m. length m.task.plan.chunks.now };

    #[tactic(auto, using(al_code::proofs::Deciding::valid_true))]
    fn make(&self, lane: u32) -> Result<Done<'a, S>, AllocError> {
        let Plan {
            code,
            info,
            choice,
            env,
            input,
            chunks,
        } = self.task.plan;
        let chunk = chunks[lane as usize];
        let change = run_chunk(
            self.alloc, code, info, choice, env, input, chunk, self.store,
        )?;
        Ok(Done {
            change,
            plan: PhantomData,
            store: Snapshot::of(self.store),
        })
    }
}

fn task_of<'a, S: Store + Sync>(store: &S, plan: Plan<'a>) -> Task<'a, S>
    ensures { (result.store.value ≡ store.now) × (result.plan ≡ plan.entry) }
{
    Task {
        plan,
        store: Snapshot::of(store),
    }
}

/// Runs all chunks of a round, with so many threads, and judges them. It gives what each did, and the verdicts, in the
/// order of the chunks. The error is want of memory.
#[tactic(auto, using(al_code::proofs::Deciding::true_valid))]
pub(crate) fn run_chunks<'a, R: Threads + Sync, S: Store + Sync, G: Gate>(
    rt: &R,
    alloc: Global,
    store: &S,
    plan: Plan<'a>,
    threads: u32,
    gate: &G,
) -> Result<(Vec<Done<'a, S>>, Items<Verdict>), AllocError>
    requires lanes { (1 ≤ length plan.chunks.now) × (length plan.chunks.now ≤ 64) }
    requires may { MayRun plan.code.now plan.info.now plan.env.now plan.chunks.now }
    requires line { IsLineSize plan.choice.now.line }
    requires threads { (1 ≤ threads) × (threads ≤ 64) }
    ensures each { IfOk result (λ r. length r.0.items ≡ length plan.entry.chunks.now) }
    ensures outcomes { IfOk result (λ r.
        InEachTree plan.entry.code.now plan.entry.info.now plan.entry.input.now plan.entry.env.now (λ x.
        map (λ d. told d.change) r.0.items
        ≡ outcomes x plan.entry.choice.now.reds (S.memory store.now) plan.entry.chunks.now)) }
    ensures verdicts { IfOk result (λ r.
        r.1 ≡ spec.verdicts plan.entry.choice.now (map (λ d. told d.change) r.0.items)) }
{
    let lanes = plan.chunks.len() as u32;
    let (book, pass) = Book::<Done<'a, S>>::new(alloc, lanes, task_of(store, plan))?;
    let runner = Runner {
        alloc,
        store,
        task: task_of(store, plan),
    };
    let pass = work_all(rt, book.board(), pass, &runner, threads, gate)?;
    Ok(book.finish_vec(pass))
}
