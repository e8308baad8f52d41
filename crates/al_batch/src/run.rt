//! How a list of jobs is done.
ghost use Rattle.std.specs.Prelude.{◌≡◌, ◌≤◌, [], IfOk, length, map};
ghost use Rattle.al_board.specs.Fits.{AreFit};
ghost use Rattle.al_batch.specs.Answers.{FitsAt};

use crate::gate::{Lanes, PoolGate};
use crate::jobs::{Doer, Done, Work};
use al_board::Board;
use al_workers::work_all;
use sqlite_items::Items;
use std::alloc::{AllocError, Global};
use std::thread::Threads;

/// Does each of at most 1,024 jobs once, with so many threads, from 1 to 64, and gives one answer for each, in the
/// order of the jobs. The gate is called round each job. The error is want of memory.
pub fn run_jobs<R: Threads + Sync, W: Work, G: PoolGate>(
    rt: &R,
    alloc: Global,
    work: &W,
    jobs: &[W::Job],
    threads: u32,
    gate: &G,
) -> Result<Items<W::Answer>, AllocError>
    requires jobs { length jobs.now ≤ 1024 }
    requires threads { (1 ≤ threads) × (threads ≤ 64) }
    ensures each { IfOk result (λ answers. length answers ≡ length jobs.now) }
    ensures fit { IfOk result (AreFit (FitsAt W.fits jobs.now)) }
{
    if jobs.is_empty() {
        return Ok(Items::from_vec(Vec::new(alloc)));
    }
    let lanes = jobs.len() as u32;
    let (board, pass) = Board::<Done<W>>::new(alloc, lanes, jobs)?;
    let doer = Doer { work, jobs };
    let pass = work_all(rt, &board, pass, &doer, threads, &Lanes { gate })?;
    answers_of(alloc, jobs, board.close_vec(pass))
}

// The answers of a list, in its order.
fn answers_of<W: Work>(
    alloc: Global,
    jobs: &[W::Job],
    list: Vec<Done<W>>,
) -> Result<Items<W::Answer>, AllocError>
    requires fit { AreFit (λ k done. FitsAt W.fits jobs.now k done.answer) list.items }
    ensures each { IfOk result (λ answers. length answers ≡ length list.entry.items) }
    ensures fit { IfOk result (AreFit (FitsAt W.fits jobs.now)) }
{
    let _ = jobs;
    taken_out(alloc, list)
}

fn taken_out<W: Work>(alloc: Global, list: Vec<Done<W>>) -> Result<Items<W::Answer>, AllocError>
    ensures { IfOk result (λ answers. answers ≡ map (λ done. done.answer) list.entry.items) }
{
    let mut answers = Vec::with_capacity(alloc, list.len())?;
    for done in list {
        let Done { answer, jobs: _ } = done;
        answers.push_reserved(answer);
    }
    Ok(Items::from_vec(answers))
}
