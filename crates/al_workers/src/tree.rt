//! Workers along a tree of joins: at each node the pass is split, and joined again as the workers come back.
ghost use Rattle.std.specs.Prelude.{ℕ, true, false, ◌≡◌, ◌≤◌, ◌^◌, IfOk};
ghost use Rattle.std.specs.Thread.{IsSync};
ghost use denote.Param.Send.{IsSend};
ghost use Rattle.al_board.specs.Logs.{AreKept};
ghost use Rattle.al_board.specs.Seen.{logs_of, view, IsSame, IsPassOf, lane_count, task_of};
ghost use Rattle.al_board.specs.Views.{HasPutAll, IsFull};
ghost use Rattle.al_workers.specs.Workers.{HasEnded, IsJoined, IsFresh, MayWork};

use crate::gate::{Gate, Gated};
use al_board::{Board, Maker, Pass, Piece, work, work_and_lay};
use std::alloc::AllocError;
use std::thread;
use std::thread::Threads;

/// Works on all lanes of a board with so many threads, and gives a full pass. Each worker makes one call of `work`, or
/// of `work_and_lay` where the board has a shelf. The gate is called round the making of each lane. The error is want
/// of memory.
pub fn work_all<R: Threads + Sync, T: Piece, M: Maker<T>, G: Gate>(
    rt: &R,
    board: &Board<T>,
    pass: Pass<T>,
    maker: &M,
    threads: u32,
    gate: &G,
) -> Result<Pass<T>, AllocError>
    requires own { IsPassOf board.now pass }
    requires maker { (M.task maker.now ≡ task_of board.now) × (M.lanes maker.now ≡ lane_count board.now) }
    requires fresh { IsFresh (view pass) }
    requires threads { (1 ≤ threads) × (threads ≤ (view pass).allowance) }
    ensures own { IfOk result (IsSame board.now pass) }
    ensures full { IfOk result (λ p. IsFull (view p)) }
    ensures kept { IfOk result (λ p. AreKept (logs_of pass) (logs_of p)) }
{
    work_tree(rt, board, pass, &Gated { maker, gate }, threads)
}

// One worker's run with a pass that it is given, and gives back.
fn work_alone<T: Piece, M: Maker<T>>(
    board: &Board<T>,
    mut pass: Pass<T>,
    maker: &M,
) -> Result<Pass<T>, AllocError>
    requires ready { MayWork 1 board.now (M.task maker.now) (M.lanes maker.now) pass }
    ensures ended { IfOk result (HasEnded board.now pass) }
{
    let done = if board.shelved() {
        work_and_lay(board, &mut pass, maker)
    } else {
        work(board, &mut pass, maker)
    };
    match done {
        Ok(()) => Ok(pass),
        Err(error) => Err(error),
    }
}

// The joined pass of two workers, or want of memory.
fn join_both<T: Piece>(
    board: &Board<T>,
    mine: Result<Pass<T>, AllocError>,
    theirs: Result<Pass<T>, AllocError>,
) -> Result<Pass<T>, AllocError>
    requires mine { IfOk mine (λ p. IsPassOf board.now p) }
    requires theirs { IfOk theirs (λ p. IsPassOf board.now p) }
    ensures both { IfOk result (IsJoined board.now mine theirs) }
{
    match (mine, theirs) {
        (Ok(mut joined), Ok(last)) => {
            board.join(&mut joined, last);
            Ok(joined)
        }
        _ => Err(AllocError),
    }
}

// So many threads work, each with its part of the pass.
#[cycle(workers)]
fn work_tree<R: Threads + Sync, T: Piece, M: Maker<T>>(
    rt: &R,
    board: &Board<T>,
    pass: Pass<T>,
    maker: &M,
    threads: u32,
) -> Result<Pass<T>, AllocError>
    requires ready { MayWork threads board.now (M.task maker.now) (M.lanes maker.now) pass }
    ensures ended { IfOk result (HasEnded board.now pass) }
{
    if threads <= 1 {
        return work_alone(board, pass, maker);
    }
    work_in_two(rt, board, pass, maker, threads)
}

// Half of the threads work beside the others.
#[cycle(workers)]
fn work_in_two<R: Threads + Sync, T: Piece, M: Maker<T>>(
    rt: &R,
    board: &Board<T>,
    mut pass: Pass<T>,
    maker: &M,
    threads: u32,
) -> Result<Pass<T>, AllocError>
    requires ready { MayWork threads board.now (M.task maker.now) (M.lanes maker.now) pass }
    requires many { 2 ≤ threads }
    ensures ended { IfOk result (HasEnded board.now pass) }
{
    let half = threads / 2;
    let rest = threads - half;
    let other = board.split(&mut pass);
    let one = move || -> Result<Pass<T>, AllocError>
        requires shared { IsSync R.row × IsSync M.row × IsSend T.row }
        requires ready { MayWork rest board.now (M.task maker.now) (M.lanes maker.now) pass }
        ensures ended { IfOk result (HasEnded board.entry.now pass) }
    { work_tree(rt, board, pass, maker, rest) };
    let two = move || -> Result<Pass<T>, AllocError>
        requires shared { IsSync R.row × IsSync M.row × IsSend T.row }
        requires ready { MayWork half board.now (M.task maker.now) (M.lanes maker.now) other }
        ensures ended { IfOk result (HasEnded board.entry.now other) }
    { work_tree(rt, board, other, maker, half) };
    let (mine, theirs) = thread::join(rt, one, two);
    join_both(board, mine, theirs)
}
