//! Pieces that can be told apart, and what makes them.
ghost use Rattle.std.specs.Prelude.{ℕ, ◌≡◌, ◌+◌, ◌*◌, ◌≤◌, IfOk, length};
ghost use Rattle.al_board.specs.Fits.{AreFit};
ghost use Rattle.al_board.specs.Piles.{on_pile, IsPileFor};

use al_board::{Board, Maker, Piece, Pile};
use al_workers::{Gate, work_all};
use std::alloc::{AllocError, Global};
use std::thread::Threads;

/// The piece of lane k has the number 2k + 1; the task is the number of lanes.
#[derive(Drop)]
pub(crate) struct Mark {
    pub(crate) value: u64,
}

impl Piece for Mark {
    type Task = u32;

    type Shelf = Pile<Mark>;

    ghost fits = { λ task lane piece. piece.value ≡ 2 * lane + 1 };

    ghost lanes = { λ task. task };

    ghost laid = { on_pile };

    ghost stands = { λ task pile. IsPileFor (λ lane piece. piece.value ≡ 2 * lane + 1) task pile };

    fn lay(task: &u32, shelf: &mut Pile<Mark>, piece: Mark) {
        let _ = task;
        shelf.lay(piece);
    }

    ghost stands_fit = { λ task shelf h. h.fit };
}

/// Finds no memory in the lane `poor`.
#[derive(Drop)]
pub(crate) struct Marker {
    pub(crate) lanes: u32,
    pub(crate) poor: u32,
}

impl Maker<Mark> for Marker {
    ghost task = { λ m. m.lanes };

    ghost lanes = { λ m. m.lanes };

    fn make(&self, lane: u32) -> Result<Mark, AllocError> {
        if lane == self.poor {
            return Err(AllocError);
        }
        Ok(Mark {
            value: 2 * lane as u64 + 1,
        })
    }
}

/// Fills a board and gives its pieces. The error is want of memory.
pub(crate) fn fill<R: Threads + Sync, G: Gate>(
    rt: &R,
    alloc: Global,
    maker: &Marker,
    threads: u32,
    gate: &G,
) -> Result<Vec<Mark>, AllocError>
    requires lanes { (1 ≤ maker.now.lanes) × (maker.now.lanes ≤ 64) }
    requires threads { (1 ≤ threads) × (threads ≤ 64) }
    ensures each { IfOk result (λ v. length v.items ≡ maker.now.lanes) }
    ensures fit { IfOk result (λ v. AreFit (λ lane piece. piece.value ≡ 2 * lane + 1) v.items) }
{
    let (board, pass) = Board::<Mark>::new(alloc, maker.lanes, maker.lanes)?;
    let pass = work_all(rt, &board, pass, maker, threads, gate)?;
    Ok(board.close_vec(pass))
}

/// The same on a board with a shelf.
pub(crate) fn fill_shelf<R: Threads + Sync, G: Gate>(
    rt: &R,
    alloc: Global,
    maker: &Marker,
    threads: u32,
    gate: &G,
) -> Result<Vec<Mark>, AllocError>
    requires lanes { (1 ≤ maker.now.lanes) × (maker.now.lanes ≤ 64) }
    requires threads { (1 ≤ threads) × (threads ≤ 64) }
    ensures each { IfOk result (λ v. length v.items ≡ maker.now.lanes) }
    ensures fit { IfOk result (λ v. AreFit (λ lane piece. piece.value ≡ 2 * lane + 1) v.items) }
{
    let pile = Pile::new(alloc, maker.lanes)?;
    let (board, pass) = Board::<Mark>::with_shelf(alloc, maker.lanes, maker.lanes, pile)?;
    let pass = work_all(rt, &board, pass, maker, threads, gate)?;
    Ok(board.close_shelf(pass).into_vec())
}

/// Whether there are so many pieces, each in its lane.
pub(crate) fn is_whole(pieces: &[Mark], lanes: u32) -> bool {
    let mut right = pieces.len() == lanes as usize;
    for (lane, piece) in pieces.iter().enumerate() {
        right = right && piece.value == (lane as u64).wrapping_mul(2).wrapping_add(1);
    }
    right
}
