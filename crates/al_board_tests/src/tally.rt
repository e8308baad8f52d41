//! A shelf that counts what is laid, so that a test sees it while the board is open.
ghost use Rattle.std.specs.Prelude.{ℕ, ◌≡◌, ◌≤◌};
ghost use Rattle.al_board.specs.Piles.{on_pile, IsPileFor};

use al_board::{Board, Maker, Piece, Pile};
use al_workers::{FreeGate, work_all};
use std::alloc::{AllocError, Global};
use std::marker::PhantomData;
use std::sync::atomic::{AtomicU64, Ordering};
use std::test::Fail;
use std::thread::Threads;

// The task: a number of lanes, and how many pieces were laid.
#[derive(Drop)]
struct Tally {
    lanes: u32,
    laid: AtomicU64,
}

#[derive(Drop)]
struct Chip<'a> {
    of: PhantomData<&'a Tally>,
}

impl<'a> Piece for Chip<'a> {
    type Task = &'a Tally;

    type Shelf = Pile<Chip<'a>>;

    ghost fits = { λ task lane piece. Unit {0} };

    ghost lanes = { λ task. task.now.lanes };

    ghost laid = { on_pile };

    ghost stands = { λ task. IsPileFor (λ lane piece. Unit {0}) task.now.lanes };

    fn lay(task: &&'a Tally, shelf: &mut Pile<Chip<'a>>, piece: Chip<'a>) {
        task.laid.fetch_add(1, Ordering::SeqCst);
        shelf.lay(piece);
    }

    ghost stands_fit = { λ task shelf h. h.fit };
}

#[derive(Drop)]
struct Dealer<'a> {
    tally: &'a Tally,
}

impl<'a> Maker<Chip<'a>> for Dealer<'a> {
    ghost task = { λ m. m.tally };

    ghost lanes = { λ m. m.tally.now.lanes };

    fn make(&self, _lane: u32) -> Result<Chip<'a>, AllocError> {
        Ok(Chip { of: PhantomData })
    }
}

// Fills a board with one thread, and gives how many pieces were laid before the board was closed.
fn laid_early<R: Threads + Sync>(rt: &R, alloc: Global, tally: &Tally) -> Result<u64, AllocError>
    requires { (1 ≤ tally.now.lanes) × (tally.now.lanes ≤ 64) }
{
    let pile = Pile::new(alloc, tally.lanes)?;
    let (board, pass) = Board::<Chip>::with_shelf(alloc, tally.lanes, tally, pile)?;
    let pass = work_all(rt, &board, pass, &Dealer { tally }, 1, &FreeGate)?;
    let laid = tally.laid.load(Ordering::SeqCst);
    drop(board.close_shelf(pass));
    Ok(laid)
}

#[test]
fn pieces_are_laid_while_the_board_is_open(rt: HostRuntime) -> Result<(), Fail> {
    for lanes in [1, 7, 64] {
        let tally = Tally {
            lanes,
            laid: AtomicU64::new(0),
        };
        assert_eq!(rt; laid_early(&rt, rt.alloc(), &tally)?, lanes as u64);
        assert_eq!(rt; tally.laid.load(Ordering::SeqCst), lanes as u64);
    }
    Ok(())
}
