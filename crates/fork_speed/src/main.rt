//! Lets threads work on boards whose pieces are nothing, to see what it costs to start and to join them.
#![tactic(auto)]

ghost use Rattle.std.specs.Prelude.{ℕ};
ghost use Rattle.al_board.specs.Piles.{on_pile, IsPileFor};

use al_board::{Board, Maker, Piece, Pile};
use al_workers::{FreeGate, work_all};
use anyhow::Error;
use std::alloc::AllocError;
use std::env;

// How many boards are filled for each word, and their lanes.
const BOARDS: u32 = 1000;

const LANES: u32 = 4;

#[derive(Drop)]
struct Nothing;

impl Piece for Nothing {
    type Task = u32;

    type Shelf = Pile<Nothing>;

    ghost fits = { λ task lane piece. Unit {0} };

    ghost lanes = { λ task. task };

    ghost laid = { on_pile };

    ghost stands = { λ task. IsPileFor (λ lane piece. Unit {0}) task };

    fn lay(_task: &u32, shelf: &mut Pile<Nothing>, piece: Nothing) {
        shelf.lay(piece);
    }

    ghost stands_fit = { λ task shelf h. h.fit };
}

#[derive(Drop)]
struct Idler {
    lanes: u32,
}

impl Maker<Nothing> for Idler {
    ghost task = { λ m. m.lanes };

    ghost lanes = { λ m. m.lanes };

    fn make(&self, _lane: u32) -> Result<Nothing, AllocError> {
        Ok(Nothing)
    }
}

/// For each word, a number of threads from 1 to 64, fills 1,000 boards of four lanes with as many threads, and says
/// `filled`. A greater number counts as 64, and another word as 1.
fn main(rt: HostRuntime) -> Result<(), Error> {
    for word in env::args(&rt)?.skip(1) {
        let threads = word.parse::<u32>().unwrap_or(1).clamp(1, 64);
        let maker = Idler { lanes: LANES };
        for _ in 0..BOARDS {
            let (board, pass) = Board::<Nothing>::new(rt.alloc(), LANES, LANES)?;
            let pass = work_all(&rt, &board, pass, &maker, threads, &FreeGate)?;
            drop(board.close_vec(pass));
        }
        println!(rt; "filled")?;
    }
    Ok(())
}
