//! A board whose pieces are judged in the order of their lanes while others are still made.
ghost use Rattle.std.specs.Prelude.{ℕ, ◌≡◌, ◌≤◌, true, false, [], IfOk, OnOk, OnErr, length};
ghost use Rattle.al_core.specs.Lines.{IsLineSize};
ghost use Rattle.al_board.specs.Helps.{IsHelped, HasWorked, HasHalted};
ghost use Rattle.al_board.specs.Logs.{AreKept, HasLoggedHelp};
ghost use Rattle.al_board.specs.Seen.{logs_of, pass_number, view, IsSame, IsPassOf, lane_count, task_of, has_shelf};
ghost use Rattle.al_board.specs.Views.{opener, HasPutAll, IsFull, IsSameWork};
ghost use Rattle.al_book.specs.Books.{IsJudgedRound};
ghost use Rattle.al_book.specs.Judging.{HistoriesAreJudged};

use crate::shelf::Bookshelf;
use crate::weigh::BookPiece;
use al_board::{Board, Helped, Maker, Pass, work_and_lay};
use al_core::Verdict;
use sqlite_items::Items;
use std::alloc::{AllocError, Global};

/// A board of lanes whose shelf is a bookshelf. Threads share it by reference.
#[derive(Drop)]
pub struct Book<T: BookPiece> {
    pub(crate) board: Board<T>,
    ghost shelved: { has_shelf board ≡ true },
}

/// The pieces of a round with their verdicts, in the order of their lanes.
#[derive(Drop)]
pub struct Settled<T> {
    pub pieces: Items<T>,
    pub verdicts: Items<Verdict>,
}

impl<T: BookPiece> Book<T> {
    /// A book of as many lanes as the task has, from 1 to 64, and its first pass. The pieces are judged by the task's
    /// choice. The error is want of memory.
    pub fn new(alloc: Global, lanes: u32, task: T::Task) -> Result<(Book<T>, Pass<T>), AllocError>
        requires lanes { (1 ≤ lanes) × (lanes ≤ 64) × (T.lanes task ≡ lanes) }
        requires line { IsLineSize (T.choice task).line }
        ensures book { IfOk result (λ r. (lane_count r.0.board ≡ lanes) × (task_of r.0.board ≡ task)) }
        ensures pass { IfOk result (λ r. IsPassOf r.0.board r.1 × (view r.1 ≡ opener r.0.board.setting)) }
        ensures first { IfOk result (λ r. (pass_number r.1 ≡ 0) × (logs_of r.1 ≡ [])) }
    {
        let shelf = Bookshelf::new(alloc, T::choice_of(&task), lanes)?;
        let (board, pass) = Board::with_shelf(alloc, lanes, task, shelf)?;
        Ok((Book { board }, pass))
    }

    /// The board, for the calls of its passes. It has a shelf.
    pub fn board(&self) -> &Board<T>
        ensures board { result.now ≡ self.now.board }
        ensures shelf { has_shelf result.now ≡ true }
    {
        &self.board
    }

    /// Judges the pieces of the lanes that are next, as far as they are put. `Busy`: another pass is doing so.
    /// `Advanced(j)`: so many pieces are judged. It takes no memory.
    pub fn help(&self, pass: &mut Pass<T>) -> Helped
        requires own { IsPassOf self.now.board pass.old }
        requires put { 1 ≤ length (view pass.old).put }
        ensures own { IsSame self.now.board pass.old pass.new }
        ensures helped { IsHelped (view pass.old) (view pass.new) result }
        ensures logged { HasLoggedHelp (lane_count self.now.board) (logs_of pass.old) (logs_of pass.new) result }
        ensures same { IsSameWork (view pass.old) (view pass.new) }
    {
        self.board.advance(pass)
    }

    /// One worker's whole run: lane after lane, until no lane is left or memory runs out. After each lane the pieces
    /// that are next are judged.
    pub fn work<M: Maker<T>>(&self, pass: &mut Pass<T>, maker: &M) -> Result<(), AllocError>
        requires own { IsPassOf self.now.board pass.old }
        requires maker { (M.task maker.now ≡ task_of self.now.board) × (M.lanes maker.now ≡ lane_count self.now.board) }
        requires going { (view pass.old).ended ≡ false }
        ensures own { IsSame self.now.board pass.old pass.new }
        ensures kept { AreKept (logs_of pass.old) (logs_of pass.new) }
        ensures done { OnOk result (HasWorked (view pass.old) (view pass.new)) }
        ensures put { OnOk result (HasPutAll (view pass.old) → HasPutAll (view pass.new)) }
        ensures memory { OnErr result (HasHalted (view pass.old) (view pass.new)) }
    {
        work_and_lay(&self.board, pass, maker)
    }

    // The shelf of a book, by a pass that is full.
    fn close(self, pass: Pass<T>) -> Bookshelf<T>
        requires own { IsPassOf self.board pass }
        requires full { IsFull (view pass) }
        ensures judged { IsJudgedRound T.fits T.outcome T.choice self.board pass result.pieces.items
            result.verdicts.items }
    {
        let Book { board } = self;
        board.close_shelf(pass)
    }

    /// The pieces and their verdicts, in the order of the lanes, by a pass that is full. It takes no memory.
    pub fn finish_pieces(self, pass: Pass<T>) -> Settled<T>
        requires own { IsPassOf self.board pass }
        requires full { IsFull (view pass) }
        ensures judged { IsJudgedRound T.fits T.outcome T.choice self.board pass result.pieces result.verdicts }
        ensures law { HistoriesAreJudged T.outcome (T.choice (task_of self.board)) (T.fits (task_of self.board))
            (lane_count self.board) }
    {
        let Bookshelf {
            choice: _,
            lanes: _,
            pieces,
            verdicts,
            failed: _,
            trapped: _,
        } = self.close(pass);
        Settled {
            pieces: Items::from_vec(pieces),
            verdicts: Items::from_vec(verdicts),
        }
    }

    /// The same with the pieces as a vector.
    pub fn finish_vec(self, pass: Pass<T>) -> (Vec<T>, Items<Verdict>)
        requires own { IsPassOf self.board pass }
        requires full { IsFull (view pass) }
        ensures judged { IsJudgedRound T.fits T.outcome T.choice self.board pass result.0.items result.1 }
        ensures law { HistoriesAreJudged T.outcome (T.choice (task_of self.board)) (T.fits (task_of self.board))
            (lane_count self.board) }
    {
        let Bookshelf {
            choice: _,
            lanes: _,
            pieces,
            verdicts,
            failed: _,
            trapped: _,
        } = self.close(pass);
        (pieces, Items::from_vec(verdicts))
    }

    /// The verdicts alone.
    pub fn finish(self, pass: Pass<T>) -> Items<Verdict>
        requires own { IsPassOf self.board pass }
        requires full { IsFull (view pass) }
        ensures judged { (pieces : _) × IsJudgedRound T.fits T.outcome T.choice self.board pass pieces result }
        ensures law { HistoriesAreJudged T.outcome (T.choice (task_of self.board)) (T.fits (task_of self.board))
            (lane_count self.board) }
    {
        self.finish_vec(pass).1
    }
}
