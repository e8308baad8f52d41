//! A worker's run.
ghost use Rattle.std.specs.Prelude.{ℕ, true, false, ◌≡◌, ◌+◌, List, OnOk, OnErr, IfOk};
ghost use Rattle.al_board.specs.Helps.{HasWorked, HasHalted};
ghost use Rattle.al_board.specs.Logs.{AreKept, HasLoggedFill};
ghost use Rattle.al_board.specs.Seen.{logs_of, view, IsSame, IsPassOf, lane_count, task_of, has_shelf};
ghost use Rattle.al_board.specs.Views.{got, HasFilled, HasPutAll, HasRun, HasStopped};

use crate::piece::{Maker, Piece};
use crate::table::{Board, Pass};
use std::alloc::AllocError;

/// Draws a lane, makes its piece and puts it. `None`: there is no lane left, and the pass has ended. The error is want
/// of memory, and the lane that was drawn is not put.
pub fn fill_next<T: Piece, M: Maker<T>>(
    board: &Board<T>,
    pass: &mut Pass<T>,
    maker: &M,
) -> Result<Option<u32>, AllocError>
    requires own { IsPassOf board.now pass.old }
    requires maker { (M.task maker.now ≡ task_of board.now) × (M.lanes maker.now ≡ lane_count board.now) }
    requires going { (view pass.old).ended ≡ false }
    ensures own { IsSame board.now pass.old pass.new }
    ensures filled { IfOk result (HasFilled (view pass.old) (view pass.new)) }
    ensures kept { AreKept (logs_of pass.old) (logs_of pass.new) }
    ensures logged { IfOk result (HasLoggedFill (T.fits (task_of board.now)) (logs_of pass.new)) }
    ensures memory { OnErr result ((lane : ℕ) × (view pass.new ≡ got lane (view pass.old))) }
{
    let Some(lane) = board.draw(pass) else {
        return Ok(None);
    };
    let piece = maker.make(lane)?;
    board.put(pass, lane, piece);
    Ok(Some(lane))
}

/// One worker's whole run: lane after lane, until no lane is left or memory runs out. It never lays pieces on a shelf.
pub fn work<T: Piece, M: Maker<T>>(
    board: &Board<T>,
    pass: &mut Pass<T>,
    maker: &M,
) -> Result<(), AllocError>
    requires own { IsPassOf board.now pass.old }
    requires maker { (M.task maker.now ≡ task_of board.now) × (M.lanes maker.now ≡ lane_count board.now) }
    requires going { (view pass.old).ended ≡ false }
    ensures own { IsSame board.now pass.old pass.new }
    ensures kept { AreKept (logs_of pass.old) (logs_of pass.new) }
    ensures done { OnOk result (HasRun (view pass.old) (view pass.new)) }
    ensures put { OnOk result (HasPutAll (view pass.old) → HasPutAll (view pass.new)) }
    ensures memory { OnErr result (HasStopped (view pass.old) (view pass.new)) }
{
    while let Some(_) = fill_next(board, pass, maker)? {}
    Ok(())
}

/// The same on a board with a shelf: after each lane, the pieces that are next are laid.
pub fn work_and_lay<T: Piece, M: Maker<T>>(
    board: &Board<T>,
    pass: &mut Pass<T>,
    maker: &M,
) -> Result<(), AllocError>
    requires own { IsPassOf board.now pass.old }
    requires maker { (M.task maker.now ≡ task_of board.now) × (M.lanes maker.now ≡ lane_count board.now) }
    requires shelf { has_shelf board.now ≡ true }
    requires going { (view pass.old).ended ≡ false }
    ensures own { IsSame board.now pass.old pass.new }
    ensures kept { AreKept (logs_of pass.old) (logs_of pass.new) }
    ensures done { OnOk result (HasWorked (view pass.old) (view pass.new)) }
    ensures put { OnOk result (HasPutAll (view pass.old) → HasPutAll (view pass.new)) }
    ensures memory { OnErr result (HasHalted (view pass.old) (view pass.new)) }
{
    while let Some(_) = fill_next(board, pass, maker)? {
        board.advance(pass);
    }
    Ok(())
}
