//! How boards are closed.
ghost use Rattle.std.specs.Prelude.{ℕ, false, true, ◌≡◌, ◌≤◌, [], ◌∷◌, length};
ghost use Rattle.std.specs.Slots.{slots_items, slots_len, slots_filled};
ghost use Rattle.al_board.specs.Closes.{AreFrom, AreLeft, HavePieces};
ghost use Rattle.al_board.specs.Fits.{AreFit};
ghost use Rattle.al_board.specs.Piles.{on_pile, room_of};
ghost use Rattle.al_board.specs.declared.view.Slot.TheVariants.{Shelf};
ghost use Rattle.al_board.specs.Logs.{AreGiven};
ghost use Rattle.al_board.specs.Seen.{logs_of, view, IsPassOf, IsRoundOf, lane_count, task_of, has_shelf};
ghost use Rattle.al_board.specs.Views.{IsFull};

use crate::piece::Piece;
use crate::pile::Pile;
use crate::table::{Board, Pass};
use crate::view::{Setting, Slot};
use atomic_table::Closed;
use sqlite_items::Items;
use std::alloc::Global;

impl<T: Piece> Board<T> {
    /// Gives for each lane, in lane order, the piece that was put there, by a pass that is full.
    pub fn close(self, pass: Pass<T>) -> Items<T>
        requires own { IsPassOf self pass }
        requires plain { has_shelf self ≡ false }
        requires full { IsFull (view pass) }
        ensures each { length result ≡ lane_count self }
        ensures fit { AreFit (T.fits (task_of self)) result }
        ensures history { IsRoundOf T.fits self 0 pass result }
        ensures given { AreGiven (logs_of pass) result }
    {
        self.close_pile(pass).into_pieces()
    }

    /// The same as a vector.
    pub fn close_vec(self, pass: Pass<T>) -> Vec<T>
        requires own { IsPassOf self pass }
        requires plain { has_shelf self ≡ false }
        requires full { IsFull (view pass) }
        ensures each { length result.items ≡ lane_count self }
        ensures fit { AreFit (T.fits (task_of self)) result.items }
        ensures history { IsRoundOf T.fits self 0 pass result.items }
        ensures given { AreGiven (logs_of pass) result.items }
    {
        self.close_pile(pass).into_vec()
    }

    // The same as a pile.
    fn close_pile(self, pass: Pass<T>) -> Pile<T>
        requires own { IsPassOf self pass }
        requires plain { has_shelf self ≡ false }
        requires full { IsFull (view pass) }
        ensures each { length (on_pile result) ≡ lane_count self }
        ensures fit { AreFit (T.fits (task_of self)) (on_pile result) }
        ensures history { IsRoundOf T.fits self 0 pass (on_pile result) }
        ensures given { AreGiven (logs_of pass) (on_pile result) }
    {
        let Board { table, setting } = self;
        let Setting {
            task: _,
            lanes,
            shelved: _,
        } = setting;
        let Pass {
            seat,
            allowance: _,
            puts: _,
        } = pass;
        let mut closed = table.close_with(seat);
        match closed.take(lanes as usize) {
            Slot::Room(room) => gather(closed, room, lanes),
            Slot::Empty => unreachable!(),
            Slot::Piece(_) => unreachable!(),
            Slot::Shelf(_) => unreachable!(),
        }
    }

    /// Gives the shelf, on which the pieces of all lanes lie, in lane order, by a pass that is full.
    pub fn close_shelf(self, mut pass: Pass<T>) -> T::Shelf
        requires own { IsPassOf self pass }
        requires shelf { has_shelf self ≡ true }
        requires full { IsFull (view pass) }
        ensures stands { T.stands (task_of self) result }
        ensures each { length (T.laid result) ≡ lane_count self }
        ensures fit { AreFit (T.fits (task_of self)) (T.laid result) }
        ensures history { IsRoundOf T.fits self (lane_count self) pass (T.laid result) }
        ensures given { AreGiven (logs_of pass) (T.laid result) }
    {
        self.take_turn(&mut pass);
        let Board { table, setting } = self;
        let Setting {
            task: _,
            lanes,
            shelved: _,
        } = setting;
        let Pass {
            seat,
            allowance: _,
            puts: _,
        } = pass;
        let mut closed = table.close_with(seat);
        let last = closed.take(lanes as usize);
        discard(closed, lanes);
        shelf_in(last)
    }
}

// The shelf in a slot that has it.
fn shelf_in<T: Drop, H: Drop>(slot: Slot<T, H>) -> H
    requires { (shelf : _) × (slot ≡ Shelf shelf) }
    ensures { slot ≡ Shelf result }
{
    match slot {
        Slot::Shelf(shelf) => shelf,
        Slot::Empty => unreachable!(),
        Slot::Piece(_) => unreachable!(),
        Slot::Room(_) => unreachable!(),
    }
}

// The pieces of all lanes of a closed table, of which the last slot was taken.
fn gather<T: Drop, H: Drop>(
    mut closed: Closed<Slot<T, H>, Global>,
    mut room: Pile<T>,
    lanes: u32,
) -> Pile<T>
    requires room { (on_pile room ≡ []) × (lanes ≤ room_of room) }
    requires slots { AreLeft (slots_len closed.slots) (slots_filled closed.slots) lanes }
    requires pieces { HavePieces (slots_items closed.slots) lanes }
    ensures each { length (on_pile result) ≡ lanes }
    ensures from { AreFrom (on_pile result) (slots_items closed.slots) }
{
    for lane in 0..lanes {
        match closed.take(lane as usize) {
            Slot::Piece(piece) => room.lay(piece),
            Slot::Empty => unreachable!(),
            Slot::Shelf(_) => unreachable!(),
            Slot::Room(_) => unreachable!(),
        }
    }
    closed.free();
    room
}

// Drops what is left in a closed table, of which the last slot was taken.
fn discard<S: Drop>(mut closed: Closed<S, Global>, lanes: u32)
    requires slots { AreLeft (slots_len closed.slots) (slots_filled closed.slots) lanes }
{
    for lane in 0..lanes {
        drop(closed.take(lane as usize));
    }
    closed.free();
}
