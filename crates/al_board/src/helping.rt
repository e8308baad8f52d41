//! The calls of a board with a shelf that lay pieces on it.
ghost use Rattle.std.specs.Prelude.{ℕ, true, ◌≡◌, ◌≢◌, ◌+◌, ◌<◌, ◌≤◌, ◌⊎◌, [], ◌∷◌, Some, None, length};
ghost use Rattle.al_board.specs.declared.view.Slot.TheVariants.{Empty};
ghost use Rattle.al_board.specs.Logs.{HasLaidOn, HasLoggedHelp};
ghost use Rattle.al_board.specs.Seen.{logs_of, seat_logs, seen, view, IsSame, IsPassOf, lane_count, task_of, has_shelf};
ghost use Rattle.al_board.specs.Views.{at_turn, IsFull, IsSameWork};
ghost use Rattle.al_board.specs.Helps.{IsAbout, IsHelped, IsLaid, IsCarried};

use crate::piece::Piece;
use crate::plays::{PassOn, Seize, Try};
use crate::table::{AWAY, Board, FILLED, Pass, TAKEN};
use crate::view::{Helped, Slot, View};
use atomic_table::Seat;

impl<T: Piece> Board<T> {
    // Lays pieces from the lane `found` on, until one is not filled or none is left, and answers the next. Each lane's
    // slot is given back at the step that takes the next lane.
    fn lay_on(
        &self,
        seat: &mut Seat<Slot<T, T::Shelf>, View<T, T::Task>>,
        shelf: &mut T::Shelf,
        found: u32,
    ) -> u32
        requires own { seat.old.table_id ≡ self.now.table.shared.table_id }
        requires about { IsAbout (task_of self.now) (lane_count self.now) seat.old.me.0 }
        requires room { T.lanes (task_of self.now) ≡ lane_count self.now }
        requires turn { seat.old.me.0.turn ≡ Some record { found = found; next = found; laid = T.laid shelf.old } }
        requires slots { seat.old.me.1 ≡ (lane_count self.now, Empty) ∷ [] }
        requires from { found ≤ lane_count self.now }
        requires shelf { T.stands (task_of self.now) shelf.old × (length (T.laid shelf.old) ≡ found) }
        ensures own { (seat.new.table_id ≡ seat.old.table_id) × (seat.new.id ≡ seat.old.id) }
        ensures shelf { T.stands (task_of self.now) shelf.new }
        ensures laid { IsLaid (lane_count self.now) found result (T.laid shelf.new) (seen seat.old) (seen seat.new) }
        ensures held { IsCarried (lane_count self.now) result seat.new.me.1 }
        ensures logged { HasLaidOn (lane_count self.now) result (seat_logs seat.old) (seat_logs seat.new) }
    {
        let mut next = found;
        while next < self.setting.lanes {
            let word = self
                .table
                .shared
                .compare_exchange::<Try>(seat, next as usize + 1, FILLED, TAKEN);
            if word != FILLED {
                return next;
            }
            match self.table.shared.exchange(seat, next as usize, Slot::Empty) {
                Slot::Piece(piece) => T::lay(&self.setting.task, shelf, piece),
                Slot::Empty => unreachable!(),
                Slot::Shelf(_) => unreachable!(),
                Slot::Room(_) => unreachable!(),
            }
            next += 1;
        }
        next
    }

    // Takes the baton, if no other pass has it, lays what is next and filled, and gives the baton back.
    pub(crate) fn take_turn(&self, pass: &mut Pass<T>) -> Helped
        requires own { IsPassOf self.now pass.old }
        requires shelf { has_shelf self.now ≡ true }
        requires put { (1 ≤ length (view pass.old).put) ⊎ IsFull (view pass.old) }
        ensures own { IsSame self.now pass.old pass.new }
        ensures helped { IsHelped (view pass.old) (view pass.new) result }
        ensures logged { HasLoggedHelp (lane_count self.now) (logs_of pass.old) (logs_of pass.new) result }
    {
        let last = self.setting.lanes as usize;
        let baton = last + 1;
        let found = self.table.shared.swap::<Seize>(&mut pass.seat, baton, AWAY);
        if found == AWAY {
            return Helped::Busy;
        }
        match self
            .table
            .shared
            .exchange(&mut pass.seat, last, Slot::Empty)
        {
            Slot::Shelf(mut shelf) => {
                let next = self.lay_on(&mut pass.seat, &mut shelf, found as u32);
                pass.seat.turn();
                self.table
                    .shared
                    .exchange(&mut pass.seat, last, Slot::Shelf(shelf));
                self.table
                    .shared
                    .swap::<PassOn>(&mut pass.seat, baton, next as u64);
                Helped::Advanced(next)
            }
            Slot::Empty => unreachable!(),
            Slot::Piece(_) => unreachable!(),
            Slot::Room(_) => unreachable!(),
        }
    }

    /// Lays the pieces of the lanes that are next, as far as they are filled. `Busy`: another pass is doing so.
    /// `Advanced(j)`: so many pieces are judged.
    pub fn advance(&self, pass: &mut Pass<T>) -> Helped
        requires own { IsPassOf self.now pass.old }
        requires shelf { has_shelf self.now ≡ true }
        requires put { 1 ≤ length (view pass.old).put }
        ensures own { IsSame self.now pass.old pass.new }
        ensures helped { IsHelped (view pass.old) (view pass.new) result }
        ensures logged { HasLoggedHelp (lane_count self.now) (logs_of pass.old) (logs_of pass.new) result }
        ensures same { IsSameWork (view pass.old) (view pass.new) }
    {
        self.take_turn(pass)
    }
}
