//! The calls of a board that draw and put.
ghost use Rattle.std.specs.Prelude.{ℕ, ◌≡◌, ◌+◌, ◌<◌, ◌≤◌, false, [], ◌∷◌, ◌++◌, length};
ghost use Rattle.al_count.specs.Counts.{times};
ghost use Rattle.al_board.specs.declared.view.Entry.TheVariants.{Put};
ghost use Rattle.al_board.specs.Logs.{HasLogged, HasLoggedDraw};
ghost use Rattle.al_board.specs.Seen.{logs_of, view, IsSame, IsPassOf, lane_count, task_of, has_shelf};
ghost use Rattle.al_board.specs.Views.{gave, keeping, parted, joined, HasDrawn, IsBounded};

use crate::piece::Piece;
use crate::plays::{Draw, Fill, Halve, Look, Take, Unite};
use crate::table::{Board, FILLED, HELD, Pass};
use crate::view::Slot;

impl<T: Piece> Board<T> {
    /// Draws one number. `Some` is a lane, which is now the pass's, and `None` ends the pass: there is no lane left.
    pub fn draw(&self, pass: &mut Pass<T>) -> Option<u32>
        requires own { IsPassOf self.now pass.old }
        requires going { (view pass.old).ended ≡ false }
        ensures own { IsSame self.now pass.old pass.new }
        ensures drawn { HasDrawn (lane_count self.now) (view pass.old) (view pass.new) result }
        ensures logged { HasLoggedDraw (lane_count self.now) (logs_of pass.old) (logs_of pass.new) result }
        ensures once { IsBounded (view pass.new) }
    {
        let number = self.table.shared.fetch_add::<Draw>(&mut pass.seat, 0, 1);
        if number < self.setting.lanes as u64 {
            Some(number as u32)
        } else {
            pass.allowance -= 1;
            None
        }
    }

    /// The pass's allowance. A split halves it, and the draw that ends the pass takes 1.
    pub fn allowance(&self, pass: &Pass<T>) -> u64
        requires { IsPassOf self.now pass.now }
        ensures { result ≡ (view pass.now).allowance }
    {
        pass.allowance
    }

    /// Whether the board has a shelf.
    pub fn shelved(&self) -> bool
        ensures { result ≡ has_shelf self.now }
    {
        self.setting.shelved
    }

    /// How many lanes the pass put.
    pub fn filled(&self, pass: &Pass<T>) -> u32
        requires { IsPassOf self.now pass.now }
        ensures { result ≡ length (view pass.now).put }
    {
        pass.puts
    }

    /// A new pass without draws, which has not ended. It has half of the allowance and of the share, rounded down.
    pub fn split(&self, pass: &mut Pass<T>) -> Pass<T>
        requires own { IsPassOf self.now pass.old }
        requires enough { 2 ≤ (view pass.old).allowance }
        ensures own { IsSame self.now pass.old pass.new × IsPassOf self.now result }
        ensures kept { view pass.new ≡ keeping (view pass.old) }
        ensures given { view result ≡ parted (view pass.old) }
        ensures logs { (logs_of pass.new ≡ logs_of pass.old) × (logs_of result ≡ []) }
    {
        let half = pass.allowance / 2;
        let seat = self.table.shared.split_seat::<Halve>(&mut pass.seat);
        pass.allowance -= half;
        Pass {
            seat,
            allowance: half,
            puts: 0,
        }
    }

    /// Gives the pass the draws, the puts, the allowance and the share of both. No lane stands twice in either list.
    pub fn join(&self, pass: &mut Pass<T>, other: Pass<T>)
        requires own { IsPassOf self.now pass.old × IsPassOf self.now other }
        ensures own { IsSame self.now pass.old pass.new }
        ensures joined { view pass.new ≡ joined (view pass.old) (view other) }
        ensures logs { logs_of pass.new ≡ logs_of pass.old ++ logs_of other }
        ensures once { IsBounded (view pass.new) }
    {
        let Pass {
            seat,
            allowance,
            puts,
        } = other;
        self.table.shared.join_seat::<Unite>(&mut pass.seat, seat);
        self.table.shared.load::<Look>(&mut pass.seat, 0);
        pass.allowance += allowance;
        pass.puts += puts;
    }

    /// Puts the piece of a lane that the pass drew and has not put.
    pub fn put(&self, pass: &mut Pass<T>, lane: u32, piece: T)
        requires own { IsPassOf self.now pass.old }
        requires drawn { 1 ≤ times lane (view pass.old).drawn }
        requires not_put { times lane (view pass.old).put ≡ 0 }
        requires fits { T.fits (task_of self.now) lane piece }
        ensures own { IsSame self.now pass.old pass.new }
        ensures put { view pass.new ≡ gave lane (view pass.old) }
        ensures logged { HasLogged (λ number. Put number lane piece) (logs_of pass.old) (logs_of pass.new) }
    {
        let word = lane as usize + 1;
        self.table.shared.swap::<Take>(&mut pass.seat, word, HELD);
        self.table
            .shared
            .exchange(&mut pass.seat, lane as usize, Slot::Piece(piece));
        self.table.shared.swap::<Fill>(&mut pass.seat, word, FILLED);
        pass.puts += 1;
    }
}
