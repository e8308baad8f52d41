//! A board, which threads share, and the token of one caller.
ghost use Rattle.std.specs.Prelude.{◌≡◌, ◌+◌, ◌<◌, ◌≤◌, [], None, length};
ghost use Rattle.al_board.specs.Views.{IsBounded, unlogged};
ghost use Rattle.al_board.specs.Words.{IsSized};

use crate::piece::Piece;
use crate::plays::Lanes;
use crate::view::{Setting, Slot, View};
use atomic_table::{Seat, Table};
use std::alloc::Global;

// The word of a lane is 0 until a pass takes it, then one of these.
pub(crate) const HELD: u64 = 1;

pub(crate) const FILLED: u64 = 2;

pub(crate) const TAKEN: u64 = 3;

// The baton's word while a pass has the baton; else it is the number of lanes taken.
pub(crate) const AWAY: u64 = 1025;

/// A board of lanes, with a shelf or without one. Threads share it by reference.
#[derive(Drop)]
pub struct Board<T: Piece> {
    pub(crate) table: Table<Slot<T, T::Shelf>, View<T, T::Task>, Setting<T::Task>, Lanes, Global>,
    pub(crate) setting: Setting<T::Task>,
    ghost sized: { IsSized table.shared.table_id.words table.shared.table_id.slots setting.lanes },
    ghost about: { table.shared.key ≡ setting },
}

/// The token of one caller of a board. It draws lanes and puts pieces.
#[derive(Drop)]
pub struct Pass<T: Piece> {
    pub(crate) seat: Seat<Slot<T, T::Shelf>, View<T, T::Task>>,
    pub(crate) allowance: u64,
    pub(crate) puts: u32,
    ghost idle: { (seat.me.1 ≡ []) × (seat.me.0.holds ≡ None) × (seat.me.0.turn ≡ None) },
    ghost live: { (0 < seat.me.0.share) × (allowance ≤ seat.me.0.share) },
    ghost bounded: { IsBounded (unlogged seat.me.0) },
    ghost allows: { allowance ≡ seat.me.0.allowance },
    ghost counts: { puts ≡ length seat.me.0.put },
}
