//! How boards are made.
ghost use Rattle.std.specs.Prelude.{ℕ, ◌≡◌, ◌+◌, ◌<◌, ◌≤◌, false, true, [], ◌∷◌, IfOk};
ghost use Rattle.al_board.specs.Seen.{logs_of, pass_number, view, IsPassOf, lane_count, task_of, has_shelf};
ghost use Rattle.al_board.specs.Views.{opener};
ghost use Rattle.al_board.specs.Rule.{IsOpening, IsRow, terms_of};

use crate::piece::Piece;
use crate::pile::Pile;
use crate::table::{Board, Pass};
use crate::view::{Setting, Slot};
use atomic_table::Table;
use std::alloc::{AllocError, Global};

// The slots of a board: an empty one for each lane, and the last one.
fn slots_of<T, H>(
    alloc: Global,
    lanes: u32,
    last: Slot<T, H>,
) -> Result<Vec<Slot<T, H>>, AllocError>
where
    T: Drop,
    H: Drop,
    requires { lanes ≤ 1024 }
    ensures { IfOk result (λ v. IsRow lanes last v.items) }
{
    let mut slots = Vec::new(alloc);
    for _ in 0..lanes {
        slots.push(Slot::Empty)?;
    }
    slots.push(last)?;
    Ok(slots)
}

impl<T: Piece> Board<T> {
    /// A board of 1 to 1,024 lanes without a shelf, and its first pass. It takes the room of `close`'s list at once.
    /// The error is want of memory.
    pub fn new(alloc: Global, lanes: u32, task: T::Task) -> Result<(Board<T>, Pass<T>), AllocError>
        requires { (1 ≤ lanes) × (lanes ≤ 1024) }
        ensures board { IfOk result (λ r. (lane_count r.0 ≡ lanes) × (task_of r.0 ≡ task) × (has_shelf r.0 ≡ false)) }
        ensures pass { IfOk result (λ r. IsPassOf r.0 r.1 × (view r.1 ≡ opener r.0.setting)) }
        ensures first { IfOk result (λ r. (pass_number r.1 ≡ 0) × (logs_of r.1 ≡ [])) }
    {
        let room = Pile::new(alloc, lanes)?;
        let setting = Setting {
            task,
            lanes,
            shelved: false,
        };
        Board::open(alloc, setting, Slot::Room(room))
    }

    /// A board with a shelf, of as many lanes as the task has, from 1 to 64, and its first pass. The error is want of
    /// memory.
    pub fn with_shelf(
        alloc: Global,
        lanes: u32,
        task: T::Task,
        shelf: T::Shelf,
    ) -> Result<(Board<T>, Pass<T>), AllocError>
        requires lanes { (1 ≤ lanes) × (lanes ≤ 64) × (T.lanes task ≡ lanes) }
        requires shelf { T.stands task shelf × (T.laid shelf ≡ []) }
        ensures board { IfOk result (λ r. (lane_count r.0 ≡ lanes) × (task_of r.0 ≡ task) × (has_shelf r.0 ≡ true)) }
        ensures pass { IfOk result (λ r. IsPassOf r.0 r.1 × (view r.1 ≡ opener r.0.setting)) }
        ensures first { IfOk result (λ r. (pass_number r.1 ≡ 0) × (logs_of r.1 ≡ [])) }
    {
        let setting = Setting {
            task,
            lanes,
            shelved: true,
        };
        Board::open(alloc, setting, Slot::Shelf(shelf))
    }

    // A board whose last slot has the shelf or the room of `close`'s list.
    fn open(
        alloc: Global,
        setting: Setting<T::Task>,
        last: Slot<T, T::Shelf>,
    ) -> Result<(Board<T>, Pass<T>), AllocError>
        requires lanes { (1 ≤ setting.lanes) × (setting.lanes ≤ 1024) }
        requires last { IsOpening (terms_of T.fits T.laid T.stands T.lanes setting) last }
        ensures board { IfOk result (λ r. r.0.setting ≡ setting) }
        ensures pass { IfOk result (λ r. IsPassOf r.0 r.1 × (view r.1 ≡ opener r.0.setting)) }
        ensures first { IfOk result (λ r. (pass_number r.1 ≡ 0) × (logs_of r.1 ≡ [])) }
    {
        let lanes = setting.lanes;
        let words = Vec::from_elem(alloc, 0u64, lanes as usize + 2)?;
        let slots = slots_of(alloc, lanes, last)?;
        match Table::new(alloc, words.as_slice(), slots, &setting) {
            Ok((table, seat)) => {
                let board = Board { table, setting };
                let pass = Pass {
                    seat,
                    allowance: 1 << 63,
                    puts: 0,
                };
                Ok((board, pass))
            }
            Err(_) => Err(AllocError),
        }
    }
}
