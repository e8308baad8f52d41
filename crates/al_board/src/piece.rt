//! What is put into lanes, and what makes it.
ghost use Rattle.std.specs.Prelude.{ℕ, ◌≡◌, ◌<◌, List, [], ◌∷◌, ◌++◌, IfOk, length};
ghost use Rattle.al_board.specs.Fits.{AreFit};

use std::alloc::AllocError;

/// What is put into a lane.
pub trait Piece: Send + Drop {
    /// What the pieces of one board are for.
    type Task: Sync + Drop;

    /// Where pieces are laid in the order of their lanes.
    type Shelf: Send + Drop;

    // The piece fits the lane of the task.
    ghost fits: { Self.Task → ℕ → Self → Type 0 };

    // How many lanes the task has.
    ghost lanes: { Self.Task → ℕ };

    // The pieces on the shelf, the first one first. How many are judged is their number.
    ghost laid: { Self.Shelf → List Self };

    // The shelf is one for the task, with room for as many pieces as the task has lanes, and its pieces fit their
    // lanes.
    ghost stands: { Self.Task → Self.Shelf → Type 0 };

    /// Lays the piece of the next lane on the shelf. It takes no memory.
    fn lay(task: &Self::Task, shelf: &mut Self::Shelf, piece: Self)
        requires stands { stands task.now shelf.old }
        requires room { length (laid shelf.old) < lanes task.now }
        requires fits { fits task.now (length (laid shelf.old)) piece }
        ensures stands { stands task.now shelf.new }
        ensures laid { laid shelf.new ≡ laid shelf.old ++ piece ∷ [] };

    // A law: on a shelf that stands, each piece fits the lane whose number is its place.
    ghost stands_fit: { (task : Self.Task) (shelf : Self.Shelf) → stands task shelf → AreFit (fits task) (laid shelf) };
}

/// Makes the pieces of a task.
pub trait Maker<T: Piece>: Sync {
    ghost task: { Self → T.Task };

    ghost lanes: { Self → ℕ };

    /// A piece that fits the lane. The error is want of memory.
    fn make(&self, lane: u32) -> Result<T, AllocError>
        requires { lane < lanes self.now }
        ensures { IfOk result (T.fits (task self.now) lane) };
}
