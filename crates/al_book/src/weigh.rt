//! Pieces that are judged.
ghost use Rattle.std.specs.Prelude.{◌≡◌, ◌↔◌};
ghost use Rattle.al_core.specs.Chunk.{Outcome};
ghost use Rattle.al_core.specs.Clash as clash;
ghost use Rattle.al_core.specs.Lines.{IsLineSize};
ghost use Rattle.al_core.specs.declared.choices.Choice.{Choice};
ghost use Rattle.al_book.specs.Judging.{ends_in_trap};
ghost use Rattle.al_book.specs.Shelves.{pieces_on, IsShelfFor};
ghost use Rattle.al_book.specs.declared.shelf.Bookshelf.{Bookshelf};

use crate::shelf::Bookshelf;
use al_board::Piece;
use al_core::Choice;

/// What has the outcome of a chunk, and is judged by it.
pub trait Weigh: Drop {
    ghost outcome: { Self → Outcome };

    /// Whether its outcome clashes with what an earlier one touched. It takes no memory.
    fn clashes(&self, by: &Choice, earlier: &Self) -> bool
        requires { IsLineSize by.now.line }
        ensures { result ≡ clash.clashes by.now.policy by.now.line (outcome self.now) (outcome earlier.now).touched };

    /// Whether its outcome ends in a trap.
    fn trapped(&self) -> bool
        ensures { result ≡ ends_in_trap (outcome self.now).ending };
}

/// The piece of a book: its shelf is a bookshelf.
pub trait BookPiece: Weigh + Piece<Shelf = Bookshelf<Self>> {
    ghost choice: { Self.Task → Choice };

    /// The choice by which the pieces of a task are judged.
    fn choice_of(task: &Self::Task) -> &Choice
        ensures { result.now ≡ choice task.now };

    // A law: what lies on a shelf is the pieces on it.
    ghost lays: { (shelf : Bookshelf Self) → Self.laid shelf ≡ pieces_on shelf };

    // A law: a shelf stands for a task exactly where it was made for the task's choice and lanes, its pieces fit and
    // its verdicts are those on its pieces.
    ghost stands_where: { (task : Self.Task) (shelf : Bookshelf Self)
        → Self.stands task shelf
        ↔ IsShelfFor (Self.fits task) Self.outcome (choice task) (Self.lanes task) shelf };
}
