//! A plain shelf: a list with room.
ghost use Rattle.std.specs.Prelude.{ℕ, ◌≡◌, ◌+◌, ◌<◌, ◌≤◌, [], ◌∷◌, ◌++◌, IfOk, length, vec_capacity};
ghost use Rattle.al_board.specs.Piles.{on_pile, room_of};

use sqlite_items::Items;
use std::alloc::{AllocError, Global};

/// Pieces in the order in which they were laid, and room for more. It serves as the shelf of pieces whose boards have
/// none.
#[derive(Drop)]
pub struct Pile<T> {
    pub(crate) items: Vec<T>,
}

impl<T: Drop> Pile<T> {
    /// An empty pile with room for at least so many pieces. The error is want of memory.
    pub fn new(alloc: Global, room: u32) -> Result<Pile<T>, AllocError>
        ensures empty { IfOk result (λ p. on_pile p ≡ []) }
        ensures room { IfOk result (λ p. room ≤ room_of p) }
    {
        let items = Vec::with_capacity(alloc, room as usize)?;
        Ok(Pile { items })
    }

    /// Lays a piece after the others. It takes no memory.
    pub fn lay(&mut self, piece: T)
        requires { length (on_pile self.old) < room_of self.old }
        ensures laid { on_pile self.new ≡ on_pile self.old ++ piece ∷ [] }
        ensures room { room_of self.new ≡ room_of self.old }
    {
        self.items.push_reserved(piece);
    }

    /// The pieces, in their order.
    pub fn into_pieces(self) -> Items<T>
        ensures { result ≡ on_pile self }
    {
        let Pile { items } = self;
        Items::from_vec(items)
    }

    /// The pieces, in their order, as a vector.
    pub fn into_vec(self) -> Vec<T>
        ensures { result.items ≡ on_pile self }
    {
        let Pile { items } = self;
        items
    }
}
