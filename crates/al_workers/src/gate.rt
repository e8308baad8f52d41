//! What is called round the making of each lane.
ghost use Rattle.std.specs.Prelude.{ℕ, ◌<◌, IfOk};

use al_board::{Maker, Piece};
use std::alloc::AllocError;

/// What a worker calls before and after it makes the piece of a lane.
pub trait Gate: Sync {
    fn before(&self, lane: u32);

    /// It comes also where no memory was found.
    fn after(&self, lane: u32);
}

/// A gate that does nothing.
#[derive(Clone, Copy)]
pub struct FreeGate;

impl Gate for FreeGate {
    fn before(&self, _lane: u32) {}

    fn after(&self, _lane: u32) {}
}

/// A maker between the two calls of a gate.
#[derive(Drop)]
pub(crate) struct Gated<'a, M, G> {
    pub(crate) maker: &'a M,
    pub(crate) gate: &'a G,
}

impl<'a, T: Piece, M: Maker<T>, G: Gate> Maker<T> for Gated<'a, M, G> {
    ghost task = { λ g. M.task g.maker.now };

    ghost lanes = { λ g. M.lanes g.maker.now };

    fn make(&self, lane: u32) -> Result<T, AllocError> {
        self.gate.before(lane);
        let made = self.maker.make(lane);
        self.gate.after(lane);
        made
    }
}
