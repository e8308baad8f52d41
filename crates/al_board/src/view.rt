//! What passes know, what lies in a slot, and what a call for judging answers.
use crate::pile::Pile;
use std::collections::LinkedList;

/// What a board is told when it is made.
#[derive(Drop)]
pub struct Setting<K> {
    pub(crate) task: K,
    pub(crate) lanes: u32,
    pub(crate) shelved: bool,
}

/// What an attempt met: another pass has the baton, or the lane was not filled.
pub enum Miss {
    Baton,
    Lane(u32),
}

/// What a pass knows while it has the baton: how many pieces were judged when it took it, how many
/// lanes are taken now, and the pieces on the shelf.
pub struct Turn<T> {
    pub found: u32,
    pub next: u32,
    pub laid: LinkedList<T>,
}

/// What a pass does to its board, by the number of the pass: one entry of the board's journal. No value of it is made.
pub enum Entry<T> {
    Drew(u32),
    /// The pass put the lane's piece.
    Put(u32, u32, T),
    Split(u32),
    /// The pass took in the lanes and the rights of the other.
    Joined(u32, u32),
    /// The pass took the baton, or found that another has it.
    Seized(u32),
    Met(u32),
    /// The pass, which has the baton, took the piece of the next lane, or found none there.
    Took(u32),
    Skipped(u32),
    /// The pass gave the baton back.
    Handed(u32),
}

/// What a pass knows. No value of it is made: it stands in proofs alone.
pub struct View<T, K> {
    /// The board's task, its number of lanes and whether it has a shelf, but in a view that a join has spent.
    pub task: Option<K>,
    pub lanes: u32,
    pub shelved: bool,
    pub drawn: LinkedList<u32>,
    pub put: LinkedList<u32>,
    /// The lane that it holds in the middle of a put.
    pub holds: Option<u32>,
    pub ended: bool,
    pub allowance: u64,
    pub share: u64,
    pub misses: LinkedList<Miss>,
    /// The numbers at which it gave the baton back.
    pub given: LinkedList<u32>,
    pub turn: Option<Turn<T>>,
    /// The board's journal up to the pass's last entry, the last entry first; and the same for each pass that it took
    /// in since then.
    pub logs: LinkedList<LinkedList<Entry<T>>>,
}

/// What lies in a slot of a board.
#[derive(Drop)]
pub enum Slot<T, H> {
    Empty,
    Piece(T),
    Shelf(H),
    /// The room of the list that `close` gives.
    Room(Pile<T>),
}

/// What `advance` answers: another pass has the baton, or so many pieces are judged.
#[derive(Clone, Copy, PartialEq, Eq, Debug)]
pub enum Helped {
    Busy,
    Advanced(u32),
}
