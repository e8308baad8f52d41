use crate::active::{Active, Left};
use crate::inner::InnerLoop;
use al_core::Val;
use std::alloc::Global;

/// A function that waits for the one that it called, with its loops that run as ordinary ones.
#[derive(Drop)]
pub struct Waiting {
    pub left: Left,
    pub inner: Vec<InnerLoop>,
}

/// Where a call, a return or a loop leads.
#[derive(Clone, Copy)]
pub enum Onward {
    Goes,
    /// At an annotated loop: its number, its start and its bound.
    Stops(u32, i64, i64),
    Ends(Val),
}

/// What a machine has still to do before its first instruction.
#[derive(Clone, Copy)]
pub enum Start {
    /// Nothing: it runs.
    Running,
    /// The step of a call, at a line.
    Function(u32),
    /// An iteration's step, at a line, and its counter.
    Iteration(u32, u32, i64),
}

/// The machine of lowered code.
#[derive(Drop)]
pub struct Machine {
    pub(crate) alloc: Global,
    pub(crate) active: Active,
    pub(crate) inner: Vec<InnerLoop>,
    pub(crate) callers: Vec<Waiting>,
    /// How many more calls may be active.
    pub(crate) room: u32,
    /// Whether it runs an iteration of an annotated loop.
    pub(crate) inside: bool,
    /// The greatest height of a stack.
    pub(crate) tallest: u32,
    /// The counter of the loop at which it stands.
    pub(crate) counter: u32,
    pub(crate) start: Start,
    /// Where a text is written before it is printed.
    pub(crate) bytes: Vec<u8>,
}
