use crate::instructions::Instr;
use al_core::{Format, LoopInfo, TGlobal};
use sqlite_items::Items;

/// A function: its instructions from `start` to below `end`, and how many parameters and locals it has.
#[derive(Clone, Copy, Debug, PartialEq, Eq)]
pub struct Entry {
    pub start: u32,
    pub end: u32,
    pub params: u32,
    pub locals: u32,
}

/// The body of an annotated loop: its first instruction, and where the code goes on after the loop.
#[derive(Clone, Copy, Debug, PartialEq, Eq)]
pub struct Body {
    pub start: u32,
    pub end: u32,
}

/// Lowered code. `lines` and `heights` tell of each instruction its line and the height of the stack before it. The
/// k-th of `bodies` is the body of the k-th of `loops`.
#[derive(Drop)]
pub struct Code {
    pub instrs: Items<Instr>,
    pub lines: Items<u32>,
    pub heights: Items<u32>,
    pub globals: Items<TGlobal>,
    pub funcs: Items<Entry>,
    /// The function `main`.
    pub main: u32,
    pub loops: Items<LoopInfo>,
    pub bodies: Items<Body>,
    pub texts: Items<Format>,
}
