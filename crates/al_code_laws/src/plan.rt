use al_code::Instr;
use al_core::{Bound, Format};

/// An instruction as the tree asks for it. A place is told by how many instructions follow it, to the end of the code.
#[derive(Drop)]
pub enum Op {
    /// An instruction as it is.
    As(Instr),
    /// A jump to a place.
    JumpTo(usize),
    /// A jump to a place where the top value holds as a condition (`true`), or where it does not.
    JumpIfTo(bool, usize),
    /// A call of a function with so many arguments.
    CallOf(u32, usize),
    /// The printing of a format with so many arguments.
    PrintOf(Format, usize),
    /// An annotated loop: its number, its counter, its bound and the place after its body.
    LoopTo(u32, u32, Bound, usize),
    /// The end of an iteration of that annotated loop.
    EndOf(u32),
    /// What no code shows.
    Never,
}

/// An operation with its line, and the height of the stack before it.
#[derive(Drop)]
pub struct Planned {
    pub op: Op,
    pub line: u32,
    pub height: u32,
}
