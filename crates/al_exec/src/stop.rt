use al_core::{Trap, Val};

/// How a run stops.
#[derive(Clone, Copy, Debug, PartialEq, Eq)]
pub enum Stop {
    Ended(Val),
    /// At an annotated loop, outside iterations only: its number, its start and its bound.
    AtLoop { number: u32, lo: i64, hi: i64 },
    /// A trap, at this line.
    Trapped(Trap, u32),
}
