//! Endings as data files name them.
use al_core::Ending;
use std::alloc::{AllocError, Global};

/// An ending as data files name it.
pub fn ending_text(alloc: Global, ending: Ending) -> Result<String, AllocError> {
    match ending {
        Ending::Done => format!(in alloc; "done"),
        Ending::Trap(trap, line) => format!(in alloc; "{trap:?} at {line}"),
    }
}
