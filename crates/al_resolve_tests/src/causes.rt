//! Why a source is refused. The expected causes follow the table of faults and the order in which they are told.

use al_front::resolve;
use al_rules::{NoteCause, NoteKind, Refusal};
use std::alloc::{AllocError, Global};

pub fn note(kind: NoteKind, line: u32) -> Refusal {
    Refusal::Notes(NoteCause { kind, line })
}

/// Why a source is refused, or none where it is accepted.
pub fn refusal_of(alloc: Global, source: &[u8]) -> Result<Option<Refusal>, AllocError> {
    match resolve(alloc, source) {
        Ok(_) => Ok(None),
        Err(fault) => match fault.cause() {
            Some(cause) => Ok(Some(cause)),
            None => Err(AllocError),
        },
    }
}

pub fn refusal(alloc: Global, source: &str) -> Result<Option<Refusal>, AllocError> {
    refusal_of(alloc, source.as_bytes())
}
