//! Bytes whose room is taken at the start.
ghost use Rattle.std.specs.Prelude.{◌≡◌, ◌+◌, ◌-◌, ◌≤◌, ◌++◌, [], length, IfOk, vec_len, vec_capacity};

use std::alloc::{AllocError, Global};

/// Bytes, and room for more of them, so that taking more takes no memory.
#[derive(Debug, Drop)]
pub(crate) struct Reserved {
    bytes: Vec<u8>,
    room: usize,
    ghost within: { vec_len bytes ≤ room },
    ghost reserved: { room ≤ vec_capacity bytes },
}

impl Reserved {
    /// No bytes, with room for `room` of them.
    pub(crate) fn new(alloc: Global, room: usize) -> Result<Reserved, AllocError>
        ensures empty { IfOk result (λ it. it.bytes.items ≡ []) }
        ensures room { IfOk result (λ it. it.room ≡ room) }
    {
        let bytes = Vec::with_capacity(alloc, room)?;
        Ok(Reserved { bytes, room })
    }

    pub(crate) fn as_slice(&self) -> &[u8]
        ensures { result.now ≡ self.now.bytes.items }
    {
        &self.bytes
    }

    /// How many bytes there is room for still.
    pub(crate) fn left(&self) -> usize
        ensures { result ≡ self.now.room - length self.now.bytes.items }
    {
        self.room - self.bytes.len()
    }

    /// Appends the bytes.
    pub(crate) fn fill(&mut self, bytes: &[u8])
        requires { length self.old.bytes.items + length bytes.now ≤ self.old.room }
        ensures filled { self.new.bytes.items ≡ self.old.bytes.items ++ bytes.now }
        ensures room { self.new.room ≡ self.old.room }
    {
        // The room is there, so this cannot fail.
        let _ = self.bytes.extend_from_slice(bytes);
    }
}
