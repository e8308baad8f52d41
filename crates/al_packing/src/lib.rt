//! Views of al_core as views that take and give packed values.
#![tactic(auto)]

use al_core::{Addr, Kind, Obj, Val, View, ViewFault};
use al_values::{PackedValue, PackedView};
use std::alloc::AllocError;

/// A view that also takes and gives packed values. Its content is that of the view within it.
#[derive(Drop)]
pub struct Packing<V> {
    pub view: V,
}

impl<V: View> View for Packing<V> {
    ghost content = { λ p. V.content p.view };

    fn load(&mut self, at: Addr, want: Kind) -> Result<Val, ViewFault> {
        self.view.load(at, want)
    }

    fn store(&mut self, at: Addr, val: Val) -> Result<(), ViewFault> {
        self.view.store(at, val)
    }

    fn make(&mut self, words: u32) -> Result<Obj, ViewFault> {
        self.view.make(words)
    }

    fn free(&mut self, obj: Obj, at: u32) -> Result<(), ViewFault> {
        self.view.free(obj, at)
    }

    fn print(&mut self, bytes: &[u8]) -> Result<(), AllocError> {
        self.view.print(bytes)
    }
}

impl<V: View> PackedView for Packing<V> {
    /// A value that does not fit is want of memory.
    fn load_packed(&mut self, at: Addr, want: Kind) -> Result<PackedValue, ViewFault> {
        match self.view.load(at, want) {
            Ok(v) => PackedValue::pack(v).ok_or(ViewFault::Memory),
            Err(e) => Err(e),
        }
    }

    fn store_packed(&mut self, at: Addr, value: PackedValue) -> Result<(), ViewFault> {
        self.view.store(at, value.unpack())
    }
}
