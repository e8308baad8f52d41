ghost use Rattle.std.specs.Prelude.{◌≡◌, OnOk};
ghost use Rattle.al_source.specs.Answers.{Does};
ghost use Rattle.al_core.specs.Access.{Content, load as load_of, store as store_of, make as make_of, free as free_of, print as print_of};
ghost use Rattle.al_core.specs.Views.{trapped};

use crate::values::{Addr, Kind, Obj, Trap, Val};
use std::alloc::AllocError;

/// Why a call of a view has no answer.
#[derive(Clone, Copy, Debug, PartialEq, Eq)]
pub enum ViewFault {
    Trap(Trap),
    Memory,
}

impl From<AllocError> for ViewFault {
    ghost use Rattle.std.specs.Prelude.{◌≡◌};
    ghost use Rattle.al_core.specs.declared.view.ViewFault.TheVariants.{Memory};

    ghost from_gives = { λ _ e. e ≡ Memory };

    fn from(_: AllocError) -> ViewFault {
        ViewFault::Memory
    }
}

/// What running code sees: a memory, the names of its next objects and what it printed, and in a chunk the access
/// record with the accumulators. After a trap the memory is as it was. After `Memory` the view is given up.
pub trait View {
    ghost content: { Self → Content };

    /// Reads a word as a value of the kind, or a shared local as it is. At a head, and at a local that is not there, it
    /// traps `Missing`.
    fn load(&mut self, at: Addr, want: Kind) -> Result<Val, ViewFault>
        ensures { Does trapped (load_of at want (content self.old)) result (content self.new) };

    /// Writes a word or a shared local.
    fn store(&mut self, at: Addr, val: Val) -> Result<(), ViewFault>
        ensures { Does trapped (store_of at val (content self.old)) result (content self.new) };

    /// Makes an object of so many words, all 0.
    fn make(&mut self, words: u32) -> Result<Obj, ViewFault>
        ensures { Does trapped (make_of words (content self.old)) result (content self.new) };

    /// Takes an object out, by the place of its first word. It traps `BadFree` at another place and at a global, and
    /// else `Freed` where there is no such object.
    fn free(&mut self, obj: Obj, at: u32) -> Result<(), ViewFault>
        ensures { Does trapped (free_of obj at (content self.old)) result (content self.new) };

    fn print(&mut self, bytes: &[u8]) -> Result<(), AllocError>
        ensures { OnOk result (content self.new ≡ print_of bytes.now (content self.old)) };
}
