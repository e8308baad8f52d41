//! Files that are read whole, or up to a bound, by their names.
ghost use Rattle.std.specs.Prelude.{◌≡◌, ◌≢◌, ◌≤◌, ℕ, Option, None, length, IfOk, IfSome, IsErrOf, IsSomeAnd};
ghost use Rattle.std.specs.Option.{option_map};
ghost use Rattle.al_io.specs.Contents.{Contents, contents_of, beginning_of};
ghost use Rattle.al_io.specs.Counts.{counted_on, MayHaveRisen, GoesOn};

use sqlite_items::Items;
use std::alloc::{AllocError, Global};

/// Why a file was not read.
#[derive(Clone, Copy, Debug, PartialEq, Eq)]
pub enum ReadFault {
    /// The read failed, or the file could not be opened. The files' count of faults rose.
    Failed,
    /// No file has this name. Only files that tell their contents answer so.
    NoSuch,
    /// Memory ran out.
    Memory,
}

impl From<AllocError> for ReadFault {
    ghost use Rattle.al_io.specs.declared.files.ReadFault.TheVariants.{Memory};

    ghost from_gives = { λ _ fault. fault ≡ Memory };

    fn from(_: AllocError) -> ReadFault {
        ReadFault::Memory
    }
}

/// Files that can be read by their names.
pub trait Files {
    /// What the files hold, by their names, where that is told.
    ghost contents: { Self → Option Contents } = { λ _. None };

    /// How many reads there were, where that is told, up to 18446744073709551615.
    ghost calls: { Self → Option ℕ } = { λ _. None };

    /// How many reads have failed, up to 18446744073709551615. Nothing else raises it.
    ghost faults: { Self → ℕ };

    /// Reads the first `most` bytes of the file of this name, or all of them where it has no more.
    fn read(&mut self, alloc: Global, name: &str, most: usize) -> Result<Items<u8>, ReadFault>
        // What is read.
        ensures told { IfOk result (λ bytes. IfSome (contents self.old) (λ files.
            beginning_of files name.now most ≡ Some bytes)) }
        ensures bound { IfOk result (λ bytes. length bytes ≤ most) }

        // When each error comes. Want of memory is left open.
        ensures no_such { IsErrOf result ReadFault.NoSuch → IsSomeAnd (contents self.old) (λ files.
            contents_of files name.now ≡ None) }
        ensures failed { IsErrOf result ReadFault.Failed
            → MayHaveRisen (faults self.old) (faults self.new) }

        // What stays, and how the counts go on.
        ensures contents { contents self.new ≡ contents self.old }
        ensures calls { calls self.new ≡ option_map (counted_on 1) (calls self.old) }
        ensures faults { GoesOn (faults self.old) (faults self.new) }
        ensures no_fault { result ≢ Err ReadFault.Failed → faults self.new ≡ faults self.old };
}
