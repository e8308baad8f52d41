ghost use Rattle.al_source.specs.Answers.{Does};
ghost use Rattle.al_core.specs.Access.{load as load_of, store as store_of};
ghost use Rattle.al_core.specs.Views.{trapped};

use crate::packed::PackedValue;
use al_core::{Addr, Kind, View, ViewFault};

/// A view that also takes and gives values packed.
pub trait PackedView: View {
    /// What `load` reads.
    fn load_packed(&mut self, at: Addr, want: Kind) -> Result<PackedValue, ViewFault>
        ensures { Does trapped (load_of at want (Self.content self.old)) result (Self.content self.new) };

    /// Writes what `store` writes.
    fn store_packed(&mut self, at: Addr, value: PackedValue) -> Result<(), ViewFault>
        ensures { Does trapped (store_of at value (Self.content self.old)) result (Self.content self.new) };
}
