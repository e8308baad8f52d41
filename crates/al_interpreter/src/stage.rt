ghost use Rattle.std.specs.Prelude.{◌≡◌, OnOk};
ghost use Rattle.al_source.specs.Answers.{Does};
ghost use Rattle.al_core.specs.World.{World};
ghost use Rattle.al_core.specs.Meaning.{Where};
ghost use Rattle.al_core.specs.Views.{trapped};
ghost use Rattle.al_interpreter.specs.declared.setting.Setting as given;
ghost use Rattle.al_interpreter.specs.Faults.{stopped};
ghost use Rattle.al_interpreter.specs.Stages.{is_outside};

use crate::fault::Fault;
use crate::setting::Setting;
use al_core::{Addr, Kind, Obj, Val, ViewFault};
use sqlite_items::Items;
use std::alloc::{AllocError, Global};

/// What code runs on: a world, as the operations that it has, and where in the program its code stands.
pub trait Stage {
    ghost world: { given.Setting → World Self };

    /// Whether the code stands outside the iterations of annotated loops, or inside one.
    ghost place: { Where };

    fn load(&mut self, on: &Setting<'_>, at: Addr, want: Kind) -> Result<Val, ViewFault>
        ensures { Does trapped ((world on.now).load at want self.old) result self.new };

    fn store(&mut self, on: &Setting<'_>, at: Addr, val: Val) -> Result<(), ViewFault>
        ensures { Does trapped ((world on.now).store at val self.old) result self.new };

    fn make(&mut self, on: &Setting<'_>, words: u32) -> Result<Obj, ViewFault>
        ensures { Does trapped ((world on.now).make words self.old) result self.new };

    fn free(&mut self, on: &Setting<'_>, obj: Obj, at: u32) -> Result<(), ViewFault>
        ensures { Does trapped ((world on.now).free obj at self.old) result self.new };

    fn print(&mut self, on: &Setting<'_>, bytes: &[u8]) -> Result<(), AllocError>
        ensures { OnOk result (self.new ≡ (world on.now).print bytes.now self.old) };

    /// Runs an annotated loop, from its start to its bound, and answers the locals after it.
    fn visit(
        &mut self,
        alloc: Global,
        on: &Setting<'_>,
        number: u32,
        lo: i64,
        hi: i64,
        locals: Items<Val>,
    ) -> Result<Items<Val>, Fault>
        ensures { Does stopped ((world on.now).visit number lo hi locals self.old) result self.new };

    /// Whether the code stands outside the iterations of annotated loops.
    fn is_outside(&self) -> bool
        ensures { result ≡ is_outside place };
}
