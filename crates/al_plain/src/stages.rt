ghost use Rattle.al_core.specs.Access.{in_iteration};
ghost use Rattle.al_core.specs.Meaning.{Inside};
ghost use Rattle.al_source.specs.Answers.{Does};
ghost use Rattle.al_core.specs.Views.{trapped};
ghost use Rattle.al_interpreter.specs.Faults.{stopped};
ghost use Rattle.al_interpreter.specs.Settings.{setting_of};
ghost use Rattle.al_interpreter.specs.Stages.{is_outside};
ghost use Rattle.std.specs.Prelude.{◌≡◌};

use crate::content::Content;
use al_core::{Addr, Kind, Obj, Val, View, ViewFault};
use al_interpreter::{Fault, Setting, Stage};
use sqlite_items::Items;
use std::alloc::{AllocError, Global};

/// The world of an iteration. No annotated loop is handed on in it.
impl Stage for Content {
    ghost world = { λ on. in_iteration };

    ghost place = { Inside };

    fn load(&mut self, _on: &Setting<'_>, at: Addr, want: Kind) -> Result<Val, ViewFault> {
        View::load(self, at, want)
    }

    fn store(&mut self, _on: &Setting<'_>, at: Addr, val: Val) -> Result<(), ViewFault> {
        View::store(self, at, val)
    }

    fn make(&mut self, _on: &Setting<'_>, words: u32) -> Result<Obj, ViewFault> {
        View::make(self, words)
    }

    fn free(&mut self, _on: &Setting<'_>, obj: Obj, at: u32) -> Result<(), ViewFault> {
        View::free(self, obj, at)
    }

    fn print(&mut self, _on: &Setting<'_>, bytes: &[u8]) -> Result<(), AllocError> {
        View::print(self, bytes)
    }

    fn visit(
        &mut self,
        _alloc: Global,
        _on: &Setting<'_>,
        _number: u32,
        _lo: i64,
        _hi: i64,
        locals: Items<Val>,
    ) -> Result<Items<Val>, Fault> {
        Ok(locals)
    }

    fn is_outside(&self) -> bool {
        false
    }
}
