ghost use Rattle.std.specs.Prelude.{◌≡◌, Some};
ghost use Rattle.al_core.specs.Meaning.{Outside};
ghost use Rattle.al_core.specs.Run as spec;
ghost use Rattle.al_source.specs.Answers.{Does};
ghost use Rattle.al_core.specs.Views.{trapped};
ghost use Rattle.al_interpreter.specs.Faults.{stopped};
ghost use Rattle.al_interpreter.specs.Settings.{setting_of};
ghost use Rattle.al_interpreter.specs.Stages.{is_outside};
ghost use Rattle.al_plain.specs.Executions.{execution_of, IsBounded};
ghost use Rattle.al_plain.specs.Found.{loop_of};

use crate::content::Content;
use crate::counts::Counts;
use crate::executions::{LoopResult, after_loop, execute};
use crate::iterations::Execution;
use crate::loops::{Loop, loop_at};
use al_core::{Addr, Kind, Obj, Val, View, ViewFault, trips};
use al_interpreter::{Fault, Setting, Stage};
use sqlite_items::Items;
use std::alloc::{AllocError, Global};
use std::marker::Model;

/// The world outside iterations: what the code sees, how many executions of annotated loops there were, and the counts.
#[derive(Drop)]
pub struct Whole {
    pub content: Content,
    pub executions: u32,
    pub counts: Counts,
}

impl Model for Whole {
    ghost use Rattle.al_core.specs.Run.{Whole};
    ghost use Rattle.al_plain.specs.Codes.{whole_code};

    ghost Value = { Whole };

    ghost coded = { whole_code };

    ghost view = { λ w. record { content = w.content; executions = w.executions; counts = w.counts } };
}

impl Whole {
    /// Runs an execution of an annotated loop, of which the number is that of the next.
    fn run_loop(
        &mut self,
        alloc: Global,
        x: &Execution<'_>,
        hi: i64,
        locals: Items<Val>,
    ) -> Result<Items<Val>, Fault>
        requires { IsBounded x.now }
        ensures { let told = spec.run_loop (setting_of x.now.on) (execution_of x.now) hi locals self.old in
            Does stopped told result self.new }
    {
        let memory = self.content.lend(locals);
        let LoopResult {
            memory,
            printed,
            ending,
            counts,
        } = execute(alloc, x, memory)?;
        let locals = self.content.take_back(memory, printed)?;
        self.counts.add(counts)?;
        self.executions = self.executions.checked_add(1).ok_or(AllocError)?;
        after_loop(x, hi, ending, locals)
    }

    /// Runs an annotated loop. Too many trips trap at its line, and are no execution.
    fn visit_found(
        &mut self,
        alloc: Global,
        on: &Setting<'_>,
        found: Loop<'_>,
        lo: i64,
        hi: i64,
        locals: Items<Val>,
    ) -> Result<Items<Val>, Fault>
        ensures { let found = Some (loop_of found.entry) in
            Does stopped (spec.visit_loop (setting_of on.now) lo hi locals self.old found) result self.new }
    {
        match trips(lo, hi) {
            Ok(trips) => {
                let x = Execution {
                    on: *on,
                    looped: found,
                    number: self.executions,
                    lo,
                    trips,
                };
                self.run_loop(alloc, &x, hi, locals)
            }
            Err(t) => Err(Fault::Trap(t, found.note.line)),
        }
    }
}

/// The world outside iterations.
impl Stage for Whole {
    ghost world = { λ on. spec.outside (setting_of on) };

    ghost place = { Outside };

    fn load(&mut self, _on: &Setting<'_>, at: Addr, want: Kind) -> Result<Val, ViewFault> {
        View::load(&mut self.content, at, want)
    }

    fn store(&mut self, _on: &Setting<'_>, at: Addr, val: Val) -> Result<(), ViewFault> {
        View::store(&mut self.content, at, val)
    }

    fn make(&mut self, _on: &Setting<'_>, words: u32) -> Result<Obj, ViewFault> {
        View::make(&mut self.content, words)
    }

    fn free(&mut self, _on: &Setting<'_>, obj: Obj, at: u32) -> Result<(), ViewFault> {
        View::free(&mut self.content, obj, at)
    }

    fn print(&mut self, _on: &Setting<'_>, bytes: &[u8]) -> Result<(), AllocError> {
        View::print(&mut self.content, bytes)
    }

    fn visit(
        &mut self,
        alloc: Global,
        on: &Setting<'_>,
        number: u32,
        lo: i64,
        hi: i64,
        locals: Items<Val>,
    ) -> Result<Items<Val>, Fault> {
        match loop_at(on.program, number) {
            Some(found) => self.visit_found(alloc, on, found, lo, hi, locals),
            None => Ok(locals),
        }
    }

    fn is_outside(&self) -> bool {
        true
    }
}
