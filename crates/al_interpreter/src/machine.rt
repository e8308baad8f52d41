ghost use Rattle.std.specs.Prelude.{◌≡◌, ℕ, Ok, OnOk};
ghost use Rattle.al_source.specs.Answers.{Does};
ghost use Rattle.al_core.specs.Action as spec;
ghost use Rattle.al_interpreter.specs.Faults.{stopped, lined};
ghost use Rattle.al_interpreter.specs.Stages.{is_outside};

use crate::fault::Fault;
use crate::frame::Frame;
use crate::loops::Range;
use crate::setting::Setting;
use crate::stage::Stage;
use al_core::{Addr, Budget, Kind, Obj, Trap, Val, ViewFault};
use std::alloc::{AllocError, Global};
use std::marker::Model;

/// The state of the code that runs: the frame, the steps that are left, and what the code runs on.
#[derive(Drop)]
pub struct Machine<S> {
    frame: Frame,
    budget: Budget,
    stage: S,
}

impl<S> Model for Machine<S> {
    ghost use Rattle.al_core.specs.Action.{State};

    ghost Value = { State S };

    ghost view = { λ m. record { frame = m.frame; budget = m.budget; world = m.stage } };
}

fn at_line<T>(line: u32, r: Result<T, ViewFault>) -> Result<T, Fault>
    ensures { result ≡ lined line r }
{
    match r {
        Ok(a) => Ok(a),
        Err(ViewFault::Trap(t)) => Err(Fault::Trap(t, line)),
        Err(ViewFault::Memory) => Err(Fault::Memory),
    }
}

impl<S> Machine<S> {
    pub fn new(frame: Frame, budget: Budget, stage: S) -> Machine<S>
        ensures { result ≡ record { frame = frame; budget = budget; world = stage } }
    {
        Machine {
            frame,
            budget,
            stage,
        }
    }

    /// The steps that are left.
    pub fn left(&self) -> u64
        ensures { result ≡ self.now.budget }
    {
        self.budget.left()
    }

    /// What the code ran on, at its end.
    pub fn into_stage(self) -> S
        ensures { result ≡ self.world }
    {
        self.stage
    }
}

impl<S: Stage> Machine<S> {
    /// Takes a step.
    #[tactic(auto, unfolding(al_core::specs::Action::spend))]
    pub fn spend(&mut self, line: u32) -> Result<(), Fault>
        ensures { Does stopped (spec.spend line self.old) result self.new }
    {
        if self.budget.spend() {
            Ok(())
        } else {
            Err(Fault::Trap(Trap::Steps, line))
        }
    }

    /// What was computed with no state.
    #[tactic(auto, unfolding(al_core::specs::Action::lift))]
    pub fn lift<T>(&self, line: u32, r: Result<T, Trap>) -> Result<T, Fault>
        ensures { Does stopped (spec.lift line r self.now) result self.now }
    {
        match r {
            Ok(a) => Ok(a),
            Err(t) => Err(Fault::Trap(t, line)),
        }
    }

    #[tactic(auto, unfolding(al_core::specs::Action::bind, al_core::specs::Action::pure, al_core::specs::Action::asks, al_core::specs::Action::get_frame))]
    pub fn get_local(&mut self, on: &Setting<'_>, k: u32, line: u32) -> Result<Val, Fault>
        ensures { Does stopped (spec.get_local (S.world on.now) k line self.old) result self.new }
    {
        if self.frame.is_private(k) {
            return Ok(self.frame.get(k));
        }
        let r = self.stage.load(on, Addr::Local(k), Kind::Int);
        at_line(line, r)
    }

    #[tactic(auto, unfolding(al_core::specs::Action::bind, al_core::specs::Action::asks, al_core::specs::Action::get_frame, al_core::specs::Action::set_frame))]
    pub fn set_local(&mut self, on: &Setting<'_>, k: u32, v: Val, line: u32) -> Result<(), Fault>
        ensures { Does stopped (spec.set_local (S.world on.now) k v line self.old) result self.new }
    {
        if self.frame.is_private(k) {
            self.frame.set(k, v);
            return Ok(());
        }
        let r = self.stage.store(on, Addr::Local(k), v);
        at_line(line, r)
    }

    #[tactic(auto, unfolding(al_core::specs::Action::asks))]
    pub fn load(
        &mut self,
        on: &Setting<'_>,
        at: (Obj, u32),
        want: Kind,
        line: u32,
    ) -> Result<Val, Fault>
        ensures { Does stopped (spec.load (S.world on.now) at want line self.old) result self.new }
    {
        let r = self.stage.load(on, Addr::Word(at.0, at.1), want);
        at_line(line, r)
    }

    #[tactic(auto, unfolding(al_core::specs::Action::asks))]
    pub fn store(
        &mut self,
        on: &Setting<'_>,
        at: (Obj, u32),
        v: Val,
        line: u32,
    ) -> Result<(), Fault>
        ensures { Does stopped (spec.store (S.world on.now) at v line self.old) result self.new }
    {
        let r = self.stage.store(on, Addr::Word(at.0, at.1), v);
        at_line(line, r)
    }

    /// A pointer to a new object.
    #[tactic(auto, unfolding(al_core::specs::Action::bind, al_core::specs::Action::pure, al_core::specs::Action::asks))]
    pub fn make(&mut self, on: &Setting<'_>, words: u32, line: u32) -> Result<Val, Fault>
        ensures { Does stopped (spec.make (S.world on.now) words line self.old) result self.new }
    {
        let r = self.stage.make(on, words);
        let object = at_line(line, r)?;
        Ok(Val::Ptr(object, 0))
    }

    /// Takes out the object at the end of a pointer. At null it does nothing.
    #[tactic(auto, unfolding(al_core::specs::Action::bind, al_core::specs::Action::pure, al_core::specs::Action::asks))]
    pub fn free(&mut self, on: &Setting<'_>, v: Val, line: u32) -> Result<Val, Fault>
        ensures { Does stopped (spec.free (S.world on.now) v line self.old) result self.new }
    {
        match v {
            Val::Int(_) => Ok(Val::Int(0)),
            Val::Ptr(object, at) => {
                let r = self.stage.free(on, object, at);
                at_line(line, r)?;
                Ok(Val::Int(0))
            }
        }
    }

    /// Prints bytes, which no line can trap at.
    #[tactic(auto, unfolding(al_core::specs::Action::asks))]
    pub fn print(&mut self, on: &Setting<'_>, bytes: &[u8]) -> Result<(), AllocError>
        ensures { OnOk result ((line : ℕ) → spec.print (S.world on.now) bytes.now line self.old ≡ (Ok tt, self.new)) }
    {
        self.stage.print(on, bytes)
    }

    /// Goes into a frame, and answers the one before.
    #[tactic(auto, unfolding(al_core::specs::Action::bind, al_core::specs::Action::pure, al_core::specs::Action::get_frame, al_core::specs::Action::set_frame))]
    pub fn enter(&mut self, frame: Frame) -> Frame
        ensures { spec.enter frame self.old ≡ (Ok result, self.new) }
    {
        std::mem::replace(&mut self.frame, frame)
    }

    /// Comes back into a frame.
    #[tactic(auto, unfolding(al_core::specs::Action::bind, al_core::specs::Action::pure, al_core::specs::Action::set_frame))]
    pub fn leave(&mut self, old: Frame, v: Val) -> Val
        ensures { spec.leave old v self.old ≡ (Ok result, self.new) }
    {
        self.frame = old;
        v
    }

    /// Hands an annotated loop on, with the frame's locals.
    #[tactic(auto, unfolding(al_core::specs::Action::bind, al_core::specs::Action::get_frame, al_core::specs::Action::hands_on, al_core::specs::Action::set_frame))]
    pub fn visit(
        &mut self,
        alloc: Global,
        on: &Setting<'_>,
        number: u32,
        range: Range,
    ) -> Result<(), Fault>
        ensures { Does stopped (spec.visit (S.world on.now) number range.lo range.hi self.old) result self.new }
    {
        let locals = self.frame.locals(alloc)?;
        let new = self
            .stage
            .visit(alloc, on, number, range.lo, range.hi, locals)?;
        self.frame.replace(new);
        Ok(())
    }

    /// Whether the code stands outside the iterations of annotated loops.
    pub fn is_outside(&self) -> bool
        ensures { result ≡ is_outside S.place }
    {
        self.stage.is_outside()
    }
}
