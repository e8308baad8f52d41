ghost use Rattle.al_source.specs.Answers.{Does};
ghost use Rattle.al_core.specs.declared.typed_tree.TKind.TheVariants as kind;
ghost use Rattle.al_interpreter.specs.Faults.{stopped};
ghost use Rattle.al_interpreter.specs.Flows.{flowed};
ghost use Rattle.al_interpreter.specs.Scenes.{scene, execute_kind};

use crate::calls::Calls;
use crate::fault::Fault;
use crate::flow::Flow;
use crate::machine::Machine;
use crate::walker::Walker;
use al_core::{BinOp, Kind, TExpr, TPlace, Val, operate};
use sqlite_items::Items;

impl<'a, C: Calls> Walker<'a, C> {
    #[tactic(auto, using(crate::proofs::Doing::kinds), unfolding(crate::specs::Acts::bind, crate::specs::Acts::pure))]
    pub fn assign(
        &self,
        m: &mut Machine<C::On>,
        k: u32,
        e: &TExpr,
        line: u32,
    ) -> Result<Flow, Fault>
        requires { C.can_call self.now.calls self.now.on.now }
        ensures { let x = scene C.On.world C.On.place C.does self.now in
            Does stopped (execute_kind x (kind.SetLocal k e.now) line m.old) (flowed result) m.new }
    {
        let v = self.value(m, e, line)?;
        m.set_local(self.on, k, v, line)?;
        Ok(Flow::Next)
    }

    #[tactic(auto, using(crate::proofs::Doing::kinds), unfolding(crate::specs::Acts::bind, crate::specs::Acts::pure))]
    pub fn store(
        &self,
        m: &mut Machine<C::On>,
        p: &TPlace,
        e: &TExpr,
        line: u32,
    ) -> Result<Flow, Fault>
        requires { C.can_call self.now.calls self.now.on.now }
        ensures { let x = scene C.On.world C.On.place C.does self.now in
            Does stopped (execute_kind x (kind.Store p.now e.now) line m.old) (flowed result) m.new }
    {
        let to = self.place(m, p, line)?;
        let new = self.value(m, e, line)?;
        m.store(self.on, to, new, line)?;
        Ok(Flow::Next)
    }

    #[tactic(auto, using(crate::proofs::Doing::kinds), unfolding(crate::specs::Acts::bind, crate::specs::Acts::pure))]
    pub fn update_local(
        &self,
        m: &mut Machine<C::On>,
        op: BinOp,
        k: u32,
        e: &TExpr,
        line: u32,
    ) -> Result<Flow, Fault>
        requires { C.can_call self.now.calls self.now.on.now }
        ensures { let x = scene C.On.world C.On.place C.does self.now in
            Does stopped (execute_kind x (kind.UpdateLocal op k e.now) line m.old) (flowed result) m.new }
    {
        let x = m.get_local(self.on, k, line)?;
        let y = self.value(m, e, line)?;
        let z = m.lift(line, operate(op, x, y))?;
        m.set_local(self.on, k, z, line)?;
        Ok(Flow::Next)
    }

    #[tactic(auto, using(crate::proofs::Doing::kinds), unfolding(crate::specs::Acts::bind, crate::specs::Acts::pure))]
    pub fn update_at(
        &self,
        m: &mut Machine<C::On>,
        op: BinOp,
        p: &TPlace,
        e: &TExpr,
        line: u32,
    ) -> Result<Flow, Fault>
        requires { C.can_call self.now.calls self.now.on.now }
        ensures { let x = scene C.On.world C.On.place C.does self.now in
            Does stopped (execute_kind x (kind.UpdateAt op p.now e.now) line m.old) (flowed result) m.new }
    {
        let at = self.place(m, p, line)?;
        let x = m.load(self.on, at, Kind::Int, line)?;
        let y = self.value(m, e, line)?;
        let z = m.lift(line, operate(op, x, y))?;
        m.store(self.on, at, z, line)?;
        Ok(Flow::Next)
    }

    #[tactic(auto, using(crate::proofs::Doing::kinds), unfolding(crate::specs::Acts::bind, crate::specs::Acts::pure))]
    pub fn call_only(&self, m: &mut Machine<C::On>, e: &TExpr, line: u32) -> Result<Flow, Fault>
        requires { C.can_call self.now.calls self.now.on.now }
        ensures { let x = scene C.On.world C.On.place C.does self.now in
            Does stopped (execute_kind x (kind.Call e.now) line m.old) (flowed result) m.new }
    {
        self.value(m, e, line)?;
        Ok(Flow::Next)
    }

    #[tactic(auto, using(crate::proofs::Doing::kinds), unfolding(crate::specs::Acts::bind, crate::specs::Acts::pure))]
    pub fn give(&self, m: &mut Machine<C::On>, e: &Option<TExpr>, line: u32) -> Result<Flow, Fault>
        requires { C.can_call self.now.calls self.now.on.now }
        ensures { let x = scene C.On.world C.On.place C.does self.now in
            Does stopped (execute_kind x (kind.Return e.now) line m.old) (flowed result) m.new }
    {
        match e {
            Some(e) => {
                let v = self.value(m, e, line)?;
                Ok(Flow::Returned(v))
            }
            None => Ok(Flow::Returned(Val::Int(0))),
        }
    }
}
