ghost use Rattle.al_source.specs.Answers.{Does};
ghost use Rattle.std.specs.Option.{option_copied};
ghost use Rattle.al_interpreter.specs.Faults.{stopped};
ghost use Rattle.al_interpreter.specs.Flows.{flowed};
ghost use Rattle.al_interpreter.specs.Scenes.{scene, execute, execute_any, execute_all, execute_kind, annotated_loop};
ghost use Rattle.al_interpreter.specs.Turns.{Turns, one_turn, all_turns, loop_trips, ordinary_loop};

use crate::calls::Calls;
use crate::fault::Fault;
use crate::flow::{Flow, Turn};
use crate::loops::Range;
use crate::machine::Machine;
use crate::walker::Walker;
use al_core::{TExpr, TKind, TStmt, Trap, Val, truth};
use sqlite_items::{Boxed, Items};

impl<'a, C: Calls> Walker<'a, C> {
    /// Does a statement, which spends a step first.
    #[cycle(blocks)]
    #[tactic(auto, using(crate::proofs::Doing::stmts), unfolding(crate::specs::Acts::bind, crate::specs::Acts::pure))]
    pub fn stmt(&self, m: &mut Machine<C::On>, s: &TStmt) -> Result<Flow, Fault>
        requires { C.can_call self.now.calls self.now.on.now }
        ensures { let x = scene C.On.world C.On.place C.does self.now in
            Does stopped (execute x s.now m.old) (flowed result) m.new }
    {
        m.spend(s.line)?;
        self.kind(m, &s.kind, s.line)
    }

    /// Does a statement where there is one.
    #[cycle(blocks)]
    #[tactic(auto, unfolding(crate::specs::Acts::bind, crate::specs::Acts::pure))]
    pub fn any(&self, m: &mut Machine<C::On>, s: &Option<Boxed<TStmt>>) -> Result<Flow, Fault>
        requires { C.can_call self.now.calls self.now.on.now }
        ensures { let x = scene C.On.world C.On.place C.does self.now in
            Does stopped (execute_any x s.now m.old) (flowed result) m.new }
    {
        match s {
            Some(s) => self.stmt(m, s.get()),
            None => Ok(Flow::Next),
        }
    }

    /// Does statements in order.
    #[cycle(blocks)]
    #[tactic(auto, unfolding(crate::specs::Acts::bind, crate::specs::Acts::pure))]
    pub fn statements(&self, m: &mut Machine<C::On>, ss: &[TStmt]) -> Result<Flow, Fault>
        requires { C.can_call self.now.calls self.now.on.now }
        ensures { let x = scene C.On.world C.On.place C.does self.now in
            Does stopped (execute_all x ss.now m.old) (flowed result) m.new }
    {
        for s in ss {
            match self.stmt(m, s)?.in_sequence() {
                Turn::Again => {}
                Turn::Over(flow) => return Ok(flow),
            }
        }
        Ok(Flow::Next)
    }

    /// One turn of a loop: its test, its body and its third part.
    #[cycle(blocks)]
    #[tactic(auto, unfolding(crate::specs::Acts::bind, crate::specs::Acts::pure))]
    pub fn turn(
        &self,
        m: &mut Machine<C::On>,
        test: Option<&TExpr>,
        body: &TStmt,
        third: &Option<Boxed<TStmt>>,
        line: u32,
    ) -> Result<Turn, Fault>
        requires { C.can_call self.now.calls self.now.on.now }
        ensures { let x = scene C.On.world C.On.place C.does self.now in
            let turn = one_turn x line (option_copied test.entry) body.now third.now in
            Turns (λ again. turn again m.old) result m.new }
    {
        if !self.holds(m, test, line)? {
            return Ok(Turn::Over(Flow::Next));
        }
        match self.stmt(m, body)?.in_loop() {
            Turn::Again => Ok(self.any(m, third)?.in_sequence()),
            Turn::Over(flow) => Ok(Turn::Over(flow)),
        }
    }

    /// The turns of a loop. Each spends a step, so one more than the steps that are left are enough.
    #[cycle(blocks)]
    #[tactic(auto, unfolding(crate::specs::Acts::bind, crate::specs::Acts::pure))]
    pub fn turns(
        &self,
        m: &mut Machine<C::On>,
        test: Option<&TExpr>,
        body: &TStmt,
        third: &Option<Boxed<TStmt>>,
        line: u32,
    ) -> Result<Flow, Fault>
        requires { C.can_call self.now.calls self.now.on.now }
        ensures { let x = scene C.On.world C.On.place C.does self.now in
            let does = all_turns x line (option_copied test.entry) body.now third.now in
            Does stopped (does m.old) (flowed result) m.new }
    {
        let mut left = u128::from(m.left()) + 1;
        while left > 0 {
            left -= 1;
            match self.turn(m, test, body, third, line)? {
                Turn::Again => {}
                Turn::Over(flow) => return Ok(flow),
            }
        }
        Err(Fault::Trap(Trap::Steps, line))
    }

    /// Does a kind of statement.
    #[cycle(blocks)]
    #[tactic(auto, using(crate::proofs::Doing::others), unfolding(crate::specs::Acts::bind, crate::specs::Acts::pure))]
    pub fn kind(&self, m: &mut Machine<C::On>, k: &TKind, line: u32) -> Result<Flow, Fault>
        requires { C.can_call self.now.calls self.now.on.now }
        ensures { let x = scene C.On.world C.On.place C.does self.now in
            Does stopped (execute_kind x k.now line m.old) (flowed result) m.new }
    {
        match k {
            TKind::Empty => Ok(Flow::Next),
            TKind::SetLocal(n, e) => self.assign(m, *n, e, line),
            TKind::Store(p, e) => self.store(m, p, e, line),
            TKind::UpdateLocal(op, n, e) => self.update_local(m, *op, *n, e, line),
            TKind::UpdateAt(op, p, e) => self.update_at(m, *op, p, e, line),
            TKind::Call(e) => self.call_only(m, e, line),
            TKind::Print(format, es) => self.print(m, format.as_slice(), es.as_slice(), line),
            TKind::If(e, a, b) => {
                let v = self.value(m, e, line)?;
                if truth(v) {
                    self.stmt(m, a.get())
                } else {
                    self.any(m, b)
                }
            }
            TKind::While(e, body) => self.turns(m, Some(e), body.get(), &None, line),
            TKind::For(first, test, third, body, number) => match number {
                None => match self.any(m, first)?.in_sequence() {
                    Turn::Again => self.turns(m, test.as_ref(), body.get(), third, line),
                    Turn::Over(flow) => Ok(flow),
                },
                Some(number) => self.annotated(m, body.get(), first, test, *number, line),
            },
            TKind::Block(ss) => self.statements(m, ss.as_slice()),
            TKind::Return(e) => self.give(m, e, line),
            TKind::Break => Ok(Flow::Broke),
            TKind::Continue => Ok(Flow::Continued),
        }
    }

    /// Does an annotated loop.
    #[cycle(blocks)]
    #[tactic(auto, unfolding(crate::specs::Acts::bind, crate::specs::Acts::pure))]
    pub fn annotated(
        &self,
        m: &mut Machine<C::On>,
        body: &TStmt,
        first: &Option<Boxed<TStmt>>,
        test: &Option<TExpr>,
        number: u32,
        line: u32,
    ) -> Result<Flow, Fault>
        requires { C.can_call self.now.calls self.now.on.now }
        ensures { let x = scene C.On.world C.On.place C.does self.now in
            Does stopped (annotated_loop x number line first.now test.now body.now m.old) (flowed result) m.new }
    {
        match self.range(m, first, test, line)? {
            None => Ok(Flow::Next),
            Some(range) => {
                if m.is_outside() {
                    m.visit(self.alloc, self.on, number, range)?;
                    Ok(Flow::Next)
                } else {
                    self.ordinary(m, body, range, line)
                }
            }
        }
    }

    /// Does an annotated loop inside an iteration.
    #[cycle(blocks)]
    #[tactic(auto, unfolding(crate::specs::Acts::bind, crate::specs::Acts::pure))]
    pub fn ordinary(
        &self,
        m: &mut Machine<C::On>,
        body: &TStmt,
        range: Range,
        line: u32,
    ) -> Result<Flow, Fault>
        requires { C.can_call self.now.calls self.now.on.now }
        ensures { let x = scene C.On.world C.On.place C.does self.now in
            Does stopped (ordinary_loop x line range body.now m.old) (flowed result) m.new }
    {
        m.lift(line, range.trips())?;
        let flow = self.trips(m, body, range, line)?;
        m.past_loop(self.on, flow, range, line)
    }

    /// Does its trips.
    #[cycle(blocks)]
    #[tactic(auto, unfolding(crate::specs::Acts::bind, crate::specs::Acts::pure))]
    pub fn trips(
        &self,
        m: &mut Machine<C::On>,
        body: &TStmt,
        range: Range,
        line: u32,
    ) -> Result<Flow, Fault>
        requires { C.can_call self.now.calls self.now.on.now }
        ensures { let x = scene C.On.world C.On.place C.does self.now in
            Does stopped (loop_trips x line range body.now m.old) (flowed result) m.new }
    {
        for n in range.lo..range.hi {
            m.begin_trip(self.on, range.counter, n, line)?;
            match self.stmt(m, body)?.in_loop() {
                Turn::Again => {}
                Turn::Over(flow) => return Ok(flow),
            }
        }
        Ok(Flow::Next)
    }
}
