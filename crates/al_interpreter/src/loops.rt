ghost use Rattle.std.specs.Prelude.{◌≡◌};
ghost use Rattle.std.specs.Option.{option_copied};
ghost use Rattle.al_source.specs.Answers.{Does};
ghost use Rattle.al_core.specs.Values as arithmetic;
ghost use Rattle.al_core.specs.Loops.{bound_of};
ghost use Rattle.al_core.specs.Meaning as meaning;
ghost use Rattle.al_interpreter.specs.Faults.{stopped};
ghost use Rattle.al_interpreter.specs.Flows.{flow_of, flowed};
ghost use Rattle.al_interpreter.specs.Scenes.{scene, test_value, start_value};
ghost use Rattle.al_interpreter.specs.Turns.{Leads, test_first, trip_first, range_first, loop_end};

use crate::calls::Calls;
use crate::fault::Fault;
use crate::flow::Flow;
use crate::machine::Machine;
use crate::parts::{part, start_of};
use crate::setting::Setting;
use crate::stage::Stage;
use crate::walker::Walker;
use al_core::{TExpr, TStmt, Trap, Val, number, trips, truth};
use sqlite_items::{Boxed, Items};

/// The counter of an annotated loop, its start and its bound.
#[derive(Clone, Copy, Debug, PartialEq, Eq)]
pub struct Range {
    pub counter: u32,
    pub lo: i64,
    pub hi: i64,
}

impl Range {
    /// How many trips it makes.
    pub fn trips(self) -> Result<u64, Trap>
        ensures { result ≡ arithmetic.trips self.lo self.hi }
    {
        trips(self.lo, self.hi)
    }
}

impl<S: Stage> Machine<S> {
    /// Begins a trip of an annotated loop: it spends a step and sets the counter.
    #[tactic(auto, unfolding(al_core::specs::Action::bind))]
    pub fn begin_trip(
        &mut self,
        on: &Setting<'_>,
        counter: u32,
        n: i64,
        line: u32,
    ) -> Result<(), Fault>
        ensures { Leads (λ next. trip_first (S.world on.now) line counter n next self.old) result self.new }
    {
        self.spend(line)?;
        self.set_local(on, counter, Val::Int(n), line)
    }

    /// What comes after an annotated loop's trips: the counter ends at the greater of its start and its bound.
    #[tactic(auto, unfolding(crate::specs::Acts::bind, crate::specs::Acts::pure))]
    pub fn past_loop(
        &mut self,
        on: &Setting<'_>,
        flow: Flow,
        range: Range,
        line: u32,
    ) -> Result<Flow, Fault>
        ensures { Does stopped
            (meaning.then_flow (loop_end (S.world on.now) line range.counter range.lo range.hi) (flow_of flow) self.old)
            (flowed result) self.new }
    {
        match flow {
            Flow::Next => {
                let end = Val::Int(range.lo.max(range.hi));
                self.set_local(on, range.counter, end, line)?;
                Ok(Flow::Next)
            }
            Flow::Broke | Flow::Continued | Flow::Returned(_) => Ok(flow),
        }
    }
}

impl<'a, C: Calls> Walker<'a, C> {
    /// Spends a step and tests whether a loop goes on.
    #[tactic(auto, unfolding(crate::specs::Acts::bind, crate::specs::Acts::pure))]
    pub fn holds(
        &self,
        m: &mut Machine<C::On>,
        test: Option<&TExpr>,
        line: u32,
    ) -> Result<bool, Fault>
        requires { C.can_call self.now.calls self.now.on.now }
        ensures { let x = scene C.On.world C.On.place C.does self.now in
            Leads (λ next. test_first line (test_value x (option_copied test.entry) line) next m.old) result m.new }
    {
        m.spend(line)?;
        let v = self.test(m, test, line)?;
        Ok(truth(v))
    }

    /// Evaluates the start of an annotated loop and then reads its bound. A loop whose first part sets no local has
    /// none.
    #[tactic(auto, unfolding(crate::specs::Acts::bind, crate::specs::Acts::pure))]
    pub fn range(
        &self,
        m: &mut Machine<C::On>,
        first: &Option<Boxed<TStmt>>,
        test: &Option<TExpr>,
        line: u32,
    ) -> Result<Option<Range>, Fault>
        requires { C.can_call self.now.calls self.now.on.now }
        ensures { let x = scene C.On.world C.On.place C.does self.now in
            let ranged = range_first x.world (start_value x first.now) (bound_of test.now) line in
            Leads (λ next. ranged next m.old) result m.new }
    {
        let Some(start) = start_of(part(first)) else {
            return Ok(None);
        };
        let v = self.value(m, start.value, start.line)?;
        let lo = m.lift(line, number(v))?;
        let hi = self.bound(m, test.as_ref(), line)?;
        let counter = start.counter;
        Ok(Some(Range { counter, lo, hi }))
    }
}
