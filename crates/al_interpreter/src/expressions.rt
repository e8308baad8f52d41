ghost use Rattle.std.specs.Prelude.{◌≡◌};
ghost use Rattle.al_source.specs.Answers.{Does};
ghost use Rattle.al_source.specs.Steps.{and_then};
ghost use Rattle.al_core.specs.Values as spec;
ghost use Rattle.al_interpreter.specs.Faults.{stopped};
ghost use Rattle.al_interpreter.specs.Scenes.{scene, value, place, values};

use crate::calls::Calls;
use crate::fault::Fault;
use crate::machine::Machine;
use crate::walker::Walker;
use al_core::{
    Obj, TExpr, TPlace, Trap, Val, choose, compare, element, input_at, number, of_test, operate,
    operate_one, point, shift, truth, words_of,
};
use sqlite_items::{Boxed, Items};

fn input_value(input: &[i64], index: Val) -> Result<Val, Trap>
    ensures { result ≡ and_then (spec.number index) (spec.input_at input.now) }
{
    input_at(input, number(index)?)
}

fn object_words(count: Val, size: u32) -> Result<u32, Trap>
    ensures { result ≡ and_then (spec.number count) (λ n. spec.words_of n size) }
{
    words_of(number(count)?, size)
}

impl<'a, C: Calls> Walker<'a, C> {
    #[cycle(expressions)]
    #[tactic(auto, using(crate::proofs::Nodes::exprs), unfolding(crate::specs::Acts::bind, crate::specs::Acts::pure))]
    pub fn value(&self, m: &mut Machine<C::On>, e: &TExpr, line: u32) -> Result<Val, Fault>
        requires { C.can_call self.now.calls self.now.on.now }
        ensures { let x = scene C.On.world C.On.place C.does self.now in
            Does stopped (value x e.now line m.old) result m.new }
    {
        match e {
            TExpr::Number(n) => Ok(Val::Int(*n)),
            TExpr::Local(k) => m.get_local(self.on, *k, line),
            TExpr::Load(want, p) => {
                let at = self.place(m, p.get(), line)?;
                m.load(self.on, at, *want, line)
            }
            TExpr::Addr(p) => {
                let at = self.place(m, p.get(), line)?;
                Ok(Val::Ptr(at.0, at.1))
            }
            TExpr::Unary(op, a) => {
                let x = self.value(m, a.get(), line)?;
                m.lift(line, operate_one(*op, x))
            }
            TExpr::Binary(op, a, b) => {
                let x = self.value(m, a.get(), line)?;
                let y = self.value(m, b.get(), line)?;
                m.lift(line, operate(*op, x, y))
            }
            TExpr::Same(equal, a, b) => {
                let x = self.value(m, a.get(), line)?;
                let y = self.value(m, b.get(), line)?;
                Ok(compare(*equal, x, y))
            }
            TExpr::And(a, b) => {
                let x = self.value(m, a.get(), line)?;
                if truth(x) {
                    let y = self.value(m, b.get(), line)?;
                    Ok(of_test(truth(y)))
                } else {
                    Ok(of_test(false))
                }
            }
            TExpr::Or(a, b) => {
                let x = self.value(m, a.get(), line)?;
                if truth(x) {
                    Ok(of_test(true))
                } else {
                    let y = self.value(m, b.get(), line)?;
                    Ok(of_test(truth(y)))
                }
            }
            TExpr::Call(f, args) => {
                let vs = self.values(m, args.as_slice(), line)?;
                self.calls.call(self.on, m, *f, vs, line)
            }
            TExpr::Input(a) => {
                let x = self.value(m, a.get(), line)?;
                m.lift(line, input_value(self.on.input, x))
            }
            TExpr::Inputs => Ok(Val::Int(self.on.input.len() as i64)),
            TExpr::Choose(op, a, b) => {
                let x = self.value(m, a.get(), line)?;
                let y = self.value(m, b.get(), line)?;
                m.lift(line, choose(*op, x, y))
            }
            TExpr::Calloc(a, size) => {
                let x = self.value(m, a.get(), line)?;
                let words = m.lift(line, object_words(x, *size))?;
                m.make(self.on, words, line)
            }
            TExpr::Free(a) => {
                let x = self.value(m, a.get(), line)?;
                m.free(self.on, x, line)
            }
        }
    }

    #[cycle(expressions)]
    #[tactic(auto, using(crate::proofs::Nodes::places), unfolding(crate::specs::Acts::bind, crate::specs::Acts::pure))]
    pub fn place(&self, m: &mut Machine<C::On>, p: &TPlace, line: u32) -> Result<(Obj, u32), Fault>
        requires { C.can_call self.now.calls self.now.on.now }
        ensures { let x = scene C.On.world C.On.place C.does self.now in
            Does stopped (place x p.now line m.old) result m.new }
    {
        match p {
            TPlace::Global(k) => Ok((Obj::Global(*k), 0)),
            TPlace::At(e) => {
                let v = self.value(m, e, line)?;
                m.lift(line, point(v))
            }
            TPlace::Plus(p, n) => {
                let at = self.place(m, p.get(), line)?;
                m.lift(line, shift(at, *n))
            }
            TPlace::Elem(p, i, size) => {
                let at = self.place(m, p.get(), line)?;
                let v = self.value(m, i, line)?;
                m.lift(line, element(at, v, *size))
            }
        }
    }

    #[cycle(expressions)]
    #[tactic(auto, using(crate::proofs::Lists::begins), unfolding(crate::specs::Acts::bind, crate::specs::Acts::pure))]
    pub fn values(
        &self,
        m: &mut Machine<C::On>,
        es: &[TExpr],
        line: u32,
    ) -> Result<Items<Val>, Fault>
        requires { C.can_call self.now.calls self.now.on.now }
        ensures { let x = scene C.On.world C.On.place C.does self.now in
            Does stopped (values x es.now line m.old) result m.new }
    {
        let mut done = Items::new(self.alloc);
        for e in es {
            done.push(self.value(m, e, line)?)?;
        }
        Ok(done)
    }
}
